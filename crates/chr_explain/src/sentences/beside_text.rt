//! Which facts of an accepted program stay side by side, as text.

use crate::prose::Prose;
use crate::sentences::keys::{Key, key_of};
use crate::sentences::symbol_text::push_symbol;
use chr_base::atom::SymbolId;
use chr_diagnosis::{NamedProgram, Pair, pairs_beside, staying_pair};
use chr_faults::{ColumnNames, Names, columns_of};
use chr_weights::Weighed;
use std::alloc::{AllocError, Global};

/// What stands before what is told of each symbol.
const SEARCHED: &str =
    "What may stay side by side (searched: stores of two facts with values 0 and 1):\n";

/// The facts of one symbol of a program.
#[derive(Clone, Copy)]
struct Facts<'a> {
    source: NamedProgram<'a>,
    symbol: SymbolId,
}

impl<'a> Facts<'a> {
    /// The names of their columns.
    fn columns(&self) -> Option<&'a ColumnNames> {
        columns_of(&self.source.names.columns, self.symbol)
    }
}

/// Adds the symbol that a line tells of.
fn push_line_start(out: &mut Prose, facts: Facts<'_>) {
    out.push_str("  ");
    push_symbol(out, facts.source.program, facts.symbol);
    out.push_str(": ")
}

/// Adds the facts of a pair as an example, and ends the line.
fn push_example(
    alloc: Global,
    out: &mut Prose,
    facts: Facts<'_>,
    pair: &Pair,
) -> Result<(), AllocError> {
    out.push_str(", as ");
    let store = pair.store(alloc)?;
    out.push_store(alloc, facts.source, &store);
    out.push_str("\n");
    Ok(())
}

/// What stands before one of so many names, of which some have been told.
fn before_name(told: usize, count: usize) -> &'static str {
    if told == 0 {
        ""
    } else if usize::saturating_add(told, 1) == count {
        " and "
    } else {
        ", "
    }
}

/// Adds the names of these columns.
fn push_names(out: &mut Prose, columns: &[bool], names: &ColumnNames) {
    let count = columns.iter().filter(|chosen| **chosen).count();
    let mut told = 0;
    for (column, chosen) in columns.iter().enumerate() {
        if *chosen {
            out.push_str(before_name(told, count));
            out.push_str(names.name(column).unwrap_or("_"));
            told = usize::saturating_add(told, 1);
        }
    }
}

/// Adds these columns, by their names or counted from 1.
fn push_columns(out: &mut Prose, columns: &[bool], names: Option<&ColumnNames>) {
    match names {
        Some(names) => push_names(out, columns, names),
        None => push_numbers(out, columns),
    }
}

/// Adds these columns, counted from 1.
fn push_numbers(out: &mut Prose, columns: &[bool]) {
    let count = columns.iter().filter(|chosen| **chosen).count();
    let mut before = if count == 1 { "column " } else { "columns " };
    for (column, chosen) in columns.iter().enumerate() {
        if *chosen {
            out.push_number(before, usize::saturating_add(column, 1) as u64, "");
            before = ", ";
        }
    }
}

/// The set of columns whose number this is: column 1 counts 1, column 2 counts 2, column 3 counts 4, and so on.
fn set_of(alloc: Global, arity: usize, number: usize) -> Result<Vec<bool>, AllocError> {
    let mut columns = Vec::new(alloc);
    let mut rest = number;
    for _ in 0..arity {
        columns.push(rest % 2 == 1)?;
        rest = rest / 2;
    }
    Ok(columns)
}

/// Whether two sets of columns have one in common.
fn have_common(left: &[bool], right: &[bool]) -> bool {
    left.iter()
        .zip(right.iter())
        .any(|(one, other)| *one && *other)
}

/// Whether each column of the first set is one of the second.
fn is_part(part: &[bool], columns: &[bool]) -> bool {
    part.iter()
        .zip(columns.iter())
        .all(|(one, other)| !*one || *other)
}

/// Tells whether a fact of the symbol that is told twice may stay twice.
fn push_twice(
    alloc: Global,
    out: &mut Prose,
    facts: Facts<'_>,
    arity: usize,
    pairs: &[Pair],
) -> Result<(), AllocError> {
    let none = set_of(alloc, arity, 0)?;
    push_line_start(out, facts);
    match staying_pair(pairs, &none) {
        Some(pair) => {
            out.push_str("a fact that is told twice may stay twice");
            push_example(alloc, out, facts, pair)
        }
        None => {
            out.push_str("a fact that is told twice never stays twice\n");
            Ok(())
        }
    }
}

/// The number of sets of columns.
fn count_of_sets(arity: usize) -> usize {
    let mut count: usize = 1;
    for _ in 0..arity {
        count = count.saturating_mul(2);
    }
    count
}

/// Pairs that stay and agree in the key, one for each of the smallest sets of columns in which such pairs differ.
fn apart_pairs<'a>(
    alloc: Global,
    key: &Key,
    pairs: &'a [Pair],
) -> Result<Vec<&'a Pair>, AllocError> {
    let arity = key.columns.len();
    let mut found: Vec<&'a Pair> = Vec::new(alloc);
    for number in 1..count_of_sets(arity) {
        let columns = set_of(alloc, arity, number)?;
        let is_told = found.iter().any(|pair| is_part(&pair.apart, &columns));
        if !is_told && !have_common(&key.columns, &columns) {
            if let Some(pair) = staying_pair(pairs, &columns) {
                found.push(pair)?;
            }
        }
    }
    Ok(found)
}

/// Adds in which columns two facts agree, where there are some.
fn push_same(out: &mut Prose, key: &Key, names: Option<&ColumnNames>) {
    if key.columns.iter().any(|same| *same) {
        out.push_str(" with the same ");
        push_columns(out, &key.columns, names);
    }
}

/// Tells which two different facts of the symbol may stay that agree in the key.
fn push_apart(
    alloc: Global,
    out: &mut Prose,
    facts: Facts<'_>,
    key: &Key,
    pairs: &[Pair],
) -> Result<(), AllocError> {
    let names = facts.columns();
    let found = apart_pairs(alloc, key, pairs)?;
    if found.is_empty() {
        push_line_start(out, facts);
        out.push_str("no two");
        push_same(out, key, names);
        out.push_str(" stay\n");
        return Ok(());
    }
    for pair in found {
        push_line_start(out, facts);
        out.push_str("two");
        push_same(out, key, names);
        out.push_str(" may stay that differ in ");
        push_columns(out, &pair.apart, names);
        push_example(alloc, out, facts, pair)?;
    }
    Ok(())
}

/// Tells which facts of one symbol may stay side by side.
fn push_symbol_beside(
    alloc: Global,
    out: &mut Prose,
    weighed: &Weighed,
    facts: Facts<'_>,
) -> Result<(), AllocError> {
    let key = key_of(alloc, facts.source.program, facts.symbol)?;
    let pairs = pairs_beside(alloc, weighed, facts.symbol)?;
    push_twice(alloc, out, facts, key.columns.len(), &pairs)?;
    if key.is_compared && key.columns.iter().any(|same| !*same) {
        push_apart(alloc, out, facts, &key, &pairs)?;
    }
    Ok(())
}

/// Tells for each symbol of a program which facts may stay side by side.
pub(crate) fn push_beside(
    alloc: Global,
    out: &mut Prose,
    names: &Names,
    weighed: &Weighed,
) -> Result<(), AllocError> {
    let program = weighed.program();
    let source = NamedProgram { program, names };
    let symbols = program.symbols();
    out.push_str(if symbols == 0 { "" } else { SEARCHED });
    for number in 0..symbols {
        let symbol = SymbolId(u16::try_from(number).unwrap_or(u16::MAX));
        push_symbol_beside(alloc, out, weighed, Facts { source, symbol })?;
    }
    Ok(())
}
