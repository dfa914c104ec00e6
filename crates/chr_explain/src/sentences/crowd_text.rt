//! An overlap with too many cases, as text.

use crate::prose::Prose;
use crate::sentences::overlap_text::{ToldOverlap, told_overlap};
use crate::sentences::symbol_text::push_symbol;
use chr_base::atom::SymbolId;
use chr_base::limits::MAX_ARITY;
use chr_base::program::Program;
use chr_base::rule::Rule;
use chr_diagnosis::{NamedProgram, Throng};
use chr_faults::{Names, columns_of};
use chr_sorting::{Kind, Sorting, finest_sorts};
use std::alloc::{AllocError, Global};

/// Tells of an overlap with too many combinations of values: its rules, and which columns are compared.
pub(crate) fn push_throng(
    alloc: Global,
    out: &mut Prose,
    names: &Names,
    throng: &Throng,
) -> Result<(), AllocError> {
    let program = throng.weighed.program();
    let overlap = &throng.too_many.overlap;
    let source = NamedProgram { program, names };
    let Some(told) = told_overlap(source, overlap) else {
        return Ok(());
    };
    told.push_rules(alloc, out);
    told.push_matched(alloc, out);
    push_compared(alloc, out, source, told)?;
    out.push_str("Compare fewer of these columns, or compare them in fewer heads.\n");
    Ok(())
}

/// Whether a symbol stands in a head of the rule.
pub(crate) fn has_head(rule: &Rule, symbol: SymbolId) -> bool {
    for place in 0..rule.places() {
        if rule.head_at(place).symbol == symbol {
            return true;
        }
    }
    false
}

/// Adds which columns of the overlap's heads are compared, a line for each symbol.
fn push_compared(
    alloc: Global,
    out: &mut Prose,
    source: NamedProgram<'_>,
    told: ToldOverlap<'_>,
) -> Result<(), AllocError> {
    let program = source.program;
    let sorting = finest_sorts(alloc, program)?;
    out.push_str("Columns of its heads that rules compare:\n");
    for number in 0..program.symbols() {
        let symbol = SymbolId(u16::try_from(number).unwrap_or(u16::MAX));
        if has_head(told.first.rule, symbol) || has_head(told.second.rule, symbol) {
            push_columns(alloc, out, source, &sorting, symbol)?;
        }
    }
    Ok(())
}

/// Which columns of a symbol are compared by order, and which by equality, each kind after a semicolon.
pub(crate) fn columns_text(
    alloc: Global,
    source: NamedProgram<'_>,
    sorting: &Sorting,
    symbol: SymbolId,
) -> Result<String, AllocError> {
    let mut columns = Prose::new(alloc);
    push_kind(&mut columns, source, sorting, symbol, Kind::Ordered);
    push_kind(&mut columns, source, sorting, symbol, Kind::Equal);
    columns.finish()
}

/// Adds a line with the columns of a symbol that are compared, where there are some.
fn push_columns(
    alloc: Global,
    out: &mut Prose,
    source: NamedProgram<'_>,
    sorting: &Sorting,
    symbol: SymbolId,
) -> Result<(), AllocError> {
    let columns = columns_text(alloc, source, sorting, symbol)?;
    if let Some(columns) = columns.as_str().strip_prefix("; ") {
        out.push_str("  ");
        push_symbol(out, source.program, symbol);
        out.push_text(": ", columns, "\n");
    }
    Ok(())
}

/// The name of a column, counted from 0, where it has one.
fn column_name<'a>(source: NamedProgram<'a>, symbol: SymbolId, column: usize) -> Option<&'a str> {
    columns_of(&source.names.columns, symbol)?.name(column)
}

/// Adds the name of a column, or its number, counted from 1.
pub(crate) fn push_column(
    out: &mut Prose,
    source: NamedProgram<'_>,
    symbol: SymbolId,
    column: usize,
) {
    match column_name(source, symbol, column) {
        Some(name) => out.push_str(name),
        None => out.push_number("", usize::saturating_add(column, 1) as u64, ""),
    }
}

/// How many arguments the symbol has, where the program declares it.
fn arity_of(program: &Program, symbol: SymbolId) -> usize {
    if usize::from(symbol.0) < program.symbols() {
        program.arity_of(symbol)
    } else {
        0
    }
}

/// Adds which columns of a symbol are compared like this.
fn push_kind(
    out: &mut Prose,
    source: NamedProgram<'_>,
    sorting: &Sorting,
    symbol: SymbolId,
    kind: Kind,
) {
    let mut before = if kind == Kind::Ordered {
        "; by order "
    } else {
        "; by equality "
    };
    for argument in 0..arity_of(source.program, symbol).min(MAX_ARITY) {
        if sorting.kind(sorting.sort(symbol, argument)) == kind {
            out.push_str(before);
            push_column(out, source, symbol, argument);
            before = ", ";
        }
    }
}
