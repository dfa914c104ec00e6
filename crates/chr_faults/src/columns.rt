//! The names of columns, as comments of a program's text give them: `% chr_columns seen(parcel, time, place)`.
ghost use Rattle.std.specs.Prelude.{◌≡◌, IfOk, IfSome, IfNone, OnOk, option_map, slice_get, string_bytes};
ghost use Rattle.std.specs.List.{All};
ghost use Rattle.chr_base.specs.Programs.{declarations};
ghost use Rattle.chr_faults.specs.ColumnNames.{AreFor, AreNames};

use crate::naming::{Naming, bytes_at, is_column_name, namings_in};
use crate::span::Span;
use chr_base::atom::SymbolId;
use chr_base::limits::MAX_ARITY;
use chr_base::program::Program;
use std::alloc::{AllocError, Global};

/// The names of a symbol's columns.
#[derive(Drop)]
pub struct ColumnNames {
    pub symbol: SymbolId,
    pub names: Vec<String>,
}

impl ColumnNames {
    /// The name of the column of this number, counted from 0.
    pub fn name(&self, column: usize) -> Option<&str>
        ensures { option_map (λ n. n.now) result
            ≡ option_map (λ n. string_bytes n) (slice_get self.now.names.items column) }
    {
        match self.names.get(column) {
            Some(name) => Some(name.as_str()),
            None => None,
        }
    }

    /// Adds all of them between brackets.
    pub fn push(&self, out: &mut String) -> Result<(), AllocError> {
        let mut before = " (";
        for name in &self.names {
            out.push_str(before)?;
            out.push_str(name.as_str())?;
            before = ", ";
        }
        out.push_str(if self.names.is_empty() { "" } else { ")" })
    }
}

/// The first of these names that are the symbol's.
pub fn columns_of(all: &[ColumnNames], symbol: SymbolId) -> Option<&ColumnNames>
    ensures some { IfSome result (λ c. AreFor symbol c.now) }
    ensures none { IfNone result (All (λ c. ¬ AreFor symbol c) all.now) }
{
    for columns in all {
        if columns.symbol.0 == symbol.0 {
            return Some(columns);
        }
    }
    None
}

/// The symbol that a comment names with as many columns as there are words, where the program declares it.
pub(crate) fn symbol_of(program: &Program, naming: &Naming<'_>) -> Option<SymbolId> {
    let name = str::from_utf8(naming.symbol).ok()?;
    program.symbol(name, naming.words.len())
}

/// Whether no two of these places of a text have the same word. There are `MAX_ARITY` of them at most.
pub(crate) fn are_distinct(text: &[u8], words: &[Span]) -> bool {
    for (number, word) in words.iter().enumerate() {
        let before = words.get(..number).unwrap_or(&[]);
        if before
            .iter()
            .any(|other| bytes_at(text, *other) == bytes_at(text, *word))
        {
            return false;
        }
    }
    true
}

/// The words at these places of a text. None where one is no name of a column.
fn names_at(alloc: Global, text: &[u8], words: &[Span]) -> Result<Option<Vec<String>>, AllocError> {
    let mut names = Vec::new(alloc);
    for word in words {
        match str::from_utf8(bytes_at(text, *word)) {
            Ok(name) if is_column_name(name.as_bytes()) => {
                names.push(String::from_str(alloc, name)?)?
            }
            _ => return Ok(None),
        }
    }
    Ok(Some(names))
}

/// The names of a symbol's columns, where there are as many as it has arguments.
fn fitting(program: &Program, symbol: SymbolId, names: Vec<String>) -> Option<ColumnNames>
    ensures { IfSome result (AreNames (declarations program.now)) }
{
    if usize::from(symbol.0) < program.symbols() && program.arity_of(symbol) == names.len() {
        return Some(ColumnNames { symbol, names });
    }
    None
}

/// The names that a comment gives the columns of a symbol. None where it names none.
fn named_by(
    alloc: Global,
    text: &[u8],
    program: &Program,
    naming: &Naming<'_>,
) -> Result<Option<ColumnNames>, AllocError>
    ensures { IfOk result (λ found. IfSome found (AreNames (declarations program.now))) }
{
    let Some(symbol) = symbol_of(program, naming) else {
        return Ok(None);
    };
    if MAX_ARITY < naming.words.len() || !are_distinct(text, &naming.words) {
        return Ok(None);
    }
    match names_at(alloc, text, &naming.words)? {
        Some(names) => Ok(fitting(program, symbol, names)),
        None => Ok(None),
    }
}

/// Adds the names that a comment gives the columns of a symbol, where they have none before.
pub(crate) fn push_named(
    alloc: Global,
    text: &[u8],
    program: &Program,
    naming: &Naming<'_>,
    all: &mut Vec<ColumnNames>,
) -> Result<(), AllocError>
    requires { All (AreNames (declarations program.now)) all.old.items }
    ensures { OnOk result (All (AreNames (declarations program.now)) all.new.items) }
{
    let Some(columns) = named_by(alloc, text, program, naming)? else {
        return Ok(());
    };
    if columns_of(all, columns.symbol).is_none() {
        all.push(columns)?;
    }
    Ok(())
}

/// The names of columns in the text of a program.
pub fn columns_in(
    alloc: Global,
    text: &[u8],
    program: &Program,
) -> Result<Vec<ColumnNames>, AllocError>
    ensures { IfOk result (λ v. All (AreNames (declarations program.now)) v.items) }
{
    let namings = namings_in(alloc, text)?;
    let mut all = Vec::new(alloc);
    for naming in &namings {
        push_named(alloc, text, program, naming, &mut all)?;
    }
    Ok(all)
}
