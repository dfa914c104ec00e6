//! What is wrong with comments that name columns, told to a person.
ghost use Rattle.std.specs.Prelude.{OnOk};
ghost use Rattle.std.specs.List.{All};
ghost use Rattle.chr_base.specs.Programs.{declarations};
ghost use Rattle.chr_faults.specs.ColumnNames.{AreNames};

use crate::columns::{ColumnNames, are_distinct, columns_of, push_named, symbol_of};
use crate::fault_text::{push_place, push_symbols};
use crate::limits::MAX_TOLD_FAULTS;
use crate::line::push_line;
use crate::naming::{Naming, bytes_at, is_column_name, namings_in};
use crate::part::{push_number, push_text, push_word};
use crate::place::{Place, place_of};
use crate::span::Span;
use chr_base::limits::MAX_NAME;
use chr_base::program::Program;
use std::alloc::{AllocError, Global};

/// Where a comment names columns as the program has none, and why. It counts for nothing there.
#[derive(Drop)]
pub struct ColumnFault {
    /// How many bytes of the text stand before the place.
    pub at: usize,
    /// What is wrong.
    pub message: String,
}

/// Adds the symbol that a comment names, between these words.
fn push_naming(
    out: &mut String,
    before: &str,
    naming: &Naming<'_>,
    behind: &str,
) -> Result<(), AllocError> {
    push_word(out, before, naming.symbol, "/")?;
    push_number(out, "", naming.words.len() as u64, behind)
}

/// Tells of a word that is no name of a column.
fn push_bad_word(out: &mut String, word: &[u8]) -> Result<(), AllocError> {
    push_word(
        out,
        "`",
        word,
        "` is no name of a column: that is a word of at most ",
    )?;
    push_number(
        out,
        "",
        MAX_NAME as u64,
        " letters, digits and `_`, with a small letter first",
    )
}

/// Adds why a symbol's columns get no names, where each word may be one, and tells whether it added any.
fn push_misfit(
    out: &mut String,
    text: &[u8],
    program: &Program,
    naming: &Naming<'_>,
    earlier: &[ColumnNames],
) -> Result<bool, AllocError> {
    let Some(symbol) = symbol_of(program, naming) else {
        push_naming(out, "`", naming, "` is not declared")?;
        push_symbols(out, program, &[])?;
        return Ok(true);
    };
    if !are_distinct(text, &naming.words) {
        push_naming(out, "two columns of `", naming, "` have one name")?;
        return Ok(true);
    }
    if columns_of(earlier, symbol).is_some() {
        push_naming(out, "the columns of `", naming, "` have names already")?;
        return Ok(true);
    }
    Ok(false)
}

/// The first of a comment's words that is no name of a column.
fn bad_word(text: &[u8], naming: &Naming<'_>) -> Option<Span> {
    for word in &naming.words {
        if !is_column_name(bytes_at(text, *word)) {
            return Some(*word);
        }
    }
    None
}

/// Adds what is wrong with what a comment says of the columns of one symbol, behind those that have names, and tells
/// where it stands. None where it is right.
fn push_fault(
    out: &mut String,
    text: &[u8],
    program: &Program,
    naming: &Naming<'_>,
    earlier: &[ColumnNames],
) -> Result<Option<usize>, AllocError> {
    if naming.symbol.is_empty() {
        out.push_str("this names no columns: write `% chr_columns seen(parcel, time, place)`")?;
        return Ok(Some(naming.at));
    }
    if let Some(word) = bad_word(text, naming) {
        push_bad_word(out, bytes_at(text, word))?;
        return Ok(Some(word.from));
    }
    let is_misfit = push_misfit(out, text, program, naming, earlier)?;
    Ok(is_misfit.then_some(naming.at))
}

/// What is wrong with what a comment says of the columns of one symbol, behind those that have names.
fn fault_of(
    alloc: Global,
    text: &[u8],
    program: &Program,
    naming: &Naming<'_>,
    earlier: &[ColumnNames],
) -> Result<Option<ColumnFault>, AllocError> {
    let mut message = String::new(alloc);
    let found = push_fault(&mut message, text, program, naming, earlier)?;
    match found {
        Some(at) => Ok(Some(ColumnFault { at, message })),
        None => Ok(None),
    }
}

/// Adds what is wrong with what a comment says of the columns of one symbol, or else the names that it gives them.
fn note_naming(
    alloc: Global,
    text: &[u8],
    program: &Program,
    naming: &Naming<'_>,
    named: &mut Vec<ColumnNames>,
    faults: &mut Vec<ColumnFault>,
) -> Result<(), AllocError>
    requires { All (AreNames (declarations program.now)) named.old.items }
    ensures { OnOk result (All (AreNames (declarations program.now)) named.new.items) }
{
    match fault_of(alloc, text, program, naming, named)? {
        Some(fault) => {
            faults.push(fault)?;
            Ok(())
        }
        None => push_named(alloc, text, program, naming, named),
    }
}

/// Where comments in the text of a program name columns as it has none, the first `MAX_TOLD_FAULTS` such places.
pub fn column_faults(
    alloc: Global,
    text: &[u8],
    program: &Program,
) -> Result<Vec<ColumnFault>, AllocError> {
    let namings = namings_in(alloc, text)?;
    let mut named = Vec::new(alloc);
    let mut faults = Vec::new(alloc);
    for naming in &namings {
        if faults.len() == MAX_TOLD_FAULTS {
            return Ok(faults);
        }
        note_naming(alloc, text, program, naming, &mut named, &mut faults)?;
    }
    Ok(faults)
}

impl ColumnFault {
    /// Where it stands in the text.
    pub fn place(&self, text: &[u8]) -> Place {
        place_of(text, self.at.min(text.len()))
    }

    /// Adds what is told, with its line.
    fn push(&self, out: &mut String, text: &[u8]) -> Result<(), AllocError> {
        push_place(out, self.place(text))?;
        push_text(out, ": ", self.message.as_str(), "\n")?;
        push_line(out, text, self.at.min(text.len()))
    }
}

/// Adds what is told of comments that name columns as the program has none.
pub fn push_column_faults(
    out: &mut String,
    text: &[u8],
    faults: &[ColumnFault],
) -> Result<(), AllocError> {
    out.push_str(if faults.is_empty() {
        ""
    } else {
        "These names of columns don't fit the program, and are left out:\n"
    })?;
    for fault in faults {
        fault.push(out, text)?;
    }
    Ok(())
}
