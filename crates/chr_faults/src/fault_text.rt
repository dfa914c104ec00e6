//! The faults of a text, told to a person.

ghost use Rattle.std.specs.Prelude.{◌≡◌, ◌≤◌, IfOk, IfNone, IfSome, length, unwrap_or};
ghost use Rattle.chr_faults.specs.BadClauses.{IsProgram, IsRefused};
ghost use Rattle.std.specs.Bool.{OnTrue, OnFalse};
ghost use Rattle.chr_faults.specs.working.TextsWithout.{AreNone};
ghost use Rattle.chr_faults.specs.Places.{place_outside};

use crate::cause::Cause;
use crate::clause::{clause_of, clauses_before};
use crate::columns::{ColumnNames, columns_in, columns_of};
use crate::declaring::bad_declaration;
use crate::faults::{BadClause, TextFaults, text_faults};
use crate::finding::{Finding, finding_in};
use crate::limits::{MAX_TOLD_FAULTS, MAX_TOLD_SYMBOLS};
use crate::line::push_line;
use crate::part::{push_number, push_text};
use crate::place::{Place, place_of, place_outside};
use crate::span::Span;
use crate::word::{ToldArity, ToldSymbol};
use chr_base::atom::SymbolId;
use chr_base::program::Program;
use chr_read::{MAX_TEXT, ReadFault, read};
use chr_syntax::{placed_tokens, without_comments};
use std::alloc::{AllocError, Global};

/// The program of the clauses before a bad one.
fn program_before(
    alloc: Global,
    plain: &[u8],
    bad: &[BadClause],
    number: usize,
) -> Result<Program, AllocError> {
    let text = clauses_before(alloc, plain, bad, number)?;
    match read(alloc, &text) {
        Ok(program) => Ok(program),
        Err(ReadFault::Memory) => Err(AllocError),
        Err(_) => Ok(Program::empty(alloc)),
    }
}

/// Adds a symbol of the program, with the names of its columns where it has some.
fn push_symbol(
    out: &mut String,
    program: &Program,
    columns: &[ColumnNames],
    symbol: SymbolId,
) -> Result<(), AllocError> {
    if program.symbols() <= usize::from(symbol.0) {
        return Ok(());
    }
    let told = ToldSymbol {
        name: program.name_of(symbol).as_bytes(),
        arity: ToldArity::Number(program.arity_of(symbol)),
    };
    told.push(out)?;
    match columns_of(columns, symbol) {
        Some(columns) => columns.push(out),
        None => Ok(()),
    }
}

/// Adds the declared symbols, the first `MAX_TOLD_SYMBOLS` of them, with the names of their columns.
pub(crate) fn push_symbols(
    out: &mut String,
    program: &Program,
    columns: &[ColumnNames],
) -> Result<(), AllocError> {
    for i in 0..program.symbols().min(MAX_TOLD_SYMBOLS) {
        out.push_str(if i == 0 { "; declared are " } else { ", " })?;
        push_symbol(out, program, columns, SymbolId(i as u16))?;
    }
    out.push_str(if MAX_TOLD_SYMBOLS < program.symbols() {
        ", .."
    } else {
        ""
    })
}

/// Where the byte stands that has so many bytes outside comments before it: at the text's end where there is none.
#[tactic(auto, using(crate::proofs::Outside::outside_within))]
fn place_in(text: &[u8], outside: usize) -> usize
    ensures value { result ≡ unwrap_or (place_outside text.now outside) (length text.now) }
    ensures within { result ≤ length text.now }
{
    match place_outside(text, outside) {
        Some(at) => at,
        None => text.len(),
    }
}

/// A text, its bytes outside comments, and its bad clauses that are told.
#[derive(Clone, Copy)]
struct Source<'a> {
    text: &'a [u8],
    plain: &'a [u8],
    bad: &'a [BadClause],
}

/// What is told of one bad clause.
pub struct Note {
    /// The clause, with its fault.
    pub told: BadClause,
    /// How many bytes of the text stand before the place of the fault.
    pub at: usize,
    /// What is wrong.
    pub message: String,
    /// What would be right.
    pub remedy: String,
}

/// What is derived would be proved again in each crate that lets a note go.
impl Drop for Note {
    fn drop(self) {
        let Note {
            told: _told,
            at: _at,
            message: _message,
            remedy: _remedy,
        } = self;
    }
}

/// Adds what is declared before a clause that has an undeclared symbol.
fn push_declared(
    alloc: Global,
    out: &mut String,
    text: &[u8],
    program: &Program,
) -> Result<(), AllocError> {
    if program.symbols() == 0 {
        return out.push_str("; nothing is declared before it");
    }
    let columns = columns_in(alloc, text, program)?;
    push_symbols(out, program, &columns)
}

/// What is wrong, in words.
fn message_of(
    alloc: Global,
    text: &[u8],
    cause: &Cause<'_>,
    program: &Program,
) -> Result<String, AllocError> {
    let mut message = String::new(alloc);
    cause.push(&mut message)?;
    if let Cause::Undeclared(_) = cause {
        push_declared(alloc, &mut message, text, program)?;
    }
    Ok(message)
}

/// Adds what would be right of a fault that does not follow of an earlier one.
fn push_remedy(out: &mut String, cause: &Cause<'_>) -> Result<(), AllocError> {
    match cause.foreign() {
        Some(foreign) => foreign.push(out),
        None => out.push_str(cause.remedy()),
    }
}

/// The number of an earlier bad clause of which this one's fault follows.
fn follows_of(
    alloc: Global,
    source: Source<'_>,
    told: BadClause,
    cause: &Cause<'_>,
) -> Result<Option<usize>, AllocError> {
    match cause {
        Cause::Undeclared(symbol) => {
            bad_declaration(alloc, source.plain, source.bad, told.number, *symbol)
        }
        _ => Ok(None),
    }
}

/// What would be right.
fn remedy_of(
    alloc: Global,
    source: Source<'_>,
    told: BadClause,
    cause: &Cause<'_>,
) -> Result<String, AllocError> {
    let mut remedy = String::new(alloc);
    match follows_of(alloc, source, told, cause)? {
        Some(number) => push_number(
            &mut remedy,
            "clause ",
            number as u64,
            ", which is bad, would declare it: mend that one first",
        )?,
        None => push_remedy(&mut remedy, cause)?,
    }
    Ok(remedy)
}

/// What is told of a bad clause, of which this was found behind so many bytes outside comments.
fn found_note(
    alloc: Global,
    source: Source<'_>,
    told: BadClause,
    program: &Program,
    before: usize,
    finding: Finding<'_>,
) -> Result<Note, AllocError> {
    let at = place_in(source.text, before.saturating_add(finding.at));
    let message = message_of(alloc, source.text, &finding.cause, program)?;
    let remedy = remedy_of(alloc, source, told, &finding.cause)?;
    Ok(Note {
        told,
        at,
        message,
        remedy,
    })
}

/// What is told of a bad clause.
fn note_of(alloc: Global, source: Source<'_>, told: BadClause) -> Result<Note, AllocError> {
    let clause = clause_of(source.plain, told.number);
    let program = program_before(alloc, source.plain, source.bad, told.number)?;
    let finding = finding_in(alloc, clause.bytes, told.fault, &program)?;
    found_note(alloc, source, told, &program, clause.before, finding)
}

/// Adds a place of a text.
pub(crate) fn push_place(out: &mut String, place: Place) -> Result<(), AllocError> {
    push_number(out, "line ", place.line as u64, ", column ")?;
    push_number(out, "", place.column as u64, "")
}

impl Note {
    /// Where the fault stands in the text.
    pub fn place(&self, text: &[u8]) -> Place {
        place_of(text, self.at.min(text.len()))
    }

    /// Adds the clause, and the number of its fault.
    fn push_fault(&self, out: &mut String) -> Result<(), AllocError> {
        push_number(out, ", clause ", self.told.number as u64, ", fault ")?;
        push_number(out, "", u64::from(self.told.fault.number()), ": ")
    }

    /// Adds what is told, with the line of the fault.
    fn push(&self, out: &mut String, text: &[u8]) -> Result<(), AllocError> {
        push_place(out, self.place(text))?;
        self.push_fault(out)?;
        push_text(out, "", self.message.as_str(), "\n")?;
        push_line(out, text, self.at.min(text.len()))?;
        push_text(out, "    ", self.remedy.as_str(), "\n")
    }
}

/// How many bytes the token at a place of a clause has: 1 where none begins there.
fn token_len(alloc: Global, clause: &[u8], at: usize) -> Result<usize, AllocError> {
    let tokens = placed_tokens(alloc, clause)?;
    for token in &tokens {
        if token.at == at {
            return Ok(token.word.len());
        }
    }
    Ok(1)
}

/// Where the fault of a bad clause stands.
fn bad_span(alloc: Global, source: Source<'_>, told: BadClause) -> Result<Span, AllocError> {
    let clause = clause_of(source.plain, told.number);
    let program = program_before(alloc, source.plain, source.bad, told.number)?;
    let finding = finding_in(alloc, clause.bytes, told.fault, &program)?;
    let len = token_len(alloc, clause.bytes, finding.at)?;
    let first = clause.before.saturating_add(finding.at);
    let last = first.saturating_add(len.saturating_sub(1));
    Ok(Span {
        from: place_in(source.text, first),
        to: place_in(source.text, last).saturating_add(1),
    })
}

/// Where the faults of the bad clauses stand that are told.
fn source_spans(alloc: Global, source: Source<'_>) -> Result<Vec<Span>, AllocError> {
    let mut spans = Vec::new(alloc);
    for clause in source.bad {
        spans.push(bad_span(alloc, source, *clause)?)?;
    }
    Ok(spans)
}

/// Where the faults of these bad clauses stand.
pub fn bad_spans(alloc: Global, text: &[u8], bad: &[BadClause]) -> Result<Vec<Span>, AllocError> {
    let plain = without_comments(alloc, text)?;
    let source = Source {
        text,
        plain: &plain,
        bad,
    };
    source_spans(alloc, source)
}

/// What is told of each of the bad clauses that are told.
fn source_notes(alloc: Global, source: Source<'_>) -> Result<Vec<Note>, AllocError> {
    let mut notes = Vec::new(alloc);
    for clause in source.bad {
        notes.push(note_of(alloc, source, *clause)?)?;
    }
    Ok(notes)
}

/// What is told of each of these bad clauses.
fn clause_notes(alloc: Global, text: &[u8], bad: &[BadClause]) -> Result<Vec<Note>, AllocError> {
    let plain = without_comments(alloc, text)?;
    let source = Source {
        text,
        plain: &plain,
        bad,
    };
    source_notes(alloc, source)
}

/// What is told of each bad clause of a text.
pub fn notes_of(alloc: Global, text: &[u8], faults: &TextFaults) -> Result<Vec<Note>, AllocError> {
    match faults {
        TextFaults::TooLong => Ok(Vec::new(alloc)),
        TextFaults::Clauses(bad) => clause_notes(alloc, text, bad),
    }
}

/// Adds the explanation of a text with these bad clauses.
fn push_notes(out: &mut String, text: &[u8], notes: &[Note]) -> Result<(), AllocError> {
    for note in notes {
        note.push(out, text)?;
    }
    out.push_str(if 1 < notes.len() {
        "A clause after a bad one is read as if the bad one were not there.\n"
    } else {
        ""
    })?;
    if notes.len() < MAX_TOLD_FAULTS {
        return Ok(());
    }
    let most = MAX_TOLD_FAULTS as u64;
    push_number(out, "No more than ", most, " bad clauses are told.\n")
}

/// Adds that a text is too long.
fn push_too_long(out: &mut String) -> Result<(), AllocError> {
    let before = "fault 2: the text has more than ";
    push_number(out, before, MAX_TEXT as u64, " bytes\n")
}

/// The explanation of what is wrong with a text, of which these are the notes.
pub fn faults_told(
    alloc: Global,
    text: &[u8],
    faults: &TextFaults,
    notes: &[Note],
) -> Result<String, AllocError> {
    let mut out = String::new(alloc);
    match faults {
        TextFaults::TooLong => push_too_long(&mut out)?,
        TextFaults::Clauses(_) => push_notes(&mut out, text, notes)?,
    }
    Ok(out)
}

/// Whether these are the faults of a program, which has none.
fn are_none(faults: &TextFaults) -> bool
    ensures none { OnTrue result (AreNone faults.now) }
    ensures some { OnFalse result (¬ (AreNone faults.now)) }
{
    match faults {
        TextFaults::TooLong => false,
        TextFaults::Clauses(bad) => bad.is_empty(),
    }
}

/// Tells a person what is wrong with a text: its bad clauses, `MAX_TOLD_FAULTS` at most, each with its place, its line
/// with a caret, and what would be right. None where the text is a program.
pub fn explain_text(alloc: Global, text: &[u8]) -> Result<Option<String>, AllocError>
    ensures program { IfOk result (λ told. IfNone told (IsProgram text.now)) }
    ensures refused { IfOk result (λ told. IfSome told (λ _. IsRefused text.now)) }
{
    let faults = text_faults(alloc, text)?;
    if are_none(&faults) {
        return Ok(None);
    }
    let notes = notes_of(alloc, text, &faults)?;
    let told = faults_told(alloc, text, &faults, &notes)?;
    Ok(Some(told))
}
