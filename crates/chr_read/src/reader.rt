//! What the clauses of a text make, one after another.

ghost use Rattle.std.specs.Prelude.{◌≡◌, Option, Some, Err, true};
ghost use Rattle.chr_syntax.specs.Grammar.{IsForm};
ghost use Rattle.chr_syntax.specs.Views.{clause_view};
ghost use Rattle.chr_syntax.specs.Bytes.{pieces};
ghost use Rattle.chr_read.specs.Meanings.{Progress, nothing};
ghost use Rattle.chr_read.specs.NamesOfForms.{has_names};
ghost use Rattle.chr_read.specs.working.TextsRead.{clause_read, formed, with_rest, rest_read, pieces_read, text_read};
ghost use Rattle.chr_read.specs.working.Outcomes.{IsReadClause, ClauseGives, ClausesGive, IsReadAs};
ghost use Rattle.chr_read.specs.ProgramTexts.{IsAnswer, IsShort};
ghost use Rattle.chr_read.specs.working.Views.{progress_of};
ghost use Rattle.chr_read.specs.declared.reader.Stop.TheVariants.{Memory};
ghost use Rattle.chr_read.specs.declared.fault.ReadFault.TheVariants.{Memory as OutOfMemory};

use crate::adding::add_clause;
use crate::fault::{Fault, ReadFault};
use crate::faults::fault_in;
use crate::progress::{Reader, start};
use chr_base::program::Program;
use chr_syntax::{
    ClauseFault, RawClause, RestFault, clause_in, next_clause, rest_fault, without_comments,
};
use std::alloc::{AllocError, Global};

/// The greatest number of bytes of a text.
pub const MAX_TEXT: usize = 65_536;

/// Why a clause was not read.
#[derive(Debug, Drop)]
pub enum Stop {
    Memory,
    Bad(Fault),
}

impl From<AllocError> for Stop {
    ghost from_gives = { λ _ e. e ≡ Memory };

    fn from(_e: AllocError) -> Stop {
        Stop::Memory
    }
}

/// Adds a clause that has a form, unless it has a fault.
#[tactic(auto, unfolding(crate::specs::working::TextsRead::clause_read))]
fn read_form(alloc: Global, reader: &mut Reader, clause: &RawClause<'_>) -> Result<(), Stop>
    requires form { IsForm (clause_view clause.now) }
    requires names { has_names (clause_view clause.now) ≡ true }
    ensures { ClauseGives result (progress_of reader.new)
        (formed (progress_of reader.old) (Some (clause_view clause.now))) }
{
    if let Some(fault) = fault_in(alloc, reader, clause)? {
        return Err(Stop::Bad(fault));
    }
    add_clause(alloc, reader, clause)?;
    Ok(())
}

/// The form of a clause.
#[tactic(auto, using(crate::proofs::FormsRead::answer_is))]
fn clause_of<'a>(alloc: Global, bytes: &'a [u8]) -> Result<RawClause<'a>, ClauseFault>
    ensures { IsReadClause result bytes.now }
{
    clause_in(alloc, bytes)
}

/// Reads a clause, after what stands before it.
#[tactic(auto, unfolding(crate::specs::working::TextsRead::clause_read))]
fn read_clause(alloc: Global, reader: &mut Reader, bytes: &[u8]) -> Result<(), Stop>
    ensures { ClauseGives result (progress_of reader.new) (clause_read (progress_of reader.old) bytes.now) }
{
    let clause = match clause_of(alloc, bytes) {
        Ok(clause) => clause,
        Err(ClauseFault::Memory) => return Err(Stop::Memory),
        Err(ClauseFault::BadByte) => return Err(Stop::Bad(Fault::BadByte)),
        Err(ClauseFault::Syntax) => return Err(Stop::Bad(Fault::Syntax)),
    };
    read_form(alloc, reader, &clause)
}

/// What is wrong with the bytes after the last full stop.
#[tactic(auto, unfolding(crate::specs::working::TextsRead::rest_read))]
fn fault_of_rest(bytes: &[u8]) -> Option<Fault>
    ensures { (q : Progress) → rest_read q bytes.now ≡ with_rest q result }
{
    match rest_fault(bytes) {
        Some(RestFault::BadByte) => Some(Fault::BadByte),
        Some(RestFault::Unended) => Some(Fault::Unended),
        None => None,
    }
}

/// Reads a text without comments, clause by clause.
fn read_clauses(alloc: Global, text: &[u8]) -> Result<Reader, ReadFault>
    ensures { ClausesGive result (pieces_read 1 nothing (pieces text.now)) }
{
    let mut reader = start(alloc);
    let mut rest = text;
    let mut number = 1;
    while let Some((clause, after)) = next_clause(rest) {
        match read_clause(alloc, &mut reader, clause) {
            Ok(()) => {}
            Err(Stop::Memory) => return Err(ReadFault::Memory),
            Err(Stop::Bad(fault)) => return Err(ReadFault::Bad {
                fault,
                clause: number,
            }),
        }
        number += 1;
        rest = after;
    }
    match fault_of_rest(rest) {
        Some(fault) => Err(ReadFault::Bad {
            fault,
            clause: number,
        }),
        None => Ok(reader),
    }
}

#[tactic(auto, unfolding(crate::specs::working::TextsRead::text_read))]
fn read_text(alloc: Global, text: &[u8]) -> Result<Program, ReadFault>
    ensures read { IsReadAs result (text_read text.now) }
    ensures short { result ≡ Err OutOfMemory → IsShort text.now }
{
    if text.len() > MAX_TEXT {
        return Err(ReadFault::TooLong);
    }
    let plain = without_comments(alloc, text)?;
    let reader = read_clauses(alloc, &plain)?;
    Ok(reader.program)
}

/// The program of a text.
///
/// # Errors
///
/// `TooLong` exactly where the text has more than `MAX_TEXT` bytes, which needs no memory; else `Bad` with the first
/// bad clause, counted from 1, and its least fault; `Memory` where an allocation was refused.
#[tactic(auto, using(crate::proofs::TextsRead::answers))]
pub fn read(alloc: Global, text: &[u8]) -> Result<Program, ReadFault>
    ensures { IsAnswer text.now result }
{
    read_text(alloc, text)
}
