//! The bad clauses of a text.
ghost use Rattle.std.specs.Prelude.{◌≡◌, ◌≤◌, ◌+◌, IfOk, IfNone, IfSome, length};
ghost use Rattle.chr_read.specs.ProgramTexts.{IsShort, IsRefusedText};
ghost use Rattle.chr_faults.specs.BadClauses.{AreBadClauses, AreFaults, AreInOrder, BadClausesAreOne, TellsFirst};
ghost use Rattle.chr_faults.specs.BadClauses.{IsProgram, TextsHaveBadClauses, apart_from, clause_after, without_clause};

use crate::limits::MAX_TOLD_FAULTS;
use chr_read::{Fault, MAX_TEXT, ReadFault, read};
use chr_syntax::without_comments;
use std::alloc::{AllocError, Global};

/// A bad clause: its number in the text, counted from 1, and its least fault.
#[derive(Clone, Copy, Debug, PartialEq, Eq)]
pub struct BadClause {
    pub number: usize,
    pub fault: Fault,
}

/// What is wrong with a text.
#[derive(Debug, Drop)]
pub enum TextFaults {
    /// The text has more bytes than are read.
    TooLong,
    /// The first bad clauses, `MAX_TOLD_FAULTS` at most, in order; none in a program.
    Clauses(Vec<BadClause>),
}

/// The number of the clause after the byte, which stands in the clause `number` or is its full stop.
fn clause_after(number: usize, byte: u8) -> usize
    requires { number ≤ 100000 }
    ensures { result ≡ clause_after number byte }
{
    if byte == b'.' { number + 1 } else { number }
}

/// The bytes, without the clause of this number and its full stop.
fn apart_from(alloc: Global, plain: &[u8], clause: usize) -> Result<Vec<u8>, AllocError>
    requires { length plain.now ≤ 65536 }
    ensures { IfOk result (λ v. v.items ≡ apart_from clause 1 plain.now) }
{
    let mut left = Vec::new(alloc);
    let mut number = 1;
    for b in plain {
        if number != clause {
            left.push(*b)?;
        }
        number = clause_after(number, *b);
    }
    Ok(left)
}

/// The text without its comments, and without the clause of this number and its full stop.
#[tactic(auto, using(crate::proofs::Shorter::length_without_comments))]
fn without_clause(alloc: Global, text: &[u8], clause: usize) -> Result<Vec<u8>, AllocError>
    requires { IsShort text.now }
    ensures value { IfOk result (λ v. v.items ≡ without_clause clause text.now) }
{
    let plain = without_comments(alloc, text)?;
    apart_from(alloc, &plain, clause)
}

/// The first bad clause of a text that is not too long.
#[tactic(auto, using(crate::proofs::Shorter::refused_within))]
fn first_bad(alloc: Global, text: &[u8]) -> Result<Option<BadClause>, AllocError>
    requires { IsShort text.now }
    ensures none { IfOk result (λ bad. IfNone bad (IsProgram text.now)) }
    ensures some { IfOk result (λ bad. IfSome bad (λ b. IsRefusedText text.now b.fault b.number)) }
    ensures within { IfOk result (λ bad. IfSome bad (λ b. b.number ≤ length text.now + 1)) }
{
    match read(alloc, text) {
        Ok(_) => Ok(None),
        Err(ReadFault::Bad { fault, clause }) => Ok(Some(BadClause {
            number: clause,
            fault,
        })),
        Err(ReadFault::Memory) => Err(AllocError),
        Err(ReadFault::TooLong) => unreachable!(),
    }
}

/// The first bad clauses of a text that is not too long.
fn bad_clauses(alloc: Global, text: &[u8]) -> Result<Vec<BadClause>, AllocError>
    requires { IsShort text.now }
    ensures { IfOk result (λ v. AreBadClauses MAX_TOLD_FAULTS 0 text.now v.items) }
{
    let mut bad = Vec::new(alloc);
    let mut left = Vec::from_slice(alloc, text)?;
    for gone in 0..MAX_TOLD_FAULTS {
        let Some(first) = first_bad(alloc, &left)? else {
            return Ok(bad);
        };
        left = without_clause(alloc, &left, first.number)?;
        bad.push(BadClause {
            number: gone + first.number,
            fault: first.fault,
        })?;
    }
    Ok(bad)
}

/// What is wrong with a text: that it is too long, or its first bad clauses.
#[tactic(auto, using(crate::proofs::Firsts::first_is))]
pub fn text_faults(alloc: Global, text: &[u8]) -> Result<TextFaults, AllocError>
    ensures faults { IfOk result (AreFaults text.now) }
    ensures first { IfOk result (TellsFirst text.now) }
    ensures order { IfOk result AreInOrder }
{
    if text.len() > MAX_TEXT {
        return Ok(TextFaults::TooLong);
    }
    let bad = bad_clauses(alloc, text)?;
    Ok(TextFaults::Clauses(bad))
}

/// A text that is not too long has one list of bad clauses.
pub fn texts_have_one_list()
    ensures some { TextsHaveBadClauses }
    ensures one { BadClausesAreOne }
{}
