//! The clauses of a text by their numbers.

ghost use Rattle.std.specs.Prelude.{◌≡◌, ◌≤◌, ◌-◌, drop, length};
ghost use Rattle.std.specs.List.{prefix_len};
ghost use Rattle.chr_faults.specs.working.ClausePlaces.{after_stops, first_clause, is_in_clause};

use crate::faults::BadClause;
use chr_syntax::next_clause;
use std::alloc::{AllocError, Global};

/// A clause, and how many bytes of its text stand before it.
#[derive(Clone, Copy)]
pub(crate) struct PlacedClause<'a> {
    pub bytes: &'a [u8],
    pub before: usize,
}

/// How many bytes there are up to so many full stops, or at all where there are fewer.
fn after_stops(plain: &[u8], stops: usize) -> usize
    ensures value { result ≡ after_stops stops plain.now }
    ensures within { result ≤ length plain.now }
{
    let mut left = stops;
    for (at, b) in plain.iter().enumerate() {
        if left == 0 {
            return at;
        }
        if *b == b'.' {
            left -= 1;
        }
    }
    plain.len()
}

/// How many bytes stand before the first full stop.
fn clause_len(bytes: &[u8]) -> usize
    ensures value { result ≡ prefix_len is_in_clause bytes.now }
    ensures within { result ≤ length bytes.now }
{
    bytes.iter().take_while(|b| **b != b'.').count()
}

/// The clause of this number, counted from 1, in a text without comments. What stands after the last full stop counts
/// as one.
pub(crate) fn clause_of(plain: &[u8], number: usize) -> PlacedClause<'_>
    ensures before { result.before ≡ after_stops (number - 1) plain.now }
    ensures bytes { result.bytes.now ≡ first_clause (drop result.before plain.now) }
{
    let before = after_stops(plain, number.saturating_sub(1));
    let rest = &plain[before..];
    PlacedClause {
        bytes: &rest[..clause_len(rest)],
        before,
    }
}

/// Whether the clause of this number is bad.
fn is_bad(bad: &[BadClause], number: usize) -> bool {
    bad.iter().any(|clause| clause.number == number)
}

/// The clauses before the one of this number without the bad ones, each with its full stop.
pub(crate) fn clauses_before(
    alloc: Global,
    plain: &[u8],
    bad: &[BadClause],
    number: usize,
) -> Result<Vec<u8>, AllocError> {
    let mut text = Vec::new(alloc);
    let mut rest = plain;
    for i in 1..number {
        if let Some((clause, after)) = next_clause(rest) {
            if !is_bad(bad, i) {
                text.extend_from_slice(clause)?;
                text.push(b'.')?;
            }
            rest = after;
        }
    }
    Ok(text)
}
