//! Places of clauses in a text.

use crate::names::is_rule;
use crate::place::place_outside;
use chr_syntax::{next_clause, placed_tokens, without_comments};
use std::alloc::{AllocError, Global};

/// Where something begins in a text, and where it ends.
#[derive(Clone, Copy)]
pub struct Span {
    pub from: usize,
    pub to: usize,
}

impl Span {
    /// Whether the byte at this place stands in it.
    pub fn has(&self, at: usize) -> bool {
        self.from <= at && at < self.to
    }
}

/// The bytes of a text from the one with so many bytes outside comments before it, up to the one with so many of them.
fn span_between(text: &[u8], first: usize, last: usize) -> Option<Span> {
    let from = place_outside(text, first)?;
    let stop = place_outside(text, last)?;
    Some(Span {
        from,
        to: stop.saturating_add(1),
    })
}

/// Where a clause stands in a text, behind so many bytes outside comments.
fn span_of(
    alloc: Global,
    text: &[u8],
    before: usize,
    clause: &[u8],
) -> Result<Option<Span>, AllocError> {
    let tokens = placed_tokens(alloc, clause)?;
    let Some(first) = tokens.first() else {
        return Ok(None);
    };
    let first = before.saturating_add(first.at);
    Ok(span_between(text, first, before.saturating_add(clause.len())))
}

/// Whether a clause is a rule, in a text without bad clauses.
fn is_rule_clause(alloc: Global, clause: &[u8]) -> Result<bool, AllocError> {
    let tokens = placed_tokens(alloc, clause)?;
    Ok(is_rule(&tokens))
}

/// Where the clause of the rule of this number stands in the text of a program.
pub fn rule_span(alloc: Global, text: &[u8], number: usize) -> Result<Option<Span>, AllocError> {
    let plain = without_comments(alloc, text)?;
    let mut rest = plain.as_slice();
    let mut rules: usize = 0;
    for _ in 0..plain.len() {
        if let Some((clause, after)) = next_clause(rest) {
            rules = rules.saturating_add(usize::from(is_rule_clause(alloc, clause)?));
            if rules == number {
                let before = plain.len().saturating_sub(rest.len());
                return span_of(alloc, text, before, clause);
            }
            rest = after;
        }
    }
    Ok(None)
}
