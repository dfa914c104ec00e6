//! Declarations that are bad, so that what they name is declared by none.

use crate::clause::clause_of;
use crate::faults::BadClause;
use crate::token::{is_name, is_sign};
use crate::word::{ToldSymbol, number_of};
use chr_syntax::{PlacedToken, Sign, placed_tokens};
use std::alloc::{AllocError, Global};

fn is_declaration(tokens: &[PlacedToken<'_>]) -> bool {
    match tokens {
        [first, second, ..] => {
            is_sign(first, Sign::Directive) && second.word == b"chr_constraint".as_slice()
        }
        _ => false,
    }
}

/// Whether what stands behind a symbol's name is no other number of arguments.
fn may_be_arity(after: &[PlacedToken<'_>], symbol: ToldSymbol<'_>) -> bool {
    match after {
        [slash, digits, ..] => {
            !is_sign(slash, Sign::Slash) || number_of(digits.word) == symbol.arity.number()
        }
        _ => true,
    }
}

/// Whether the symbol is named among these tokens of a declaration.
fn is_named(tokens: &[PlacedToken<'_>], symbol: ToldSymbol<'_>) -> bool {
    for (i, token) in tokens.iter().enumerate() {
        if is_name(token) && token.word == symbol.name && may_be_arity(&tokens[i + 1..], symbol) {
            return true;
        }
    }
    false
}

/// Of the bad clauses before the one of this number the first that would declare the symbol.
pub(crate) fn bad_declaration(
    alloc: Global,
    plain: &[u8],
    bad: &[BadClause],
    number: usize,
    symbol: ToldSymbol<'_>,
) -> Result<Option<usize>, AllocError> {
    for clause in bad {
        if clause.number < number {
            let tokens = placed_tokens(alloc, clause_of(plain, clause.number).bytes)?;
            if is_declaration(&tokens) && is_named(&tokens, symbol) {
                return Ok(Some(clause.number));
            }
        }
    }
    Ok(None)
}
