//! The parts of a clause that has a form, with their places.

use crate::token::{is_name, is_sign, is_term};
use chr_syntax::{PlacedToken, Sign};
use std::alloc::{AllocError, Global};

/// An atom of a rule or a symbol of a directive: its name, its number of arguments, and its place in the clause.
#[derive(Clone, Copy)]
pub(crate) struct PlacedAtom<'a> {
    pub name: &'a [u8],
    pub arity: usize,
    pub at: usize,
}

/// The place of this sign among the tokens; their number where there is none.
pub(crate) fn first_of(tokens: &[PlacedToken<'_>], sign: Sign) -> usize {
    tokens
        .iter()
        .take_while(|token| !is_sign(token, sign))
        .count()
}

/// The tokens before the first such sign: all where there is none.
pub(crate) fn before<'t, 'a>(tokens: &'t [PlacedToken<'a>], sign: Sign) -> &'t [PlacedToken<'a>] {
    &tokens[..first_of(tokens, sign).min(tokens.len())]
}

/// The tokens from the first such sign on: none where there is none.
pub(crate) fn from<'t, 'a>(tokens: &'t [PlacedToken<'a>], sign: Sign) -> &'t [PlacedToken<'a>] {
    &tokens[first_of(tokens, sign).min(tokens.len())..]
}

/// A rule without its label.
pub(crate) fn without_label<'t, 'a>(tokens: &'t [PlacedToken<'a>]) -> &'t [PlacedToken<'a>] {
    match tokens {
        [_, second, rest @ ..] => if is_sign(second, Sign::At) {
            rest
        } else {
            tokens
        },
        _ => tokens,
    }
}

/// How many arguments stand after an atom's name.
fn arguments(after: &[PlacedToken<'_>]) -> usize {
    match after {
        [first, rest @ ..] => if is_sign(first, Sign::Open) {
            before(rest, Sign::Close)
                .iter()
                .filter(|token| is_term(token))
                .count()
        } else {
            0
        },
        [] => 0,
    }
}

/// The atoms among these tokens of a rule.
pub(crate) fn atoms_of<'a>(
    alloc: Global,
    tokens: &[PlacedToken<'a>],
) -> Result<Vec<PlacedAtom<'a>>, AllocError> {
    let mut atoms = Vec::new(alloc);
    for (i, token) in tokens.iter().enumerate() {
        if is_name(token) && token.word != b"true".as_slice() {
            atoms.push(PlacedAtom {
                name: token.word,
                arity: arguments(&tokens[i + 1..]),
                at: token.at,
            })?;
        }
    }
    Ok(atoms)
}
