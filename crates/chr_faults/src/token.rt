//! What the tokens of a clause are.

use chr_syntax::{PlacedToken, Sign, Token};

pub(crate) fn is_name(token: &PlacedToken<'_>) -> bool {
    matches!(token.token, Some(Token::Name(_)))
}

pub(crate) fn is_variable(token: &PlacedToken<'_>) -> bool {
    matches!(token.token, Some(Token::Variable(_)))
}

pub(crate) fn is_number(token: &PlacedToken<'_>) -> bool {
    matches!(token.token, Some(Token::Number(_)))
}

pub(crate) fn is_term(token: &PlacedToken<'_>) -> bool {
    is_variable(token) || is_number(token)
}

pub(crate) fn is_comparison(token: &PlacedToken<'_>) -> bool {
    matches!(token.token, Some(Token::Compare(_)))
}

pub(crate) fn is_sign(token: &PlacedToken<'_>, sign: Sign) -> bool {
    match token.token {
        Some(Token::Sign(other)) => other == sign,
        _ => false,
    }
}

fn is_layout(byte: u8) -> bool {
    byte == b'\t' || byte == b'\n' || byte == b'\r' || byte == b' '
}

/// Where the clause's first token begins, or its end where it has none.
pub(crate) fn first_place(clause: &[u8]) -> usize {
    clause.iter().take_while(|b| is_layout(**b)).count()
}
