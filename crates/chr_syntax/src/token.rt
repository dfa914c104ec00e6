//! The tokens of a clause.

ghost use Rattle.std.specs.Prelude.{◌≡◌, ◌≤◌, ◌<◌, ◌+◌, List, Option, Some, map, option_map, drop, length};
ghost use Rattle.std.specs.Prelude.{IfOk, IfSome};
ghost use Rattle.std.specs.List.{prefix_len};
ghost use Rattle.chr_base.specs.Names.{is_digit, is_lower, is_upper, is_word_byte};
ghost use Rattle.chr_syntax.specs.working.Tokens.{number_len, long_sign, middle_sign, short_sign, sign_at, token_at};
ghost use Rattle.chr_syntax.specs.working.Tokens.{tokens_of};
ghost use Rattle.chr_syntax.specs.Tokens.{Tok};
ghost use Rattle.chr_syntax.specs.Lexemes.{AreTokens};
ghost use Rattle.chr_syntax.specs.Views.{token_view, placed_view};
ghost use Rattle.chr_syntax.specs.working.Outcomes.{AnswersWith};

use crate::bytes::is_layout;
use crate::clause::Comparator;
use crate::fault::Stop;
use std::alloc::{AllocError, Global};

/// A sign that is no comparison. `Equals` is the sign `=`, which no guard may have.
#[derive(Clone, Copy, Debug, PartialEq, Eq)]
pub enum Sign {
    Simplify,
    Propagate,
    Directive,
    Equals,
    At,
    Backslash,
    Bar,
    Comma,
    Open,
    Close,
    Slash,
}

/// A token, with its bytes where they matter.
#[derive(Clone, Copy, Debug)]
pub enum Token<'a> {
    Name(&'a [u8]),
    Variable(&'a [u8]),
    Number(&'a [u8]),
    Compare(Comparator),
    Sign(Sign),
}

fn is_digit(b: u8) -> bool
    ensures { result ≡ is_digit b }
{
    48 <= b && b <= 57
}

fn is_lower(b: u8) -> bool
    ensures { result ≡ is_lower b }
{
    97 <= b && b <= 122
}

fn is_upper(b: u8) -> bool
    ensures { result ≡ is_upper b }
{
    65 <= b && b <= 90
}

fn is_word_byte(b: u8) -> bool
    ensures { result ≡ is_word_byte b }
{
    is_lower(b) || is_upper(b) || is_digit(b) || b == b'_'
}

fn word_len(bytes: &[u8]) -> usize
    ensures value { result ≡ prefix_len is_word_byte bytes.now }
    ensures within { result ≤ length bytes.now }
{
    bytes.iter().take_while(|b| is_word_byte(**b)).count()
}

fn digits_len(bytes: &[u8]) -> usize
    ensures value { result ≡ prefix_len is_digit bytes.now }
    ensures within { result ≤ length bytes.now }
{
    bytes.iter().take_while(|b| is_digit(**b)).count()
}

/// How long the number at the front is; 0 where there is none.
fn number_len(bytes: &[u8]) -> usize
    ensures value { result ≡ number_len bytes.now }
    ensures within { result ≤ length bytes.now }
{
    match bytes {
        [b'-', rest @ ..] => {
            let digits = digits_len(rest);
            if digits == 0 { 0 } else { 1 + digits }
        }
        _ => digits_len(bytes),
    }
}

/// The sign of three bytes at the front.
fn long_sign(bytes: &[u8]) -> Option<Token<'_>>
    ensures value { option_map token_view result ≡ long_sign bytes.now }
    ensures some { IfSome result (λ t. 3 ≤ length bytes.now) }
{
    if bytes.starts_with(b"<=>") {
        Some(Token::Sign(Sign::Simplify))
    } else if bytes.starts_with(b"==>") {
        Some(Token::Sign(Sign::Propagate))
    } else if bytes.starts_with(b"=:=") {
        Some(Token::Compare(Comparator::Equal))
    } else if bytes.starts_with(b"=\\=") || bytes.starts_with(b"\\==") {
        Some(Token::Compare(Comparator::NotEqual))
    } else {
        None
    }
}

/// The sign of two bytes at the front.
fn middle_sign(bytes: &[u8]) -> Option<Token<'_>>
    ensures value { option_map token_view result ≡ middle_sign bytes.now }
    ensures some { IfSome result (λ t. 2 ≤ length bytes.now) }
{
    if bytes.starts_with(b"==") {
        Some(Token::Compare(Comparator::Equal))
    } else if bytes.starts_with(b"=<") {
        Some(Token::Compare(Comparator::AtMost))
    } else if bytes.starts_with(b">=") {
        Some(Token::Compare(Comparator::AtLeast))
    } else if bytes.starts_with(b":-") {
        Some(Token::Sign(Sign::Directive))
    } else {
        None
    }
}

/// The sign of this one byte.
fn short_sign(b: u8) -> Option<Token<'static>>
    ensures { option_map token_view result ≡ short_sign b }
{
    match b {
        b'<' => Some(Token::Compare(Comparator::Less)),
        b'>' => Some(Token::Compare(Comparator::Greater)),
        b'=' => Some(Token::Sign(Sign::Equals)),
        b'@' => Some(Token::Sign(Sign::At)),
        b'\\' => Some(Token::Sign(Sign::Backslash)),
        b'|' => Some(Token::Sign(Sign::Bar)),
        b',' => Some(Token::Sign(Sign::Comma)),
        b'(' => Some(Token::Sign(Sign::Open)),
        b')' => Some(Token::Sign(Sign::Close)),
        b'/' => Some(Token::Sign(Sign::Slash)),
        _ => None,
    }
}

/// The longest sign at the front, and how many bytes it takes.
fn sign_at(bytes: &[u8]) -> Option<(Token<'_>, usize)>
    ensures value { option_map (λ p. (token_view p.0, p.1)) result ≡ sign_at bytes.now }
    ensures some { IfSome result (λ p. (0 < p.1) × (p.1 ≤ length bytes.now)) }
{
    if let Some(sign) = long_sign(bytes) {
        return Some((sign, 3));
    }
    if let Some(sign) = middle_sign(bytes) {
        return Some((sign, 2));
    }
    let first = bytes.first()?;
    let sign = short_sign(*first)?;
    Some((sign, 1))
}

/// The longest token at the front, and how many bytes it takes.
fn token_at(bytes: &[u8]) -> Option<(Token<'_>, usize)>
    ensures value { option_map (λ p. (token_view p.0, p.1)) result ≡ token_at bytes.now }
    ensures some { IfSome result (λ p. (0 < p.1) × (p.1 ≤ length bytes.now)) }
{
    let first = *bytes.first()?;
    if is_lower(first) {
        let n = word_len(bytes);
        return Some((Token::Name(&bytes[..n]), n));
    }
    if is_upper(first) || first == b'_' {
        let n = word_len(bytes);
        return Some((Token::Variable(&bytes[..n]), n));
    }
    let n = number_len(bytes);
    if n > 0 {
        return Some((Token::Number(&bytes[..n]), n));
    }
    sign_at(bytes)
}

/// The tokens of a clause.
pub fn tokens_of(alloc: Global, bytes: &[u8]) -> Result<Vec<Token<'_>>, Stop>
    ensures { AnswersWith (λ v. map token_view v.items) result (tokens_of bytes.now) }
{
    let mut tokens = Vec::new(alloc);
    let mut at = 0;
    while at < bytes.len() {
        if is_layout(bytes[at]) {
            at += 1;
            continue;
        }
        let Some((token, n)) = token_at(&bytes[at..]) else {
            return Err(Stop::Syntax);
        };
        tokens.push(token)?;
        at += n;
    }
    Ok(tokens)
}

/// What stands at a place of a clause: a token and its bytes, or one byte at which no token begins. `at` is how many
/// bytes of the clause stand before it.
#[derive(Clone, Copy, Debug)]
pub struct PlacedToken<'a> {
    pub token: Option<Token<'a>>,
    pub word: &'a [u8],
    pub at: usize,
}

/// What stands at a place where no layout is.
#[tactic(auto, using(crate::proofs::Lexing::rest_whole))]
fn placed_at(bytes: &[u8], at: usize) -> PlacedToken<'_>
    requires { at < length bytes.now }
    ensures value { option_map (λ t. (token_view t, length result.word.now)) result.token
        ≡ token_at (drop at bytes.now) }
    ensures some { 0 < length result.word.now }
    ensures within { at + length result.word.now ≤ length bytes.now }
{
    let rest = &bytes[at..];
    match token_at(rest) {
        Some((token, n)) => PlacedToken {
            token: Some(token),
            word: &rest[..n],
            at,
        },
        None => PlacedToken {
            token: None,
            word: &rest[..1],
            at,
        },
    }
}

/// What stands in a clause without comments, each with its place: its tokens, where it is made of tokens. A byte at
/// which none begins is passed over as if it were one.
pub fn placed_tokens(alloc: Global, bytes: &[u8]) -> Result<Vec<PlacedToken<'_>>, AllocError>
    ensures { IfOk result (λ v. (ts : List Tok) → AreTokens ts bytes.now → map placed_view v.items ≡ map Some ts) }
{
    let mut placed = Vec::new(alloc);
    let mut at = 0;
    while at < bytes.len() {
        if is_layout(bytes[at]) {
            at += 1;
            continue;
        }
        let token = placed_at(bytes, at);
        at += token.word.len();
        placed.push(token)?;
    }
    Ok(placed)
}
