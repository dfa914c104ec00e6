//! Why a clause has no form: the first token that can't stand where it does.

use crate::rule::first_of;
use crate::token::{is_name, is_sign, is_term};
use chr_syntax::{PlacedToken, Sign, Token};

/// Whether an atom is a head or stands in a body.
#[derive(Clone, Copy, PartialEq, Eq)]
pub(crate) enum Side {
    Head,
    Body,
}

/// A directive that names symbols.
#[derive(Clone, Copy)]
pub(crate) enum Naming {
    Declare,
    Weigh,
}

/// What a clause wants next.
#[derive(Clone, Copy)]
pub(crate) enum Wanted {
    Clause,
    LabelEnd,
    Item(Side),
    /// After an atom's name.
    AtomNext(Side),
    Term(Side),
    TermNext(Side),
    /// After an atom, or an item `true`.
    ItemNext(Side),
    GuardItem,
    GuardSign,
    GuardTerm,
    GuardNext,
    Directive,
    Symbol(Naming),
    Slash(Naming),
    Arity(Naming),
    SymbolNext,
    Equals,
    FirstNumber,
    NumberNext,
    SecondNumber,
    /// This word of `(library(chr))`.
    Library(usize),
    End,
}

/// Where a clause stops having a form.
#[derive(Clone, Copy)]
pub(crate) struct Stuck<'a> {
    /// The token before; none at the clause's beginning.
    pub after: Option<&'a [u8]>,
    pub wanted: Wanted,
    /// None at the clause's end.
    pub found: Option<PlacedToken<'a>>,
    /// How many tokens stand before what was found.
    pub place: usize,
}

/// What stands after `use_module`.
const LIBRARY: [&str; 6] = ["(", "library", "(", "chr", ")", ")"];

/// Which tokens of a rule part it; their number where there is none.
#[derive(Clone, Copy)]
struct Parting {
    backslash: usize,
    arrow: usize,
    bar: usize,
    len: usize,
}

/// A backslash parts the heads of a rule with `<=>` alone.
fn parting_of(tokens: &[PlacedToken<'_>]) -> Parting {
    let simplify = first_of(tokens, Sign::Simplify);
    let (arrow, backslash) = if simplify < tokens.len() {
        (simplify, first_of(tokens, Sign::Backslash))
    } else {
        (first_of(tokens, Sign::Propagate), tokens.len())
    };
    let after = &tokens[arrow.min(tokens.len())..];
    Parting {
        backslash,
        arrow,
        bar: arrow.saturating_add(first_of(after, Sign::Bar)),
        len: tokens.len(),
    }
}

/// What may stand after the sign between heads and the rest.
fn after_arrow(parting: Parting) -> Wanted {
    if parting.bar < parting.len {
        Wanted::GuardItem
    } else {
        Wanted::Item(Side::Body)
    }
}

/// What comes after an atom and the sign at this place.
fn after_item(
    side: Side,
    token: &PlacedToken<'_>,
    place: usize,
    parting: Parting,
) -> Option<Wanted> {
    let Some(Token::Sign(sign)) = token.token else {
        return None;
    };
    match (side, sign) {
        (_, Sign::Comma) => Some(Wanted::Item(side)),
        (Side::Head, Sign::Backslash) => (place == parting.backslash).then_some(Wanted::Item(side)),
        (Side::Head, Sign::Simplify) | (Side::Head, Sign::Propagate) => {
            (place == parting.arrow).then_some(after_arrow(parting))
        }
        _ => None,
    }
}

fn is_reserved(word: &[u8]) -> bool {
    word == b"true".as_slice() || word == b"fail".as_slice() || word == b"false".as_slice()
}

fn is_plain_name(token: &PlacedToken<'_>) -> bool {
    is_name(token) && !is_reserved(token.word)
}

/// After a token where an item of heads or body was wanted.
fn after_item_begin(side: Side, token: &PlacedToken<'_>) -> Option<Wanted> {
    if is_plain_name(token) {
        Some(Wanted::AtomNext(side))
    } else if side == Side::Body && token.word == b"true".as_slice() {
        Some(Wanted::ItemNext(side))
    } else {
        None
    }
}

fn after_atom_token(
    wanted: Wanted,
    token: &PlacedToken<'_>,
    place: usize,
    parting: Parting,
) -> Option<Wanted> {
    match wanted {
        Wanted::Item(side) => after_item_begin(side, token),
        Wanted::AtomNext(side) => if is_sign(token, Sign::Open) {
            Some(Wanted::Term(side))
        } else {
            after_item(side, token, place, parting)
        },
        Wanted::Term(side) => is_term(token).then_some(Wanted::TermNext(side)),
        Wanted::TermNext(side) => match token.token {
            Some(Token::Sign(Sign::Comma)) => Some(Wanted::Term(side)),
            Some(Token::Sign(Sign::Close)) => Some(Wanted::ItemNext(side)),
            _ => None,
        },
        Wanted::ItemNext(side) => after_item(side, token, place, parting),
        _ => None,
    }
}

fn after_guard_token(
    wanted: Wanted,
    token: &PlacedToken<'_>,
    place: usize,
    parting: Parting,
) -> Option<Wanted> {
    match (wanted, token.token?) {
        (Wanted::GuardItem, Token::Name(word)) => (word == b"true".as_slice()).then_some(
            Wanted::GuardNext,
        ),
        (Wanted::GuardItem, _) => is_term(token).then_some(Wanted::GuardSign),
        (Wanted::GuardSign, Token::Compare(_)) => Some(Wanted::GuardTerm),
        (Wanted::GuardTerm, _) => is_term(token).then_some(Wanted::GuardNext),
        (Wanted::GuardNext, Token::Sign(Sign::Comma)) => Some(Wanted::GuardItem),
        (Wanted::GuardNext, Token::Sign(Sign::Bar)) => (place == parting.bar).then_some(
            Wanted::Item(Side::Body),
        ),
        _ => None,
    }
}

/// After the word of a directive.
fn after_directive(word: &[u8]) -> Option<Wanted> {
    if word == b"chr_constraint".as_slice() {
        Some(Wanted::Symbol(Naming::Declare))
    } else if word == b"chr_weight".as_slice() {
        Some(Wanted::Symbol(Naming::Weigh))
    } else if word == b"use_module".as_slice() {
        Some(Wanted::Library(0))
    } else {
        None
    }
}

fn after_arity(naming: Naming, digits: &[u8]) -> Option<Wanted> {
    match (naming, digits) {
        (_, [b'-', ..]) => None,
        (Naming::Declare, _) => Some(Wanted::SymbolNext),
        (Naming::Weigh, _) => Some(Wanted::Equals),
    }
}

fn after_library(place: usize, word: &[u8]) -> Option<Wanted> {
    let wanted = LIBRARY.get(place)?;
    if word != wanted.as_bytes() {
        return None;
    }
    if place + 1 < LIBRARY.len() {
        Some(Wanted::Library(place + 1))
    } else {
        Some(Wanted::End)
    }
}

fn after_directive_token(wanted: Wanted, token: &PlacedToken<'_>) -> Option<Wanted> {
    match (wanted, token.token?) {
        (Wanted::Directive, Token::Name(word)) => after_directive(word),
        (Wanted::Symbol(naming), _) => is_plain_name(token).then_some(Wanted::Slash(naming)),
        (Wanted::Slash(naming), Token::Sign(Sign::Slash)) => Some(Wanted::Arity(naming)),
        (Wanted::Arity(naming), Token::Number(digits)) => after_arity(naming, digits),
        (Wanted::SymbolNext, Token::Sign(Sign::Comma)) => Some(Wanted::Symbol(Naming::Declare)),
        (Wanted::Equals, Token::Sign(Sign::Equals)) => Some(Wanted::FirstNumber),
        (Wanted::FirstNumber, Token::Number(_)) => Some(Wanted::NumberNext),
        (Wanted::NumberNext, Token::Sign(Sign::Comma)) => Some(Wanted::SecondNumber),
        (Wanted::SecondNumber, Token::Number(_)) => Some(Wanted::End),
        (Wanted::Library(place), _) => after_library(place, token.word),
        _ => None,
    }
}

/// Whether the first token is followed by `@`.
fn is_labelled(tokens: &[PlacedToken<'_>]) -> bool {
    match tokens {
        [_, second, ..] => is_sign(second, Sign::At),
        _ => false,
    }
}

/// After the first token of a clause.
fn after_first(tokens: &[PlacedToken<'_>], token: &PlacedToken<'_>) -> Option<Wanted> {
    if is_sign(token, Sign::Directive) {
        Some(Wanted::Directive)
    } else if !is_plain_name(token) {
        None
    } else if is_labelled(tokens) {
        Some(Wanted::LabelEnd)
    } else {
        Some(Wanted::AtomNext(Side::Head))
    }
}

fn after_token(
    wanted: Wanted,
    tokens: &[PlacedToken<'_>],
    token: &PlacedToken<'_>,
    place: usize,
    parting: Parting,
) -> Option<Wanted> {
    match wanted {
        Wanted::Clause => after_first(tokens, token),
        Wanted::LabelEnd => Some(Wanted::Item(Side::Head)),
        Wanted::Item(_)
        | Wanted::AtomNext(_)
        | Wanted::Term(_)
        | Wanted::TermNext(_)
        | Wanted::ItemNext(_) => after_atom_token(wanted, token, place, parting),
        Wanted::GuardItem | Wanted::GuardSign | Wanted::GuardTerm | Wanted::GuardNext => {
            after_guard_token(wanted, token, place, parting)
        }
        _ => after_directive_token(wanted, token),
    }
}

/// Whether a clause may end here.
fn may_end(wanted: Wanted) -> bool {
    match wanted {
        Wanted::AtomNext(Side::Body)
        | Wanted::ItemNext(Side::Body)
        | Wanted::SymbolNext
        | Wanted::NumberNext
        | Wanted::End => true,
        _ => false,
    }
}

/// Where these tokens of a clause stop having a form. None where they have one.
pub(crate) fn stuck_in<'a>(tokens: &[PlacedToken<'a>]) -> Option<Stuck<'a>> {
    let parting = parting_of(tokens);
    let mut wanted = Wanted::Clause;
    let mut after = None;
    for (place, token) in tokens.iter().enumerate() {
        match after_token(wanted, tokens, token, place, parting) {
            Some(next) => wanted = next,
            None => return Some(Stuck {
                after,
                wanted,
                found: Some(*token),
                place,
            }),
        }
        after = Some(token.word);
    }
    if may_end(wanted) {
        return None;
    }
    Some(Stuck {
        after,
        wanted,
        found: None,
        place: tokens.len(),
    })
}

impl Stuck<'_> {
    /// Whether a token was found that is no comparison where one was wanted.
    fn lacks_comparison(&self) -> bool {
        match (self.wanted, self.found) {
            (Wanted::GuardSign, Some(token)) => is_sign(&token, Sign::Equals),
            _ => false,
        }
    }

    /// Whether a reserved word was found where a name was wanted.
    fn is_at_reserved(&self) -> bool {
        match (self.wanted, self.found) {
            (Wanted::Clause, Some(token))
            | (Wanted::Item(_), Some(token))
            | (Wanted::Symbol(_), Some(token)) => is_reserved(token.word),
            _ => false,
        }
    }

    /// What would be right.
    pub(crate) fn remedy(&self) -> &'static str {
        if self.lacks_comparison() {
            "`=:=` asks whether two values are equal"
        } else if self.is_at_reserved() {
            "`true`, `fail` and `false` are no names"
        } else {
            match self.wanted {
                Wanted::Directive | Wanted::Library(_) =>
                    "write `:- use_module(library(chr)).`, or declare symbols or a weight",
                Wanted::Symbol(Naming::Declare)
                | Wanted::Slash(Naming::Declare)
                | Wanted::Arity(Naming::Declare)
                | Wanted::SymbolNext => "write `:- chr_constraint a/1, b/0.`",
                Wanted::Symbol(Naming::Weigh)
                | Wanted::Slash(Naming::Weigh)
                | Wanted::Arity(Naming::Weigh)
                | Wanted::Equals
                | Wanted::FirstNumber
                | Wanted::NumberNext
                | Wanted::SecondNumber
                | Wanted::End => "write `:- chr_weight a/1 = 2.`",
                _ => "write a rule, as `a(X) \\ b(Y) <=> X < Y | c(X).`",
            }
        }
    }
}

impl Wanted {
    /// What it is in words.
    pub(crate) fn text(self) -> &'static str {
        match self {
            Wanted::Clause => "`:-` or a head",
            Wanted::LabelEnd => "`@`",
            Wanted::Item(Side::Head) => "a head",
            Wanted::Item(Side::Body) => "an atom or `true`",
            Wanted::AtomNext(Side::Head) => "`(`, `,` or `<=>`",
            Wanted::AtomNext(Side::Body) => "`(`, `,` or the full stop",
            Wanted::ItemNext(Side::Head) => "`,` or `<=>`",
            Wanted::ItemNext(Side::Body) | Wanted::SymbolNext | Wanted::NumberNext =>
                "`,` or the full stop",
            Wanted::Term(_) => "a variable or a number",
            Wanted::TermNext(_) => "`,` or `)`",
            Wanted::GuardItem => "a comparison or `true`",
            Wanted::GuardSign => "`<`, `=<`, `>`, `>=`, `=:=` or `=\\=`",
            Wanted::GuardTerm => "a variable or a number",
            Wanted::GuardNext => "`,` or `|`",
            Wanted::Directive => "`chr_constraint`, `chr_weight` or `use_module`",
            Wanted::Symbol(_) => "a name",
            Wanted::Slash(_) => "`/`",
            Wanted::Arity(_) => "a number of arguments",
            Wanted::Equals => "`=`",
            Wanted::FirstNumber | Wanted::SecondNumber => "a number",
            Wanted::Library(_) => "`(library(chr))`",
            Wanted::End => "the full stop",
        }
    }
}
