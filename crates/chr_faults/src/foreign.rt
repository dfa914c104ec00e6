//! Forms of usual CHR that this language has not, told by name.

use crate::part::push_word;
use crate::syntax::{Naming, Side, Stuck, Wanted};
use crate::token::{is_comparison, is_name, is_sign, is_term};
use chr_syntax::{PlacedToken, Sign, Token};
use std::alloc::AllocError;

/// What usual CHR has in place of a number or a variable.
#[derive(Clone, Copy)]
pub(crate) enum ForeignValue<'a> {
    Symbol(&'a [u8]),
    Quoted,
    /// A name with arguments.
    Term(&'a [u8]),
    List,
}

/// What directives of usual CHR have.
#[derive(Clone, Copy)]
pub(crate) enum ForeignDirective {
    Modes,
    Types,
    Options,
    Modules,
}

/// A form of usual CHR that makes a clause bad.
#[derive(Clone, Copy)]
pub(crate) enum Foreign<'a> {
    Directive(ForeignDirective),
    Value(ForeignValue<'a>),
    /// A sign or a word that computes.
    Arithmetic(&'a [u8]),
    /// A name with arguments in a guard.
    Call(&'a [u8]),
    /// A sign that is written otherwise here.
    Sign {
        usual: &'static str,
        here: &'static str,
    },
    Negation,
    Alternatives,
    /// A comparison in a body.
    Comparison,
    /// An equation in a body.
    Equation,
    Cut,
    Comment,
    Pragma,
}

/// The token at which a clause is bad, and what stands beside it.
#[derive(Clone, Copy)]
struct Spot<'a> {
    before: Option<PlacedToken<'a>>,
    token: PlacedToken<'a>,
    after: Option<PlacedToken<'a>>,
}

fn sign(usual: &'static str, here: &'static str) -> Foreign<'static> {
    Foreign::Sign { usual, here }
}

fn is_word(token: Option<PlacedToken<'_>>, word: &[u8]) -> bool {
    match token {
        Some(token) => token.word == word,
        None => false,
    }
}

fn is_sign_at(token: Option<PlacedToken<'_>>, sign: Sign) -> bool {
    match token {
        Some(token) => is_sign(&token, sign),
        None => false,
    }
}

impl<'a> Spot<'a> {
    /// The token at this place of a clause.
    fn at(tokens: &[PlacedToken<'a>], place: usize) -> Option<Spot<'a>> {
        let token = tokens.get(place)?;
        let before = match place {
            0 => None,
            _ => tokens.get(place - 1).copied(),
        };
        Some(Spot {
            before,
            token: *token,
            after: tokens.get(place.saturating_add(1)).copied(),
        })
    }

    fn is_after(&self, word: &[u8]) -> bool {
        is_word(self.before, word)
    }

    fn is_before(&self, word: &[u8]) -> bool {
        is_word(self.after, word)
    }

    /// Whether an atom may end before the token.
    fn is_after_atom(&self) -> bool {
        match self.before {
            Some(token) => is_name(&token) || is_sign(&token, Sign::Close),
            None => false,
        }
    }

    /// Whether a comparison or an equation goes on behind the token.
    fn is_compared(&self) -> bool {
        match self.after {
            Some(token) => {
                is_comparison(&token)
                    || is_sign(&token, Sign::Equals)
                    || is_sign(&token, Sign::Backslash)
            }
            None => false,
        }
    }
}

/// The word of the directive that these tokens are.
fn directive_of<'a>(tokens: &[PlacedToken<'a>]) -> Option<&'a [u8]> {
    match tokens {
        [first, second, ..] => is_sign(first, Sign::Directive).then_some(second.word),
        _ => None,
    }
}

/// Whether a word is this text. A match of its bytes would compare them one by one.
fn is_text(word: &[u8], text: &str) -> bool {
    word == text.as_bytes()
}

/// Whether a word is the mode of an argument.
fn is_mode(word: &[u8]) -> bool {
    matches!(word, [b'+' | b'-' | b'?'])
}

/// What is foreign in the directive with this word, at this one.
fn in_directive(word: &[u8], at: &[u8]) -> Option<ForeignDirective> {
    if is_text(word, "chr_option") {
        Some(ForeignDirective::Options)
    } else if is_text(word, "chr_type") {
        Some(ForeignDirective::Types)
    } else if is_text(word, "module") || is_text(word, "use_module") {
        Some(ForeignDirective::Modules)
    } else {
        let is_modal = is_text(word, "chr_constraint") && is_mode(at);
        is_modal.then_some(ForeignDirective::Modes)
    }
}

/// What a byte with which no token begins is beside its neighbours.
fn beside<'a>(spot: Spot<'_>) -> Option<Foreign<'a>> {
    match spot.token.word {
        b"+" => spot.is_after(b"\\").then_some(Foreign::Negation),
        b"-" => spot.is_before(b">").then_some(Foreign::Alternatives),
        b"*" => (spot.is_after(b"/") || spot.is_before(b"/")).then_some(Foreign::Comment),
        b"!" => spot.is_compared().then_some(sign("!=", "=\\=")),
        b"#" => spot.is_after_atom().then_some(Foreign::Pragma),
        _ => None,
    }
}

/// What a byte with which no token begins is anywhere else.
fn alone<'a>(word: &'a [u8]) -> Option<Foreign<'a>> {
    match word {
        b"+" | b"-" | b"*" | b"^" => Some(Foreign::Arithmetic(word)),
        b"'" | b"\"" => Some(Foreign::Value(ForeignValue::Quoted)),
        b"[" | b"]" => Some(Foreign::Value(ForeignValue::List)),
        b";" => Some(Foreign::Alternatives),
        b"!" => Some(Foreign::Cut),
        _ => None,
    }
}

/// Whether a word or a sign computes.
fn computes(word: &[u8]) -> bool {
    matches!(word, [b'/'])
        || is_text(word, "is")
        || is_text(word, "mod")
        || is_text(word, "rem")
        || is_text(word, "div")
}

/// What computes with the value before this token: a sign, a word, or the minus of a number.
fn operator_of<'a>(token: PlacedToken<'a>) -> Option<&'a [u8]> {
    if computes(token.word) {
        return Some(token.word);
    }
    match token.word {
        [b'-', ..] => Some(&token.word[..1]),
        _ => None,
    }
}

/// What stands after a value.
fn after_value<'a>(spot: Spot<'a>) -> Option<Foreign<'a>> {
    match spot.token.token {
        Some(Token::Sign(Sign::Backslash)) => spot.is_before(b"=").then_some(sign("\\=", "=\\=")),
        Some(Token::Sign(Sign::Equals)) => spot.is_before(b">").then_some(sign("=>", ">=")),
        _ => Some(Foreign::Arithmetic(operator_of(spot.token)?)),
    }
}

/// What stands in place of an argument.
fn for_argument<'a>(spot: Spot<'a>) -> Option<Foreign<'a>> {
    let word = spot.token.word;
    if !is_name(&spot.token) {
        None
    } else if spot.is_before(b"(") {
        Some(Foreign::Value(ForeignValue::Term(word)))
    } else {
        Some(Foreign::Value(ForeignValue::Symbol(word)))
    }
}

/// What stands in place of a comparison's right side.
fn for_right_side<'a>(spot: Spot<'a>) -> Option<Foreign<'a>> {
    let word = spot.token.word;
    if is_sign(&spot.token, Sign::Equals) {
        spot.is_after(b"<").then_some(sign("<=", "=<"))
    } else if !is_name(&spot.token) {
        None
    } else if spot.is_before(b"(") {
        Some(Foreign::Call(word))
    } else {
        Some(Foreign::Value(ForeignValue::Symbol(word)))
    }
}

/// What stands in place of a guard's comparison.
fn for_comparison<'a>(spot: Spot<'a>) -> Option<Foreign<'a>> {
    let word = spot.token.word;
    if !is_name(&spot.token) {
        None
    } else if spot.is_before(b"(") {
        Some(Foreign::Call(word))
    } else {
        spot.is_compared()
            .then_some(Foreign::Value(ForeignValue::Symbol(word)))
    }
}

/// What stands in place of a body's atom.
fn for_atom<'a>(spot: Spot<'a>) -> Option<Foreign<'a>> {
    if !is_term(&spot.token) {
        return None;
    }
    if is_sign_at(spot.after, Sign::Equals) {
        return Some(Foreign::Equation);
    }
    if spot.is_compared() {
        return Some(Foreign::Comparison);
    }
    Some(Foreign::Arithmetic(operator_of(spot.after?)?))
}

/// What stands after an atom.
fn after_atom<'a>(side: Side, spot: Spot<'_>) -> Option<Foreign<'a>> {
    match (side, spot.token.token) {
        (Side::Head, Some(Token::Sign(Sign::Equals))) => spot
            .is_before(b">")
            .then_some(sign("=>", "<=>")),
        (_, Some(Token::Name(_))) => (spot.token.word == b"pragma".as_slice()).then_some(
            Foreign::Pragma,
        ),
        _ => None,
    }
}

/// What stands after a declared name.
fn after_name<'a>(token: &PlacedToken<'_>) -> Option<Foreign<'a>> {
    is_sign(token, Sign::Open).then_some(Foreign::Directive(ForeignDirective::Modes))
}

/// What stands where the clause wants something else.
fn in_place_of<'a>(wanted: Wanted, spot: Spot<'a>) -> Option<Foreign<'a>> {
    match wanted {
        Wanted::Term(_) => for_argument(spot),
        Wanted::GuardTerm => for_right_side(spot),
        Wanted::TermNext(_) | Wanted::GuardSign | Wanted::GuardNext => after_value(spot),
        Wanted::GuardItem => for_comparison(spot),
        Wanted::Item(Side::Body) => for_atom(spot),
        Wanted::AtomNext(side) | Wanted::ItemNext(side) => after_atom(side, spot),
        Wanted::Slash(Naming::Declare) => after_name(&spot.token),
        _ => None,
    }
}

/// What is foreign at this place of a clause, where no token begins.
pub(crate) fn foreign_byte<'a>(tokens: &[PlacedToken<'a>], place: usize) -> Option<Foreign<'a>> {
    let spot = Spot::at(tokens, place)?;
    let Some(word) = directive_of(tokens) else {
        return beside(spot).or(alone(spot.token.word));
    };
    match in_directive(word, spot.token.word) {
        Some(directive) => Some(Foreign::Directive(directive)),
        None => beside(spot),
    }
}

/// What is foreign where a clause stops having a form.
pub(crate) fn foreign_token<'a>(
    tokens: &[PlacedToken<'a>],
    stuck: Stuck<'a>,
) -> Option<Foreign<'a>> {
    let spot = Spot::at(tokens, stuck.place)?;
    if let Some(word) = directive_of(tokens) {
        if let Some(directive) = in_directive(word, spot.token.word) {
            return Some(Foreign::Directive(directive));
        }
    }
    in_place_of(stuck.wanted, spot)
}

/// What is told of a text in place of a number.
const NUMBERED: &str =
    "arguments are numbers and variables: give it a number; a node takes names in the facts that it is told";

/// A sentence about a word of the text, which is empty where it is about none.
#[derive(Clone, Copy)]
struct Phrase<'a> {
    word: &'a [u8],
    /// What stands behind the word.
    behind: &'static str,
    /// What stands behind that.
    more: &'static str,
}

/// A sentence about no word.
fn plain<'a>(sentence: &'static str) -> Phrase<'a> {
    of_word(&[], sentence, "")
}

/// A sentence that begins with a word.
fn of_word<'a>(word: &'a [u8], behind: &'static str, more: &'static str) -> Phrase<'a> {
    Phrase { word, behind, more }
}

impl<'a> ForeignValue<'a> {
    fn sentence(&self) -> Phrase<'a> {
        match *self {
            ForeignValue::Symbol(word) => of_word(word, "` is a symbol, and ", NUMBERED),
            ForeignValue::Quoted => of_word(&[], "this is quoted text, and ", NUMBERED),
            ForeignValue::Term(name) => of_word(
                name,
                "(..)` is a term, and arguments are numbers and variables: give its parts as arguments",
                "",
            ),
            ForeignValue::List => plain(
                "this is a list, and arguments are numbers and variables: tell a fact for each member",
            ),
        }
    }
}

impl ForeignDirective {
    fn text(self) -> &'static str {
        match self {
            ForeignDirective::Modes =>
                "modes and types are not read: write the number of arguments, as in `:- chr_constraint a/1, b/0.`",
            ForeignDirective::Types => "types are not read: leave this directive out",
            ForeignDirective::Options => "options are not read: leave this directive out",
            ForeignDirective::Modules =>
                "no module is read but `:- use_module(library(chr)).`: leave this directive out",
        }
    }
}

impl<'a> Foreign<'a> {
    fn sentence(&self) -> Phrase<'a> {
        match *self {
            Foreign::Directive(directive) => plain(directive.text()),
            Foreign::Value(value) => value.sentence(),
            Foreign::Arithmetic(word) => of_word(
                word,
                "` is arithmetic, and rules do none: tell what it gives, as each node its own total, or carry sums ('Sums' in docs/GUIDE.md)",
                "",
            ),
            Foreign::Call(name) => of_word(
                name,
                "(..)` is not read: guards compare numbers and variables, which always have values",
                "",
            ),
            Foreign::Sign { usual, here } => { of_word(usual.as_bytes(), "` is written `", here) }
            Foreign::Negation => plain(
                "`\\+` is not read: write the opposite comparison; that a fact is missing can't be asked",
            ),
            Foreign::Alternatives => plain(
                "`;` and `->` are not read: write a rule for each case, with its guard",
            ),
            Foreign::Comparison => plain("a body is atoms alone: write comparisons before `|`"),
            Foreign::Equation => plain(
                "facts hold numbers, and nothing makes two of them equal: write a value where its variable would stand, or follow 'New names for old' in docs/GUIDE.md",
            ),
            Foreign::Cut => plain("`!` is not read: leave it out"),
            Foreign::Comment => plain("`/* .. */` is no comment: begin each line of it with `%`"),
            Foreign::Pragma => plain("identifiers and pragmas are not read: leave them out"),
        }
    }

    /// Adds what it is, and what to write.
    pub(crate) fn push(&self, out: &mut String) -> Result<(), AllocError> {
        let phrase = self.sentence();
        let before = if phrase.word.is_empty() { "" } else { "`" };
        push_word(out, before, phrase.word, phrase.behind)?;
        out.push_str(phrase.more)?;
        out.push_str(match self {
            Foreign::Sign { .. } => "`",
            _ => "",
        })
    }
}
