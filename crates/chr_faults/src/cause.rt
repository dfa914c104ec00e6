//! What is wrong with a clause, with the names and numbers at hand.

use crate::foreign::Foreign;
use crate::part::{push_number, push_word};
use crate::syntax::Stuck;
use crate::word::ToldSymbol;
use chr_base::limits::{
    MAX_ARITY, MAX_BODY, MAX_COMPARISONS, MAX_HEADS, MAX_NAME, MAX_RULES, MAX_SYMBOLS, MAX_WEIGHT,
};
use chr_read::Fault;
use std::alloc::AllocError;

/// What has grown too large.
#[derive(Clone, Copy)]
pub(crate) enum Over<'a> {
    /// A name or a variable.
    Word(&'a [u8]),
    /// A symbol's number of arguments.
    Arity(ToldSymbol<'a>),
    Heads(usize),
    Comparisons(usize),
    Body(usize),
    Symbols,
    Rules,
}

/// What is wrong with a weight.
#[derive(Clone, Copy)]
pub(crate) enum WeightFault<'a> {
    /// A number that is out of range.
    Number(&'a [u8]),
    /// Zeros alone.
    Zero,
    /// The symbol has a weight already.
    Second(ToldSymbol<'a>),
}

/// What is wrong with a clause.
#[derive(Clone, Copy)]
pub(crate) enum Cause<'a> {
    /// A byte that may not stand outside comments.
    Byte(u8),
    /// A byte at which no token begins, and the form of usual CHR that has it.
    NoToken(&'a [u8], Option<Foreign<'a>>),
    Empty,
    /// Where the clause has no form, and the form of usual CHR that stands there.
    Form(Stuck<'a>, Option<Foreign<'a>>),
    Propagation,
    Undeclared(ToldSymbol<'a>),
    DeclaredTwice(ToldSymbol<'a>),
    Over(Over<'a>),
    /// A variable of guard or body that no head has.
    Unbound(&'a [u8]),
    /// `_` in guard or body.
    Anonymous,
    Number(&'a [u8]),
    Weight(WeightFault<'a>),
    Unended,
    /// Nothing more is known.
    Fault(Fault),
}

impl Stuck<'_> {
    /// Adds behind what it is stuck.
    fn push_after(&self, out: &mut String) -> Result<(), AllocError> {
        match self.after {
            Some(word) => { push_word(out, " after `", word, "`") }
            None => out.push_str(" at its beginning"),
        }
    }

    /// Adds at what it is stuck.
    fn push_found(&self, out: &mut String) -> Result<(), AllocError> {
        match self.found {
            Some(token) => { push_word(out, ", not `", token.word, "`") }
            None => out.push_str(", but it ends"),
        }
    }

    fn push(&self, out: &mut String) -> Result<(), AllocError> {
        out.push_str("this clause has no form: ")?;
        out.push_str(self.wanted.text())?;
        out.push_str(" was expected")?;
        self.push_after(out)?;
        self.push_found(out)
    }
}

/// Adds how many there are, and how many are allowed.
fn push_many(
    out: &mut String,
    before: &str,
    number: usize,
    behind: &str,
    most: usize,
) -> Result<(), AllocError> {
    push_number(out, before, number as u64, behind)?;
    push_number(out, ", ", most as u64, " are allowed")
}

impl Over<'_> {
    fn push(&self, out: &mut String) -> Result<(), AllocError> {
        match *self {
            Over::Word(word) => {
                push_word(out, "`", word, "` has ")?;
                push_many(out, "", word.len(), " bytes", MAX_NAME)
            }
            Over::Arity(symbol) => {
                symbol.push(out)?;
                let before = " has too many arguments, ";
                push_number(out, before, MAX_ARITY as u64, " are allowed")
            }
            Over::Heads(number) => push_many(out, "the rule has ", number, " heads", MAX_HEADS),
            Over::Comparisons(number) => {
                push_many(
                    out,
                    "the guard has ",
                    number,
                    " comparisons",
                    MAX_COMPARISONS,
                )
            }
            Over::Body(number) => push_many(out, "the body has ", number, " atoms", MAX_BODY),
            Over::Symbols => {
                let behind = " of the program";
                push_many(out, "this is symbol ", MAX_SYMBOLS + 1, behind, MAX_SYMBOLS)
            }
            Over::Rules => {
                push_many(
                    out,
                    "this is rule ",
                    MAX_RULES + 1,
                    " of the program",
                    MAX_RULES,
                )
            }
        }
    }
}

impl WeightFault<'_> {
    fn push(&self, out: &mut String) -> Result<(), AllocError> {
        match *self {
            WeightFault::Number(word) => {
                push_word(out, "the weight `", word, "` is outside 0 to ")?;
                push_number(out, "", MAX_WEIGHT, "")
            }
            WeightFault::Zero => out.push_str("a weight of zeros alone is none"),
            WeightFault::Second(symbol) => {
                symbol.push(out)?;
                out.push_str(" has a weight already")
            }
        }
    }
}

/// Adds a symbol, and what it is.
fn push_symbol(out: &mut String, symbol: ToldSymbol<'_>, behind: &str) -> Result<(), AllocError> {
    symbol.push(out)?;
    out.push_str(behind)
}

impl Cause<'_> {
    /// Adds what is wrong.
    pub(crate) fn push(&self, out: &mut String) -> Result<(), AllocError> {
        match *self {
            Cause::Byte(byte) => {
                push_number(
                    out,
                    "the byte ",
                    u64::from(byte),
                    " may not stand outside comments",
                )
            }
            Cause::NoToken(word, _) => push_word(out, "no token begins with `", word, "`"),
            Cause::Empty => out.push_str("this clause is empty"),
            Cause::Form(stuck, _) => stuck.push(out),
            Cause::Propagation => {
                out.push_str("this is a propagation rule, and these are not read")
            }
            Cause::Undeclared(symbol) => push_symbol(out, symbol, " is not declared"),
            Cause::DeclaredTwice(symbol) => push_symbol(out, symbol, " is declared already"),
            Cause::Over(over) => over.push(out),
            Cause::Unbound(word) => push_word(out, "`", word, "` stands in no head"),
            Cause::Anonymous => {
                out.push_str("`_` is a variable of its own, which stands in no head")
            }
            Cause::Number(word) => push_word(out, "`", word, "` is no number of 64 bits"),
            Cause::Weight(fault) => fault.push(out),
            Cause::Unended => out.push_str("this clause has no full stop"),
            Cause::Fault(fault) => {
                push_number(out, "this clause has fault ", u64::from(fault.number()), "")
            }
        }
    }
}

impl<'a> Cause<'a> {
    /// The form of usual CHR that stands there.
    pub(crate) fn foreign(&self) -> Option<Foreign<'a>> {
        match self {
            Cause::NoToken(_, foreign) | Cause::Form(_, foreign) => *foreign,
            _ => None,
        }
    }

    /// What would be right.
    pub(crate) fn remedy(&self) -> &'static str {
        match self {
            Cause::Byte(_) =>
                "write tabs, line feeds, carriage returns and the characters from space to `~`",
            Cause::NoToken(..) => "write names, variables, numbers and the signs of the language",
            Cause::Empty => "remove the full stop, or write a clause before it",
            Cause::Form(stuck, _) => stuck.remedy(),
            Cause::Propagation =>
                "rules take facts away, and none only adds: see 'What can't be had' in docs/GUIDE.md",
            Cause::Undeclared(_) =>
                "declare it in an earlier clause, as in `:- chr_constraint a/1, b/0.`",
            Cause::DeclaredTwice(_) => "declare each name once for each number of arguments",
            Cause::Over(_) => "write less, or part the rule or the program",
            Cause::Unbound(_) => "write it in a head too",
            Cause::Anonymous => "write `_` in heads alone, and a variable with a name here",
            Cause::Number(_) => "numbers are from -9223372036854775808 to 9223372036854775807",
            Cause::Weight(_) => "give each symbol one weight, of one number or two, not both 0",
            Cause::Unended => "end it by a full stop",
            Cause::Fault(_) => "see the table of faults",
        }
    }
}
