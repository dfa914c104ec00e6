//! Symbols of a text, as they are told.

use crate::part::{push_number, push_word};
use std::alloc::AllocError;

/// How many arguments a symbol has.
#[derive(Clone, Copy)]
pub(crate) enum ToldArity<'a> {
    Digits(&'a [u8]),
    Number(usize),
}

/// The value of digits, where 64 bits hold it.
pub(crate) fn number_of(digits: &[u8]) -> Option<u64> {
    let text = str::from_utf8(digits).ok()?;
    text.parse::<u64>().ok()
}

impl ToldArity<'_> {
    /// The number, where 64 bits hold it.
    pub(crate) fn number(&self) -> Option<u64> {
        match self {
            ToldArity::Digits(digits) => number_of(digits),
            ToldArity::Number(number) => Some(*number as u64),
        }
    }

    /// Adds the number, between these.
    fn push(&self, out: &mut String, before: &str, behind: &str) -> Result<(), AllocError> {
        match self {
            ToldArity::Digits(digits) => push_word(out, before, digits, behind),
            ToldArity::Number(number) => push_number(out, before, *number as u64, behind),
        }
    }
}

/// A symbol as a text has it.
#[derive(Clone, Copy)]
pub(crate) struct ToldSymbol<'a> {
    pub name: &'a [u8],
    pub arity: ToldArity<'a>,
}

impl ToldSymbol<'_> {
    /// Adds its name and its number of arguments, between back quotes.
    pub(crate) fn push(&self, out: &mut String) -> Result<(), AllocError> {
        push_word(out, "`", self.name, "")?;
        self.arity.push(out, "/", "`")
    }
}
