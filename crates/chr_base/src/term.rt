//! What rules are made of: terms, comparisons and patterns of atoms.
ghost use Rattle.std.specs.Prelude.{◌≡◌, pos};
ghost use Rattle.chr_base.specs.declared.term.Term.TheVariants.{Constant};
ghost use Rattle.chr_base.specs.declared.term.Cmp.TheVariants.{Equal};

use crate::atom::SymbolId;
use crate::limits::MAX_ARITY;
use arrayvec::ArrayVec;

/// An argument in a rule: a variable, numbered from 1 by first occurrence in the rule's heads, or a constant.
#[derive(Clone, Copy, Debug, PartialEq, Eq)]
pub enum Term {
    Variable(u8),
    Constant(i64),
}

impl Default for Term {
    fn default() -> Self
        ensures { result ≡ Constant (pos 0) }
    {
        Term::Constant(0)
    }
}

/// A comparison sign of a guard.
#[derive(Clone, Copy, Debug, PartialEq, Eq)]
pub enum Cmp {
    Less,
    AtMost,
    Greater,
    AtLeast,
    Equal,
    NotEqual,
}

/// One comparison of a guard.
#[derive(Clone, Copy, Debug, PartialEq, Eq)]
pub struct Comparison {
    pub left: Term,
    pub cmp: Cmp,
    pub right: Term,
}

impl Default for Comparison {
    fn default() -> Self
        ensures { result ≡ record { left = Constant (pos 0); cmp = Equal; right = Constant (pos 0) } }
    {
        Comparison {
            left: Term::Constant(0),
            cmp: Cmp::Equal,
            right: Term::Constant(0),
        }
    }
}

/// An atom of a rule: a symbol applied to terms.
#[derive(Clone, Debug, Default, PartialEq, Eq, Drop)]
pub struct Pattern {
    pub symbol: SymbolId,
    pub args: ArrayVec<Term, MAX_ARITY>,
}

impl Pattern {
    /// An equal pattern. It takes no memory.
    pub fn copy(&self) -> Pattern
        ensures { result ≡ self.now }
    {
        let mut args = ArrayVec::new();
        for term in self.args.as_slice() {
            args.push(*term);
        }
        Pattern {
            symbol: self.symbol,
            args,
        }
    }
}
