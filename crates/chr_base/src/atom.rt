//! Symbols and atoms.
ghost use Rattle.std.specs.Prelude.{◌≡◌, ◌≤◌, length};
ghost use Rattle.std.specs.Ordering.{eq_by_cmp, is_gt};
ghost use Rattle.chr_base.specs.declared.limits.TheConstants.{MAX_ARITY};
ghost use Rattle.chr_base.specs.Atoms.{atom_cmp};

use crate::limits::MAX_ARITY;
use arrayvec::ArrayVec;
use std::cmp::Ordering;

/// A symbol of a program: its place, from 0, in the order of declaration.
#[derive(Clone, Copy, Debug, Default, PartialEq, Eq, PartialOrd, Ord)]
pub struct SymbolId(pub u16);

/// A ground atom: a symbol applied to values.
#[derive(Clone, Debug, Default, PartialEq, Eq, Drop)]
pub struct Atom {
    pub symbol: SymbolId,
    pub args: ArrayVec<i64, MAX_ARITY>,
}

impl Atom {
    /// The order of a bag: by symbol, then by the number of arguments, and then by the arguments, the first first.
    pub fn order(&self, other: &Atom) -> Ordering
        ensures { result ≡ atom_cmp self.now other.now }
    {
        self.symbol
            .0
            .cmp(&other.symbol.0)
            .then(self.args.len().cmp(&other.args.len()))
            .then(self.args.as_slice().cmp(other.args.as_slice()))
    }

    /// Whether this atom comes after the other.
    pub fn is_after(&self, other: &Atom) -> bool
        ensures { result ≡ is_gt (atom_cmp self.now other.now) }
    {
        self.order(other).is_gt()
    }

    /// Whether the two are one atom.
    pub fn is_same(&self, other: &Atom) -> bool
        ensures { result ≡ eq_by_cmp atom_cmp self.now other.now }
    {
        self.order(other).is_eq()
    }

    /// Becomes the atom of a symbol and these values, at most [`MAX_ARITY`] of them.
    pub fn set(&mut self, symbol: SymbolId, values: &[i64])
        requires { length values.now ≤ MAX_ARITY }
        ensures { self.new ≡ record { symbol = symbol; args = record { items = values.now } } }
    {
        self.symbol = symbol;
        self.args.clear();
        for value in values {
            self.args.push(*value);
        }
    }

    /// Becomes equal to another atom.
    pub fn copy_from(&mut self, other: &Atom)
        ensures { self.new ≡ other.now }
    {
        self.set(other.symbol, &other.args);
    }

    /// An equal atom. It takes no memory. [`Atom::copy_from`] into an atom that is there saves a move.
    pub fn copy(&self) -> Atom
        ensures { result ≡ self.now }
    {
        let mut copy = Atom::default();
        copy.copy_from(self);
        copy
    }
}
