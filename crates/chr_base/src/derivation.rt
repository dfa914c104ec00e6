//! Steps and derivations.
ghost use Rattle.std.specs.Prelude.{◌≡◌};

use crate::atom::Atom;
use crate::bag::Bag;
use crate::limits::MAX_HEADS;
use arrayvec::ArrayVec;

/// One step: a rule, numbered from 1, and the head atoms of its instance in place order.
#[derive(Debug, PartialEq, Eq, Drop)]
pub struct Step {
    pub rule: u32,
    pub heads: ArrayVec<Atom, MAX_HEADS>,
}

/// A first store, and the steps that are taken from there.
#[derive(Drop)]
pub struct Derivation {
    pub start: Bag,
    pub steps: Vec<Step>,
}

impl Step {
    /// An equal step. It takes no memory.
    pub fn copy(&self) -> Step
        ensures { result ≡ self.now }
    {
        let mut heads = ArrayVec::new();
        for atom in self.heads.as_slice() {
            heads.push(atom.copy());
        }
        Step {
            rule: self.rule,
            heads,
        }
    }
}
