//! In which of several pools an atom lies.
ghost use Rattle.std.specs.Prelude.{◌≡◌, ◌<◌, All, Some, slice_get};
ghost use Rattle.chr_base.specs.declared.atom.Atom.{Atom as AtomValue};
ghost use Rattle.chr_plans.specs.Joined.{IsLocal};
ghost use Rattle.chr_shards.specs.working.Placed.{place_in};

use arrayvec::ArrayVec;
use chr_base::atom::Atom;
use chr_base::derivation::Step;
use chr_base::rule::Rule;
use chr_columns::joint::{Joint, joint_of};
use chr_tables::hash::key_hash;

/// By which argument atoms are put into pools, and the seed under which it is hashed.
#[derive(Drop)]
pub(crate) struct Placing {
    pub(crate) seed: u64,
    pub(crate) joint: Joint,
}

impl Placing {
    /// The number of the pool for an atom, from 0, where there are `count` pools. Atoms of one value have one pool.
    pub(crate) fn place(&self, count: usize, atom: &Atom) -> usize
        requires { 0 < count }
        ensures place { result ≡ place_in self.now count atom.now }
        ensures within { result < count }
    {
        key_hash(self.seed, &[self.joint.value(atom)]) as usize % count
    }

    /// The number of the pool for a step: that of its first head.
    pub(crate) fn place_of_step(&self, count: usize, step: &Step) -> usize
        requires { 0 < count }
        ensures first { (a : AtomValue) → slice_get step.now.heads.items 0 ≡ Some a →
            result ≡ place_in self.now count a }
        ensures within { result < count }
    {
        match step.heads.first() {
            Some(atom) => self.place(count, atom),
            None => 0,
        }
    }
}

/// The argument by which atoms of these rules are put into pools, and the number of pools: at most `most`, and one
/// where the rules don't allow more. The seed is another than that of the pools' own keys.
pub(crate) fn placing_for(rules: &[Rule], seed: u64, most: usize) -> (Placing, usize)
    ensures some { 0 < result.1 }
    ensures local { 1 < result.1 → All (IsLocal result.0.joint.columns.items) rules.now }
{
    let seed = !seed;
    let Some(joint) = joint_of(rules) else {
        let columns = ArrayVec::new();
        let joint = Joint { columns };
        return (Placing { seed, joint }, 1);
    };
    let count = if joint.keeps_values(rules) {
        most.max(1)
    } else {
        1
    };
    (Placing { seed, joint }, count)
}
