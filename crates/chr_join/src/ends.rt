//! A memory of ends: cases are many, and the different stores that come of them are few.
ghost use Rattle.std.specs.Prelude.{IfOk, OnOk, IfSome, List};
ghost use Rattle.std.specs.Bool.{OnTrue};
ghost use Rattle.chr_base.specs.declared.rule.Rule.{Rule as RuleValue};
ghost use Rattle.chr_base.specs.Stores.{Store};
ghost use Rattle.chr_weights.specs.WeighedPrograms.{rules_in};
ghost use Rattle.chr_join.specs.working.Ends.{EndsIn, AreEnds};

use chr_base::atom::Atom;
use chr_base::bag::Bag;
use chr_rewrite::plain::plain_end;
use chr_weights::Weighed;
use std::alloc::{AllocError, Global};

/// The number of stores that are remembered.
const PLACES: usize = 1024;

/// A store, and the end of its plain derivation.
#[derive(Drop)]
pub(crate) struct Known {
    pub(crate) store: Bag,
    pub(crate) end: Bag,
}

/// The ends of stores, each at the place that a hash of the store names. Where two stores have one place, the later is
/// remembered.
#[derive(Drop)]
pub(crate) struct Ends {
    pub(crate) entries: Vec<Option<Known>>,
}

/// The hash with one more value.
fn mixed(hash: u64, value: u64) -> u64 {
    let product = (hash ^ value).wrapping_mul(0x9E37_79B9_7F4A_7C15);
    product ^ (product >> 32)
}

/// The hash with the values of an atom.
fn mixed_atom(hash: u64, atom: &Atom) -> u64 {
    let mut hash = mixed(hash, u64::from(atom.symbol.0));
    for value in atom.args.as_slice() {
        hash = mixed(hash, value.cast_unsigned());
    }
    hash
}

/// The place of a store.
fn place_of(store: &Bag) -> usize {
    let mut hash = 0;
    for atom in store.atoms() {
        hash = mixed_atom(hash, atom);
    }
    (hash % PLACES as u64) as usize
}

impl Ends {
    /// No end is known. It takes no memory.
    pub(crate) fn new(alloc: Global) -> Ends
        ensures { (rules : List RuleValue) → AreEnds rules result.entries.items }
    {
        Ends {
            entries: Vec::new(alloc),
        }
    }

    /// The end that is remembered of a store.
    fn known(&self, place: usize, store: &Bag) -> Option<&Bag>
        ensures { IfSome result (λ end. (rules : List RuleValue) →
            AreEnds rules self.now.entries.items → EndsIn rules store.now end.now) }
    {
        match self.entries.get(place) {
            Some(Some(known)) if known.store.is_same(store) => Some(&known.end),
            _ => None,
        }
    }

    /// Whether both stores are remembered with one end.
    pub(crate) fn have_one_end(&self, left: &Bag, right: &Bag) -> bool
        ensures { (rules : List RuleValue) → AreEnds rules self.now.entries.items →
            OnTrue result ((end : Store) × EndsIn rules left.now end × EndsIn rules right.now end) }
    {
        let Some(left_end) = self.known(place_of(left), left) else {
            return false;
        };
        let Some(right_end) = self.known(place_of(right), right) else {
            return false;
        };
        left_end.is_same(right_end)
    }

    /// Remembers the end of a store.
    fn keep(&mut self, place: usize, known: Known) -> Result<(), AllocError>
        ensures { OnOk result ((rules : List RuleValue) → AreEnds rules self.old.entries.items →
            EndsIn rules known.store known.end → AreEnds rules self.new.entries.items) }
    {
        for _ in self.entries.len()..PLACES {
            self.entries.push(None)?;
        }
        if place < self.entries.len() {
            self.entries[place] = Some(known);
        }
        Ok(())
    }

    /// The end of the store's plain derivation.
    pub(crate) fn end_of(
        &mut self,
        alloc: Global,
        weighed: &Weighed,
        store: Bag,
    ) -> Result<Bag, AllocError>
        requires { AreEnds (rules_in weighed.now) self.old.entries.items }
        ensures known { IfOk result (λ _. AreEnds (rules_in weighed.now) self.new.entries.items) }
        ensures end { IfOk result (EndsIn (rules_in weighed.now) store) }
    {
        let place = place_of(&store);
        if let Some(end) = self.known(place, &store) {
            return end.copy(alloc);
        }
        let end = plain_end(alloc, weighed, &store)?;
        let known = end.copy(alloc)?;
        self.keep(place, Known { store, end: known })?;
        Ok(end)
    }
}
