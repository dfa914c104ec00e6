//! Shards.
ghost use Rattle.std.specs.Prelude.{◌≡◌, ◌<◌, ◌≤◌, ◌↔◌, ◌++◌, IfOk, IfErr, IsTrue, OnOk, OnErr, string_bytes};
ghost use Rattle.std.specs.Bool.{OnTrue, OnFalse};
ghost use Rattle.std.specs.Arc.{arc_value};
ghost use Rattle.chr_base.specs.FinBag as bag;
ghost use Rattle.chr_base.specs.FinBag.{◌⊕◌, ◌⊖◌, IsWithin};
ghost use Rattle.chr_base.specs.Programs.{declarations};
ghost use Rattle.chr_base.specs.Rewriting.{IsAtRest, Reaches};
ghost use Rattle.chr_base.specs.Rules.{Step as RuleStep};
ghost use Rattle.chr_base.specs.Stores.{size, store_of, stores_sum};
ghost use Rattle.chr_base.specs.Texts.{store_text};
ghost use Rattle.chr_weights.specs.WeighedPrograms.{program_of, rules_in};
ghost use Rattle.chr_rewrite.specs.Derivations.{IsApplicable, LeadsTo};
ghost use Rattle.chr_rewrite.specs.Pools.{TookSteps};

use crate::hastening::hasten_each;
use crate::placing::{Placing, placing_for};
use crate::pools::{
    arranged, bag_by, bag_of, empty_pools, have_each, insert_each, remove_each, rest_all,
    rest_each, waiting,
};
use chr_base::atom::Atom;
use chr_base::bag::Bag;
use chr_base::derivation::Step;
use chr_columns::columns::Columns;
use chr_printing::push_text;
use chr_rewrite::replay::take_step;
use chr_rewrite::resting::Stopped;
use chr_weights::Weighed;
use std::alloc::{AllocError, Global};
use std::marker::Model;
use std::sync::Arc;
use std::thread::Threads;

/// A store under the rules of a program. It is kept in several pools where all atoms of an instance of each rule, and
/// those that it puts in, have one value of an argument; otherwise in one pool.
pub struct Shards {
    weighed: Arc<Weighed>,
    placing: Placing,
    pools: Vec<Columns>,
}

/// What is derived would be proved again in each crate that lets shards go.
impl Drop for Shards {
    fn drop(self) {
        let Shards {
            weighed: _weighed,
            placing: _placing,
            pools: _pools,
        } = self;
    }
}

impl Model for Shards {
    ghost use Rattle.std.specs.Arc.{arc_value};
    ghost use Rattle.chr_base.specs.Stores.{stores_sum};
    ghost use Rattle.chr_weights.specs.WeighedPrograms.{rules_in};
    ghost use Rattle.chr_shards.specs.Ruled.{Ruled};
    ghost use Rattle.chr_shards.specs.working.Codes.{coded_ruled};
    ghost use Rattle.chr_shards.specs.working.Placed.{AreShards};

    ghost Value = { Ruled };

    ghost coded = { coded_ruled };

    ghost view = { λ s. record { weighed = arc_value s.weighed; store = stores_sum s.pools.items } };

    ghost invariant = { λ s. AreShards s.placing (rules_in (arc_value s.weighed)) s.pools.items };
}

impl Shards {
    /// The empty store under a program, in at most `most` pools. Its keys are hashed under the seed.
    pub fn open(
        alloc: Global,
        weighed: Arc<Weighed>,
        seed: u64,
        most: usize,
    ) -> Result<Shards, AllocError>
        ensures weighed { IfOk result (λ s. s.weighed ≡ arc_value weighed) }
        ensures store { IfOk result (λ s. s.store ≡ bag.empty) }
    {
        let rules = weighed.program().rules();
        let (placing, count) = placing_for(rules, seed, most);
        let pools = empty_pools(alloc, seed, rules, count)?;
        Ok(Shards {
            weighed,
            placing,
            pools,
        })
    }

    /// The number of pools in which the store is kept. It takes no memory.
    pub fn count(&self) -> usize {
        self.pools.len()
    }

    /// The number of atoms that no rule has been tried on yet, among all that are there. It takes no memory.
    pub fn waiting(&self) -> usize
        ensures { result ≤ size self.now.store }
    {
        waiting(&self.pools)
    }

    /// Puts all of these atoms in. Where memory is refused nothing changes.
    pub fn insert(&mut self, atoms: &[Atom]) -> Result<(), AllocError>
        ensures weighed { self.new.weighed ≡ self.old.weighed }
        ensures ok { OnOk result (self.new.store ≡ self.old.store ⊕ store_of atoms.now) }
        ensures err { OnErr result (self.new ≡ self.old) }
    {
        insert_each(&self.placing, &mut self.pools, atoms)
    }

    /// Whether all of these atoms are in the store, as a multiset. It takes no memory.
    pub fn has(&self, atoms: &[Atom]) -> bool
        ensures { IsTrue result ↔ IsWithin (store_of atoms.now) self.now.store }
    {
        have_each(&self.placing, &self.pools, atoms)
    }

    /// Takes these atoms out, as far as they are there. It takes no memory.
    pub fn remove(&mut self, atoms: &[Atom])
        ensures weighed { self.new.weighed ≡ self.old.weighed }
        ensures left { self.new.store ≡ self.old.store ⊖ store_of atoms.now }
    {
        remove_each(&self.placing, &mut self.pools, atoms);
    }

    /// The atoms as a bag.
    pub fn bag(&self, alloc: Global) -> Result<Bag, AllocError>
        ensures { IfOk result (λ b. b ≡ self.now.store) }
    {
        bag_of(alloc, &self.pools)
    }

    /// The atoms as a bag, which several threads put in order where there are many.
    pub fn bag_by<R: Threads + Sync>(&self, rt: &R, alloc: Global) -> Result<Bag, AllocError>
        ensures { IfOk result (λ b. b ≡ self.now.store) }
    {
        bag_by(rt, alloc, &self.pools)
    }

    /// Adds the text of the store at the end of a text: the text of its bag, but no bag is made. At most `threads`
    /// threads work at it. False, and nothing is added, where that can't be done ([`push_text`]).
    pub fn push_text<R: Threads + Sync>(
        &self,
        rt: &R,
        alloc: Global,
        threads: usize,
        out: &mut String,
    ) -> Result<bool, AllocError>
        ensures text { IfOk result (λ written. OnTrue written (string_bytes out.new ≡ string_bytes out.old
            ++ store_text (declarations (program_of self.now.weighed)) self.now.store)) }
        ensures same { IfOk result (λ written. OnFalse written (out.new ≡ out.old)) }
    {
        push_text(rt, alloc, threads, self.weighed.program(), &self.pools, out)
    }

    /// All atoms, those of each pool in the order of the arguments by which the rules join them.
    pub fn arranged(&self, alloc: Global) -> Result<Vec<Atom>, AllocError>
        ensures { IfOk result (λ atoms. store_of atoms.items ≡ self.now.store) }
    {
        arranged(alloc, &self.pools)
    }

    /// Takes a step of the program, where it is an instance in the store. Where it is none, or where memory is refused,
    /// nothing changes.
    pub fn take_step(&mut self, step: &Step) -> Result<bool, AllocError>
        ensures weighed { self.new.weighed ≡ self.old.weighed }
        ensures taken { IfOk result (λ taken. OnTrue taken
            (LeadsTo (rules_in self.old.weighed) step.now self.old.store self.new.store)) }
        ensures none { IfOk result (λ taken. OnFalse taken
            (¬ IsApplicable (rules_in self.old.weighed) self.old.store step.now)) }
        ensures same { IfOk result (λ taken. OnFalse taken (self.new ≡ self.old)) }
        ensures err { OnErr result (self.new ≡ self.old) }
    {
        let place = self.placing.place_of_step(self.pools.len(), step);
        take_step(self.weighed.program().rules(), &mut self.pools[place], step)
    }

    /// Whether no rule has a step in the store. It takes no memory.
    pub fn at_rest(&self) -> bool
        ensures { IsTrue result ↔ IsAtRest (RuleStep (rules_in self.now.weighed)) self.now.store }
    {
        rest_all(&self.weighed, &self.pools)
    }

    /// Takes steps until the store is at rest, and tells how many: a number of 2^64 or more is told as the greatest
    /// u64. A store at rest stays as it is.
    ///
    /// # Errors
    /// Where memory is refused, with the number of steps taken so far, which stand.
    pub fn rest(&mut self) -> Result<u64, Stopped>
        ensures weighed { self.new.weighed ≡ self.old.weighed }
        ensures ok { IfOk result (λ n. TookSteps (program_of self.old.weighed) n self.old.store self.new.store) }
        ensures rests { OnOk result (IsAtRest (RuleStep (rules_in self.old.weighed)) self.new.store) }
        ensures stopped { IfErr result (λ e.
            TookSteps (program_of self.old.weighed) e.steps self.old.store self.new.store) }
    {
        rest_each(&self.weighed, &mut self.pools)
    }

    /// Takes steps by `threads` threads, each in pools of its own, until the store is at rest or memory is refused to
    /// one of them. [`Shards::rest`] then takes the steps that are left.
    pub fn hasten<R: Threads + Sync>(&mut self, rt: &R, threads: usize)
        requires { 0 < threads }
        ensures weighed { self.new.weighed ≡ self.old.weighed }
        ensures reached { Reaches (RuleStep (rules_in self.old.weighed)) self.old.store self.new.store }
    {
        hasten_each(rt, &self.weighed, &mut self.pools, threads);
    }
}
