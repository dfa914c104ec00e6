//! Stores in which rules are applied.
ghost use Rattle.std.specs.Prelude.{◌≡◌, ◌<◌, ◌≤◌, ◌↔◌, IfOk, IfErr, IfSome, IfNone, IsTrue, OnOk, OnErr};
ghost use Rattle.std.specs.Bool.{OnTrue, OnFalse};
ghost use Rattle.chr_base.specs.FinBag.{◌⊕◌, ◌⊖◌, IsWithin};
ghost use Rattle.chr_base.specs.Stores.{Store, store_of};
ghost use Rattle.chr_base.specs.Rules.{Step, HasInstance, StepOn, HasNoStep};
ghost use Rattle.chr_base.specs.Rewriting.{IsAtRest, Runs};
ghost use Rattle.chr_columns.specs.Stepping.{StepsOrStays};

use arrayvec::ArrayVec;
use chr_base::atom::Atom;
use chr_base::bag::Bag;
use chr_base::limits::MAX_HEADS;
use chr_base::rule::Rule;
use chr_columns::columns::Stopped;
use std::alloc::{AllocError, Global};

/// A store in which rules are applied: a multiset of atoms, however they are kept.
pub trait Pool {
    ghost contents: { Self → Store };

    /// The heads, in place order, of an instance of the rule that is in the pool. None only where there is none. It
    /// takes no memory.
    fn find(&self, rule: &Rule) -> Option<ArrayVec<Atom, MAX_HEADS>>
        ensures instance { IfSome result (λ heads. HasInstance rule.now heads.items) }
        ensures there { IfSome result (λ heads. IsWithin (store_of heads.items) (contents self.now)) }
        ensures none { IfNone result (HasNoStep rule.now (contents self.now)) };

    /// One step by the instance with these heads. Where memory is refused nothing changes.
    fn fire(&mut self, rule: &Rule, heads: &[Atom]) -> Result<(), AllocError>
        requires instance { HasInstance rule.now heads.now }
        requires there { IsWithin (store_of heads.now) (contents self.old) }
        ensures ok { OnOk result (StepOn rule.now heads.now (contents self.old) (contents self.new)) }
        ensures err { OnErr result (contents self.new ≡ contents self.old) };

    /// Puts all of these atoms in. Where memory is refused nothing changes.
    fn insert(&mut self, atoms: &[Atom]) -> Result<(), AllocError>
        ensures ok { OnOk result (contents self.new ≡ contents self.old ⊕ store_of atoms.now) }
        ensures err { OnErr result (contents self.new ≡ contents self.old) };

    /// Whether all of these atoms are in the pool, as a multiset. It takes no memory.
    fn has(&self, atoms: &[Atom]) -> bool
        ensures { IsTrue result ↔ IsWithin (store_of atoms.now) (contents self.now) };

    /// Takes all of these atoms out, or none where as a multiset they are not all there. It takes no memory.
    fn remove(&mut self, atoms: &[Atom]) -> bool
        ensures there { IsTrue result ↔ IsWithin (store_of atoms.now) (contents self.old) }
        ensures taken { OnTrue result (contents self.new ≡ contents self.old ⊖ store_of atoms.now) }
        ensures kept { OnFalse result (contents self.new ≡ contents self.old) };

    /// The atoms as a bag.
    fn bag(&self, alloc: Global) -> Result<Bag, AllocError>
        ensures { IfOk result (λ b. b ≡ contents self.now) };

    /// Takes `most` steps of these rules, or fewer where the pool is at rest then, and tells how many. Where memory is
    /// refused the steps taken so far stand.
    fn advance(&mut self, rules: &[Rule], most: u64) -> Result<u64, Stopped>
        ensures ok { IfOk result (λ n. Runs (Step rules.now) n (contents self.old) (contents self.new)) }
        ensures most { IfOk result (λ n. n ≤ most) }
        ensures rests { IfOk result (λ n. n < most → IsAtRest (Step rules.now) (contents self.new)) }
        ensures stopped { IfErr result (λ e. Runs (Step rules.now) e.steps (contents self.old) (contents self.new)) };

    /// Takes one step of some rule. False, and nothing changes, where the pool is at rest; where memory is refused
    /// nothing changes either.
    fn step(&mut self, rules: &[Rule]) -> Result<bool, AllocError>
        ensures step { IfOk result (StepsOrStays rules.now (contents self.old) (contents self.new)) }
        ensures err { OnErr result (contents self.new ≡ contents self.old) };
}
