//! Fresh atoms, one after another.
ghost use Rattle.std.specs.Prelude.{◌≡◌, ◌+◌, ◌<◌, ◌≤◌, ◌++◌, ◌∷◌, [], Ok, OnErr, IfSome, length};
ghost use Rattle.std.specs.Prelude.{vec_len, vec_capacity};
ghost use Rattle.chr_base.specs.declared.limits.TheConstants.{MAX_BODY};
ghost use Rattle.chr_base.specs.FinBag.{◌⊕◌};
ghost use Rattle.chr_base.specs.Stores.{store_of};
ghost use Rattle.chr_base.specs.Rules.{Step};
ghost use Rattle.chr_plans.specs.Actives.{one};
ghost use Rattle.chr_columns.specs.declared.settle.Outcome.TheVariants.{Fired, AtRest};
ghost use Rattle.chr_columns.specs.working.Resting.{stored, IsRested, MayGoOn, Stands};

use crate::rested::{Found, Rested};
use chr_base::atom::Atom;
use chr_base::limits::MAX_BODY;
use chr_base::lists::push_copy;
use chr_plans::react::Standing;
use std::alloc::AllocError;

/// What fresh atoms came to.
#[derive(Clone, Copy, Debug, PartialEq, Eq)]
pub(crate) enum Outcome {
    /// A fresh atom fired a rule.
    Fired,
    /// All fresh atoms joined those at rest.
    AtRest,
}

/// Takes the last fresh atom, which becomes the active one. It is copied, since an atom that was just made is slow to
/// move.
fn pop_into(fresh: &mut Vec<Atom>, active: &mut Atom)
    requires { 0 < length fresh.old.items }
    ensures items { fresh.old.items ≡ fresh.new.items ++ active.new ∷ [] }
    ensures shorter { vec_len fresh.new < vec_len fresh.old }
    ensures capacity { vec_capacity fresh.new ≡ vec_capacity fresh.old }
{
    let last = fresh.len() - 1;
    active.copy_from(&fresh[last]);
    fresh.truncate(last);
}

impl Rested {
    /// The active atom fires one of the rules, or joins those at rest. The search for its partners goes on where it has
    /// stood; where the atom is kept, it can go on there in the next step.
    fn take(
        &mut self,
        active: &Atom,
        fresh: &mut Vec<Atom>,
        standing: &mut Option<Standing>,
        found: &mut Found,
    ) -> Result<Outcome, AllocError>
        requires rested { IsRested self.old }
        requires standing { IfSome standing.old (MayGoOn self.old active.now) }
        requires room { vec_len fresh.old + (MAX_BODY + 1) ≤ vec_capacity fresh.old }
        ensures rested { IsRested self.new }
        ensures rules { self.new.rules ≡ self.old.rules }
        ensures standing { Stands self.new fresh.new.items standing.new }
        ensures fired { result ≡ Ok Fired → Step self.old.rules.items
            ((stored self.old ⊕ store_of fresh.old.items) ⊕ one active.now)
            (stored self.new ⊕ store_of fresh.new.items) }
        ensures joined { result ≡ Ok AtRest → stored self.new ≡ stored self.old ⊕ one active.now }
        ensures joined_same { result ≡ Ok AtRest → fresh.new ≡ fresh.old }
        ensures err { OnErr result (stored self.new ≡ stored self.old) }
        ensures err_same { OnErr result (fresh.new ≡ fresh.old) }
    {
        let table = self.table_for(active);
        let from = standing.take();
        let Some(occurrence) = self.react(table, active, from, found) else {
            self.put(table, active)?;
            return Ok(Outcome::AtRest);
        };
        *standing = self.fire(occurrence, found, fresh);
        Ok(Outcome::Fired)
    }

    /// One step of one of the rules with a fresh atom, or all of them join those at rest. Where memory is refused there
    /// is no step.
    pub(crate) fn settle(
        &mut self,
        fresh: &mut Vec<Atom>,
        standing: &mut Option<Standing>,
        found: &mut Found,
    ) -> Result<Outcome, AllocError>
        requires rested { IsRested self.old }
        requires standing { Stands self.old fresh.old.items standing.old }
        ensures rested { IsRested self.new }
        ensures rules { self.new.rules ≡ self.old.rules }
        ensures standing { Stands self.new fresh.new.items standing.new }
        ensures fired { result ≡ Ok Fired → Step self.old.rules.items
            (stored self.old ⊕ store_of fresh.old.items) (stored self.new ⊕ store_of fresh.new.items) }
        ensures joined { result ≡ Ok AtRest → fresh.new.items ≡ [] }
        ensures same { ¬ (result ≡ Ok Fired) →
            stored self.new ⊕ store_of fresh.new.items ≡ stored self.old ⊕ store_of fresh.old.items }
    {
        let mut active = Atom::default();
        while !fresh.is_empty() {
            fresh.reserve(MAX_BODY + 1)?;
            pop_into(fresh, &mut active);
            match self.take(&active, fresh, standing, found) {
                Ok(Outcome::AtRest) => {}
                Ok(Outcome::Fired) => return Ok(Outcome::Fired),
                Err(refused) => {
                    *standing = None;
                    push_copy(fresh, &active);
                    return Err(refused);
                }
            }
        }
        Ok(Outcome::AtRest)
    }
}
