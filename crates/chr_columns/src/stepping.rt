//! Steps under rules that are given.
ghost use Rattle.std.specs.Prelude.{◌≡◌, ◌<◌, ◌≤◌, [], IfOk, IfErr, OnOk, map};
ghost use Rattle.chr_base.specs.FinBag.{◌⊕◌};
ghost use Rattle.chr_base.specs.Rewriting.{IsAtRest, Runs};
ghost use Rattle.chr_base.specs.Rules.{Step};
ghost use Rattle.chr_base.specs.Sameness.{parts_of};
ghost use Rattle.chr_base.specs.Stores.{store_of};
ghost use Rattle.chr_columns.specs.working.Resting.{stored, IsRested, Stands};

use crate::listing::push_live;
use crate::making::rested_for;
use crate::rested::{Found, Rested};
use crate::same::are_same;
use crate::settle::Outcome;
use chr_base::atom::Atom;
use chr_base::rule::Rule;
use chr_plans::react::Standing;
use std::alloc::AllocError;

/// Memory was refused after this many whole steps.
#[derive(Clone, Copy, Debug, PartialEq, Eq)]
pub struct Stopped {
    pub steps: u64,
}

/// All atoms become fresh, and nothing is at rest, under copies of these rules. Where memory is refused nothing
/// changes.
fn start_over(rested: &mut Rested, fresh: &mut Vec<Atom>, rules: &[Rule]) -> Result<(), AllocError>
    requires { IsRested rested.old }
    ensures rested { IsRested rested.new }
    ensures same { stored rested.new ⊕ store_of fresh.new.items ≡ stored rested.old ⊕ store_of fresh.old.items }
    ensures rules { OnOk result (map parts_of rested.new.rules.items ≡ map parts_of rules.now) }
{
    let empty = rested_for(*fresh.allocator(), rested.seed, rules)?;
    push_live(fresh, &rested.tables.tables)?;
    *rested = empty;
    Ok(())
}

/// Puts the rows under these rules. Where they were under other rules all atoms become fresh. Where memory is refused
/// nothing changes.
fn stand_under(
    rested: &mut Rested,
    fresh: &mut Vec<Atom>,
    standing: &mut Option<Standing>,
    rules: &[Rule],
) -> Result<(), AllocError>
    requires rested { IsRested rested.old }
    requires standing { Stands rested.old fresh.old.items standing.old }
    ensures rested { IsRested rested.new }
    ensures standing { Stands rested.new fresh.new.items standing.new }
    ensures same { stored rested.new ⊕ store_of fresh.new.items ≡ stored rested.old ⊕ store_of fresh.old.items }
    ensures rules { OnOk result (map parts_of rested.new.rules.items ≡ map parts_of rules.now) }
{
    if are_same(&rested.rules, rules) {
        return Ok(());
    }
    *standing = None;
    start_over(rested, fresh, rules)
}

/// A pool at rest keeps room for at most this many fresh atoms: as many as wait for several workers, most of which may
/// be in one pool. More come at once where sets of operations are merged.
const MOST_ROOM: usize = 16_384;

/// Gives room for fresh atoms back, where none is fresh and there is room for many.
fn give_room_back(fresh: &mut Vec<Atom>)
    ensures { fresh.new.items ≡ fresh.old.items }
{
    if fresh.is_empty() && fresh.capacity() > MOST_ROOM {
        *fresh = Vec::new(*fresh.allocator());
    }
}

/// Takes `most` steps under the rules of the rows, or fewer where nothing is fresh any more, or where memory is
/// refused.
fn advance_own(
    rested: &mut Rested,
    fresh: &mut Vec<Atom>,
    standing: &mut Option<Standing>,
    found: &mut Found,
    most: u64,
) -> Result<u64, Stopped>
    requires rested { IsRested rested.old }
    requires standing { Stands rested.old fresh.old.items standing.old }
    ensures rested { IsRested rested.new }
    ensures rules { rested.new.rules ≡ rested.old.rules }
    ensures standing { Stands rested.new fresh.new.items standing.new }
    ensures ok { IfOk result (λ n. Runs (Step rested.old.rules.items) n
        (stored rested.old ⊕ store_of fresh.old.items) (stored rested.new ⊕ store_of fresh.new.items)) }
    ensures most { IfOk result (λ n. n ≤ most) }
    ensures joined { IfOk result (λ n. n < most → fresh.new.items ≡ []) }
    ensures stopped { IfErr result (λ e. Runs (Step rested.old.rules.items) e.steps
        (stored rested.old ⊕ store_of fresh.old.items) (stored rested.new ⊕ store_of fresh.new.items)) }
    ensures fewer { IfErr result (λ e. e.steps < most) }
{
    for steps in 0..most {
        match rested.settle(fresh, standing, found) {
            Ok(Outcome::Fired) => {}
            Ok(Outcome::AtRest) => {
                give_room_back(fresh);
                return Ok(steps);
            }
            Err(_) => return Err(Stopped { steps }),
        }
    }
    Ok(most)
}

/// Takes `most` steps under these rules, or fewer where the store is at rest then, or where memory is refused.
pub(crate) fn advance_in(
    rested: &mut Rested,
    fresh: &mut Vec<Atom>,
    standing: &mut Option<Standing>,
    found: &mut Found,
    rules: &[Rule],
    most: u64,
) -> Result<u64, Stopped>
    requires rested { IsRested rested.old }
    requires standing { Stands rested.old fresh.old.items standing.old }
    ensures rested { IsRested rested.new }
    ensures standing { Stands rested.new fresh.new.items standing.new }
    ensures ok { IfOk result (λ n. Runs (Step rules.now) n
        (stored rested.old ⊕ store_of fresh.old.items) (stored rested.new ⊕ store_of fresh.new.items)) }
    ensures most { IfOk result (λ n. n ≤ most) }
    ensures rests { IfOk result (λ n. n < most →
        IsAtRest (Step rules.now) (stored rested.new ⊕ store_of fresh.new.items)) }
    ensures stopped { IfErr result (λ e. Runs (Step rules.now) e.steps
        (stored rested.old ⊕ store_of fresh.old.items) (stored rested.new ⊕ store_of fresh.new.items)) }
    ensures fewer { IfErr result (λ e. 0 < most → e.steps < most) }
{
    let Ok(()) = stand_under(rested, fresh, standing, rules) else {
        return Err(Stopped { steps: 0 });
    };
    advance_own(rested, fresh, standing, found, most)
}
