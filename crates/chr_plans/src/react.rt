//! An instance of any rule with the active atom.
ghost use Rattle.std.specs.Prelude.{◌≡◌, ℕ, ◌<◌, length, slice_get, Some, IfSome, IfNone};
ghost use Rattle.chr_plans.specs.Reactions.{FitsPlan, Reacts, NoneBy, MayResume, first_row};

use crate::constants::is_ruled_out;
use crate::plan::Plan;
use crate::rows::{Rows, Seat};
use crate::search::find_partners;
use arrayvec::ArrayVec;
use chr_base::atom::Atom;
use chr_base::limits::MAX_HEADS;
use chr_base::rule::{Rule, Values};

/// Where a search for partners stands: at a plan, by its number, and at a row of the plan's first partner.
#[derive(Clone, Copy, Debug, PartialEq, Eq)]
pub struct Standing {
    pub plan: usize,
    pub row: usize,
}

/// The number of the plan at which a search begins.
fn first_plan(from: Option<Standing>) -> usize
    ensures some { IfSome from (λ standing. result ≡ standing.plan) }
    ensures none { IfNone from (result ≡ 0) }
{
    match from {
        Some(standing) => standing.plan,
        None => 0,
    }
}

/// The row at whose rank the search by a plan begins, where that is not the greatest.
fn row_in(from: Option<Standing>, plan: usize) -> Option<usize>
    ensures { IfSome result (λ row. from ≡ Some (record { plan = plan; row = row })) }
{
    match from {
        Some(standing) if standing.plan == plan => Some(standing.row),
        _ => None,
    }
}

/// The row of the plan's first partner by these seats, 0 where the plan has no partners.
fn first_row(plan: &Plan, seats: &[Seat]) -> usize
    ensures { result ≡ first_row (Some plan.now) seats.now }
{
    let place = plan
        .lookups
        .first()
        .map_or(0, |lookup| lookup.partner.place);
    seats.get(place).map_or(0, |seat| seat.row)
}

/// Where a search stands that has found these seats by the plan with this number.
pub fn standing_at(plans: &[Plan], plan: usize, seats: &[Seat]) -> Standing
    requires { plan < length plans.now }
    ensures { result ≡ record { plan = plan; row = first_row (slice_get plans.now plan) seats.now } }
{
    Standing {
        plan,
        row: first_row(&plans[plan], seats),
    }
}

/// The first plan, by its number from 0, by which the active atom has partners. Where there is one, `heads`, `seats`
/// and `values` have the instance, as `find_partners` fills them.
///
/// A search that has stood somewhere may go on from there, also after rows have died: what it has passed has no
/// instance. `standing_at` tells where it stands then.
pub fn react<R: Rows>(
    rows: &mut R,
    rules: &[Rule],
    plans: &[Plan],
    from: Option<Standing>,
    active: &Atom,
    heads: &mut ArrayVec<Atom, MAX_HEADS>,
    seats: &mut ArrayVec<Seat, MAX_HEADS>,
    values: &mut Values,
) -> Option<usize>
    requires fits { (j : ℕ) → j < length plans.now →
        FitsPlan rules.now (R.rows rows.old) (R.columns rows.old) (slice_get plans.now j) }
    requires passed { IfSome from (MayResume rules.now (R.rows rows.old) (R.rank rows.old) active.now plans.now) }
    ensures rows { R.rows rows.new ≡ R.rows rows.old }
    ensures columns { R.columns rows.new ≡ R.columns rows.old }
    ensures tables { R.tables rows.new ≡ R.tables rows.old }
    ensures rank { R.rank rows.new ≡ R.rank rows.old }
    ensures found { IfSome result (λ j.
        Reacts rules.now (R.rows rows.old) active.now (slice_get plans.now j) heads.new.items seats.new.items
        values.new.items) }
    ensures first { IfSome result (λ j. (k : ℕ) → k < j →
        NoneBy rules.now (R.rows rows.old) active.now (slice_get plans.now k)) }
    ensures standing { IfSome result (λ j. MayResume rules.now (R.rows rows.old) (R.rank rows.old) active.now plans.now
        (record { plan = j; row = first_row (slice_get plans.now j) seats.new.items })) }
    ensures none { IfNone result ((k : ℕ) → k < length plans.now →
        NoneBy rules.now (R.rows rows.old) active.now (slice_get plans.now k)) }
{
    for j in first_plan(from)..plans.len() {
        let plan = &plans[j];
        let rule = &rules[plan.rule];
        if is_ruled_out(plan, rule, active) {
            continue;
        }
        let row = row_in(from, j);
        if find_partners(
            rows,
            rule,
            plan.place,
            &plan.lookups,
            row,
            active,
            heads,
            seats,
            values,
        ) {
            return Some(j);
        }
    }
    None
}
