//! What an instance changes.
ghost use Rattle.std.specs.Prelude.{◌≡◌, ◌+◌, ◌<◌, ◌≤◌, List, [], ◌∷◌, ◌++◌, Some, IfSome, length, slice_get, vec_len};
ghost use Rattle.std.specs.Prelude.{vec_capacity};
ghost use Rattle.chr_base.specs.declared.rule.Rule.{Rule as RuleValue};
ghost use Rattle.chr_base.specs.declared.limits.TheConstants.{MAX_BODY};
ghost use Rattle.chr_base.specs.declared.atom.Atom.{Atom as AtomValue};
ghost use Rattle.chr_base.specs.FinBag.{◌⊕◌};
ghost use Rattle.chr_base.specs.Stores.{store_of};
ghost use Rattle.chr_base.specs.Rules.{heads_of, heads_at, valued, Valuation, Step};
ghost use Rattle.chr_plans.specs.Seats.{seat, head};
ghost use Rattle.chr_plans.specs.Actives.{one};
ghost use Rattle.chr_columns.specs.working.Resting.{stored, IsRested, IsReacting, MayGoOn, Stands};
ghost use Rattle.chr_columns.specs.working.Firing.{coming, leaving_seats};

use crate::rested::{Found, Occurrence, Rested, kill_all};
use arrayvec::ArrayVec;
use chr_base::atom::Atom;
use chr_base::limits::{MAX_BODY, MAX_HEADS};
use chr_base::lists::push_copy;
use chr_base::rule::Rule;
use chr_plans::react::Standing;
use chr_plans::rows::Seat;

/// The seat at a place; the first row of the first table, where there is none.
fn seat_at(seats: &[Seat], place: usize) -> Seat
    ensures { result ≡ seat seats.now place }
{
    seats.get(place).copied().unwrap_or_default()
}

/// The rows of the removed heads other than the active one, which is at this place.
fn leaving_rows(rule: &Rule, place: usize, seats: &[Seat]) -> ArrayVec<Seat, MAX_HEADS>
    ensures { result.items ≡ leaving_seats rule.now place seats.now }
{
    let mut rows = ArrayVec::new();
    for other in rule.kept.len()..rule.places() {
        if other != place {
            rows.push(seat_at(seats, other));
        }
    }
    rows
}

/// The body under the found values becomes fresh, and the active atom where it is kept.
fn put_fresh(rule: &Rule, place: usize, found: &Found, fresh: &mut Vec<Atom>)
    requires place { place < length (heads_of rule.now) }
    requires bound { heads_at (valued found.now.values.items) rule.now ≡ found.now.heads.items }
    requires room { vec_len fresh.old + (MAX_BODY + 1) ≤ vec_capacity fresh.old }
    ensures store { (v : Valuation) → heads_at v rule.now ≡ found.now.heads.items →
        store_of fresh.new.items ≡ store_of fresh.old.items ⊕ coming rule.now place v }
    ensures last { place < length rule.now.kept.items →
        (xs : List AtomValue) × (fresh.new.items ≡ xs ++ head found.now.heads.items place ∷ []) }
{
    rule.push_body(&found.values, fresh);
    if place < rule.kept.len() {
        push_copy(fresh, &found.heads[place]);
    }
}

/// Where the search for the active atom stands, where it is kept.
fn standing_of(rule: &Rule, o: Occurrence) -> Option<Standing>
    ensures { IfSome result (λ s. (s ≡ o.standing) × (o.place < length rule.now.kept.items)) }
{
    if o.place < rule.kept.len() {
        Some(o.standing)
    } else {
        None
    }
}

impl Rested {
    /// The rule fires: the removed heads leave the rows, and its body becomes fresh, with the active atom where it
    /// is kept. Then the search for it may go on where it stands.
    pub(crate) fn fire(
        &mut self,
        o: Occurrence,
        found: &Found,
        fresh: &mut Vec<Atom>,
    ) -> Option<Standing>
        requires rested { IsRested self.old }
        requires instance { IsReacting self.old (head found.now.heads.items o.place) o found.now.heads.items
            found.now.seats.items found.now.values.items }
        requires standing { MayGoOn self.old (head found.now.heads.items o.place) o.standing }
        requires room { vec_len fresh.old + (MAX_BODY + 1) ≤ vec_capacity fresh.old }
        ensures rested { IsRested self.new }
        ensures rules { self.new.rules ≡ self.old.rules }
        ensures step { (r : RuleValue) → slice_get self.old.rules.items o.rule ≡ Some r → Step (r ∷ [])
            ((stored self.old ⊕ store_of fresh.old.items) ⊕ one (head found.now.heads.items o.place))
            (stored self.new ⊕ store_of fresh.new.items) }
        ensures standing { Stands self.new fresh.new.items result }
    {
        let rule = &self.rules[o.rule];
        let rows = leaving_rows(rule, o.place, &found.seats);
        put_fresh(rule, o.place, found, fresh);
        let standing = standing_of(rule, o);
        kill_all(&mut self.tables, &rows);
        standing
    }
}
