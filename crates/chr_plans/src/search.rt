//! The search for the partners of an active atom.
ghost use Rattle.std.specs.Prelude.{◌≡◌, ℕ, ◌<◌, ◌≤◌, length, get_or, IfSome, IfNone, IsTrue, is_some};
ghost use Rattle.std.specs.Bool.{OnTrue, OnFalse};
ghost use Rattle.chr_base.specs.Rules.{heads_at, heads_of, valued};
ghost use Rattle.chr_plans.specs.Seats.{seat, head, no_seat, IsSeated, NoPartners};
ghost use Rattle.chr_plans.specs.Plans.{IsPlan, FitsTables, FirstNoneAbove, first_place, partners_of, places_of};
ghost use Rattle.chr_plans.specs.Rows.{HasKey, LiesIn};
ghost use Rattle.chr_plans.specs.working.Searching.{AgreeAtKnown, NoneFrom, PastFrom, AreStarted, looked_in};

use crate::key::{Span, pass, read_key, read_span};
use crate::missing::is_hopeless;
use crate::plan::Lookup;
use crate::rows::{Rows, Seat, is_same};
use arrayvec::ArrayVec;
use chr_base::atom::Atom;
use chr_base::limits::MAX_HEADS;
use chr_base::rule::{Rule, Values};

/// Whether a partner of these look-ups sits in the row.
fn is_taken(lookups: &[Lookup], seats: &[Seat], row: Seat) -> bool
    requires few { length seats.now ≤ MAX_HEADS }
    requires places { (j : ℕ) → j < length lookups.now → get_or (looked_in lookups.now) j 0 < length seats.now }
    ensures taken { OnTrue result ((j : ℕ) × (j < length lookups.now)
        × (seat seats.now (get_or (looked_in lookups.now) j 0) ≡ row)) }
    ensures free { OnFalse result ((j : ℕ) → j < length lookups.now →
        seat seats.now (get_or (looked_in lookups.now) j 0) ≡ row → ⊥) }
{
    for lookup in lookups {
        if is_same(seats[lookup.partner.place], row) {
            return true;
        }
    }
    false
}

/// The row of the greatest rank, up to that of `from` where that is a row, that a look-up meets.
/// `inline(never)`: in both of its callers it would be no faster.
#[inline(never)]
pub(crate) fn first_from<R: Rows>(
    rows: &mut R,
    lookup: &Lookup,
    key: &[i64],
    span: &Span,
    from: Option<usize>,
) -> Option<usize>
    requires { IsTrue (is_some (R.columns rows.old lookup.now.table lookup.now.index)) }
    ensures rows { R.rows rows.new ≡ R.rows rows.old }
    ensures columns { R.columns rows.new ≡ R.columns rows.old }
    ensures tables { R.tables rows.new ≡ R.tables rows.old }
    ensures rank { R.rank rows.new ≡ R.rank rows.old }
    ensures lives { IfSome result (λ row. IsTrue (is_some (R.rows rows.old lookup.now.table row))) }
    ensures greatest { IfSome result (λ row. (other : ℕ) →
        IfSome from (λ first. R.rank rows.old lookup.now.table lookup.now.index other ≤
        R.rank rows.old lookup.now.table lookup.now.index first) →
        HasKey (R.columns rows.old lookup.now.table lookup.now.index) key.now
        (R.rows rows.old lookup.now.table other) →
        LiesIn span.now (R.rows rows.old lookup.now.table other) →
        R.rank rows.old lookup.now.table lookup.now.index other ≤
        R.rank rows.old lookup.now.table lookup.now.index row) }
    ensures none { IfNone result ((other : ℕ) →
        IfSome from (λ first. R.rank rows.old lookup.now.table lookup.now.index other ≤
        R.rank rows.old lookup.now.table lookup.now.index first) →
        HasKey (R.columns rows.old lookup.now.table lookup.now.index) key.now
        (R.rows rows.old lookup.now.table other) →
        ¬ (LiesIn span.now (R.rows rows.old lookup.now.table other))) }
{
    match from {
        Some(row) => rows.at_or_below(lookup.table, lookup.index, key, span, row),
        None => rows.first(lookup.table, lookup.index, key, span),
    }
}

/// Goes on to an instance from the active atom and the partners of the first `done` look-ups. The next look-up begins
/// at the row `from`, where there is one: in no instance its partner sits in a row of a greater rank.
fn complete<R: Rows>(
    rows: &mut R,
    rule: &Rule,
    active: usize,
    lookups: &[Lookup],
    done: usize,
    from: Option<usize>,
    heads: &mut [Atom],
    seats: &mut [Seat],
    values: &mut Values,
) -> bool
    requires plan { IsPlan rule.now active (partners_of lookups.now) }
    requires fits { FitsTables rule.now lookups.now (R.rows rows.old) (R.columns rows.old) }
    requires done { done ≤ length lookups.now }
    requires heads { length heads.old ≡ length (heads_of rule.now) }
    requires seats { length seats.old ≡ length (heads_of rule.now) }
    requires started { AreStarted (R.rows rows.old) (looked_in lookups.now) done heads.old seats.old }
    requires passed { IfSome from (λ row.
        PastFrom rule.now (R.rows rows.old) (R.rank rows.old) active lookups.now done heads.old seats.old row) }
    ensures rows { R.rows rows.new ≡ R.rows rows.old }
    ensures columns { R.columns rows.new ≡ R.columns rows.old }
    ensures tables { R.tables rows.new ≡ R.tables rows.old }
    ensures rank { R.rank rows.new ≡ R.rank rows.old }
    ensures lengths { (length heads.new ≡ length heads.old) × (length seats.new ≡ length seats.old) }
    ensures same { AgreeAtKnown (looked_in lookups.now) active done heads.new seats.new heads.old seats.old }
    ensures found { OnTrue result (IsSeated rule.now (R.rows rows.old) active heads.new seats.new) }
    ensures values { OnTrue result (heads_at (valued values.new.items) rule.now ≡ heads.new) }
    ensures passed { OnTrue result (PastFrom rule.now (R.rows rows.old) (R.rank rows.old) active lookups.now done
        heads.old seats.old (seat seats.new (get_or (looked_in lookups.now) done 0)).row) }
    ensures none { OnFalse result
        (NoneFrom rule.now (R.rows rows.old) active (looked_in lookups.now) done heads.old seats.old) }
{
    if done == lookups.len() {
        return rule.fires_by(heads, values);
    }
    let lookup = &lookups[done];
    if !pass(heads, &lookup.partner.tests) {
        return false;
    }
    let mut key = ArrayVec::new();
    read_key(heads, &lookup.partner.key, &mut key);
    let mut span = Span::default();
    read_span(
        heads,
        lookup.partner.order,
        &lookup.partner.limits,
        &mut span,
    );
    let Some(first) = first_from(rows, lookup, &key, &span, from) else {
        return false;
    };
    if is_hopeless(rows, active, lookups, done, heads) {
        return false;
    }
    let mut next = Some(first);
    while let Some(row) = next {
        let seat = Seat {
            table: lookup.table,
            row,
        };
        if !is_taken(&lookups[..done], seats, seat) {
            rows.read(lookup.table, row, &mut heads[lookup.partner.place]);
            seats[lookup.partner.place] = seat;
            if complete(
                rows,
                rule,
                active,
                lookups,
                done + 1,
                None,
                heads,
                seats,
                values,
            ) {
                return true;
            }
        }
        next = rows.next(lookup.table, lookup.index, &key, &span, row);
    }
    false
}

/// Makes the list `count` items long. Items that are there stay, and new ones are blank.
fn fit<T: Default + Drop, const CAP: usize>(items: &mut ArrayVec<T, CAP>, count: usize)
    requires { count ≤ CAP }
    ensures { length items.new.items ≡ count }
{
    items.truncate(count);
    for _ in items.len()..count {
        items.push(T::default());
    }
}

/// Makes room for as many heads and seats as the rule has head places, and puts the active atom at its place. The other
/// places have anything: partners are put there before they are read.
fn start(
    rule: &Rule,
    place: usize,
    active: &Atom,
    heads: &mut ArrayVec<Atom, MAX_HEADS>,
    seats: &mut ArrayVec<Seat, MAX_HEADS>,
)
    requires { place < length (heads_of rule.now) }
    ensures heads { length heads.new.items ≡ length (heads_of rule.now) }
    ensures active { head heads.new.items place ≡ active.now }
    ensures seats { length seats.new.items ≡ length (heads_of rule.now) }
    ensures nowhere { seat seats.new.items place ≡ no_seat }
{
    fit(heads, rule.places());
    fit(seats, rule.places());
    heads[place].copy_from(active);
    seats[place] = Seat { table: 0, row: 0 };
}

/// An instance of the rule with the active atom at this head place, counted from 0, and partners in different live
/// rows. Where there is one, it fills `heads` with its heads in place order, `seats` with their rows, and `values` with
/// those of the rule's variables; the seat at the active place says nothing. Where there is none, all three are left
/// with anything.
///
/// The search goes through the rows of the first partner from the greatest rank down, or from that of the row `from`,
/// where there is one. Where it finds an instance, it has passed the rows of greater ranks than that partner's, and may
/// go on from there.
pub fn find_partners<R: Rows>(
    rows: &mut R,
    rule: &Rule,
    place: usize,
    lookups: &[Lookup],
    from: Option<usize>,
    active: &Atom,
    heads: &mut ArrayVec<Atom, MAX_HEADS>,
    seats: &mut ArrayVec<Seat, MAX_HEADS>,
    values: &mut Values,
) -> bool
    requires place { place < length (heads_of rule.now) }
    requires plan { IsPlan rule.now place (partners_of lookups.now) }
    requires fits { FitsTables rule.now lookups.now (R.rows rows.old) (R.columns rows.old) }
    requires passed { IfSome from (λ row.
        FirstNoneAbove rule.now (R.rows rows.old) (R.rank rows.old) place active.now lookups.now row) }
    ensures rows { R.rows rows.new ≡ R.rows rows.old }
    ensures columns { R.columns rows.new ≡ R.columns rows.old }
    ensures tables { R.tables rows.new ≡ R.tables rows.old }
    ensures rank { R.rank rows.new ≡ R.rank rows.old }
    ensures found { OnTrue result (IsSeated rule.now (R.rows rows.old) place heads.new.items seats.new.items) }
    ensures active { OnTrue result (head heads.new.items place ≡ active.now) }
    ensures seats { length seats.new.items ≡ length (heads_of rule.now) }
    ensures values { OnTrue result (heads_at (valued values.new.items) rule.now ≡ heads.new.items) }
    ensures passed { OnTrue result (FirstNoneAbove rule.now (R.rows rows.old) (R.rank rows.old) place active.now
        lookups.now (seat seats.new.items (first_place lookups.now)).row) }
    ensures none { OnFalse result (NoPartners rule.now (R.rows rows.old) place active.now) }
{
    start(rule, place, active, heads, seats);
    complete(rows, rule, place, lookups, 0, from, heads, seats, values)
}
