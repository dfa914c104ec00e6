//! An instance of any rule among all atoms, at rest or fresh.
ghost use Rattle.std.specs.Prelude.{◌≡◌, ◌+◌, ◌*◌, ◌<◌, ◌^◌, length, get_or, Some, None, IfSome, IfNone};
ghost use Rattle.chr_base.specs.FinBag.{IsWithin};
ghost use Rattle.chr_base.specs.Stores.{store_of};
ghost use Rattle.chr_base.specs.Rules.{HasInstance, HasNoStep, heads_of, has_shape};
ghost use Rattle.chr_plans.specs.Plans.{pattern_at};
ghost use Rattle.chr_plans.specs.Seats.{NoPartners};
ghost use Rattle.chr_columns.specs.working.Listing.{rows_in_turn, all_of};
ghost use Rattle.chr_columns.specs.working.Finding.{plain, ArePlain, rows_but, only_table};
ghost use Rattle.chr_columns.specs.working.Sitting.{SitAmong};

use crate::candidates::{known_argument, next_candidate};
use crate::everywhere::Everywhere;
use crate::listing::{atom_at, row_count};
use crate::rows::{Rows, rows_at};
use arrayvec::ArrayVec;
use chr_base::atom::Atom;
use chr_base::limits::MAX_HEADS;
use chr_base::rule::{Rule, Values};
use chr_plans::key::Order;
use chr_plans::plan::{Lookup, Partner};
use chr_plans::rows::Seat;
use chr_plans::search::find_partners;
use chr_tables::table::Table;

/// The look-up of a partner of which nothing is known.
fn plain_lookup(place: usize) -> Lookup
    ensures { result ≡ plain place }
{
    Lookup {
        partner: Partner {
            place,
            key: ArrayVec::new(),
            tests: ArrayVec::new(),
            limits: ArrayVec::new(),
            order: Order::Unordered,
        },
        table: 0,
        index: 0,
    }
}

/// The look-ups of the partners at all places but the first, in order.
fn plain_lookups(rule: &Rule) -> ArrayVec<Lookup, MAX_HEADS>
    ensures { ArePlain (length (heads_of rule.now)) result.items }
{
    let mut lookups = ArrayVec::new();
    for place in 1..rule.places() {
        lookups.push(plain_lookup(place));
    }
    lookups
}

/// Whether the atom has the shape of the first head.
fn may_be_first(rule: &Rule, atom: &Atom) -> bool
    ensures { result ≡ has_shape (pattern_at rule.now 0) atom.now }
{
    let head = rule.head_at(0);
    head.symbol.0 == atom.symbol.0 && head.args.len() == atom.args.len()
}

/// An instance of the rule with this atom, which is the active one, at the first place.
fn find_with(
    rule: &Rule,
    lookups: &[Lookup],
    mut everywhere: Everywhere<'_>,
    atom: &Atom,
) -> Option<Rows>
    requires few { length everywhere.tables.now < 2 ^ 64 }
    requires plain { ArePlain (length (heads_of rule.now)) lookups.now }
    requires active { get_or (rows_in_turn everywhere.tables.now everywhere.fresh.now) everywhere.active None
        ≡ Some atom.now }
    ensures instance { IfSome result (λ found. HasInstance rule.now found.heads.items) }
    ensures there { IfSome result (λ found.
        IsWithin (store_of found.heads.items) (all_of everywhere.entry.tables.now everywhere.entry.fresh.now)) }
    ensures sit { IfSome result (λ found.
        SitAmong everywhere.entry.tables.now everywhere.entry.fresh.now found.heads.items found.rows.items) }
    ensures none { IfNone result (NoPartners rule.now
        (only_table (rows_but everywhere.entry.tables.now everywhere.entry.fresh.now everywhere.entry.active))
        0 atom.now) }
{
    if !may_be_first(rule, atom) {
        return None;
    }
    let tables = everywhere.tables;
    let active = Seat {
        table: 0,
        row: everywhere.active,
    };
    let mut heads = ArrayVec::new();
    let mut seats = ArrayVec::new();
    let mut values = Values::new();
    if !find_partners(
        &mut everywhere,
        rule,
        0,
        lookups,
        None,
        atom,
        &mut heads,
        &mut seats,
        &mut values,
    ) {
        return None;
    }
    seats[0] = active;
    Some(Rows {
        heads,
        rows: rows_at(tables, &seats),
    })
}

/// An instance of the rule among all atoms, and the different rows in which its heads sit. None only where there is
/// none. It takes no memory, and tries each atom at the first place, with all others at the other places. Where the
/// first head has a constant, rows without it are passed over, eight at a time.
pub(crate) fn find_among(tables: &[Table], fresh: &[Atom], rule: &Rule) -> Option<Rows>
    requires { length tables.now * 2 ^ 32 + length fresh.now < 2 ^ 64 }
    ensures instance { IfSome result (λ found. HasInstance rule.now found.heads.items) }
    ensures there { IfSome result (λ found. IsWithin (store_of found.heads.items) (all_of tables.now fresh.now)) }
    ensures sit { IfSome result (λ found. SitAmong tables.now fresh.now found.heads.items found.rows.items) }
    ensures none { IfNone result (HasNoStep rule.now (all_of tables.now fresh.now)) }
{
    let lookups = plain_lookups(rule);
    let rows = row_count(tables, fresh);
    let known = known_argument(rule.head_at(0));
    let mut active = next_candidate(tables, fresh, known, 0);
    while active < rows {
        if let Some(atom) = atom_at(tables, fresh, active) {
            let everywhere = Everywhere {
                tables,
                fresh,
                rows,
                active,
            };
            let found = find_with(rule, &lookups, everywhere, &atom);
            if found.is_some() {
                return found;
            }
        }
        active = next_candidate(tables, fresh, known, active + 1);
    }
    None
}
