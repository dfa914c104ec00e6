//! Rows whose atom may be the first head of an instance.
ghost use Rattle.std.specs.Prelude.{◌≡◌, ℕ, ◌+◌, ◌<◌, ◌≤◌, ◌^◌, length, get_or, Some, None};
ghost use Rattle.chr_base.specs.declared.atom.Atom.{Atom as AtomValue};
ghost use Rattle.chr_columns.specs.working.Candidates.{IsKnownConstant, Misses, IsWithinAtom};
ghost use Rattle.chr_columns.specs.working.Listing.{rows_in_turn};

use chr_base::atom::Atom;
use chr_base::term::{Pattern, Term};
use chr_tables::table::Table;

/// An argument that a head has: its column, counted from 0, and its value.
#[derive(Clone, Copy, Debug, PartialEq, Eq)]
pub(crate) struct Known {
    pub(crate) column: usize,
    pub(crate) value: i64,
}

/// The first argument of a pattern that is a constant, where there is one.
pub(crate) fn known_argument(pattern: &Pattern) -> Option<Known>
    ensures known { IsKnownConstant pattern.now result }
    ensures within { IsWithinAtom result }
{
    for column in 0..pattern.args.len() {
        if let Term::Constant(value) = pattern.args[column] {
            return Some(Known { column, value });
        }
    }
    None
}

/// The first row from `from` on that may have the known argument, or the number of rows. Tables are searched in its
/// column. A fresh atom may always have it.
fn first_with(tables: &[Table], fresh: &[Atom], known: Known, from: usize) -> usize
    requires column { IsWithinAtom (Some known) }
    requires few { length (rows_in_turn tables.now fresh.now) < 2 ^ 64 }
    requires from { from ≤ length (rows_in_turn tables.now fresh.now) }
    ensures from_on { from ≤ result }
    ensures within { result ≤ length (rows_in_turn tables.now fresh.now) }
    ensures passed { (n : ℕ) (a : AtomValue) → from ≤ n → n < result →
        get_or (rows_in_turn tables.now fresh.now) n None ≡ Some a → Misses (Some known) a }
{
    let [table, others @ ..] = tables else {
        return from;
    };
    let rows = table.len();
    if from < rows {
        table
            .first_with(known.column, known.value, from)
            .unwrap_or(rows)
    } else {
        rows + first_with(others, fresh, known, from - rows)
    }
}

/// Like [`first_with`], but where no argument is known the row is `from`.
pub(crate) fn next_candidate(
    tables: &[Table],
    fresh: &[Atom],
    known: Option<Known>,
    from: usize,
) -> usize
    requires column { IsWithinAtom known }
    requires few { length (rows_in_turn tables.now fresh.now) < 2 ^ 64 }
    requires from { from ≤ length (rows_in_turn tables.now fresh.now) }
    ensures from_on { from ≤ result }
    ensures within { result ≤ length (rows_in_turn tables.now fresh.now) }
    ensures passed { (n : ℕ) (a : AtomValue) → from ≤ n → n < result →
        get_or (rows_in_turn tables.now fresh.now) n None ≡ Some a → Misses known a }
{
    match known {
        Some(known) => first_with(tables, fresh, known, from),
        None => from,
    }
}
