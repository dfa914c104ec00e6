//! Atoms are taken out by their rows.
ghost use Rattle.std.specs.Prelude.{◌≡◌, ℕ, ◌+◌, ◌<◌, ◌≤◌, ◌^◌, length, map};
ghost use Rattle.std.specs.Bool.{OnTrue, OnFalse};
ghost use Rattle.chr_base.specs.declared.limits.TheConstants.{MAX_HEADS};
ghost use Rattle.chr_base.specs.FinBag.{◌⊕◌, ◌⊖◌};
ghost use Rattle.chr_base.specs.Stores.{store_of};
ghost use Rattle.chr_plans.specs.Actives.{one};
ghost use Rattle.chr_columns.specs.working.Resting.{stored, IsRested};
ghost use Rattle.chr_columns.specs.working.Sitting.{after_move};
ghost use Rattle.chr_columns.specs.Rows.{row};

use crate::rested::Rested;
use crate::rows::Row;
use arrayvec::ArrayVec;
use chr_base::atom::Atom;
use chr_base::limits::MAX_HEADS;
use chr_plans::rows::Seat;

/// The row at a place, or the first fresh one where there is none.
fn row_at(rows: &[Row], place: usize) -> Row
    ensures { result ≡ row rows.now place }
{
    rows.get(place).copied().unwrap_or(Row::Fresh(0))
}

/// `count` rows, from the one at `first` on.
fn rows_from(rows: &[Row], first: usize, count: usize) -> ArrayVec<Row, MAX_HEADS>
    requires few { count ≤ MAX_HEADS }
    requires ends { first + count < 2 ^ 64 }
    ensures count { length result.items ≡ count }
    ensures same { (q : ℕ) → q < count → row result.items q ≡ row rows.now (first + q) }
{
    let mut some = ArrayVec::new();
    for q in 0..count {
        some.push(row_at(rows, first + q));
    }
    some
}

/// A row, after the last fresh atom has moved to another.
fn after_move(row: Row, last: usize, to: Row) -> Row
    ensures { result ≡ after_move last to row }
{
    match row {
        Row::AtRest(_) => row,
        Row::Fresh(place) => { if place == last { to } else { row } }
    }
}

/// The rows, after the last fresh atom has moved to another.
fn followed(rows: &[Row], last: usize, to: Row) -> ArrayVec<Row, MAX_HEADS>
    requires { length rows.now ≤ MAX_HEADS }
    ensures { result.items ≡ map (after_move last to) rows.now }
{
    let mut all = ArrayVec::new();
    for row in rows {
        all.push(after_move(*row, last, to));
    }
    all
}

/// Takes out the fresh atom at this place, where it is `atom`. The last one comes into its place.
fn take_fresh(fresh: &mut Vec<Atom>, place: usize, atom: &Atom) -> bool
    ensures taken { OnTrue result (store_of fresh.new.items ⊕ one atom.now ≡ store_of fresh.old.items) }
    ensures same { OnFalse result (fresh.new ≡ fresh.old) }
{
    let Some(other) = fresh.get(place) else {
        return false;
    };
    if !atom.is_same(other) {
        return false;
    }
    fresh.swap_remove(place);
    true
}

impl Rested {
    /// Takes out the atom at rest in this row, where it is `atom`.
    fn take_at_rest(&mut self, seat: Seat, atom: &Atom) -> bool
        requires { IsRested self.old }
        ensures rested { IsRested self.new }
        ensures rules { self.new.rules ≡ self.old.rules }
        ensures taken { OnTrue result (stored self.new ⊕ one atom.now ≡ stored self.old) }
        ensures same { OnFalse result (self.new ≡ self.old) }
    {
        let Some(table) = self.tables.tables.get(seat.table) else {
            return false;
        };
        let Some(other) = table.get(seat.row) else {
            return false;
        };
        if !atom.is_same(&other) {
            return false;
        }
        self.kill_one(seat);
        true
    }

    /// Takes out the atom of this row, at rest or fresh, where it is `atom`.
    fn take_from(&mut self, fresh: &mut Vec<Atom>, row: Row, atom: &Atom) -> bool
        requires { IsRested self.old }
        ensures rested { IsRested self.new }
        ensures rules { self.new.rules ≡ self.old.rules }
        ensures taken { OnTrue result ((stored self.new ⊕ store_of fresh.new.items) ⊕ one atom.now
            ≡ stored self.old ⊕ store_of fresh.old.items) }
        ensures same { OnFalse result (self.new ≡ self.old) }
        ensures same_fresh { OnFalse result (fresh.new ≡ fresh.old) }
    {
        match row {
            Row::AtRest(seat) => self.take_at_rest(seat, atom),
            Row::Fresh(place) => take_fresh(fresh, place, atom),
        }
    }

    /// Takes out one such atom, where there is one: that of this row, or another where the row has it no longer.
    fn take_row(&mut self, fresh: &mut Vec<Atom>, row: Row, atom: &Atom)
        requires { IsRested self.old }
        ensures rested { IsRested self.new }
        ensures rules { self.new.rules ≡ self.old.rules }
        ensures left { stored self.new ⊕ store_of fresh.new.items
            ≡ (stored self.old ⊕ store_of fresh.old.items) ⊖ one atom.now }
    {
        if !self.take_from(fresh, row, atom) {
            self.take_one(fresh, atom);
        }
    }

    /// Takes out these atoms, as far as they are there, each by its row; the rows begin at the one at `first`. It takes
    /// no memory.
    pub(crate) fn take_all(
        &mut self,
        fresh: &mut Vec<Atom>,
        atoms: &[Atom],
        rows: &[Row],
        first: usize,
    )
        requires rested { IsRested self.old }
        requires few { length atoms.now ≤ MAX_HEADS }
        requires ends { first + length atoms.now < 2 ^ 64 }
        ensures rested { IsRested self.new }
        ensures rules { self.new.rules ≡ self.old.rules }
        ensures left { stored self.new ⊕ store_of fresh.new.items
            ≡ (stored self.old ⊕ store_of fresh.old.items) ⊖ store_of atoms.now }
    {
        let mut rows = rows_from(rows, first, atoms.len());
        for k in 0..atoms.len() {
            let row = rows[k];
            self.take_row(fresh, row, &atoms[k]);
            // Where a fresh atom left, the last one moved into its row.
            rows = followed(&rows, fresh.len(), row);
        }
    }
}
