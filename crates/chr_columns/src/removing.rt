//! Atoms are counted and taken out.
ghost use Rattle.std.specs.Prelude.{◌≡◌, ◌+◌, ◌<◌, ◌≤◌, ◌^◌, ◌↔◌, ◌∷◌, ◌++◌, [], length, get_or, Some, None, IsTrue};
ghost use Rattle.std.specs.Prelude.{is_some, take, IfSome, IfNone};
ghost use Rattle.std.specs.Bool.{OnTrue, OnFalse};
ghost use Rattle.chr_base.specs.declared.atom.Atom.{Atom as AtomValue};
ghost use Rattle.chr_base.specs.Atoms.{atom_cmp};
ghost use Rattle.chr_base.specs.FinBag.{◌⊕◌, ◌⊖◌, IsWithin, count_in};
ghost use Rattle.chr_base.specs.Stores.{store_of, count};
ghost use Rattle.chr_plans.specs.Seats.{atom_in};
ghost use Rattle.chr_tables.specs.Contents.{rows_of};
ghost use Rattle.chr_plans.specs.Actives.{one};
ghost use Rattle.chr_plans.specs.Grids.{live_atoms};
ghost use Rattle.chr_columns.specs.working.Groups.{table_of_atom};
ghost use Rattle.chr_columns.specs.working.Resting.{stored, IsRested};

use crate::rested::{Rested, kill_all};
use chr_base::atom::Atom;
use chr_base::lists::{count_of, take_out};
use chr_plans::rows::Seat;
use chr_tables::table::Table;

/// How many live rows of a table have an atom.
fn count_rows(table: &Table, atom: &Atom) -> usize
    ensures { result ≡ count_in atom_cmp atom.now (live_atoms table.now.rows) }
{
    let mut count = 0;
    for row in 0..table.len() {
        if let Some(other) = table.get(row) {
            if atom.is_same(&other) {
                count += 1;
            }
        }
    }
    count
}

/// A row that has an atom.
fn row_of(table: &Table, atom: &Atom) -> Option<usize>
    ensures found { IfSome result (λ row. get_or table.now.rows row None ≡ Some atom.now) }
    ensures none { IfNone result (count_in atom_cmp atom.now (live_atoms table.now.rows) ≡ 0) }
{
    for row in 0..table.len() {
        if let Some(other) = table.get(row) {
            if atom.is_same(&other) {
                return Some(row);
            }
        }
    }
    None
}

/// Whether from a place on just these atoms stand in a list.
fn has_from(items: &[Atom], start: usize, atoms: &[Atom]) -> bool
    requires { start + length atoms.now ≡ length items.now }
    ensures { OnTrue result (items.now ≡ take start items.now ++ atoms.now) }
{
    for i in 0..atoms.len() {
        if !items[start + i].is_same(&atoms[i]) {
            return false;
        }
    }
    true
}

/// Takes these atoms off the end of a list, if the list ends with just them, as after they were put there.
fn take_off_end(fresh: &mut Vec<Atom>, atoms: &[Atom]) -> bool
    ensures taken { OnTrue result (fresh.old.items ≡ fresh.new.items ++ atoms.now) }
    ensures same { OnFalse result (fresh.new ≡ fresh.old) }
{
    let Some(start) = fresh.len().checked_sub(atoms.len()) else {
        return false;
    };
    if !has_from(fresh, start, atoms) {
        return false;
    }
    fresh.truncate(start);
    true
}

impl Rested {
    /// The table of an atom, by its number.
    pub(crate) fn table_for(&self, atom: &Atom) -> usize
        requires { IsRested self.now }
        ensures number { result ≡ table_of_atom self.now.directory.groups.items atom.now }
        ensures there { result < length self.now.tables.tables.items }
    {
        self.directory.table_of(atom.symbol, atom.args.len())
    }

    /// How often an atom is among those at rest.
    fn count_at_rest(&self, atom: &Atom) -> usize
        requires { IsRested self.now }
        ensures { result ≡ count (stored self.now) atom.now }
    {
        count_rows(&self.tables.tables[self.table_for(atom)], atom)
    }

    /// A live row dies.
    pub(crate) fn kill_one(&mut self, seat: Seat)
        requires rested { IsRested self.old }
        requires lives { IsTrue (is_some (atom_in (rows_of self.old.tables.tables.items) seat)) }
        ensures rested { IsRested self.new }
        ensures rules { self.new.rules ≡ self.old.rules }
        ensures taken { (a : AtomValue) → atom_in (rows_of self.old.tables.tables.items) seat ≡ Some a →
            stored self.new ⊕ one a ≡ stored self.old }
    {
        kill_all(&mut self.tables, &[seat]);
    }

    /// Takes one such atom out; false, and nothing changes, where there is none.
    fn remove_one(&mut self, atom: &Atom) -> bool
        requires { IsRested self.old }
        ensures rested { IsRested self.new }
        ensures rules { self.new.rules ≡ self.old.rules }
        ensures taken { OnTrue result (stored self.new ⊕ one atom.now ≡ stored self.old) }
        ensures none { OnFalse result (count (stored self.old) atom.now ≡ 0) }
        ensures same { OnFalse result (self.new ≡ self.old) }
    {
        let table = self.table_for(atom);
        let Some(row) = row_of(&self.tables.tables[table], atom) else {
            return false;
        };
        self.kill_one(Seat { table, row });
        true
    }

    /// Whether at least `wanted` such atoms are there, at rest or fresh. It takes no memory.
    pub(crate) fn has_as_often(&self, fresh: &[Atom], atom: &Atom, wanted: usize) -> bool
        requires { IsRested self.now }
        ensures { IsTrue result ↔ wanted ≤ count (stored self.now ⊕ store_of fresh.now) atom.now }
    {
        let found = count_of(fresh, atom);
        found >= wanted || self.count_at_rest(atom) >= wanted - found
    }

    /// Whether all of these atoms are there, as a multiset, at rest or fresh. It takes no memory.
    pub(crate) fn has_all(&self, fresh: &[Atom], atoms: &[Atom]) -> bool
        requires { IsRested self.now }
        ensures { IsTrue result ↔ IsWithin (store_of atoms.now) (stored self.now ⊕ store_of fresh.now) }
    {
        for atom in atoms {
            if !self.has_as_often(fresh, atom, count_of(atoms, atom)) {
                return false;
            }
        }
        true
    }

    /// Takes one such atom out, at rest or fresh, where there is one.
    pub(crate) fn take_one(&mut self, fresh: &mut Vec<Atom>, atom: &Atom)
        requires { IsRested self.old }
        ensures rested { IsRested self.new }
        ensures rules { self.new.rules ≡ self.old.rules }
        ensures left { stored self.new ⊕ store_of fresh.new.items
            ≡ (stored self.old ⊕ store_of fresh.old.items) ⊖ one atom.now }
    {
        if !self.remove_one(atom) {
            take_out(fresh, atom);
        }
    }

    /// Takes all of these atoms out, at rest or fresh, or none where as a multiset they are not all there. It searches
    /// the pool for each of them.
    fn remove_each(&mut self, fresh: &mut Vec<Atom>, atoms: &[Atom]) -> bool
        requires { IsRested self.old }
        ensures rested { IsRested self.new }
        ensures rules { self.new.rules ≡ self.old.rules }
        ensures there { IsTrue result ↔
            IsWithin (store_of atoms.now) (stored self.old ⊕ store_of fresh.old.items) }
        ensures taken { OnTrue result (stored self.new ⊕ store_of fresh.new.items
            ≡ (stored self.old ⊕ store_of fresh.old.items) ⊖ store_of atoms.now) }
        ensures kept { OnFalse result (stored self.new ⊕ store_of fresh.new.items
            ≡ stored self.old ⊕ store_of fresh.old.items) }
    {
        if !self.has_all(fresh, atoms) {
            return false;
        }
        for atom in atoms {
            self.take_one(fresh, atom);
        }
        true
    }

    /// Takes all of these atoms out, at rest or fresh, or none where as a multiset they are not all there. It takes no
    /// memory. Where they were put in last, they cost one walk over them.
    pub(crate) fn remove_all(&mut self, fresh: &mut Vec<Atom>, atoms: &[Atom]) -> bool
        requires { IsRested self.old }
        ensures rested { IsRested self.new }
        ensures rules { self.new.rules ≡ self.old.rules }
        ensures there { IsTrue result ↔
            IsWithin (store_of atoms.now) (stored self.old ⊕ store_of fresh.old.items) }
        ensures taken { OnTrue result (stored self.new ⊕ store_of fresh.new.items
            ≡ (stored self.old ⊕ store_of fresh.old.items) ⊖ store_of atoms.now) }
        ensures kept { OnFalse result (stored self.new ⊕ store_of fresh.new.items
            ≡ stored self.old ⊕ store_of fresh.old.items) }
    {
        take_off_end(fresh, atoms) || self.remove_each(fresh, atoms)
    }
}
