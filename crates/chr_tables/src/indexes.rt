//! The indexes of a table, changed one after another.
ghost use Rattle.std.specs.Prelude.{◌≡◌, ℕ, ◌+◌, ◌<◌, ◌≤◌, ◌^◌, ◌∷◌, ◌++◌, [], length, map, get_or, set, Some, None};
ghost use Rattle.std.specs.Prelude.{OnOk};
ghost use Rattle.chr_plans.specs.Keys.{key_of};
ghost use Rattle.chr_tables.specs.Hashes.{key_hash};
ghost use Rattle.chr_tables.specs.working.Indexes.{keyed_entries, atom_entry, ways_of, rooms_of, no_way, AreIndexed};

use crate::cells::Cells;
use crate::finder::{Finder, argument};
use crate::hash::key_hash;
use arrayvec::ArrayVec;
use chr_base::atom::Atom;
use chr_base::limits::MAX_ARITY;
use std::alloc::AllocError;

/// An index by the values in some columns, which are counted from 0. Keys are hashed under the seed.
#[derive(Drop)]
pub(crate) struct Keyed {
    pub(crate) seed: u64,
    pub(crate) columns: ArrayVec<usize, MAX_ARITY>,
    pub(crate) index: Finder,
}

/// The key becomes the arguments of an atom in these columns, written where they stay.
fn read_key(columns: &ArrayVec<usize, MAX_ARITY>, atom: &Atom, key: &mut ArrayVec<i64, MAX_ARITY>)
    ensures { key.new.items ≡ key_of columns.now.items atom.now }
{
    key.clear();
    for column in columns.as_slice() {
        key.push(argument(atom, *column));
    }
}

/// The hash of an atom's key in an index.
fn hash_of(keyed: &Keyed, atom: &Atom) -> u32
    ensures { result ≡ key_hash keyed.now.seed (key_of keyed.now.columns.items atom.now) }
{
    let mut key = ArrayVec::new();
    read_key(&keyed.columns, atom, &mut key);
    key_hash(keyed.seed, &key)
}

/// A row dies in each index.
pub(crate) fn kill_in(indexes: &mut [Keyed], row: u32)
    requires { (j : ℕ) → j < length indexes.old → row < length (get_or (keyed_entries indexes.old) j []) }
    ensures ways { ways_of indexes.new ≡ ways_of indexes.old }
    ensures rows { (j : ℕ) →
        get_or (keyed_entries indexes.new) j [] ≡ set (get_or (keyed_entries indexes.old) j []) row None }
{
    for i in 0..indexes.len() {
        indexes[i].index.kill(row);
    }
}

/// Makes room for one row more in each index.
pub(crate) fn reserve_in(indexes: &mut [Keyed]) -> Result<(), AllocError>
    requires { (j : ℕ) → j < length indexes.old → length (get_or (keyed_entries indexes.old) j []) + 1 < 2 ^ 32 }
    ensures ways { ways_of indexes.new ≡ ways_of indexes.old }
    ensures rows { keyed_entries indexes.new ≡ keyed_entries indexes.old }
    ensures ok { OnOk result ((j : ℕ) → j < length indexes.old →
        length (get_or (keyed_entries indexes.old) j []) < get_or (rooms_of indexes.new) j 0) }
{
    for i in 0..indexes.len() {
        indexes[i].index.reserve()?;
    }
    Ok(())
}

/// Adds a row to each index, for this atom.
pub(crate) fn push_in(indexes: &mut [Keyed], atom: &Atom)
    requires room { (j : ℕ) → j < length indexes.old →
        length (get_or (keyed_entries indexes.old) j []) < get_or (rooms_of indexes.old) j 0 }
    requires few { (j : ℕ) → j < length indexes.old → length (get_or (keyed_entries indexes.old) j []) + 1 < 2 ^ 32 }
    ensures ways { ways_of indexes.new ≡ ways_of indexes.old }
    ensures rooms { rooms_of indexes.new ≡ rooms_of indexes.old }
    ensures rows { (j : ℕ) → j < length indexes.old →
        get_or (keyed_entries indexes.new) j []
        ≡ get_or (keyed_entries indexes.old) j []
        ++ Some (atom_entry (get_or (ways_of indexes.old) j no_way) atom.now) ∷ [] }
{
    for i in 0..indexes.len() {
        let hash = hash_of(&indexes[i], atom);
        indexes[i].index.push(hash, atom);
    }
}

/// Each index forgets all rows. Its room stays, and is room for as many.
pub(crate) fn clear_in(indexes: &mut [Keyed])
    ensures ways { ways_of indexes.new ≡ ways_of indexes.old }
    ensures rows { (j : ℕ) → j < length indexes.old → get_or (keyed_entries indexes.new) j [] ≡ [] }
    ensures fits { (j : ℕ) → j < length indexes.old →
        length (get_or (keyed_entries indexes.old) j []) ≤ get_or (rooms_of indexes.new) j 0 }
{
    for i in 0..indexes.len() {
        indexes[i].index.clear();
    }
}

/// Adds a row to each index for each of these atoms. The indexes have no rows before.
pub(crate) fn enter_all(atoms: &Cells, indexes: &mut [Keyed])
    requires few { length atoms.now < 2 ^ 32 }
    requires none { (j : ℕ) → j < length indexes.old → get_or (keyed_entries indexes.old) j [] ≡ [] }
    requires room { (j : ℕ) → j < length indexes.old → length atoms.now ≤ get_or (rooms_of indexes.old) j 0 }
    ensures ways { ways_of indexes.new ≡ ways_of indexes.old }
    ensures rows { AreIndexed (map (λ a. Some a) atoms.now) (ways_of indexes.old) (keyed_entries indexes.new) }
{
    for row in 0..atoms.len() {
        push_in(indexes, &atoms.atom(row));
    }
}
