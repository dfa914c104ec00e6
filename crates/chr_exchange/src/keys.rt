//! Atoms of an operation are put in order by short keys, before they become a multiset.
//!
//! A multiset sorts its atoms by comparing whole atoms, and only walks over them where they are already in order. Here
//! a key of 64 bits stands for an atom: its symbol and its arguments, each in as many bits as tell the values of the
//! operation apart, as far as there is room, and then its place. Atoms that such keys can't tell apart are left to the
//! multiset to sort.
ghost use Rattle.std.specs.Prelude.{◌≡◌, ◌<◌, ◌≤◌, length, vec_len};
ghost use Rattle.chr_base.specs.Stores.{store_of};
ghost use Rattle.chr_exchange.specs.declared.keys.TheConstants.{VALUE_BITS};

use chr_base::atom::Atom;
use chr_base::limits::MAX_OPERATION;

/// The bits of a key that say the place of its atom, which is below [`MAX_OPERATION`].
const PLACE_BITS: u32 = 6;

/// The greatest place.
const LAST_PLACE: u64 = 63;

/// The bits of a key that say the values of its atom.
const VALUE_BITS: u32 = 58;

/// Whether an atom comes after another. Atoms of one symbol have equally many arguments.
fn is_after(left: &Atom, right: &Atom) -> bool {
    if left.symbol != right.symbol {
        return left.symbol.0 > right.symbol.0;
    }
    for (here, there) in left.args.iter().zip(right.args.iter()) {
        if here != there {
            return here > there;
        }
    }
    false
}

/// Whether no atom comes after the next one.
fn are_in_order(atoms: &[Atom]) -> bool {
    for i in 1..atoms.len() {
        if is_after(&atoms[i - 1], &atoms[i]) {
            return false;
        }
    }
    true
}

/// The value of an atom in a column: in the first the symbol, and in each other an argument, or 0 where the atom has
/// fewer.
fn value(atom: &Atom, column: usize) -> i64 {
    match column.checked_sub(1) {
        Some(place) => atom.args.get(place).copied().unwrap_or(0),
        None => i64::from(atom.symbol.0),
    }
}

/// The least value of a column, and how far the greatest is from it.
fn span(atoms: &[Atom], column: usize) -> (i64, u64) {
    let mut least = i64::MAX;
    let mut most = i64::MIN;
    for atom in atoms {
        let value = value(atom, column);
        least = least.min(value);
        most = most.max(value);
    }
    (least, most.wrapping_sub(least).cast_unsigned())
}

/// Puts the values of a column behind those that the keys have, in at most `room` bits, and answers how many of these
/// bits are left.
fn push_column(keys: &mut [u64], atoms: &[Atom], column: usize, room: u32) -> u32
    requires { room ≤ VALUE_BITS }
    ensures { result ≤ VALUE_BITS }
{
    let (least, spread) = span(atoms, column);
    let width = 64u32.saturating_sub(spread.leading_zeros());
    if width == 0 || room == 0 {
        return room;
    }
    let kept = width.min(room);
    let dropped = width - kept;
    for (key, atom) in keys.iter_mut().zip(atoms) {
        let above = value(atom, column).wrapping_sub(least).cast_unsigned();
        *key = (*key << kept) | (above >> dropped);
    }
    room - kept
}

/// How many arguments the atom with the most has.
fn most_arguments(atoms: &[Atom]) -> usize {
    let mut most = 0;
    for atom in atoms {
        most = most.max(atom.args.len());
    }
    most
}

/// Puts the values of all columns behind one another into the keys, as far as there is room.
fn push_columns(keys: &mut [u64], atoms: &[Atom]) {
    let mut room = VALUE_BITS;
    for column in 0..=most_arguments(atoms) {
        room = push_column(keys, atoms, column, room);
    }
}

/// Puts the place of each key behind its values.
fn push_places(keys: &mut [u64]) {
    for (place, key) in keys.iter_mut().enumerate() {
        *key = (*key << PLACE_BITS) | place as u64;
    }
}

/// The place that a key says.
fn place_of(key: u64) -> usize {
    (key & LAST_PLACE) as usize
}

/// Puts an atom where its key stands, then the atom that stood there where its own key stands, and so on until one
/// comes to the first's place. Their keys then say the places where they stand.
fn settle(atoms: &mut Vec<Atom>, keys: &mut [u64], start: usize)
    requires start { start < length keys.old }
    requires len { length keys.old ≤ vec_len atoms.old }
    ensures same { store_of atoms.new.items ≡ store_of atoms.old.items }
    ensures len { vec_len atoms.new ≡ vec_len atoms.old }
{
    let mut at = start;
    for _turn in 0..keys.len() {
        let from = place_of(keys[at]);
        keys[at] = at as u64;
        if from == start || from >= keys.len() {
            return;
        }
        atoms.swap(at, from);
        at = from;
    }
}

/// Puts each atom where its key stands.
fn settle_all(atoms: &mut Vec<Atom>, keys: &mut [u64])
    requires { length keys.old ≤ vec_len atoms.old }
    ensures { store_of atoms.new.items ≡ store_of atoms.old.items }
{
    for start in 0..keys.len() {
        settle(atoms, keys, start);
    }
}

/// Puts the atoms in order, as far as short keys tell them apart. It takes no memory.
pub(crate) fn put_in_order(atoms: &mut Vec<Atom>)
    ensures { store_of atoms.new.items ≡ store_of atoms.old.items }
{
    if atoms.len() > MAX_OPERATION || are_in_order(atoms) {
        return;
    }
    let mut all = [0; MAX_OPERATION];
    let keys = &mut all[..atoms.len()];
    push_columns(keys, atoms);
    push_places(keys);
    keys.sort_unstable();
    settle_all(atoms, keys);
}
