//! Stores that are the same in other numbers.

use chr_base::atom::Atom;
use chr_base::bag::Bag;

/// Whether a value compares to each of these as another one does to each of those.
fn compares_alike(value: i64, others: &[i64], changed: i64, changed_others: &[i64]) -> bool {
    for (other, changed_other) in others.iter().zip(changed_others.iter()) {
        if value.cmp(other) != changed.cmp(changed_other) {
            return false;
        }
    }
    true
}

/// Whether a value compares to all values of a store as another one does to those of another store.
fn fits_store(value: i64, store: &Bag, changed: i64, changed_store: &Bag) -> bool {
    for (atom, other) in store.atoms().iter().zip(changed_store.atoms().iter()) {
        if !compares_alike(value, &atom.args, changed, &other.args) {
            return false;
        }
    }
    true
}

/// Whether an atom is another one with other values, which compare to the constants and to all values of the store as
/// its own do.
fn is_renamed_atom(
    atom: &Atom,
    store: &Bag,
    changed: &Atom,
    changed_store: &Bag,
    constants: &[i64],
) -> bool {
    if atom.symbol != changed.symbol || atom.args.len() != changed.args.len() {
        return false;
    }
    for (value, other) in atom.args.iter().zip(changed.args.iter()) {
        if !compares_alike(*value, constants, *other, constants)
            || !fits_store(*value, store, *other, changed_store)
        {
            return false;
        }
    }
    true
}

/// Whether one store is the other with other values, which compare to one another and to the constants in the same way.
/// Then its atoms come in the same order.
pub(crate) fn is_renamed(store: &Bag, changed: &Bag, constants: &[i64]) -> bool {
    if store.len() != changed.len() {
        return false;
    }
    for (atom, other) in store.atoms().iter().zip(changed.atoms().iter()) {
        if !is_renamed_atom(atom, store, other, changed, constants) {
            return false;
        }
    }
    true
}
