//! Lists of atoms.
ghost use Rattle.std.specs.Prelude.{◌≡◌, ◌+◌, ◌<◌, ◌≤◌, ◌↔◌, length, insert, remove, [], ◌∷◌, ◌++◌, vec_len};
ghost use Rattle.std.specs.Prelude.{vec_capacity, IsTrue, OnOk, OnErr, IfSome, IfNone};
ghost use Rattle.std.specs.Bool.{OnTrue, OnFalse};
ghost use Rattle.std.specs.Ordering.{eq_by_cmp, is_gt};
ghost use Rattle.chr_base.specs.declared.atom.Atom.{Atom as AtomValue};
ghost use Rattle.chr_base.specs.Atoms.{atom_cmp};
ghost use Rattle.chr_base.specs.FinBag.{count_in, put, without, is_rising};
ghost use Rattle.chr_base.specs.Stores.{store_of};
ghost use Rattle.chr_base.specs.working.AtomLists.{are_same, AreWithin, AreLeft};
ghost use Rattle.chr_base.specs.working.Subsequences.{is_subsequence, without_subsequence};

use crate::atom::Atom;
use std::alloc::AllocError;

/// How often an atom stands in a list.
pub fn count_of(items: &[Atom], atom: &Atom) -> usize
    ensures value { result ≡ count_in atom_cmp atom.now items.now }
    ensures bound { result ≤ length items.now }
{
    let mut count = 0;
    for item in items {
        if atom.is_same(item) {
            count += 1;
        }
    }
    count
}

/// The place where an atom goes into a list in order: before the first item that it isn't after.
pub(crate) fn place_of(items: &[Atom], atom: &Atom) -> usize
    ensures within { result ≤ length items.now }
    ensures place { put atom_cmp atom.now items.now ≡ insert items.now result atom.now }
{
    for (i, item) in items.iter().enumerate() {
        if !atom.is_after(item) {
            return i;
        }
    }
    items.len()
}

/// The place of an atom in a list, where it stands there.
fn index_of(items: &[Atom], atom: &Atom) -> Option<usize>
    ensures found { IfSome result (λ i.
        (i < length items.now) × (without atom_cmp atom.now items.now ≡ remove items.now i)) }
    ensures none { IfNone result (without atom_cmp atom.now items.now ≡ items.now) }
{
    for (i, item) in items.iter().enumerate() {
        if atom.is_same(item) {
            return Some(i);
        }
    }
    None
}

/// Takes an atom out, where it stands there.
pub fn take_out(items: &mut Vec<Atom>, atom: &Atom)
    ensures { items.new.items ≡ without atom_cmp atom.now items.old.items }
{
    if let Some(i) = index_of(items, atom) {
        items.remove(i);
    }
}

/// Whether each atom of `atoms` stands in `items` at least as often. Each atom costs a walk through both lists.
pub fn fits_in(atoms: &[Atom], items: &[Atom]) -> bool
    ensures { IsTrue result ↔ ((q : AtomValue) → count_in atom_cmp q atoms.now ≤ count_in atom_cmp q items.now) }
{
    for atom in atoms {
        if count_of(items, atom) < count_of(atoms, atom) {
            return false;
        }
    }
    true
}

/// Takes all of these atoms out.
fn take_all_out(items: &mut Vec<Atom>, atoms: &[Atom])
    ensures counts { AreLeft items.old.items atoms.now items.new.items }
    ensures rising { IsTrue (is_rising atom_cmp items.old.items) → IsTrue (is_rising atom_cmp items.new.items) }
{
    for atom in atoms {
        take_out(items, atom);
    }
}

/// Takes all of these atoms out, or none where they are not all there. They may stand in any order: each costs a walk.
pub(crate) fn remove_one_by_one(items: &mut Vec<Atom>, atoms: &[Atom]) -> bool
    ensures there { IsTrue result ↔ AreWithin atoms.now items.old.items }
    ensures taken { OnTrue result (AreLeft items.old.items atoms.now items.new.items) }
    ensures kept { OnFalse result (items.new.items ≡ items.old.items) }
    ensures rising { IsTrue (is_rising atom_cmp items.old.items) → IsTrue (is_rising atom_cmp items.new.items) }
{
    if !fits_in(atoms, items) {
        return false;
    }
    take_all_out(items, atoms);
    true
}

/// Whether the atoms are in order.
pub(crate) fn is_in_order(atoms: &[Atom]) -> bool
    ensures { IsTrue result ↔ IsTrue (is_rising atom_cmp atoms.now) }
{
    for i in 1..atoms.len() {
        if atoms[i - 1].is_after(&atoms[i]) {
            return false;
        }
    }
    true
}

/// Whether the atoms stand among the items, in their order.
fn is_subsequence(items: &[Atom], atoms: &[Atom]) -> bool
    ensures { result ≡ is_subsequence atom_cmp items.now atoms.now }
{
    let mut wanted = atoms;
    for item in items {
        if let [first, rest @ ..] = wanted {
            if first.is_same(item) {
                wanted = rest;
            }
        }
    }
    wanted.is_empty()
}

/// Takes the atoms out where they stand among the items in their order. What stays moves down over what leaves.
fn take_subsequence_out(items: &mut Vec<Atom>, atoms: &[Atom])
    ensures { items.new.items ≡ without_subsequence atom_cmp items.old.items atoms.now }
{
    let mut kept = 0;
    let mut taken = 0;
    for i in 0..items.len() {
        if taken < atoms.len() && atoms[taken].is_same(&items[i]) {
            taken += 1;
        } else {
            items.swap(kept, i);
            kept += 1;
        }
    }
    items.truncate(kept);
}

/// Takes all of these atoms out, or none where they are not all there. Both lists are in order, so two walks serve.
pub(crate) fn remove_in_order(items: &mut Vec<Atom>, atoms: &[Atom]) -> bool
    requires items { IsTrue (is_rising atom_cmp items.old.items) }
    requires atoms { IsTrue (is_rising atom_cmp atoms.now) }
    ensures there { IsTrue result ↔ AreWithin atoms.now items.old.items }
    ensures taken { OnTrue result (AreLeft items.old.items atoms.now items.new.items) }
    ensures kept { OnFalse result (items.new.items ≡ items.old.items) }
    ensures rising { IsTrue (is_rising atom_cmp items.new.items) }
{
    if !is_subsequence(items, atoms) {
        return false;
    }
    take_subsequence_out(items, atoms);
    true
}

/// Whether the two lists are equal.
pub(crate) fn same_atoms(left: &[Atom], right: &[Atom]) -> bool
    ensures { result ≡ are_same left.now right.now }
{
    if left.len() != right.len() {
        return false;
    }
    for (i, atom) in left.iter().enumerate() {
        if !atom.is_same(&right[i]) {
            return false;
        }
    }
    true
}

/// Puts a copy of an atom at the end, where there is room for it. It is made in its place, since an atom that was just
/// made is slow to move.
pub fn push_copy(items: &mut Vec<Atom>, atom: &Atom)
    requires { vec_len items.old < vec_capacity items.old }
    ensures items { items.new.items ≡ items.old.items ++ atom.now ∷ [] }
    ensures capacity { vec_capacity items.new ≡ vec_capacity items.old }
{
    let last = items.len();
    items.push_reserved(Atom::default());
    items[last].copy_from(atom);
}

/// Puts copies of these atoms at the end, where there is room for them.
pub fn push_all(items: &mut Vec<Atom>, atoms: &[Atom])
    requires { vec_len items.old + length atoms.now ≤ vec_capacity items.old }
    ensures items { items.new.items ≡ items.old.items ++ atoms.now }
    ensures capacity { vec_capacity items.new ≡ vec_capacity items.old }
{
    for atom in atoms {
        push_copy(items, atom);
    }
}

/// Adds copies of these atoms at the end: all of them, or none where memory is refused.
pub fn push_copies(items: &mut Vec<Atom>, atoms: &[Atom]) -> Result<(), AllocError>
    ensures ok { OnOk result (items.new.items ≡ items.old.items ++ atoms.now) }
    ensures err { OnErr result (items.new.items ≡ items.old.items) }
{
    items.reserve(atoms.len())?;
    push_all(items, atoms);
    Ok(())
}

/// Puts the atoms in order.
#[tactic(auto, using(crate::proofs::Sorting::rising_from_sorted, crate::proofs::Sorting::same_multiset))]
pub(crate) fn put_in_order(items: &mut Vec<Atom>)
    ensures rising { IsTrue (is_rising atom_cmp items.new.items) }
    ensures same { store_of items.new.items ≡ store_of items.old.items }
{
    if is_in_order(items) {
        return;
    }
    items.sort_unstable_by(|left, right| left.order(right));
}
