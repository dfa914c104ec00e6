//! Putting atoms into a list and taking them out, whatever their order.
ghost use Rattle.std.specs.Prelude.{◌≡◌, ◌+◌, ◌<◌, ◌≤◌, ◌++◌, [], ◌∷◌, IfSome, IfNone, IfOk, length, vec_len};
ghost use Rattle.std.specs.Prelude.{vec_capacity, slice_index_or};
ghost use Rattle.std.specs.Bool.{OnTrue, OnFalse};
ghost use Rattle.chr_base.specs.declared.atom.Atom.{Atom as AtomValue};
ghost use Rattle.chr_base.specs.Atoms.{atom_cmp};
ghost use Rattle.chr_base.specs.FinBag.{count_in};

use chr_base::atom::Atom;
use chr_base::lists::push_all;
use std::alloc::{AllocError, Global};

/// Copies of these atoms.
pub(crate) fn copies_of(alloc: Global, atoms: &[Atom]) -> Result<Vec<Atom>, AllocError>
    ensures { IfOk result (λ copies. copies.items ≡ atoms.now) }
{
    let mut copies = Vec::with_capacity(alloc, atoms.len())?;
    push_all(&mut copies, atoms);
    Ok(copies)
}

/// The place of such an atom, where one stands in the list.
fn index_of(items: &[Atom], atom: &Atom) -> Option<usize>
    ensures within { IfSome result (λ i. i < length items.now) }
    ensures found { IfSome result (λ i. slice_index_or items.now i atom.now ≡ atom.now) }
    ensures none { IfNone result (count_in atom_cmp atom.now items.now ≡ 0) }
{
    for (i, item) in items.iter().enumerate() {
        if atom.is_same(item) {
            return Some(i);
        }
    }
    None
}

/// Takes one such atom out, where there is one. The last atom comes into its place.
fn take_out(items: &mut Vec<Atom>, atom: &Atom) -> bool
    ensures taken { OnTrue result (
        (q : AtomValue) → count_in atom_cmp q items.old.items ≡
        count_in atom_cmp q items.new.items + count_in atom_cmp q (atom.now ∷ [])) }
    ensures shorter { OnTrue result (vec_len items.new + 1 ≡ vec_len items.old) }
    ensures none { OnFalse result (count_in atom_cmp atom.now items.old.items ≡ 0) }
    ensures same { OnFalse result (items.new.items ≡ items.old.items) }
    ensures capacity { vec_capacity items.new ≡ vec_capacity items.old }
{
    let Some(i) = index_of(items, atom) else {
        return false;
    };
    items.swap_remove(i);
    true
}

/// Takes all of these atoms out, or none where one of them stands there too seldom. The order of the others may change.
pub(crate) fn take_all(items: &mut Vec<Atom>, atoms: &[Atom]) -> bool
    ensures taken { OnTrue result (
        (q : AtomValue) → count_in atom_cmp q items.old.items ≡
        count_in atom_cmp q items.new.items + count_in atom_cmp q atoms.now) }
    ensures seldom { OnFalse result (
        (q : AtomValue) × (count_in atom_cmp q items.old.items < count_in atom_cmp q atoms.now)) }
    ensures same { OnFalse result (
        (q : AtomValue) → count_in atom_cmp q items.new.items ≡ count_in atom_cmp q items.old.items) }
    ensures len { vec_len items.new ≤ vec_len items.old }
    ensures capacity { vec_capacity items.new ≡ vec_capacity items.old }
{
    for (i, atom) in atoms.iter().enumerate() {
        if !take_out(items, atom) {
            push_all(items, &atoms[..i]);
            return false;
        }
    }
    true
}
