//! The atoms of a store that are wanted.
ghost use Rattle.std.specs.Prelude.{◌≡◌, IfOk, filter, length};
ghost use Rattle.chr_base.specs.Stores.{size};
ghost use Rattle.chr_queries.specs.Wanted.{is_wanted, wanted_in};

use crate::wanted::Wanted;
use chr_base::atom::Atom;
use chr_base::bag::Bag;
use std::alloc::{AllocError, Global};

/// The atoms of a store that are wanted, each as often as it stands there.
pub fn find(alloc: Global, store: &Bag, wanted: &Wanted) -> Result<Bag, AllocError>
    ensures { IfOk result (λ found. found ≡ wanted_in wanted.now store.now) }
{
    Bag::of(copies_of(alloc, store.atoms(), wanted)?)
}

/// Copies of the wanted ones of these atoms, in their order.
fn copies_of(alloc: Global, atoms: &[Atom], wanted: &Wanted) -> Result<Vec<Atom>, AllocError>
    ensures { IfOk result (λ copies. copies.items ≡ filter (is_wanted wanted.now) atoms.now) }
{
    let mut copies = Vec::new(alloc);
    for atom in atoms {
        if wanted.has(atom) {
            copies.push(atom.copy())?;
        }
    }
    Ok(copies)
}

/// How many atoms of a store are wanted, each counted as often as it stands there. It takes no memory.
#[tactic(auto, using(chr_base::proofs::Stores::size_store_of))]
pub fn count(store: &Bag, wanted: &Wanted) -> usize
    ensures { result ≡ size (wanted_in wanted.now store.now) }
{
    count_among(store.atoms(), wanted)
}

/// How many of these atoms are wanted.
fn count_among(atoms: &[Atom], wanted: &Wanted) -> usize
    ensures count { result ≡ length (filter (is_wanted wanted.now) atoms.now) }
{
    let mut count = 0;
    for atom in atoms {
        if wanted.has(atom) {
            count += 1;
        }
    }
    count
}
