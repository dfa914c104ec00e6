//! What came and went between two stores.
ghost use Rattle.std.specs.Prelude.{◌≡◌, IfOk};
ghost use Rattle.chr_base.specs.Atoms.{atom_cmp};
ghost use Rattle.chr_base.specs.FinBag.{◌⊖◌};
ghost use Rattle.chr_queries.specs.working.Surplus.{surplus, without_before};

use chr_base::atom::Atom;
use chr_base::bag::Bag;
use std::alloc::{AllocError, Global};

/// What a store has that an earlier one had not, and the other way round.
#[derive(Drop)]
pub struct Changes {
    pub came: Bag,
    pub went: Bag,
}

/// What came and went from the earlier store to the later one.
pub fn changes_between(alloc: Global, earlier: &Bag, later: &Bag) -> Result<Changes, AllocError>
    ensures came { IfOk result (λ changes. changes.came ≡ later.now ⊖ earlier.now) }
    ensures went { IfOk result (λ changes. changes.went ≡ earlier.now ⊖ later.now) }
{
    let came = difference(alloc, later, earlier)?;
    let went = difference(alloc, earlier, later)?;
    Ok(Changes { came, went })
}

/// The atoms of a store that another has fewer times, each as often as it stands there more. Each store is walked once.
#[tactic(auto, using(crate::proofs::Surplus::surplus_is))]
pub fn difference(alloc: Global, store: &Bag, other: &Bag) -> Result<Bag, AllocError>
    ensures { IfOk result (λ more. more ≡ store.now ⊖ other.now) }
{
    Bag::of(surplus_of(alloc, store.atoms(), other.atoms())?)
}

/// What these atoms are more than the others, where both are in order.
fn surplus_of(alloc: Global, atoms: &[Atom], others: &[Atom]) -> Result<Vec<Atom>, AllocError>
    ensures { IfOk result (λ more. more.items ≡ surplus atom_cmp atoms.now others.now) }
{
    let mut more = Vec::new(alloc);
    let mut rest = others;
    for atom in atoms {
        rest = skip_before(rest, atom);
        match rest {
            [first, later @ ..] if first.is_same(atom) => rest = later,
            _ => more.push(atom.copy())?,
        }
    }
    Ok(more)
}

/// The atoms from the first on that doesn't come before this one.
fn skip_before<'a>(atoms: &'a [Atom], atom: &Atom) -> &'a [Atom]
    ensures { result.now ≡ without_before atom_cmp atom.now atoms.now }
{
    let mut rest = atoms;
    while let [first, later @ ..] = rest {
        if !atom.is_after(first) {
            return rest;
        }
        rest = later;
    }
    rest
}
