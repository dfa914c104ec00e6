//! Multisets of atoms.
ghost use Rattle.std.specs.Prelude.{◌≡◌, ◌↔◌, IsTrue, IsOk, IfOk, OnOk, OnErr};
ghost use Rattle.std.specs.Bool.{OnTrue, OnFalse};
ghost use Rattle.chr_base.specs.FinBag as bag;
ghost use Rattle.chr_base.specs.FinBag.{◌⊕◌, ◌⊖◌};
ghost use Rattle.chr_base.specs.Stores.{store_of, size};
ghost use Rattle.chr_base.specs.Values.{HasValues};

use crate::atom::Atom;
use crate::{lists, values};
use std::alloc::{AllocError, Global};
use std::marker::Model;

/// A finite multiset of ground atoms: a store (Frühwirth 2009).
#[derive(Drop)]
pub struct Bag {
    items: Vec<Atom>,
}

impl Model for Bag {
    ghost use Rattle.std.specs.Prelude.{IsTrue};
    ghost use Rattle.chr_base.specs.FinBag.{of_list, is_rising};
    ghost use Rattle.chr_base.specs.working.Codes.{code};
    ghost use Rattle.chr_base.specs.Stores.{Store};
    ghost use Rattle.chr_base.specs.Atoms.{atom_cmp};
    ghost use Rattle.chr_base.specs.working.Codes.{coded_atom};

    ghost Value = { Store };

    ghost coded = { code coded_atom };

    ghost view = { λ b. of_list b.items.items };

    ghost invariant = { λ b. IsTrue (is_rising atom_cmp b.items.items) };
}

impl Bag {
    /// The empty bag.
    pub fn new(alloc: Global) -> Self
        ensures { result ≡ bag.empty }
    {
        Bag {
            items: Vec::new(alloc),
        }
    }

    /// Adds an atom. Where memory is refused nothing changes.
    pub fn add(&mut self, atom: Atom) -> Result<(), AllocError>
        ensures ok { OnOk result (self.new ≡ bag.add self.old atom) }
        ensures err { OnErr result (self.new ≡ self.old) }
    {
        let place = lists::place_of(&self.items, &atom);
        self.items.insert(place, atom)?;
        Ok(())
    }

    /// The multiset of these atoms. It takes no memory, and so always succeeds.
    pub fn of(atoms: Vec<Atom>) -> Result<Bag, AllocError>
        ensures sure { IsOk result }
        ensures store { IfOk result (λ b. b ≡ store_of atoms.items) }
    {
        let mut items = atoms;
        lists::put_in_order(&mut items);
        Ok(Bag { items })
    }

    /// The atoms in order, one that occurs more than once as often as it does: by symbol, then by number of arguments,
    /// then by the arguments as numbers, the first first.
    pub fn atoms(&self) -> &[Atom]
        ensures { result.now ≡ bag.items self.now }
    {
        &self.items
    }

    /// The number of atoms.
    pub fn len(&self) -> usize
        ensures { result ≡ size self.now }
    {
        self.atoms().len()
    }

    /// Whether the bag has no atoms.
    pub fn is_empty(&self) -> bool
        ensures { IsTrue result ↔ (self.now ≡ bag.empty) }
    {
        self.atoms().is_empty()
    }

    /// Adds all atoms of another bag: all of them, or none where memory is refused.
    pub fn union(&mut self, other: &Bag) -> Result<(), AllocError>
        ensures ok { OnOk result (self.new ≡ self.old ⊕ other.now) }
        ensures err { OnErr result (self.new ≡ self.old) }
    {
        lists::push_copies(&mut self.items, &other.items)?;
        lists::put_in_order(&mut self.items);
        Ok(())
    }

    /// An equal bag.
    pub fn copy(&self, alloc: Global) -> Result<Bag, AllocError>
        ensures { IfOk result (λ b. b ≡ self.now) }
    {
        let mut items = Vec::with_capacity(alloc, self.items.len())?;
        lists::push_copies(&mut items, &self.items)?;
        Ok(Bag { items })
    }

    /// Each argument of each atom is a 64-bit value. It does nothing but walk over the atoms, for its contract.
    pub fn has_values(&self)
        ensures { HasValues self.now }
    {
        values::are_values_of(self.atoms());
    }

    /// Whether the two are one multiset.
    pub fn is_same(&self, other: &Bag) -> bool
        ensures { IsTrue result ↔ (self.now ≡ other.now) }
    {
        lists::same_atoms(&self.items, &other.items)
    }

    /// Takes all of these atoms out, or none where they are not all there. It takes no memory. It walks the bag twice
    /// where the atoms are in order, as those of a bag are, and else at least once for each of them.
    pub fn remove_all(&mut self, atoms: &[Atom]) -> bool
        ensures there { IsTrue result ↔ bag.IsWithin (bag.of_list atoms.now) self.old }
        ensures taken { OnTrue result (self.new ≡ self.old ⊖ bag.of_list atoms.now) }
        ensures kept { OnFalse result (self.new ≡ self.old) }
    {
        if lists::is_in_order(atoms) {
            lists::remove_in_order(&mut self.items, atoms)
        } else {
            lists::remove_one_by_one(&mut self.items, atoms)
        }
    }
}
