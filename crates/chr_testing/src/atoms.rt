//! Atoms and steps as plain data.
use arrayvec::ArrayVec;
use chr_base::atom::{Atom, SymbolId};
use chr_base::bag::Bag;
use chr_base::derivation::Step;
use std::alloc::{AllocError, Global};

/// The atom of the symbol at these values, of which no more are taken than fit.
pub fn atom(symbol: u16, values: &[i64]) -> Atom {
    let mut args = ArrayVec::new();
    for value in values {
        let _ = args.try_push(*value);
    }
    Atom {
        symbol: SymbolId(symbol),
        args,
    }
}

/// Atoms by their symbols and values, in this order.
pub fn atoms(alloc: Global, rows: &[(u16, &[i64])]) -> Result<Vec<Atom>, AllocError> {
    let mut atoms = Vec::new(alloc);
    for (symbol, values) in rows {
        atoms.push(atom(*symbol, values))?;
    }
    Ok(atoms)
}

/// Equal atoms, in this order.
pub fn copies(alloc: Global, atoms: &[Atom]) -> Result<Vec<Atom>, AllocError> {
    let mut copies = Vec::new(alloc);
    for atom in atoms {
        copies.push(atom.copy())?;
    }
    Ok(copies)
}

/// The store of atoms by their symbols and values.
pub fn bag(alloc: Global, rows: &[(u16, &[i64])]) -> Result<Bag, AllocError> {
    Bag::of(atoms(alloc, rows)?)
}

/// The store of the first symbol at each of these values.
pub fn bag_of_values(alloc: Global, values: &[i64]) -> Result<Bag, AllocError> {
    let mut bag = Bag::new(alloc);
    for value in values {
        bag.add(atom(0, &[*value]))?;
    }
    Ok(bag)
}

/// Adds copies of these atoms.
pub fn add_copies(store: &mut Bag, atoms: &[Atom]) -> Result<(), AllocError> {
    for atom in atoms {
        store.add(atom.copy())?;
    }
    Ok(())
}

/// The step of the rule with this number on these heads, of which no more are taken than fit.
pub fn step(rule: u32, heads: &[Atom]) -> Step {
    let mut taken = ArrayVec::new();
    for head in heads {
        let _ = taken.try_push(head.copy());
    }
    Step { rule, heads: taken }
}
