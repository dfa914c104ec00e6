//! Small stores, to be looked at one after the other.

use crate::limits::{MAX_SMALL_ATOMS, MAX_SMALL_STORES, MAX_STORE_ATOMS, MOST_VALUES};
use crate::peak::Peak;
use crate::staying::stays;
use arrayvec::ArrayVec;
use chr_base::atom::{Atom, SymbolId};
use chr_base::bag::Bag;
use chr_base::limits::MAX_ARITY;
use chr_base::program::Program;
use chr_base::rule::Rule;
use chr_overlaps::Overlap;
use chr_weights::Weighed;
use std::alloc::{AllocError, Global};

/// The places of atoms in a list, rising; of equal atoms one place more than once.
#[derive(Drop)]
struct Picked {
    places: ArrayVec<usize, MAX_STORE_ATOMS>,
}

/// The number of atoms of so many arguments with so many values.
fn count_of(arity: usize, values: usize) -> usize {
    let mut count: usize = 1;
    for _ in 0..arity.min(MAX_ARITY) {
        count = count.saturating_mul(values);
    }
    count
}

/// The number of arguments of a symbol, 0 where the program doesn't declare it.
pub(crate) fn arity_of(program: &Program, symbol: SymbolId) -> usize {
    if usize::from(symbol.0) < program.symbols() {
        program.arity_of(symbol).min(MAX_ARITY)
    } else {
        0
    }
}

/// How many values the arguments of these symbols take, from 0 on: as many as leave few enough atoms, and 2 at least.
pub(crate) fn values_for(program: &Program, symbols: &[SymbolId]) -> usize {
    let mut count: usize = 0;
    for symbol in symbols {
        count = count.saturating_add(count_of(arity_of(program, *symbol), MOST_VALUES));
    }
    if count <= MAX_SMALL_ATOMS {
        MOST_VALUES
    } else {
        2
    }
}

/// The atom of a symbol whose arguments are the digits of a number, the first one first.
fn atom_of(symbol: SymbolId, arity: usize, values: usize, number: usize) -> Atom {
    let mut atom = Atom {
        symbol,
        args: ArrayVec::new(),
    };
    let mut below = count_of(arity, values);
    let mut rest = number;
    for _ in 0..arity {
        below = below.checked_div(values).unwrap_or(1).max(1);
        let digit = rest.checked_div(below).unwrap_or(0);
        rest = rest.saturating_sub(digit.saturating_mul(below));
        if atom.args.len() < MAX_ARITY {
            atom.args.push(i64::try_from(digit).unwrap_or(0));
        }
    }
    atom
}

/// Adds all atoms of a symbol with values from 0 on.
pub(crate) fn push_atoms_of(
    atoms: &mut Vec<Atom>,
    program: &Program,
    symbol: SymbolId,
    values: usize,
) -> Result<(), AllocError> {
    let arity = arity_of(program, symbol);
    for number in 0..count_of(arity, values) {
        atoms.push(atom_of(symbol, arity, values, number))?;
    }
    Ok(())
}

/// Adds what has one place more: of each so many the last place or a later one.
fn push_longer(
    longer: &mut Vec<Picked>,
    picked: &Picked,
    count: usize,
    most: usize,
) -> Result<(), AllocError> {
    let first = picked.places.last().copied().unwrap_or(0);
    for place in first..count {
        if picked.places.len() < MAX_STORE_ATOMS && longer.len() < most {
            let mut places = picked.places.clone()?;
            places.push(place);
            longer.push(Picked { places })?;
        }
    }
    Ok(())
}

/// What has one place more than these.
fn longer(
    alloc: Global,
    picked: &[Picked],
    count: usize,
    most: usize,
) -> Result<Vec<Picked>, AllocError> {
    let mut longer = Vec::new(alloc);
    for one in picked {
        push_longer(&mut longer, one, count, most)?;
    }
    Ok(longer)
}

/// The atoms at these places.
fn store_at(alloc: Global, atoms: &[Atom], picked: &Picked) -> Result<Bag, AllocError> {
    let mut store = Bag::new(alloc);
    for place in &picked.places {
        if let Some(atom) = atoms.get(*place) {
            store.add(atom.copy())?;
        }
    }
    Ok(store)
}

/// Adds the stores of the atoms at these places.
fn push_stores(
    alloc: Global,
    stores: &mut Vec<Bag>,
    atoms: &[Atom],
    picked: &[Picked],
) -> Result<(), AllocError> {
    for one in picked {
        stores.push(store_at(alloc, atoms, one)?)?;
    }
    Ok(())
}

/// The stores of one to `MAX_STORE_ATOMS` of these atoms, by their numbers of atoms, `MAX_SMALL_STORES` at most.
fn stores_of(alloc: Global, atoms: &[Atom]) -> Result<Vec<Bag>, AllocError> {
    let mut stores = Vec::new(alloc);
    let mut picked = Vec::new(alloc);
    picked.push(Picked {
        places: ArrayVec::new(),
    })?;
    for _ in 0..MAX_STORE_ATOMS {
        let most = MAX_SMALL_STORES.saturating_sub(stores.len());
        picked = longer(alloc, &picked, atoms.len(), most)?;
        push_stores(alloc, &mut stores, atoms, &picked)?;
    }
    Ok(stores)
}

/// The small stores of atoms of these symbols.
pub(crate) fn small_stores(
    alloc: Global,
    program: &Program,
    symbols: &[SymbolId],
) -> Result<Vec<Bag>, AllocError> {
    let values = values_for(program, symbols);
    let mut atoms = Vec::new(alloc);
    for symbol in symbols {
        push_atoms_of(&mut atoms, program, *symbol, values)?;
    }
    stores_of(alloc, &atoms)
}

/// Whether the store is one atom, more than once.
fn is_one_atom(store: &Bag) -> bool {
    match store.atoms() {
        [first, .., last] => first.is_same(last),
        _ => false,
    }
}

/// Whether the store is one atom, more than once, where `copies`, else whether each atom is there once.
pub(crate) fn is_wanted(store: &Bag, copies: bool) -> bool {
    if copies {
        is_one_atom(store)
    } else {
        !has_copies(store)
    }
}

/// Whether an atom is there more than once.
fn has_copies(store: &Bag) -> bool {
    let atoms = store.atoms();
    for (atom, next) in atoms.iter().zip(atoms.iter().skip(1)) {
        if atom.is_same(next) {
            return true;
        }
    }
    false
}

/// Small stores for what proposals keep.
#[derive(Drop)]
pub struct SmallStores {
    pub(crate) stores: Vec<Bag>,
}

/// Adds the symbols of a rule's heads, but for those that are there.
fn push_symbols(symbols: &mut Vec<SymbolId>, rule: &Rule) -> Result<(), AllocError> {
    for place in 0..rule.places() {
        let symbol = rule.head_at(place).symbol;
        if !symbols.contains(&symbol) {
            symbols.push(symbol)?;
        }
    }
    Ok(())
}

/// Adds the symbols of the heads of an overlap's rules.
fn push_overlap(
    symbols: &mut Vec<SymbolId>,
    program: &Program,
    overlap: &Overlap,
) -> Result<(), AllocError> {
    for number in [overlap.first, overlap.second] {
        if let Some(rule) = program.rules().get((number as usize).saturating_sub(1)) {
            push_symbols(symbols, rule)?;
        }
    }
    Ok(())
}

impl SmallStores {
    /// Those of the symbols of the heads of the rules that lead to two ends.
    pub fn of(alloc: Global, peak: &Peak) -> Result<SmallStores, AllocError> {
        let program = peak.weighed.program();
        let mut symbols = Vec::new(alloc);
        push_overlap(&mut symbols, program, &peak.first.failure.overlap)?;
        push_overlap(&mut symbols, program, &peak.shown().failure.overlap)?;
        let stores = small_stores(alloc, program, &symbols)?;
        Ok(SmallStores { stores })
    }

    /// How many of them stay under a program.
    pub(crate) fn count(&self, alloc: Global, weighed: &Weighed) -> Result<usize, AllocError> {
        let mut count: usize = 0;
        for store in &self.stores {
            if stays(alloc, weighed, store)? {
                count = count.saturating_add(1);
            }
        }
        Ok(count)
    }
}
