//! Atoms of one symbol, by their arguments alone.
ghost use Rattle.std.specs.Prelude.{◌≡◌, ◌-◌, ◌≤◌, ◌++◌, ◌∷◌, [], None, Some, length, take, get_or, slice_get};
ghost use Rattle.std.specs.Prelude.{IfNone, IfSome, IsTrue, OnOk};
ghost use Rattle.std.specs.Bool.{OnTrue, OnFalse};
ghost use Rattle.std.specs.List.Sorted.{IsPermutation};
ghost use Rattle.chr_printing.specs.declared.flat.TheConstants.{FLAT_ARITY};
ghost use Rattle.chr_printing.specs.working.Printing.{flat_atoms, flat_rows, has_shape};

use chr_base::atom::{Atom, SymbolId};
use std::alloc::{AllocError, Global};

/// The most arguments of atoms that get rows of their own.
pub(crate) const FLAT_ARITY: usize = 3;

/// Atoms of one symbol and number of arguments, which are written one after another.
#[derive(Drop)]
pub(crate) struct Flat {
    /// The symbol of all atoms.
    pub(crate) symbol: SymbolId,
    /// The number of arguments of all atoms.
    pub(crate) arity: usize,
    /// The arguments of each atom, and noughts behind them.
    pub(crate) rows: Vec<[i64; FLAT_ARITY]>,
    /// The text of all atoms, empty until it is written.
    pub(crate) text: String,
}

/// The values, and noughts behind them.
fn row_of(values: &[i64]) -> [i64; FLAT_ARITY]
    requires { length values.now ≤ FLAT_ARITY }
    ensures { take (length values.now) result ≡ values.now }
{
    let mut row = [0; FLAT_ARITY];
    for j in 0..values.len() {
        row[j] = values[j];
    }
    row
}

impl Flat {
    /// No atoms yet, of this symbol and number of arguments.
    pub(crate) fn new(alloc: Global, symbol: SymbolId, arity: usize) -> Flat
        ensures none { flat_atoms result ≡ [] }
        ensures symbol { result.symbol ≡ symbol }
        ensures arity { result.arity ≡ arity }
    {
        Flat {
            symbol,
            arity,
            rows: Vec::new(alloc),
            text: String::new(alloc),
        }
    }

    /// Whether the atom has the symbol and the number of arguments of these atoms.
    pub(crate) fn is_for(&self, atom: &Atom) -> bool
        ensures { result ≡ has_shape self.now atom.now }
    {
        self.symbol.0 == atom.symbol.0 && self.arity == atom.args.len()
    }

    /// Adds an atom, the last. Where memory is refused nothing changes.
    pub(crate) fn push(&mut self, atom: &Atom) -> Result<(), AllocError>
        requires shape { IsTrue (has_shape self.old atom.now) }
        requires few { length atom.now.args.items ≤ FLAT_ARITY }
        ensures { OnOk result (flat_atoms self.new ≡ flat_atoms self.old ++ atom.now ∷ []) }
    {
        self.rows.push(row_of(&atom.args))?;
        Ok(())
    }

    /// `atom` becomes that of a row. False where there is no such row.
    #[inline(always)]
    pub(crate) fn read(&self, row: usize, atom: &mut Atom) -> bool
        ensures there { OnTrue result (get_or (flat_rows self.now) row None ≡ Some atom.new) }
        ensures none { OnFalse result (get_or (flat_rows self.now) row None ≡ None) }
    {
        if row >= self.rows.len() {
            return false;
        }
        let values = &self.rows[row];
        atom.set(self.symbol, &values[..self.arity.min(FLAT_ARITY)]);
        true
    }

    /// The atom of a row.
    fn atom_at(&self, row: usize) -> Option<Atom>
        ensures { result ≡ slice_get (flat_atoms self.now) row }
    {
        let mut atom = Atom::default();
        if self.read(row, &mut atom) {
            Some(atom)
        } else {
            None
        }
    }

    /// The atoms of the first row and of the last one.
    pub(crate) fn ends(&self) -> Option<(Atom, Atom)>
        ensures first { IfSome result (λ ends. slice_get (flat_atoms self.now) 0 ≡ Some ends.0) }
        ensures last { IfSome result (λ ends.
            slice_get (flat_atoms self.now) (length (flat_atoms self.now) - 1) ≡ Some ends.1) }
        ensures none { IfNone result (flat_atoms self.now ≡ []) }
    {
        let last = self.rows.len().checked_sub(1)?;
        Some((self.atom_at(0)?, self.atom_at(last)?))
    }

    /// Puts the rows in order.
    pub(crate) fn sort(&mut self)
        ensures { IsPermutation (flat_atoms self.old) (flat_atoms self.new) }
    {
        self.rows.sort_unstable();
    }
}
