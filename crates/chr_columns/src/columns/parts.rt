//! Pools whose atoms are put in the order of their rules.
ghost use Rattle.std.specs.Prelude.{◌≡◌, ◌≤◌, IfOk};
ghost use Rattle.chr_base.specs.Stores.{size, store_of};

use crate::arranging::{arrange, arranged, crossed};
use crate::columns::Columns;
use chr_base::atom::Atom;
use std::alloc::{AllocError, Global};

/// The most fresh atoms that are taken in whatever order they stand.
const FEW_ATOMS: usize = 16_384;

impl Columns {
    /// The number of fresh atoms among all that are there. It takes no memory.
    pub fn waiting(&self) -> usize
        ensures { result ≤ size self.now }
    {
        self.fresh.len()
    }

    /// Puts the fresh atoms, where there are many, in the order of the arguments by which the pool's rules join them,
    /// so that a rest that comes next takes partners one after another. Few are put in order only where plans leave
    /// rows out by two columns. The store stays the same. Where memory is refused the order does, too.
    pub fn arrange(&mut self)
        ensures { self.new ≡ self.old }
    {
        if self.fresh.len() > FEW_ATOMS || crossed(&self.rested.directory.groups).is_some() {
            self.standing = None;
            arrange(&self.rested, &mut self.fresh);
        }
    }

    /// All atoms, in the order of the arguments by which the pool's rules join them, where there is such an order.
    pub fn arranged(&self, alloc: Global) -> Result<Vec<Atom>, AllocError>
        ensures { IfOk result (λ atoms. store_of atoms.items ≡ self.now) }
    {
        arranged(alloc, &self.rested, &self.fresh)
    }
}
