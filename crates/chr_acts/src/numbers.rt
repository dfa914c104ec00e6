//! The last numbers of seats.
ghost use Rattle.std.specs.Prelude.{◌≡◌, ◌==◌, ℕ, OnOk, if◌then◌else◌};
ghost use Rattle.chr_acts.specs.working.Numbers.{HasRoom, last_in};

use std::alloc::{AllocError, Global};
use std::collections::BTreeMap;

/// The last number of each seat that has entries, so that entries are not counted again.
#[derive(Drop)]
pub(crate) struct Numbers {
    last: BTreeMap<u32, u64>,
}

impl Numbers {
    /// No seat has entries.
    pub(crate) fn new(alloc: Global) -> Numbers
        ensures { (seat : ℕ) → last_in result seat ≡ 0 }
    {
        Numbers {
            last: BTreeMap::new(alloc),
        }
    }

    /// The last number of a seat, or 0. It takes no memory.
    pub(crate) fn last(&self, seat: u32) -> u64
        ensures { result ≡ last_in self.now seat }
    {
        match self.last.get(&seat) {
            Some(number) => *number,
            None => 0,
        }
    }

    /// Makes room for a number of a seat.
    pub(crate) fn make_room(&mut self, seat: u32) -> Result<(), AllocError>
        ensures same { (other : ℕ) → last_in self.new other ≡ last_in self.old other }
        ensures room { OnOk result (HasRoom self.new seat) }
    {
        let number = self.last(seat);
        self.last.insert(seat, number)?;
        Ok(())
    }

    /// Gives a number to a seat, for which there is room. It takes no memory.
    pub(crate) fn give(&mut self, seat: u32, number: u64)
        requires { HasRoom self.old seat }
        ensures { (other : ℕ) → last_in self.new other ≡ (if other == seat then number else last_in self.old other) }
    {
        if self.last.insert(seat, number).is_err() {
            unreachable!();
        }
    }
}
