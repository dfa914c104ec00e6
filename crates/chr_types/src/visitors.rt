//! All lists, and a count of them.
ghost use Rattle.std.specs.Prelude.{◌≡◌};

use crate::walk::{Beginnings, Visit};
use std::alloc::AllocError;

/// Admits every list.
#[derive(Drop)]
pub struct AllLists;

impl Beginnings for AllLists {
    ghost use Rattle.std.specs.Prelude.{true};

    ghost admits = { λ _ _. true };

    fn goes_on(&self, _values: &[i64]) -> bool {
        true
    }
}

/// Counts lists up to a limit, and stops at the one after it.
#[derive(Drop)]
pub struct LimitedCount {
    /// The number of lists that were visited.
    pub found: usize,
    pub limit: usize,
}

impl Visit for LimitedCount {
    ghost use Rattle.std.specs.Prelude.{⊤};
    ghost use Rattle.chr_types.specs.Visits.{CountsOne};

    ghost ready = { λ _. ⊤ };

    ghost step = { λ v _ stops w. CountsOne v stops w };

    fn visit(&mut self, _values: &[i64]) -> Result<bool, AllocError> {
        if self.found >= self.limit {
            return Ok(true);
        }
        self.found += 1;
        Ok(false)
    }
}
