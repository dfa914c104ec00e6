//! What an index keeps of a row.
ghost use Rattle.std.specs.Prelude.{◌≡◌, true};
ghost use Rattle.std.specs.Bool.{OnTrue, OnFalse};
ghost use Rattle.chr_indexes.specs.RangedRows.{IsIn};
ghost use Rattle.chr_indexes.specs.working.Bounds.{IsInBounds};

use crate::ranges::range::{Bounds, Range};

/// A row's hash and value, and whether it lives.
#[derive(Clone, Copy, Debug, PartialEq, Eq)]
pub(crate) struct Row {
    pub(crate) value: i64,
    pub(crate) hash: u32,
    pub(crate) alive: bool,
}

/// How a look-up goes on below a row, in the chain of its slot. A place is the number of a row and one, and 0 is the
/// end.
///
/// Chained rows are the roots of trees, one after another, the newest row first. Two trees of one rank become the
/// branches of the next row that is pushed. So a chain of n rows has fewer than 2 * log2 (n + 1) trees, each of that
/// depth at most. A look-up enters no tree whose bounds lie outside its range.
#[derive(Clone, Copy, Debug, Default, PartialEq, Eq)]
pub(crate) struct Link {
    /// Bounds of the values of all live rows of the row's tree, which are those above `jump`.
    pub(crate) bounds: Bounds,
    /// The place of the next row below.
    pub(crate) next: u32,
    /// The place of the root of the next tree.
    pub(crate) jump: u32,
    /// The depth of the row's tree, from 0 for a row alone.
    pub(crate) rank: u8,
}

impl Row {
    /// Bounds that have the row's value, where it lives.
    pub(crate) fn bounds(&self) -> Bounds
        ensures { self.now.alive ≡ true → IsInBounds result self.now.value }
    {
        if self.alive {
            Bounds {
                low: self.value,
                high: self.value,
            }
        } else {
            Bounds {
                low: i64::MAX,
                high: i64::MIN,
            }
        }
    }

    /// Whether the row lives, has this hash, and a value in the range.
    pub(crate) fn is_wanted(&self, hash: u32, range: &Range) -> bool
        ensures wanted { OnTrue result ((self.now.alive ≡ true) × (self.now.hash ≡ hash)
            × IsIn range.now self.now.value) }
        ensures other { OnFalse result (self.now.alive ≡ true → self.now.hash ≡ hash → IsIn range.now self.now.value
            → ⊥) }
    {
        self.alive && self.hash == hash && range.has(self.value)
    }
}
