//! Rows that are found by ranges of two values.
ghost use Rattle.std.specs.Prelude.{◌≡◌, ℕ, ◌+◌, ◌-◌, ◌<◌, ◌≤◌, ◌^◌, ◌∷◌, ◌++◌, [], length, set, Some, None, OnOk};
ghost use Rattle.std.specs.Prelude.{IfOk, IfSome, IfNone};
ghost use Rattle.chr_indexes.specs.RangedRows.{IsWanted, IsCrossed};

use crate::ranges::index::Index;
use crate::ranges::range::Range;
use std::alloc::{AllocError, Global};
use std::marker::Model;

/// Rows that are found by a hash and ranges of two values: one index by the hash and the first value, and one by the
/// hash and the second. A look-up goes down by the one and by the other in turns, to the next row that both have, so
/// that it skips what either skips. Contracts see the hash and both values of each live row, and for how many rows
/// there is room.
#[derive(Drop)]
pub struct Crossing {
    first: Index,
    second: Index,
}

impl Model for Crossing {
    ghost use Rattle.std.specs.Prelude.{min};
    ghost use Rattle.chr_indexes.specs.RangedRows.{ListedPairs};
    ghost use Rattle.chr_indexes.specs.working.Pairs.{pairs_code, pairs_of, AreAsMany};

    ghost Value = { ListedPairs };

    ghost coded = { pairs_code };

    ghost view = { λ c. record {
      rows = pairs_of c.first.rows c.second.rows;
      room = min c.first.room c.second.room;
    } };

    ghost invariant = { λ c. AreAsMany c.first.rows c.second.rows };
}

/// The place of the newest row, at this place or below, whose values both ranges allow, or 0. `place` is 0 or that of a
/// row whose first value its range allows.
fn cross(
    left: &mut Index,
    right: &mut Index,
    hash: u32,
    first: &Range,
    second: &Range,
    from: u32,
) -> u32
    requires { 0 < from → IsWanted left.old.rows hash first.now (from - 1) }
    ensures left { left.new ≡ left.old }
    ensures right { right.new ≡ right.old }
    ensures within { result ≤ from }
    ensures first { 0 < result → IsWanted left.old.rows hash first.now (result - 1) }
    ensures second { 0 < result → IsWanted right.old.rows hash second.now (result - 1) }
    ensures none_between { (r : ℕ) → r < from → IsWanted left.old.rows hash first.now r
        → IsWanted right.old.rows hash second.now r → r < result }
{
    let mut at = from;
    while at > 0 {
        let other = right.place_at_or_below(hash, second, at - 1);
        if other == at || other == 0 {
            return other;
        }
        at = left.place_at_or_below(hash, first, other - 1);
    }
    0
}

impl Crossing {
    /// The crossing of no rows.
    pub fn new(alloc: Global) -> Result<Crossing, AllocError>
        ensures { IfOk result (λ c. c.rows ≡ []) }
    {
        Ok(Crossing {
            first: Index::new(alloc)?,
            second: Index::new(alloc)?,
        })
    }

    /// Makes room for `more` rows more. No row changes, even where memory is refused.
    pub fn reserve(&mut self, more: usize) -> Result<(), AllocError>
        requires { length self.old.rows + more < 2 ^ 32 }
        ensures rows { self.new.rows ≡ self.old.rows }
        ensures ok { OnOk result (length self.old.rows + more ≤ self.new.room) }
    {
        self.first.reserve(more)?;
        self.second.reserve(more)?;
        Ok(())
    }

    /// Adds a row, for which there is room.
    pub fn push(&mut self, hash: u32, first: i64, second: i64)
        requires room { length self.old.rows < self.old.room }
        requires few { length self.old.rows + 1 < 2 ^ 32 }
        ensures rows { self.new.rows
            ≡ self.old.rows ++ Some (record { hash = hash; first = first; second = second }) ∷ [] }
        ensures room { self.new.room ≡ self.old.room }
    {
        self.first.push(hash, first);
        self.second.push(hash, second);
    }

    /// Forgets all rows. The room for them stays.
    pub fn clear(&mut self)
        ensures rows { self.new.rows ≡ [] }
        ensures room { self.new.room ≡ self.old.room }
        ensures fits { length self.old.rows ≤ self.new.room }
    {
        self.first.clear();
        self.second.clear();
    }

    /// Marks a row as dead. It keeps its number.
    pub fn kill(&mut self, row: u32)
        requires { row < length self.old.rows }
        ensures rows { self.new.rows ≡ set self.old.rows row None }
        ensures room { self.new.room ≡ self.old.room }
    {
        self.first.kill(row);
        self.second.kill(row);
    }

    /// The newest live row with this hash and values in the ranges.
    pub fn first(&mut self, hash: u32, first: &Range, second: &Range) -> Option<u32>
        ensures same { self.new ≡ self.old }
        ensures crossed { IfSome result (λ row. IsCrossed self.old.rows hash first.now second.now row) }
        ensures newest { IfSome result (λ row. (other : ℕ) → IsCrossed self.old.rows hash first.now second.now other
            → other ≤ row) }
        ensures none { IfNone result ((other : ℕ) → ¬ (IsCrossed self.old.rows hash first.now second.now other)) }
    {
        let from = self.first.first_place(hash, first);
        cross(&mut self.first, &mut self.second, hash, first, second, from).checked_sub(1)
    }

    /// Like [`Crossing::first`], but below `row`. The search begins at the row where that lives and has the hash, and
    /// else at the newest.
    pub fn next(&mut self, hash: u32, first: &Range, second: &Range, row: u32) -> Option<u32>
        ensures same { self.new ≡ self.old }
        ensures below { IfSome result (λ next. next < row) }
        ensures crossed { IfSome result (λ next. IsCrossed self.old.rows hash first.now second.now next) }
        ensures newest { IfSome result (λ next. (other : ℕ) → other < row
            → IsCrossed self.old.rows hash first.now second.now other → other ≤ next) }
        ensures none { IfNone result ((other : ℕ) → other < row
            → ¬ (IsCrossed self.old.rows hash first.now second.now other)) }
    {
        let from = self.first.place_below(hash, first, row);
        cross(&mut self.first, &mut self.second, hash, first, second, from).checked_sub(1)
    }

    /// Like [`Crossing::first`], but at `row` or below it. The row may be dead, or past the last. The search begins at
    /// the row where that has the hash, and else at the newest.
    pub fn at_or_below(&mut self, hash: u32, first: &Range, second: &Range, row: u32) -> Option<u32>
        ensures same { self.new ≡ self.old }
        ensures at_or_below { IfSome result (λ next. next ≤ row) }
        ensures crossed { IfSome result (λ next. IsCrossed self.old.rows hash first.now second.now next) }
        ensures newest { IfSome result (λ next. (other : ℕ) → other ≤ row
            → IsCrossed self.old.rows hash first.now second.now other → other ≤ next) }
        ensures none { IfNone result ((other : ℕ) → other ≤ row
            → ¬ (IsCrossed self.old.rows hash first.now second.now other)) }
    {
        let from = self.first.place_at_or_below(hash, first, row);
        cross(&mut self.first, &mut self.second, hash, first, second, from).checked_sub(1)
    }
}
