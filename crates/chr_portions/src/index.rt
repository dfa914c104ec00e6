//! The index.
ghost use Rattle.std.specs.Prelude.{◌≡◌, ℕ, ◌+◌, ◌<◌, ◌≤◌, ◌^◌, ◌∷◌, ◌++◌, [], length, set, Some, None, OnOk};
ghost use Rattle.std.specs.Prelude.{IfOk, IfSome, IfNone};
ghost use Rattle.chr_indexes.specs.RangedRows.{IsCrossed};
ghost use Rattle.chr_portions.specs.RankedPairs.{rank_of, AreDistinct};

use crate::chains::{link, relink};
use crate::cover::cover;
use crate::record::{Record, Sought};
use crate::search::place_below;
use crate::skips::Skip;
use chr_indexes::ranges::Range;
use std::alloc::{AllocError, Global};
use std::marker::Model;

/// Rows that are found by a hash and ranges of two values. Contracts see the hash and both values of each live row, the
/// rank of each row, and for how many rows there is room.
#[derive(Drop)]
pub struct Index {
    records: Vec<Record>,
    places: Vec<u32>,
    heads: Vec<u32>,
    skips: Vec<Skip>,
    starts: Vec<u32>,
    demand: u32,
}

impl Model for Index {
    ghost use Rattle.std.specs.Prelude.{min, vec_capacity};
    ghost use Rattle.chr_portions.specs.RankedPairs.{RankedPairs};
    ghost use Rattle.chr_portions.specs.working.Entries.{ranked_code, rows_of, IsIndex};

    ghost Value = { RankedPairs };

    ghost coded = { ranked_code };

    ghost view = { λ b. record {
      rows = rows_of b.records.items b.places.items;
      ranks = b.places.items;
      room = min (vec_capacity b.records) (vec_capacity b.places);
    } };

    ghost invariant = { λ b. IsIndex b.records.items b.places.items b.heads.items b.skips.items };
}

impl Index {
    /// The index of no rows.
    ///
    /// # Errors
    ///
    /// Where memory is refused.
    pub fn new(alloc: Global) -> Result<Index, AllocError>
        ensures rows { IfOk result (λ i. i.rows ≡ []) }
        ensures ranks { IfOk result (λ i. i.ranks ≡ []) }
    {
        Ok(Index {
            records: Vec::new(alloc),
            places: Vec::new(alloc),
            heads: vec![in alloc; 0; 16]?,
            skips: Vec::new(alloc),
            starts: Vec::new(alloc),
            demand: 0,
        })
    }

    /// The number of rows, dead ones among them.
    pub fn len(&self) -> usize
        ensures { result ≡ length self.now.rows }
    {
        self.places.len()
    }

    /// There are as many ranks as rows, and distinct rows have distinct ranks.
    pub fn are_ranked(&self)
        ensures as_many { length self.now.ranks ≡ length self.now.rows }
        ensures distinct { AreDistinct self.now.ranks }
    {
        let _ = &self.places;
    }

    /// Makes room for `more` rows more. The slots grow with the rows. Where look-ups have gone far down chains, rows
    /// come into another order, so that ranks may change, which nothing else does. No row changes, even where memory is
    /// refused.
    ///
    /// # Errors
    ///
    /// Where memory is refused.
    pub fn reserve(&mut self, more: usize) -> Result<(), AllocError>
        requires { length self.old.rows + more < 2 ^ 32 }
        ensures rows { self.new.rows ≡ self.old.rows }
        ensures ok { OnOk result (length self.old.rows + more ≤ self.new.room) }
    {
        self.records.reserve(more)?;
        self.places.reserve(more)?;
        self.grow(more)?;
        self.cover_wanted();
        Ok(())
    }

    /// Adds a row, for which there is room. It has the greatest rank.
    pub fn push(&mut self, hash: u32, first: i64, second: i64)
        requires room { length self.old.rows < self.old.room }
        requires few { length self.old.rows + 1 < 2 ^ 32 }
        ensures rows { self.new.rows
            ≡ self.old.rows ++ Some (record { hash = hash; first = first; second = second }) ∷ [] }
        ensures ranks { self.new.ranks ≡ self.old.ranks ++ length self.old.rows ∷ [] }
        ensures room { self.new.room ≡ self.old.room }
    {
        let place = self.records.len();
        let added = Record::live(hash, first, second, place as u32);
        self.records.push_reserved(added);
        self.places.push_reserved(place as u32);
        link(&mut self.records, &mut self.heads, place);
    }

    /// Forgets all rows. The room for them stays.
    pub fn clear(&mut self)
        ensures rows { self.new.rows ≡ [] }
        ensures ranks { self.new.ranks ≡ [] }
        ensures room { self.new.room ≡ self.old.room }
        ensures fits { length self.old.rows ≤ self.new.room }
    {
        self.records.clear();
        self.places.clear();
        self.heads.fill(0);
        self.skips.clear();
        self.starts.clear();
        self.demand = 0;
    }

    /// Marks a row as dead. It keeps its number and its rank.
    pub fn kill(&mut self, row: u32)
        requires { row < length self.old.rows }
        ensures rows { self.new.rows ≡ set self.old.rows row None }
        ensures ranks { self.new.ranks ≡ self.old.ranks }
        ensures room { self.new.room ≡ self.old.room }
    {
        let place = self.places[row as usize];
        self.records[place as usize].alive = false;
    }

    /// The live row of the greatest rank with this hash and values in the ranges.
    pub fn first(&mut self, hash: u32, first: &Range, second: &Range) -> Option<u32>
        ensures same { self.new ≡ self.old }
        ensures crossed { IfSome result (λ row. IsCrossed self.old.rows hash first.now second.now row) }
        ensures greatest { IfSome result (λ row. (other : ℕ)
            → IsCrossed self.old.rows hash first.now second.now other
            → rank_of self.old.ranks other ≤ rank_of self.old.ranks row) }
        ensures none { IfNone result ((other : ℕ) → ¬ (IsCrossed self.old.rows hash first.now second.now other)) }
    {
        let bound = self.records.len();
        self.row_below(hash, first, second, bound)
    }

    /// Like [`Index::first`], but of the rows of a lower rank than `row`. That may be dead, or past the last, where its
    /// number is its rank. The search begins at the row where that has the hash, and else at the greatest rank.
    pub fn next(&mut self, hash: u32, first: &Range, second: &Range, row: u32) -> Option<u32>
        ensures same { self.new ≡ self.old }
        ensures below { IfSome result (λ next. rank_of self.old.ranks next < rank_of self.old.ranks row) }
        ensures crossed { IfSome result (λ next. IsCrossed self.old.rows hash first.now second.now next) }
        ensures greatest { IfSome result (λ next. (other : ℕ)
            → rank_of self.old.ranks other < rank_of self.old.ranks row
            → IsCrossed self.old.rows hash first.now second.now other
            → rank_of self.old.ranks other ≤ rank_of self.old.ranks next) }
        ensures none { IfNone result ((other : ℕ) → rank_of self.old.ranks other < rank_of self.old.ranks row
            → ¬ (IsCrossed self.old.rows hash first.now second.now other)) }
    {
        let bound = self.rank(row);
        self.row_below(hash, first, second, bound)
    }

    /// Like [`Index::next`], but the row itself counts, too.
    pub fn at_or_below(&mut self, hash: u32, first: &Range, second: &Range, row: u32) -> Option<u32>
        ensures same { self.new ≡ self.old }
        ensures at_or_below { IfSome result (λ next. rank_of self.old.ranks next ≤ rank_of self.old.ranks row) }
        ensures crossed { IfSome result (λ next. IsCrossed self.old.rows hash first.now second.now next) }
        ensures greatest { IfSome result (λ next. (other : ℕ)
            → rank_of self.old.ranks other ≤ rank_of self.old.ranks row
            → IsCrossed self.old.rows hash first.now second.now other
            → rank_of self.old.ranks other ≤ rank_of self.old.ranks next) }
        ensures none { IfNone result ((other : ℕ) → rank_of self.old.ranks other ≤ rank_of self.old.ranks row
            → ¬ (IsCrossed self.old.rows hash first.now second.now other)) }
    {
        let bound = self.rank(row) + 1;
        self.row_below(hash, first, second, bound)
    }

    /// Doubles the slots where they are fewer than the rows will be.
    fn grow(&mut self, more: usize) -> Result<(), AllocError>
        requires { length self.old.rows + more < 2 ^ 32 }
        ensures rows { self.new.rows ≡ self.old.rows }
        ensures room { self.new.room ≡ self.old.room }
    {
        let slots = self.heads.len();
        let wanted = (self.records.len() + more).min(0x4000_0000);
        if slots >= wanted {
            return Ok(());
        }
        self.heads.resize(2 * slots, 0)?;
        self.heads.fill(0);
        relink(&mut self.records, &mut self.heads);
        Ok(())
    }

    /// Covers records where look-ups have met many in vain that have no skips yet. Where memory is refused they stay
    /// as they are.
    fn cover_wanted(&mut self)
        ensures rows { self.new.rows ≡ self.old.rows }
        ensures room { self.new.room ≡ self.old.room }
    {
        let bare = self.records.len().saturating_sub(8 * self.skips.len());
        if self.demand as usize <= bare + 256 {
            return;
        }
        self.demand = 0;
        let _ = cover(
            &mut self.records,
            &mut self.places,
            &mut self.heads,
            &mut self.skips,
            &mut self.starts,
        );
    }

    /// The rank of a row.
    fn rank(&self, row: u32) -> usize
        ensures rank { result ≡ rank_of self.now.ranks row }
        ensures few { result < 2 ^ 32 }
    {
        if (row as usize) < self.places.len() {
            self.places[row as usize] as usize
        } else {
            row as usize
        }
    }

    /// Like [`Index::first`], but of the rows of a rank below `bound`.
    fn row_below(&mut self, hash: u32, first: &Range, second: &Range, bound: usize) -> Option<u32>
        ensures same { self.new ≡ self.old }
        ensures below { IfSome result (λ next. rank_of self.old.ranks next < bound) }
        ensures crossed { IfSome result (λ next. IsCrossed self.old.rows hash first.now second.now next) }
        ensures greatest { IfSome result (λ next. (other : ℕ) → rank_of self.old.ranks other < bound
            → IsCrossed self.old.rows hash first.now second.now other
            → rank_of self.old.ranks other ≤ rank_of self.old.ranks next) }
        ensures none { IfNone result ((other : ℕ) → rank_of self.old.ranks other < bound
            → ¬ (IsCrossed self.old.rows hash first.now second.now other)) }
    {
        let sought = Sought {
            hash,
            first: *first,
            second: *second,
        };
        let bound = bound.min(self.records.len());
        let place = place_below(
            &mut self.records,
            &self.places,
            &mut self.heads,
            &mut self.skips,
            &sought,
            bound,
            &mut self.demand,
        );
        if place == 0 {
            return None;
        }
        Some(self.records[place as usize - 1].row)
    }
}
