//! The index.
ghost use Rattle.std.specs.Prelude.{◌≡◌, ℕ, ◌+◌, ◌-◌, ◌<◌, ◌≤◌, ◌^◌, ◌∷◌, ◌++◌, [], length, get_or, set, Some, None};
ghost use Rattle.std.specs.Prelude.{OnOk, IfOk, IfSome, IfNone};
ghost use Rattle.std.specs.Bool.{OnTrue};
ghost use Rattle.chr_indexes.specs.RangedRows.{HasEntryHash, IsWanted};

use crate::ranges::chain::{Chains, is_at, join, relink, seek};
use crate::ranges::range::Range;
use crate::ranges::row::{Link, Row};
use crate::slots::slot_for;
use std::alloc::{AllocError, Global};
use std::marker::Model;

/// Rows that are found by a hash and a range of values. Contracts see the hash and value of each live row, and for how
/// many rows there is room.
#[derive(Drop)]
pub struct Index {
    rows: Vec<Row>,
    chains: Chains,
}

impl Model for Index {
    ghost use Rattle.std.specs.Prelude.{min, vec_capacity};
    ghost use Rattle.chr_indexes.specs.RangedRows.{ListedEntries};
    ghost use Rattle.chr_indexes.specs.working.RangeEntries.{entries_code, entries_of, IsRangeIndex};

    ghost Value = { ListedEntries };

    ghost coded = { entries_code };

    ghost view = { λ b. record {
      rows = entries_of b.rows.items;
      room = min (vec_capacity b.rows) (vec_capacity b.chains.links);
    } };

    ghost invariant = { λ b. IsRangeIndex b.rows.items b.chains.links.items b.chains.heads.items };
}

impl Index {
    /// The index of no rows.
    pub fn new(alloc: Global) -> Result<Index, AllocError>
        ensures { IfOk result (λ i. i.rows ≡ []) }
    {
        Ok(Index {
            rows: Vec::new(alloc),
            chains: Chains {
                links: Vec::new(alloc),
                heads: vec![in alloc; 0; 16]?,
            },
        })
    }

    /// Makes room for `more` rows more. The slots grow with the rows. No row changes, even where memory is refused.
    pub fn reserve(&mut self, more: usize) -> Result<(), AllocError>
        requires { length self.old.rows + more < 2 ^ 32 }
        ensures rows { self.new.rows ≡ self.old.rows }
        ensures ok { OnOk result (length self.old.rows + more ≤ self.new.room) }
    {
        self.rows.reserve(more)?;
        self.chains.links.reserve(more)?;
        let slots = self.chains.heads.len();
        if slots < self.rows.len() + more && slots < 0x4000_0000 {
            self.chains.heads.resize(2 * slots, 0)?;
            self.chains.heads.fill(0);
            relink(&self.rows, &mut self.chains);
        }
        Ok(())
    }

    /// Adds a row, for which there is room.
    pub fn push(&mut self, hash: u32, value: i64)
        requires room { length self.old.rows < self.old.room }
        requires few { length self.old.rows + 1 < 2 ^ 32 }
        ensures rows { self.new.rows ≡ self.old.rows ++ Some (record { hash = hash; value = value }) ∷ [] }
        ensures room { self.new.room ≡ self.old.room }
    {
        let row = self.rows.len();
        self.rows.push_reserved(Row {
            value,
            hash,
            alive: true,
        });
        self.chains.links.push_reserved(Link::default());
        join(&self.rows, &mut self.chains, row);
    }

    /// Forgets all rows. The room for them stays.
    pub fn clear(&mut self)
        ensures rows { self.new.rows ≡ [] }
        ensures room { self.new.room ≡ self.old.room }
        ensures fits { length self.old.rows ≤ self.new.room }
    {
        self.rows.clear();
        self.chains.links.clear();
        self.chains.heads.fill(0);
    }

    /// Marks a row as dead. It keeps its number.
    pub fn kill(&mut self, row: u32)
        requires { row < length self.old.rows }
        ensures rows { self.new.rows ≡ set self.old.rows row None }
        ensures room { self.new.room ≡ self.old.room }
    {
        self.rows[row as usize].alive = false;
    }

    /// The newest live row with this hash and a value in the range.
    pub fn first(&mut self, hash: u32, range: &Range) -> Option<u32>
        ensures same { self.new ≡ self.old }
        ensures wanted { IfSome result (λ row. IsWanted self.old.rows hash range.now row) }
        ensures newest { IfSome result (λ row. (other : ℕ) → IsWanted self.old.rows hash range.now other
            → other ≤ row) }
        ensures none { IfNone result ((other : ℕ) → ¬ (IsWanted self.old.rows hash range.now other)) }
    {
        self.first_place(hash, range).checked_sub(1)
    }

    /// Like [`Index::first`], but below `row`. The search begins at the row where that lives and has the hash, and else
    /// at the newest.
    pub fn next(&mut self, hash: u32, range: &Range, row: u32) -> Option<u32>
        ensures same { self.new ≡ self.old }
        ensures below { IfSome result (λ next. next < row) }
        ensures wanted { IfSome result (λ next. IsWanted self.old.rows hash range.now next) }
        ensures newest { IfSome result (λ next. (other : ℕ) → other < row
            → IsWanted self.old.rows hash range.now other → other ≤ next) }
        ensures none { IfNone result ((other : ℕ) → other < row → ¬ (IsWanted self.old.rows hash range.now other)) }
    {
        self.place_below(hash, range, row).checked_sub(1)
    }

    /// Like [`Index::first`], but at `row` or below it. The row may be dead, or past the last. The search begins at the
    /// row where that has the hash, and else at the newest.
    pub fn at_or_below(&mut self, hash: u32, range: &Range, row: u32) -> Option<u32>
        ensures same { self.new ≡ self.old }
        ensures at_or_below { IfSome result (λ next. next ≤ row) }
        ensures wanted { IfSome result (λ next. IsWanted self.old.rows hash range.now next) }
        ensures newest { IfSome result (λ next. (other : ℕ) → other ≤ row
            → IsWanted self.old.rows hash range.now other → other ≤ next) }
        ensures none { IfNone result ((other : ℕ) → other ≤ row → ¬ (IsWanted self.old.rows hash range.now other)) }
    {
        self.place_at_or_below(hash, range, row).checked_sub(1)
    }

    /// The place, which is the number + 1, of the newest live row with this hash and a value in the range, or 0.
    pub(crate) fn first_place(&mut self, hash: u32, range: &Range) -> u32
        ensures same { self.new ≡ self.old }
        ensures within { result ≤ length self.old.rows }
        ensures wanted { 0 < result → IsWanted self.old.rows hash range.now (result - 1) }
        ensures none_above { (r : ℕ) → IsWanted self.old.rows hash range.now r → r < result }
    {
        let from = self.chains.heads[slot_for(hash, self.chains.heads.len())];
        seek(&self.rows, &mut self.chains, hash, range, from)
    }

    /// Like [`Index::first_place`], but below a live row with this hash.
    fn next_place(&mut self, hash: u32, range: &Range, row: u32) -> u32
        requires { HasEntryHash self.old.rows hash row }
        ensures same { self.new ≡ self.old }
        ensures within { result ≤ row }
        ensures wanted { 0 < result → IsWanted self.old.rows hash range.now (result - 1) }
        ensures none_between { (r : ℕ) → r < row → IsWanted self.old.rows hash range.now r → r < result }
    {
        let from = self.chains.links[row as usize].next;
        seek(&self.rows, &mut self.chains, hash, range, from)
    }

    /// Whether a row lives and has this hash.
    fn has(&self, hash: u32, row: u32) -> bool
        ensures { OnTrue result (HasEntryHash self.now.rows hash row) }
    {
        is_at(&self.rows, row, hash) && self.rows[row as usize].alive
    }

    /// Like [`Index::first_place`], but below any row.
    pub(crate) fn place_below(&mut self, hash: u32, range: &Range, row: u32) -> u32
        ensures same { self.new ≡ self.old }
        ensures within { result ≤ row }
        ensures wanted { 0 < result → IsWanted self.old.rows hash range.now (result - 1) }
        ensures none_between { (r : ℕ) → r < row → IsWanted self.old.rows hash range.now r → r < result }
    {
        if self.has(hash, row) {
            return self.next_place(hash, range, row);
        }
        if row == 0 {
            return 0;
        }
        self.place_at_or_below(hash, range, row - 1)
    }

    /// Like [`Index::first_place`], but at any row or below it.
    pub(crate) fn place_at_or_below(&mut self, hash: u32, range: &Range, row: u32) -> u32
        ensures same { self.new ≡ self.old }
        ensures within { result ≤ row + 1 }
        ensures wanted { 0 < result → IsWanted self.old.rows hash range.now (result - 1) }
        ensures none_between { (r : ℕ) → r ≤ row → IsWanted self.old.rows hash range.now r → r < result }
    {
        if !is_at(&self.rows, row, hash) {
            return self.down_to(hash, range, row);
        }
        seek(&self.rows, &mut self.chains, hash, range, row + 1)
    }

    /// Like [`Index::place_at_or_below`], but the search begins at the newest row with this hash and a value in the
    /// range.
    fn down_to(&mut self, hash: u32, range: &Range, row: u32) -> u32
        ensures same { self.new ≡ self.old }
        ensures within { result ≤ row + 1 }
        ensures wanted { 0 < result → IsWanted self.old.rows hash range.now (result - 1) }
        ensures none_between { (r : ℕ) → r ≤ row → IsWanted self.old.rows hash range.now r → r < result }
    {
        let mut at = self.first_place(hash, range);
        while at as u64 > row as u64 + 1 {
            at = self.next_place(hash, range, at - 1);
        }
        at
    }
}
