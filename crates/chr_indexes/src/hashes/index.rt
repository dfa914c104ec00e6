//! The index.
ghost use Rattle.std.specs.Prelude.{◌≡◌, ℕ, ◌+◌, ◌-◌, ◌<◌, ◌≤◌, ◌^◌, ◌∷◌, ◌++◌, [], length, get_or, set, Some, None};
ghost use Rattle.std.specs.Prelude.{OnOk, IfOk, IfSome, IfNone};
ghost use Rattle.std.specs.Bool.{OnTrue};
ghost use Rattle.chr_indexes.specs.HashedRows.{HasHash};

use crate::hashes::chain::{first_live, is_at, live_from, next_live, relink, seek};
use crate::hashes::row::Row;
use crate::slots::slot_for;
use std::alloc::{AllocError, Global};
use std::marker::Model;

/// Rows that are found by a hash. Contracts see the hash of each live row, and for how many rows there is room.
#[derive(Drop)]
pub struct Index {
    rows: Vec<Row>,
    heads: Vec<u32>,
}

impl Model for Index {
    ghost use Rattle.std.specs.Prelude.{vec_capacity};
    ghost use Rattle.chr_indexes.specs.HashedRows.{Listed};
    ghost use Rattle.chr_indexes.specs.working.HashEntries.{hashes_of, flags_of, listed_code, live_hashes, IsIndex};

    ghost Value = { Listed };

    ghost coded = { listed_code };

    ghost view = { λ b. record {
      rows = live_hashes (hashes_of b.rows.items) (flags_of b.rows.items);
      room = vec_capacity b.rows;
    } };

    ghost invariant = { λ b. IsIndex b.rows.items b.heads.items };
}

impl Index {
    /// The index of no rows.
    pub fn new(alloc: Global) -> Result<Index, AllocError>
        ensures { IfOk result (λ i. i.rows ≡ []) }
    {
        Ok(Index {
            rows: Vec::new(alloc),
            heads: vec![in alloc; 0; 16]?,
        })
    }

    /// Makes room for `more` rows more. The slots grow with the rows. No row changes, even where memory is refused.
    pub fn reserve(&mut self, more: usize) -> Result<(), AllocError>
        requires { length self.old.rows + more < 2 ^ 32 }
        ensures rows { self.new.rows ≡ self.old.rows }
        ensures ok { OnOk result (length self.old.rows + more ≤ self.new.room) }
    {
        self.rows.reserve(more)?;
        let slots = self.heads.len();
        if slots < self.rows.len() + more && slots < 0x4000_0000 {
            self.heads.resize(2 * slots, 0)?;
            self.heads.fill(0);
            relink(&mut self.rows, &mut self.heads);
        }
        Ok(())
    }

    /// Adds a row, for which there is room.
    pub fn push(&mut self, hash: u32)
        requires room { length self.old.rows < self.old.room }
        requires few { length self.old.rows + 1 < 2 ^ 32 }
        ensures rows { self.new.rows ≡ self.old.rows ++ Some hash ∷ [] }
        ensures room { self.new.room ≡ self.old.room }
    {
        let slot = slot_for(hash, self.heads.len());
        let next = self.heads[slot];
        self.rows.push_reserved(Row {
            hash,
            next,
            alive: true,
        });
        self.heads[slot] = self.rows.len() as u32;
    }

    /// The number of rows, dead ones among them.
    pub fn len(&self) -> usize
        ensures { result ≡ length self.now.rows }
    {
        self.rows.len()
    }

    /// Forgets all rows. The room for them stays.
    pub fn clear(&mut self)
        ensures rows { self.new.rows ≡ [] }
        ensures room { self.new.room ≡ self.old.room }
        ensures fits { length self.old.rows ≤ self.new.room }
    {
        self.rows.clear();
        self.heads.fill(0);
    }

    /// Marks a row as dead. It keeps its number.
    pub fn kill(&mut self, row: u32)
        requires { row < length self.old.rows }
        ensures rows { self.new.rows ≡ set self.old.rows row None }
        ensures room { self.new.room ≡ self.old.room }
    {
        self.rows[row as usize].alive = false;
    }

    /// The newest live row with this hash. Dead rows that are met are taken out of their chain, which no contract sees.
    pub fn first(&mut self, hash: u32) -> Option<u32>
        ensures same { self.new ≡ self.old }
        ensures live { IfSome result (λ row. HasHash self.old.rows hash row) }
        ensures newest { IfSome result (λ row. (other : ℕ) → HasHash self.old.rows hash other → other ≤ row) }
        ensures none { IfNone result ((other : ℕ) → ¬ (HasHash self.old.rows hash other)) }
    {
        self.first_place(hash).checked_sub(1)
    }

    /// The newest live row with this hash below `row`. The search begins at the row where that lives and has the hash,
    /// and else at the newest.
    pub fn next(&mut self, hash: u32, row: u32) -> Option<u32>
        ensures same { self.new ≡ self.old }
        ensures below { IfSome result (λ next. next < row) }
        ensures live { IfSome result (λ next. HasHash self.old.rows hash next) }
        ensures newest { IfSome result (λ next. (r : ℕ) → r < row → HasHash self.old.rows hash r → r ≤ next) }
        ensures none { IfNone result ((other : ℕ) → other < row → ¬ (HasHash self.old.rows hash other)) }
    {
        self.place_below(hash, row).checked_sub(1)
    }

    /// The newest live row with this hash at `row` or below it. The row may be dead, or past the last. The search
    /// begins at the row where that has the hash, and else at the newest.
    pub fn at_or_below(&mut self, hash: u32, row: u32) -> Option<u32>
        ensures same { self.new ≡ self.old }
        ensures at_or_below { IfSome result (λ next. next ≤ row) }
        ensures live { IfSome result (λ next. HasHash self.old.rows hash next) }
        ensures newest { IfSome result (λ next. (r : ℕ) → r ≤ row → HasHash self.old.rows hash r → r ≤ next) }
        ensures none { IfNone result ((other : ℕ) → other ≤ row → ¬ (HasHash self.old.rows hash other)) }
    {
        self.place_at_or_below(hash, row).checked_sub(1)
    }

    /// The place, which is the number + 1, of the newest live row with this hash, or 0.
    fn first_place(&mut self, hash: u32) -> u32
        ensures same { self.new ≡ self.old }
        ensures within { result ≤ length self.old.rows }
        ensures live { 0 < result → get_or self.old.rows (result - 1) None ≡ Some hash }
        ensures none_above { (r : ℕ) → get_or self.old.rows r None ≡ Some hash → r < result }
    {
        let slot = slot_for(hash, self.heads.len());
        let at = first_live(&self.rows, &mut self.heads, slot as u32);
        seek(&mut self.rows, &self.heads, hash, at)
    }

    /// Like [`Index::first_place`], but below a live row with this hash.
    fn next_place(&mut self, hash: u32, row: u32) -> u32
        requires { get_or self.old.rows row None ≡ Some hash }
        ensures same { self.new ≡ self.old }
        ensures within { result ≤ row }
        ensures live { 0 < result → get_or self.old.rows (result - 1) None ≡ Some hash }
        ensures none_between { (r : ℕ) → r < row → get_or self.old.rows r None ≡ Some hash → r < result }
    {
        let at = next_live(&mut self.rows, &self.heads, row);
        seek(&mut self.rows, &self.heads, hash, at)
    }

    /// Whether a row lives and has this hash.
    fn has(&self, hash: u32, row: u32) -> bool
        ensures { OnTrue result (get_or self.now.rows row None ≡ Some hash) }
    {
        is_at(&self.rows, row, hash) && self.rows[row as usize].alive
    }

    /// Like [`Index::first_place`], but below any row.
    fn place_below(&mut self, hash: u32, row: u32) -> u32
        ensures same { self.new ≡ self.old }
        ensures within { result ≤ row }
        ensures live { 0 < result → get_or self.old.rows (result - 1) None ≡ Some hash }
        ensures none_between { (r : ℕ) → r < row → get_or self.old.rows r None ≡ Some hash → r < result }
    {
        if self.has(hash, row) {
            return self.next_place(hash, row);
        }
        if row == 0 {
            return 0;
        }
        self.place_at_or_below(hash, row - 1)
    }

    /// Like [`Index::first_place`], but at any row or below it.
    fn place_at_or_below(&mut self, hash: u32, row: u32) -> u32
        ensures same { self.new ≡ self.old }
        ensures within { result ≤ row + 1 }
        ensures live { 0 < result → get_or self.old.rows (result - 1) None ≡ Some hash }
        ensures none_between { (r : ℕ) → r ≤ row → get_or self.old.rows r None ≡ Some hash → r < result }
    {
        if !is_at(&self.rows, row, hash) {
            return self.down_to(hash, row);
        }
        let at = live_from(&mut self.rows, &self.heads, row);
        seek(&mut self.rows, &self.heads, hash, at)
    }

    /// Like [`Index::place_at_or_below`], but the search begins at the newest row with this hash.
    fn down_to(&mut self, hash: u32, row: u32) -> u32
        ensures same { self.new ≡ self.old }
        ensures within { result ≤ row + 1 }
        ensures live { 0 < result → get_or self.old.rows (result - 1) None ≡ Some hash }
        ensures none_between { (r : ℕ) → r ≤ row → get_or self.old.rows r None ≡ Some hash → r < result }
    {
        let mut at = self.first_place(hash);
        while at as u64 > row as u64 + 1 {
            at = self.next_place(hash, at - 1);
        }
        at
    }
}
