//! Walks along chains.
ghost use Rattle.std.specs.Prelude.{◌≡◌, ℕ, ◌+◌, ◌-◌, ◌%◌, ◌<◌, ◌≤◌, ◌^◌, length, get_or, vec_capacity};
ghost use Rattle.std.specs.Bool.{OnTrue};
ghost use Rattle.chr_indexes.specs.working.RangeChains.{row_at, row_slot, IsNewest, IsLink, AreLinked, AreHeads};
ghost use Rattle.chr_indexes.specs.working.RangeChains.{Passes};
ghost use Rattle.chr_indexes.specs.working.RangeChains.{IsSought};

use crate::ranges::range::Range;
use crate::ranges::row::{Link, Row};
use crate::slots::slot_for;

/// The links of rows, and the newest place of each slot.
#[derive(Drop)]
pub(crate) struct Chains {
    pub(crate) links: Vec<Link>,
    pub(crate) heads: Vec<u32>,
}

/// The link of a row above this place of its slot, where all rows below have theirs.
fn link_for(rows: &[Row], chains: &Chains, row: usize, next: u32) -> Link
    requires row { row < length rows.now }
    requires as_many { length chains.now.links.items ≡ length rows.now }
    requires linked { AreLinked (length chains.now.heads.items) rows.now chains.now.links.items row }
    requires next { IsNewest (length chains.now.heads.items) rows.now row
        (row_slot (length chains.now.heads.items) rows.now row) next }
    ensures { IsLink (length chains.now.heads.items) rows.now row result }
{
    let bounds = rows[row].bounds();
    if next > 0 {
        let left = chains.links[next as usize - 1];
        if left.jump > 0 {
            let right = chains.links[left.jump as usize - 1];
            if left.rank == right.rank {
                return Link {
                    bounds: bounds.with(left.bounds).with(right.bounds),
                    next,
                    jump: right.jump,
                    rank: left.rank.saturating_add(1),
                };
            }
        }
    }
    Link {
        bounds,
        next,
        jump: next,
        rank: 0,
    }
}

/// A row joins the chain of its slot, where all rows below have joined theirs.
pub(crate) fn join(rows: &[Row], chains: &mut Chains, row: usize)
    requires row { row < length rows.now }
    requires few { length rows.now < 2 ^ 32 }
    requires as_many { length chains.old.links.items ≡ length rows.now }
    requires some { 0 < length chains.old.heads.items }
    requires linked { AreLinked (length chains.old.heads.items) rows.now chains.old.links.items row }
    requires heads { AreHeads rows.now chains.old.heads.items row }
    ensures as_many { length chains.new.links.items ≡ length rows.now }
    ensures slots { length chains.new.heads.items ≡ length chains.old.heads.items }
    ensures room { vec_capacity chains.new.links ≡ vec_capacity chains.old.links }
    ensures linked { AreLinked (length chains.new.heads.items) rows.now chains.new.links.items (row + 1) }
    ensures heads { AreHeads rows.now chains.new.heads.items (row + 1) }
{
    let slot = slot_for(rows[row].hash, chains.heads.len());
    let link = link_for(rows, chains, row, chains.heads[slot]);
    chains.links[row] = link;
    chains.heads[slot] = row as u32 + 1;
}

/// Chains all rows, in slots of which each is empty.
pub(crate) fn relink(rows: &[Row], chains: &mut Chains)
    requires few { length rows.now < 2 ^ 32 }
    requires as_many { length chains.old.links.items ≡ length rows.now }
    requires some { 0 < length chains.old.heads.items }
    requires empty { (s : ℕ) → get_or chains.old.heads.items s 0 ≡ 0 }
    ensures as_many { length chains.new.links.items ≡ length rows.now }
    ensures slots { length chains.new.heads.items ≡ length chains.old.heads.items }
    ensures room { vec_capacity chains.new.links ≡ vec_capacity chains.old.links }
    ensures linked { AreLinked (length chains.new.heads.items) rows.now chains.new.links.items (length rows.now) }
    ensures heads { AreHeads rows.now chains.new.heads.items (length rows.now) }
{
    for row in 0..rows.len() {
        join(rows, chains, row);
    }
}

/// Where a search for values in a range goes on below a row, in the chain of its slot: a place above which no live row
/// below the row has such a value.
///
/// The row's link is made anew, since its bounds are too wide where rows have died.
fn below(rows: &[Row], chains: &mut Chains, range: &Range, row: usize) -> u32
    requires row { row < length rows.now }
    requires as_many { length chains.old.links.items ≡ length rows.now }
    requires linked { AreLinked (length chains.old.heads.items) rows.now chains.old.links.items (length rows.now) }
    ensures as_many { length chains.new.links.items ≡ length rows.now }
    ensures heads { chains.new.heads ≡ chains.old.heads }
    ensures room { vec_capacity chains.new.links ≡ vec_capacity chains.old.links }
    ensures linked { AreLinked (length chains.old.heads.items) rows.now chains.new.links.items (length rows.now) }
    ensures within { result ≤ row }
    ensures slot { 0 < result → row_slot (length chains.old.heads.items) rows.now (result - 1)
        ≡ row_slot (length chains.old.heads.items) rows.now row }
    ensures passed { Passes (length chains.old.heads.items) rows.now range.now row row result }
{
    let link = link_for(rows, chains, row, chains.links[row].next);
    chains.links[row] = link;
    if range.meets(link.bounds) {
        link.next
    } else {
        link.jump
    }
}

/// The newest live row with this hash and a value in the range, from a place of its slot on: its place, or 0.
pub(crate) fn seek(rows: &[Row], chains: &mut Chains, hash: u32, range: &Range, from: u32) -> u32
    requires as_many { length chains.old.links.items ≡ length rows.now }
    requires linked { AreLinked (length chains.old.heads.items) rows.now chains.old.links.items (length rows.now) }
    requires within { from ≤ length rows.now }
    requires slot { 0 < from → row_slot (length chains.old.heads.items) rows.now (from - 1)
        ≡ hash % length chains.old.heads.items }
    ensures as_many { length chains.new.links.items ≡ length rows.now }
    ensures heads { chains.new.heads ≡ chains.old.heads }
    ensures room { vec_capacity chains.new.links ≡ vec_capacity chains.old.links }
    ensures linked { AreLinked (length chains.old.heads.items) rows.now chains.new.links.items (length rows.now) }
    ensures within { result ≤ from }
    ensures sought { 0 < result → IsSought rows.now hash range.now (result - 1) }
    ensures none_between { (r : ℕ) → r < from → IsSought rows.now hash range.now r → r < result }
{
    let mut at = from;
    while at > 0 {
        let row = at as usize - 1;
        let link = chains.links[row];
        if !range.meets(link.bounds) {
            at = link.jump;
        } else if rows[row].is_wanted(hash, range) {
            return at;
        } else {
            at = below(rows, chains, range, row);
        }
    }
    0
}

/// Whether there is a row of this number, alive or dead, and it has this hash.
pub(crate) fn is_at(rows: &[Row], row: u32, hash: u32) -> bool
    ensures { OnTrue result ((row < length rows.now) × ((row_at rows.now row).hash ≡ hash)) }
{
    if row as usize >= rows.len() {
        return false;
    }
    rows[row as usize].hash == hash
}
