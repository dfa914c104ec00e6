//! Walks along chains. A place is the number of a row and one, and 0 is the end of a chain.
ghost use Rattle.std.specs.Prelude.{◌≡◌, ℕ, ◌+◌, ◌-◌, ◌%◌, ◌<◌, ◌≤◌, ◌^◌, length, get_or, Some, None};
ghost use Rattle.std.specs.Bool.{OnTrue};
ghost use Rattle.chr_indexes.specs.working.HashEntries.{hashes_of, flags_of, slot_of, live_hashes, IsLivePlace};
ghost use Rattle.chr_indexes.specs.working.HashEntries.{LiesBelow, AreChained, IsIndex};

use crate::hashes::row::Row;
use crate::slots::slot_for;

/// The place of the newest live row of a slot, or 0. Dead rows on the way are taken out of the chain.
pub(crate) fn first_live(rows: &[Row], heads: &mut [u32], slot: u32) -> u32
    requires chained { AreChained (length heads.old) rows.now heads.old }
    requires slot { slot < length heads.old }
    ensures chained { AreChained (length heads.old) rows.now heads.new }
    ensures size { length heads.new ≡ length heads.old }
    ensures within { result ≤ length rows.now }
    ensures live { IsLivePlace heads.old (hashes_of rows.now) (flags_of rows.now) slot result }
    ensures none_above { LiesBelow heads.old (hashes_of rows.now) (flags_of rows.now) slot (length rows.now) result }
{
    let mut at = heads[slot as usize];
    while at > 0 {
        let met = rows[(at - 1) as usize];
        if met.alive {
            return at;
        }
        at = met.next;
        heads[slot as usize] = at;
    }
    0
}

/// Like [`first_live`], but of the rows of a row's slot that lie below it.
pub(crate) fn next_live(rows: &mut [Row], heads: &[u32], row: u32) -> u32
    requires chained { AreChained (length heads.now) rows.old heads.now }
    requires row { row < length rows.old }
    ensures chained { AreChained (length heads.now) rows.new heads.now }
    ensures size { length rows.new ≡ length rows.old }
    ensures hashes { hashes_of rows.new ≡ hashes_of rows.old }
    ensures flags { flags_of rows.new ≡ flags_of rows.old }
    ensures within { result ≤ row }
    ensures live { IsLivePlace heads.now (hashes_of rows.old) (flags_of rows.old)
        (slot_of heads.now (hashes_of rows.old) row) result }
    ensures none_between { LiesBelow heads.now (hashes_of rows.old) (flags_of rows.old)
        (slot_of heads.now (hashes_of rows.old) row) row result }
{
    let mut at = rows[row as usize].next;
    while at > 0 {
        let met = rows[(at - 1) as usize];
        if met.alive {
            return at;
        }
        at = met.next;
        rows[row as usize].next = at;
    }
    0
}

/// Like [`next_live`], but the row itself counts, if it lives.
pub(crate) fn live_from(rows: &mut [Row], heads: &[u32], row: u32) -> u32
    requires chained { AreChained (length heads.now) rows.old heads.now }
    requires row { row < length rows.old }
    ensures chained { AreChained (length heads.now) rows.new heads.now }
    ensures size { length rows.new ≡ length rows.old }
    ensures hashes { hashes_of rows.new ≡ hashes_of rows.old }
    ensures flags { flags_of rows.new ≡ flags_of rows.old }
    ensures within { result ≤ row + 1 }
    ensures live { IsLivePlace heads.now (hashes_of rows.old) (flags_of rows.old)
        (slot_of heads.now (hashes_of rows.old) row) result }
    ensures none_between { LiesBelow heads.now (hashes_of rows.old) (flags_of rows.old)
        (slot_of heads.now (hashes_of rows.old) row) (row + 1) result }
{
    if rows[row as usize].alive {
        return row + 1;
    }
    next_live(rows, heads, row)
}

/// Whether there is a row of this number, alive or dead, and it has this hash.
pub(crate) fn is_at(rows: &[Row], row: u32, hash: u32) -> bool
    ensures { OnTrue result ((row < length rows.now) × (get_or (hashes_of rows.now) row 0 ≡ hash)) }
{
    if row as usize >= rows.len() {
        return false;
    }
    rows[row as usize].hash == hash
}

/// Chains all rows anew, in slots of which each is empty.
pub(crate) fn relink(rows: &mut [Row], heads: &mut [u32])
    requires some { 0 < length heads.old }
    requires most { length heads.old < 2 ^ 32 }
    requires empty { (s : ℕ) → get_or heads.old s 0 ≡ 0 }
    requires few { length rows.old < 2 ^ 32 }
    ensures chained { AreChained (length heads.new) rows.new heads.new }
    ensures size { length heads.new ≡ length heads.old }
    ensures hashes { hashes_of rows.new ≡ hashes_of rows.old }
    ensures flags { flags_of rows.new ≡ flags_of rows.old }
{
    for i in 0..rows.len() {
        let slot = slot_for(rows[i].hash, heads.len());
        rows[i].next = heads[slot];
        heads[slot] = i as u32 + 1;
    }
}

/// The newest live row with this hash from a live place of its slot on, or 0.
pub(crate) fn seek(rows: &mut [Row], heads: &[u32], hash: u32, from: u32) -> u32
    requires index { IsIndex rows.old heads.now }
    requires within { from ≤ length rows.old }
    requires live { IsLivePlace heads.now (hashes_of rows.old) (flags_of rows.old) (hash % length heads.now) from }
    ensures index { IsIndex rows.new heads.now }
    ensures hashes { hashes_of rows.new ≡ hashes_of rows.old }
    ensures flags { flags_of rows.new ≡ flags_of rows.old }
    ensures within { result ≤ from }
    ensures live { 0 < result → get_or (live_hashes (hashes_of rows.old) (flags_of rows.old)) (result - 1) None
        ≡ Some hash }
    ensures none_between { (r : ℕ) → r < from
        → get_or (live_hashes (hashes_of rows.old) (flags_of rows.old)) r None ≡ Some hash → r < result }
{
    let mut at = from;
    while at > 0 {
        let row = at - 1;
        if rows[row as usize].hash == hash {
            return at;
        }
        at = next_live(rows, heads, row);
    }
    0
}
