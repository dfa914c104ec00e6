//! Records by place, and the place of each row.
ghost use Rattle.std.specs.Prelude.{◌≡◌, ℕ, ◌+◌, ◌<◌, ◌≤◌, ◌^◌, length};
ghost use Rattle.chr_portions.specs.working.Placed.{IsPlaced, AreKept, AreSame, AgreeBelow, AreLikeBelow};
ghost use Rattle.chr_portions.specs.working.Chains.{AreNext, AreHeads};

use crate::chains::{link, unlink};
use crate::entry::{Entry, settle};
use crate::record::Record;

/// Two records change places.
pub(crate) fn swap(records: &mut [Record], places: &mut [u32], left: usize, right: usize)
    requires placed { IsPlaced records.old places.old }
    requires left { left < length records.old }
    requires right { right < length records.old }
    requires few { length records.old < 2 ^ 32 }
    ensures few { length places.new ≡ length places.old }
    ensures others { (k : ℕ) → k ≤ left → k ≤ right → AgreeBelow k records.old records.new }
    ensures placed { IsPlaced records.new places.new }
    ensures size { length records.new ≡ length records.old }
    ensures same { AreKept records.old places.old records.new places.new }
{
    let a = records[left];
    let b = records[right];
    records[left] = b;
    records[right] = a;
    places[b.row as usize] = left as u32;
    places[a.row as usize] = right as u32;
}

/// Goes round one cycle of the list, from its entry `i`: each record there comes to where the list wants it.
fn follow(records: &mut [Record], places: &mut [u32], entries: &mut [Entry], start: usize, i: usize)
    requires placed { IsPlaced records.old places.old }
    requires within { start + length entries.old ≤ length records.old }
    requires few { length records.old < 2 ^ 32 }
    requires entry { i < length entries.old }
    ensures few { length places.new ≡ length places.old }
    ensures listed { length entries.new ≡ length entries.old }
    ensures below { AgreeBelow start records.old records.new }
    ensures placed { IsPlaced records.new places.new }
    ensures size { length records.new ≡ length records.old }
    ensures same { AreKept records.old places.old records.new places.new }
{
    let mut at = i;
    for _ in 0..entries.len() {
        let next = settle(entries, at);
        if next == i || next == at || next >= entries.len() {
            break;
        }
        swap(records, places, start + at, start + next);
        at = next;
    }
}

/// Records from `start` on come into the order of this list, as far as its places are distinct. The list is used up.
pub(crate) fn put_in_order(
    records: &mut [Record],
    places: &mut [u32],
    entries: &mut [Entry],
    start: usize,
)
    requires placed { IsPlaced records.old places.old }
    requires within { start + length entries.old ≤ length records.old }
    requires few { length records.old < 2 ^ 32 }
    ensures few { length places.new ≡ length places.old }
    ensures listed { length entries.new ≡ length entries.old }
    ensures below { AgreeBelow start records.old records.new }
    ensures placed { IsPlaced records.new places.new }
    ensures size { length records.new ≡ length records.old }
    ensures same { AreKept records.old places.old records.new places.new }
{
    for i in 0..entries.len() {
        follow(records, places, entries, start, i);
    }
}

/// Records from `start` on come into this order, and into their chains anew.
pub(crate) fn rearrange(
    records: &mut [Record],
    places: &mut [u32],
    heads: &mut [u32],
    entries: &mut [Entry],
    start: usize,
)
    requires placed { IsPlaced records.old places.old }
    requires within { start + length entries.old ≤ length records.old }
    requires few { length records.old < 2 ^ 32 }
    requires some { 0 < length heads.old }
    requires next { AreNext (length heads.old) records.old (length records.old) }
    requires heads { AreHeads records.old heads.old (length records.old) }
    ensures placed { IsPlaced records.new places.new }
    ensures size { length records.new ≡ length records.old }
    ensures below { AreLikeBelow start records.old records.new }
    ensures slots { length heads.new ≡ length heads.old }
    ensures same { AreSame records.old places.old records.new places.new }
    ensures next { AreNext (length heads.old) records.new (length records.old) }
    ensures heads { AreHeads records.new heads.new (length records.old) }
{
    let mut at = records.len();
    while at > start {
        at -= 1;
        unlink(records, heads, at);
    }
    put_in_order(records, places, entries, start);
    for place in start..records.len() {
        link(records, heads, place);
    }
}
