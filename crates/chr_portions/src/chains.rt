//! Chains of records by slot. A place in a chain is one more than the record's, and 0 is the end.
ghost use Rattle.std.specs.Prelude.{◌≡◌, ℕ, ◌+◌, ◌-◌, ◌<◌, ◌≤◌, ◌^◌, ◌%◌, length, get_or, true, false};
ghost use Rattle.chr_portions.specs.working.Skips.{record_at, IsSought};
ghost use Rattle.chr_portions.specs.working.Chains.{slot_of, IsNewest, AreNext, AreHeads, AreAlike};

use crate::record::{Record, Sought};

/// So many records a look-up meets in a chain before it goes on by blocks.
const MOST_STEPS: u32 = 24;

/// A record joins the chain of its slot, where those below have joined theirs.
pub(crate) fn link(records: &mut [Record], heads: &mut [u32], place: usize)
    requires place { place < length records.old }
    requires few { length records.old < 2 ^ 32 }
    requires some { 0 < length heads.old }
    requires next { AreNext (length heads.old) records.old place }
    requires heads { AreHeads records.old heads.old place }
    ensures size { length records.new ≡ length records.old }
    ensures slots { length heads.new ≡ length heads.old }
    ensures alike { AreAlike records.old records.new }
    ensures next { AreNext (length heads.old) records.new (place + 1) }
    ensures heads { AreHeads records.new heads.new (place + 1) }
{
    let slot = records[place].hash as usize % heads.len();
    records[place].next = heads[slot];
    heads[slot] = place as u32 + 1;
}

/// The last of the records that have joined leaves the chain of its slot.
pub(crate) fn unlink(records: &[Record], heads: &mut [u32], place: usize)
    requires place { place < length records.now }
    requires few { length records.now < 2 ^ 32 }
    requires some { 0 < length heads.old }
    requires next { AreNext (length heads.old) records.now (place + 1) }
    requires heads { AreHeads records.now heads.old (place + 1) }
    ensures slots { length heads.new ≡ length heads.old }
    ensures heads { AreHeads records.now heads.new place }
{
    let slot = records[place].hash as usize % heads.len();
    if heads[slot] == place as u32 + 1 {
        heads[slot] = records[place].next;
    }
}

/// Chains all records anew, in slots of which each is empty.
pub(crate) fn relink(records: &mut [Record], heads: &mut [u32])
    requires few { length records.old < 2 ^ 32 }
    requires some { 0 < length heads.old }
    requires empty { (s : ℕ) → get_or heads.old s 0 ≡ 0 }
    ensures size { length records.new ≡ length records.old }
    ensures slots { length heads.new ≡ length heads.old }
    ensures alike { AreAlike records.old records.new }
    ensures next { AreNext (length heads.old) records.new (length records.old) }
    ensures heads { AreHeads records.new heads.new (length records.old) }
{
    for place in 0..records.len() {
        link(records, heads, place);
    }
}

/// The greatest live place of a slot, or 0. Dead records on the way are taken out of the chain.
pub(crate) fn first_live(records: &[Record], heads: &mut [u32], slot: usize) -> u32
    requires next { AreNext (length heads.old) records.now (length records.now) }
    requires heads { AreHeads records.now heads.old (length records.now) }
    requires slot { slot < length heads.old }
    ensures slots { length heads.new ≡ length heads.old }
    ensures heads { AreHeads records.now heads.new (length records.now) }
    ensures newest { IsNewest (length heads.old) records.now (length records.now) slot result }
{
    let mut at = heads[slot];
    while at > 0 {
        let met = records[at as usize - 1];
        if met.alive {
            return at;
        }
        at = met.next;
        heads[slot] = at;
    }
    0
}

/// Like [`first_live`], but of the records of a record's slot that lie below it.
pub(crate) fn next_live(records: &mut [Record], slots: usize, place: usize) -> u32
    requires place { place < length records.old }
    requires next { AreNext slots records.old (length records.old) }
    ensures size { length records.new ≡ length records.old }
    ensures alike { AreAlike records.old records.new }
    ensures next { AreNext slots records.new (length records.old) }
    ensures newest { IsNewest slots records.new place (slot_of slots records.new place) result }
{
    let mut at = records[place].next;
    while at > 0 {
        let met = records[at as usize - 1];
        if met.alive {
            return at;
        }
        at = met.next;
        records[place].next = at;
    }
    0
}

/// From a place of a slot down to the greatest place of it that is at most `bound`, or 0.
pub(crate) fn descend(records: &[Record], slots: usize, slot: usize, from: u32, bound: usize) -> u32
    requires next { AreNext slots records.now (length records.now) }
    requires newest { IsNewest slots records.now (length records.now) slot from }
    requires bound { bound ≤ length records.now }
    ensures { IsNewest slots records.now bound slot result }
{
    let mut at = from;
    while at as usize > bound {
        at = records[at as usize - 1].next;
    }
    at
}

/// Where the chain of a slot comes to `bound`: the greatest place of it that is at most `bound`, or 0. Where the record
/// at `bound` or below it is of the slot, the chain begins there.
pub(crate) fn start(records: &mut [Record], heads: &mut [u32], slot: usize, bound: usize) -> u32
    requires next { AreNext (length heads.old) records.old (length records.old) }
    requires heads { AreHeads records.old heads.old (length records.old) }
    requires slot { slot < length heads.old }
    requires bound { bound ≤ length records.old }
    requires few { length records.old < 2 ^ 32 }
    ensures size { length records.new ≡ length records.old }
    ensures slots { length heads.new ≡ length heads.old }
    ensures alike { AreAlike records.old records.new }
    ensures next { AreNext (length heads.old) records.new (length records.old) }
    ensures heads { AreHeads records.new heads.new (length records.old) }
    ensures newest { IsNewest (length heads.old) records.new bound slot result }
{
    let slots = heads.len();
    if bound > 0 && records[bound - 1].hash as usize % slots == slot {
        return bound as u32;
    }
    if bound < records.len() && records[bound].hash as usize % slots == slot {
        return next_live(records, slots, bound);
    }
    let from = first_live(records, heads, slot);
    descend(records, slots, slot, from, bound)
}

/// How a walk ended, after `steps` records: at a record that is sought, or at the end of the chain; or among covered
/// places, because it took long.
#[derive(Clone, Copy, Debug, PartialEq, Eq)]
pub(crate) struct Walked {
    pub(crate) at: u32,
    pub(crate) steps: u32,
    pub(crate) is_done: bool,
}

impl Walked {
    /// How many records the walk met that it could have left behind, had their places been covered.
    pub(crate) fn demand(self) -> u32 {
        self.steps.saturating_sub(MOST_STEPS)
    }
}

/// Goes down a chain from a place of the slot. The first `covered` places may be left to their blocks.
pub(crate) fn walk(
    records: &mut [Record],
    slots: usize,
    sought: &Sought,
    from: u32,
    covered: usize,
) -> Walked
    requires next { AreNext slots records.old (length records.old) }
    requires within { from ≤ length records.old }
    requires slot { 0 < from → slot_of slots records.old (from - 1) ≡ sought.now.hash % slots }
    ensures size { length records.new ≡ length records.old }
    ensures alike { AreAlike records.old records.new }
    ensures next { AreNext slots records.new (length records.old) }
    ensures within { result.at ≤ from }
    ensures sought { result.is_done ≡ true → 0 < result.at →
        IsSought sought.now (record_at records.new (result.at - 1)) }
    ensures left { result.is_done ≡ false → result.at ≤ covered }
    ensures none_between { (p : ℕ) → p < from → IsSought sought.now (record_at records.new p) → p < result.at }
{
    let mut at = from;
    let mut steps = 0_u32;
    while at > 0 {
        if steps >= MOST_STEPS && at as usize <= covered {
            return Walked {
                at,
                steps,
                is_done: false,
            };
        }
        if sought.is(&records[at as usize - 1]) {
            return Walked {
                at,
                steps,
                is_done: true,
            };
        }
        steps = steps.saturating_add(1);
        at = next_live(records, slots, at as usize - 1);
    }
    Walked {
        at: 0,
        steps,
        is_done: true,
    }
}
