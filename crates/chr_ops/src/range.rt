//! Ranges of ids.
ghost use Rattle.std.specs.Prelude.{◌≡◌, ◌+◌, ◌≤◌, ◌↔◌, IsTrue};
ghost use Rattle.chr_ops.specs.Summaries.{in_range};
ghost use Rattle.chr_ops.specs.working.Walks.{ends_before, first_id, last_id};

use crate::id::OpId;

/// The ids of one origin with numbers from `lo` to `hi`, both included.
#[derive(Clone, Copy, Debug, PartialEq, Eq, PartialOrd, Ord)]
pub struct IdRange {
    pub origin: u32,
    pub lo: u64,
    pub hi: u64,
}

impl IdRange {
    /// Whether the range has an id.
    pub fn has(&self, id: OpId) -> bool
        ensures { result ≡ in_range self.now id }
    {
        self.origin == id.origin && self.lo <= id.number && id.number <= self.hi
    }

    /// The first id of the range.
    pub(crate) fn first(&self) -> OpId
        ensures { result ≡ first_id self.now }
    {
        OpId {
            origin: self.origin,
            number: self.lo,
        }
    }

    /// The last id of the range.
    pub(crate) fn last(&self) -> OpId
        ensures { result ≡ last_id self.now }
    {
        OpId {
            origin: self.origin,
            number: self.hi,
        }
    }

    /// Whether the range begins no later than another one of its origin ends.
    pub(crate) fn begins_by_end_of(&self, other: &IdRange) -> bool
        ensures { IsTrue result ↔ ((self.now.origin ≡ other.now.origin) × (self.now.lo ≤ other.now.hi)) }
    {
        self.origin == other.origin && self.lo <= other.hi
    }

    /// Whether the range ends before an id.
    pub(crate) fn ends_before(&self, id: OpId) -> bool
        ensures { result ≡ ends_before self.now id }
    {
        self.origin < id.origin || (self.origin == id.origin && self.hi < id.number)
    }

    /// Whether the range ends right before an id.
    pub(crate) fn ends_right_before(&self, id: OpId) -> bool
        ensures { IsTrue result ↔ ((self.now.origin ≡ id.origin) × (self.now.hi + 1 ≡ id.number)) }
    {
        self.origin == id.origin && self.hi < id.number && id.number - self.hi == 1
    }

    /// Whether `next`, of the same origin, begins within this range or right behind it, or earlier.
    pub(crate) fn reaches(&self, next: &IdRange) -> bool
        ensures { IsTrue result ↔ ((self.now.origin ≡ next.now.origin) × (next.now.lo ≤ self.now.hi + 1)) }
    {
        self.origin == next.origin && next.lo <= self.hi.saturating_add(1)
    }
}
