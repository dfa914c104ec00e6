//! Records.
ghost use Rattle.std.specs.Prelude.{◌≡◌, Some, true};
ghost use Rattle.std.specs.Bool.{OnTrue, OnFalse};
ghost use Rattle.chr_portions.specs.declared.record.Record.{Record as RecordValue};
ghost use Rattle.chr_portions.specs.working.Skips.{IsInHull, IsSought};
ghost use Rattle.chr_portions.specs.working.Entries.{entry_of};

use crate::bounds::Bounds;
use chr_indexes::ranges::Range;

/// A row's hash and values, and whether it lives.
#[derive(Clone, Copy, Debug, Default, PartialEq, Eq)]
pub(crate) struct Record {
    pub(crate) first: i64,
    pub(crate) second: i64,
    pub(crate) hash: u32,
    pub(crate) next: u32,
    pub(crate) row: u32,
    pub(crate) alive: bool,
}

/// What is looked for: a hash, and ranges of both values.
#[derive(Clone, Copy, Debug, Default, PartialEq, Eq)]
pub(crate) struct Sought {
    pub(crate) hash: u32,
    pub(crate) first: Range,
    pub(crate) second: Range,
}

/// Bounds of the hashes and of the values of records.
#[derive(Clone, Copy, Debug, Default, PartialEq, Eq)]
pub(crate) struct Hull {
    pub(crate) low: u32,
    pub(crate) high: u32,
    pub(crate) first: Bounds,
    pub(crate) second: Bounds,
}

impl Hull {
    /// The one of no record.
    pub(crate) fn empty() -> Hull {
        let none = Bounds {
            low: i64::MAX,
            high: i64::MIN,
        };
        Hull {
            low: u32::MAX,
            high: 0,
            first: none,
            second: none,
        }
    }

    /// Bounds of what lies in either.
    pub(crate) fn with(self, other: Hull) -> Hull
        ensures left { (r : RecordValue) → IsInHull self r → IsInHull result r }
        ensures right { (r : RecordValue) → IsInHull other r → IsInHull result r }
    {
        Hull {
            low: self.low.min(other.low),
            high: self.high.max(other.high),
            first: self.first.with(other.first),
            second: self.second.with(other.second),
        }
    }
}

impl Record {
    /// The record of a live row, which has not joined its chain.
    pub(crate) fn live(hash: u32, first: i64, second: i64, row: u32) -> Record
        ensures entry { entry_of result ≡ Some (record { hash = hash; first = first; second = second }) }
        ensures row { result.row ≡ row }
    {
        Record {
            first,
            second,
            hash,
            next: 0,
            row,
            alive: true,
        }
    }

    /// A hull that has the record, where it lives.
    pub(crate) fn hull(&self) -> Hull
        ensures { self.now.alive ≡ true → IsInHull result self.now }
    {
        if !self.alive {
            return Hull::empty();
        }
        Hull {
            low: self.hash,
            high: self.hash,
            first: Bounds {
                low: self.first,
                high: self.first,
            },
            second: Bounds {
                low: self.second,
                high: self.second,
            },
        }
    }
}

impl Sought {
    /// Whether the record is one.
    pub(crate) fn is(&self, entry: &Record) -> bool
        ensures sought { OnTrue result (IsSought self.now entry.now) }
        ensures other { OnFalse result (IsSought self.now entry.now → ⊥) }
    {
        entry.alive
            && entry.hash == self.hash
            && self.first.has(entry.first)
            && self.second.has(entry.second)
    }

    /// Whether one may lie in the hull.
    pub(crate) fn meets(&self, hull: &Hull) -> bool
        ensures none { OnFalse result ((r : RecordValue) → IsInHull hull.now r → IsSought self.now r → ⊥) }
    {
        hull.low <= self.hash
            && self.hash <= hull.high
            && hull.first.meets(&self.first)
            && hull.second.meets(&self.second)
    }
}
