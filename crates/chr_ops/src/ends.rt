//! Ranges of ids under their first ids, seen as a finite map. How they are kept is known in this file alone.
ghost use Rattle.std.specs.Prelude.{◌≡◌, ◌<◌, ◌^◌, ℕ, None, IsSome, IfOk, IfSome, IfNone, OnOk, OnErr, false};
ghost use Rattle.std.specs.FinMap as map;
ghost use Rattle.std.specs.Ordering.{is_gt, is_lt};
ghost use Rattle.std.specs.declared.cmp.Ordering.TheVariants.{Less};
ghost use Rattle.chr_ops.specs.declared.id.OpId.{OpId as OpIdValue};
ghost use Rattle.chr_ops.specs.Ids.{id_cmp};
ghost use Rattle.chr_ops.specs.working.Covering.{end_ranges};

use crate::id::OpId;
use crate::range::IdRange;
use std::alloc::{AllocError, Global};
use std::collections::BTreeMap;
use std::marker::Model;

/// The last number of each range under its first id.
#[derive(Drop)]
pub(crate) struct Ends {
    last: BTreeMap<OpId, u64>,
}

impl Model for Ends {
    ghost use Rattle.std.specs.Coded.{coded_ℕ};
    ghost use Rattle.std.specs.FinMap as map;
    ghost use Rattle.chr_ops.specs.working.Codes.{coded_id};
    ghost use Rattle.chr_ops.specs.working.Covering.{Ends as EndsValue};

    ghost Value = { EndsValue };

    ghost coded = { map.code coded_id coded_ℕ };

    ghost view = { λ e. map.from_entries e.last.entries };
}

impl Ends {
    /// No ranges.
    pub(crate) fn new(alloc: Global) -> Self
        ensures { result ≡ map.empty }
    {
        Ends {
            last: BTreeMap::new(alloc),
        }
    }

    /// The last number of the range that begins at an id.
    pub(crate) fn get(&self, first: OpId) -> Option<u64>
        ensures { result ≡ map.get self.now first }
    {
        self.last.get(&first).copied()
    }

    /// The last range that begins before an id: its first id and its last number.
    pub(crate) fn last_below(&self, id: OpId) -> Option<(OpId, u64)>
        ensures there { IfSome result (λ p. map.get self.now p.0 ≡ Some p.1) }
        ensures below { IfSome result (λ p. id_cmp p.0 id ≡ Less) }
        ensures last { IfSome result (λ p. (q : OpIdValue) → id_cmp q id ≡ Less → IsSome (map.get self.now q)
            → is_lt (id_cmp p.0 q) ≡ false) }
        ensures none { IfNone result ((q : OpIdValue) → id_cmp q id ≡ Less → map.get self.now q ≡ None) }
    {
        let (first, last) = self.last.range(..id).next_back()?;
        Some((*first, *last))
    }

    /// The last range that begins at an id or before it: its first id and its last number.
    pub(crate) fn last_up_to(&self, id: OpId) -> Option<(OpId, u64)>
        ensures there { IfSome result (λ p. map.get self.now p.0 ≡ Some p.1) }
        ensures up_to { IfSome result (λ p. is_gt (id_cmp p.0 id) ≡ false) }
        ensures last { IfSome result (λ p. (q : OpIdValue) → is_gt (id_cmp q id) ≡ false → IsSome (map.get self.now q)
            → is_lt (id_cmp p.0 q) ≡ false) }
        ensures none { IfNone result ((q : OpIdValue) → is_gt (id_cmp q id) ≡ false → map.get self.now q ≡ None) }
    {
        let (first, last) = self.last.range(..=id).next_back()?;
        Some((*first, *last))
    }

    /// The first range that begins at an id or behind it: its first id and its last number.
    pub(crate) fn first_from(&self, id: OpId) -> Option<(OpId, u64)>
        ensures there { IfSome result (λ p. map.get self.now p.0 ≡ Some p.1) }
        ensures from { IfSome result (λ p. is_gt (id_cmp id p.0) ≡ false) }
        ensures first { IfSome result (λ p. (q : OpIdValue) → is_gt (id_cmp id q) ≡ false → IsSome (map.get self.now q)
            → is_gt (id_cmp p.0 q) ≡ false) }
        ensures none { IfNone result ((q : OpIdValue) → is_gt (id_cmp id q) ≡ false → map.get self.now q ≡ None) }
    {
        let (first, last) = self.last.range(id..).next()?;
        Some((*first, *last))
    }

    /// Keeps a range under its first id, in place of one that begins there.
    pub(crate) fn insert(&mut self, first: OpId, last: u64) -> Result<(), AllocError>
        ensures ok { OnOk result (self.new ≡ map.insert self.old first last) }
        ensures fits { last < 2 ^ 64 }
        ensures err { OnErr result (self.new ≡ self.old) }
    {
        self.last.insert(first, last)?;
        Ok(())
    }

    /// Lets the range that begins at an id end at another number.
    pub(crate) fn set(&mut self, first: OpId, last: u64)
        requires { IsSome (map.get self.old first) }
        ensures { self.new ≡ map.insert self.old first last }
    {
        if let Some(kept) = self.last.get_mut(&first) {
            *kept = last;
        }
    }

    /// Takes out the range that begins at an id, where there is one.
    pub(crate) fn remove(&mut self, first: OpId)
        ensures { self.new ≡ map.remove self.old first }
    {
        self.last.remove(&first);
    }

    /// The ranges, in order.
    pub(crate) fn ranges(&self, alloc: Global) -> Result<Vec<IdRange>, AllocError>
        ensures { IfOk result (λ ranges. ranges.items ≡ end_ranges self.now) }
    {
        let mut ranges = Vec::new(alloc);
        for (first, last) in self.last.iter() {
            ranges.push(IdRange {
                origin: first.origin,
                lo: first.number,
                hi: *last,
            })?;
        }
        Ok(ranges)
    }
}
