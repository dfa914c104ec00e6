//! Merging ranges that come in the order of their beginnings.
ghost use Rattle.std.specs.Prelude.{◌≡◌, ◌≤◌, All, IfOk, OnOk};
ghost use Rattle.std.specs.List.Sorted.{IsSorted};
ghost use Rattle.chr_ops.specs.declared.id.OpId.{OpId as OpIdValue};
ghost use Rattle.chr_ops.specs.Summaries.{covers, IsApart};
ghost use Rattle.chr_ops.specs.working.Merging.{AllStartBy, IsMerged, range_cmp};

use crate::range::IdRange;
use std::alloc::{AllocError, Global};

/// Adds a range that begins no earlier than those that are there: as part of the last one, where it touches it.
fn push_range(merged: &mut Vec<IdRange>, next: IdRange) -> Result<(), AllocError>
    requires range { next.lo ≤ next.hi }
    requires apart { IsApart merged.old.items }
    requires in_order { AllStartBy merged.old.items next }
    ensures { OnOk result (IsMerged merged.old.items next merged.new.items) }
{
    let last = match merged.pop() {
        None => next,
        Some(last) if last.reaches(&next) => IdRange {
            hi: last.hi.max(next.hi),
            ..last
        },
        Some(last) => {
            merged.push(last)?;
            next
        }
    };
    merged.push(last)?;
    Ok(())
}

/// Merges ranges that are in order.
pub(crate) fn merge_ranges(alloc: Global, ranges: &[IdRange]) -> Result<Vec<IdRange>, AllocError>
    requires ranges { All (λ r. r.lo ≤ r.hi) ranges.now }
    requires in_order { IsSorted range_cmp ranges.now }
    ensures apart { IfOk result (λ merged. IsApart merged.items) }
    ensures covers { IfOk result (λ merged. (id : OpIdValue) → covers merged.items id ≡ covers ranges.now id) }
{
    let mut merged = Vec::new(alloc);
    for range in ranges {
        push_range(&mut merged, *range)?;
    }
    Ok(merged)
}
