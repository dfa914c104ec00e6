//! The operations that a summary does not cover.
ghost use Rattle.std.specs.Prelude.{◌≡◌, ◌≤◌, ◌++◌, ◌&&◌, not, All, IfOk, OnOk};
ghost use Rattle.std.specs.FinMap as map;
ghost use Rattle.chr_ops.specs.declared.id.OpId.{OpId as OpIdValue};
ghost use Rattle.chr_ops.specs.News.{is_one_of, lacked_among};
ghost use Rattle.chr_ops.specs.Summaries.{covers, lacking, CoversJust, IsApart};
ghost use Rattle.chr_ops.specs.working.Kept.{AreOperationBags};
ghost use Rattle.chr_ops.specs.working.Walks.{covered, within};

use crate::entries::Entries;
use crate::id::OpId;
use crate::op::Op;
use crate::outside::ranges_outside;
use crate::range::IdRange;
use crate::summary::Summary;
use std::alloc::{AllocError, Global};

/// Adds the operations whose ids a range has, in the order of ids, with the bags that the set shares.
fn push_within(ops: &mut Vec<Op>, held: &Entries, range: &IdRange) -> Result<(), AllocError>
    requires sized { AreOperationBags held.now }
    requires range { range.now.lo ≤ range.now.hi }
    ensures { OnOk result (ops.new.items ≡ ops.old.items ++ within range.now (map.entries held.now)) }
{
    for (id, bag) in held.within(range) {
        ops.push(Op::from_shared(id, bag.share()?))?;
    }
    Ok(())
}

/// The operations whose ids ranges cover, in the order of ids. It costs a look-up for each range.
fn covered_in(alloc: Global, held: &Entries, ranges: &[IdRange]) -> Result<Vec<Op>, AllocError>
    requires sized { AreOperationBags held.now }
    requires apart { IsApart ranges.now }
    ensures { IfOk result (λ ops. ops.items ≡ covered ranges.now (map.entries held.now)) }
{
    let mut ops = Vec::new(alloc);
    for range in ranges {
        push_within(&mut ops, held, range)?;
    }
    Ok(ops)
}

/// The operations of a set whose ids others leave out, in the order of ids, by the ranges of the set's ids. It costs a
/// walk along both lists of ranges, and each operation; their bags are shared.
pub(crate) fn lacked(
    alloc: Global,
    held: &Entries,
    ranges: &[IdRange],
    others: &[IdRange],
) -> Result<Vec<Op>, AllocError>
    requires sized { AreOperationBags held.now }
    requires ranges { IsApart ranges.now }
    requires covers { CoversJust ranges.now held.now }
    requires others { IsApart others.now }
    ensures { IfOk result (λ ops. ops.items ≡ lacking held.now others.now) }
{
    let lacked = ranges_outside(alloc, ranges, others)?;
    covered_in(alloc, held, &lacked)
}

/// Those of these ids that a set does not hold, each as a range of its own.
fn ranges_not_held(alloc: Global, held: &Entries, ids: &[OpId]) -> Result<Vec<IdRange>, AllocError>
    ensures ranges { IfOk result (λ ranges. All (λ r. r.lo ≤ r.hi) ranges.items) }
    ensures covers { IfOk result (λ ranges. (id : OpIdValue) → covers ranges.items id
        ≡ (is_one_of ids.now id && not (map.contains_key held.now id))) }
{
    let mut ranges = Vec::new(alloc);
    for id in ids {
        if held.get(*id).is_none() {
            ranges.push(IdRange {
                origin: id.origin,
                lo: id.number,
                hi: id.number,
            })?;
        }
    }
    Ok(ranges)
}

/// The operations of a set whose ids are among these and which another one lacks, in the order of ids. It costs
/// look-ups for these ids, and each operation; their bags are shared.
pub(crate) fn lacked_of(
    alloc: Global,
    held: &Entries,
    other: &Entries,
    ids: &[OpId],
) -> Result<Vec<Op>, AllocError>
    requires { AreOperationBags held.now }
    ensures { IfOk result (λ ops. ops.items ≡ lacked_among held.now other.now ids.now) }
{
    let wanted = Summary::of(ranges_not_held(alloc, other, ids)?)?;
    covered_in(alloc, held, wanted.ranges())
}
