//! The ids that ranges have and others leave out.
ghost use Rattle.std.specs.Prelude.{◌≡◌, ◌++◌, ◌&&◌, not, IfOk, OnOk};
ghost use Rattle.chr_ops.specs.declared.id.OpId.{OpId as OpIdValue};
ghost use Rattle.chr_ops.specs.Summaries.{covers, IsApart};
ghost use Rattle.chr_ops.specs.working.Walks.{rest_from};
ghost use Rattle.chr_ops.specs.working.Outside.{AddsOutside, IsNext, part_before};

use crate::id::OpId;
use crate::range::IdRange;
use std::alloc::{AllocError, Global};

/// The ranges from the first that does not end before an id.
fn skip_ended(ranges: &[IdRange], id: OpId) -> &[IdRange]
    ensures { result.now ≡ rest_from ranges.now id }
{
    let mut rest = ranges;
    while let [first, more @ ..] = rest {
        if !first.ends_before(id) {
            break;
        }
        rest = more;
    }
    rest
}

/// Adds the part of a range before another one begins.
fn push_before(parts: &mut Vec<IdRange>, range: &IdRange, other: &IdRange) -> Result<(), AllocError>
    ensures { OnOk result (parts.new.items ≡ parts.old.items ++ part_before range.now other.now) }
{
    if range.lo < other.lo {
        parts.push(IdRange {
            hi: other.lo - 1,
            ..*range
        })?;
    }
    Ok(())
}

/// Adds the parts of a range that others leave out.
fn push_outside(
    parts: &mut Vec<IdRange>,
    range: IdRange,
    others: &[IdRange],
) -> Result<(), AllocError>
    requires { IsNext parts.old.items range others.now }
    ensures { OnOk result (AddsOutside parts.old.items range others.now parts.new.items) }
{
    let mut left = range;
    let mut rest = others;
    while let [other, more @ ..] = rest {
        if !other.begins_by_end_of(&left) {
            break;
        }
        push_before(parts, &left, other)?;
        if left.hi <= other.hi {
            return Ok(());
        }
        left = IdRange {
            lo: other.hi + 1,
            ..left
        };
        rest = more;
    }
    parts.push(left)?;
    Ok(())
}

/// The ids that ranges have and others leave out, as ranges that are as long as possible. They are at most as many as
/// the ranges and the others together.
pub(crate) fn ranges_outside(
    alloc: Global,
    ranges: &[IdRange],
    others: &[IdRange],
) -> Result<Vec<IdRange>, AllocError>
    requires ranges { IsApart ranges.now }
    requires others { IsApart others.now }
    ensures apart { IfOk result (λ parts. IsApart parts.items) }
    ensures covers { IfOk result (λ parts. (id : OpIdValue) → covers parts.items id
        ≡ (covers ranges.now id && not (covers others.now id))) }
{
    let mut rest = others;
    let mut parts = Vec::new(alloc);
    for range in ranges {
        rest = skip_ended(rest, range.first());
        push_outside(&mut parts, *range, rest)?;
    }
    Ok(parts)
}
