//! Whether there are more order types than a limit. None is kept.
ghost use Rattle.std.specs.Prelude.{◌≡◌, ◌↔◌, ◌≤◌, IfOk, IfSome, IsTrue};
ghost use Rattle.std.specs.Bool.{OnTrue};
ghost use Rattle.chr_types.specs.OrderTypes.{Rises, MoreTypesThan};
ghost use Rattle.chr_types.specs.working.Counting.{most_types};

use crate::candidates::all_candidates;
use crate::listing::{MAX_CLASSES, are_many, has_more_lists};
use crate::visitors::{AllLists, LimitedCount};
use crate::walk::walk;
use std::alloc::{AllocError, Global};

/// The most classes for which [`most_types`] is asked, which calls itself twice for each class.
const FEW_CLASSES: usize = 8;

/// A bound on the number of order types of `classes` classes where `values` different values are there: a class is
/// equal to one of these or lies between them. None where the bound needs more than 64 bits.
fn most_types(classes: usize, values: usize) -> Option<usize>
    ensures { IfSome result (λ most. most ≡ most_types classes values) }
{
    if classes == 0 {
        return Some(1);
    }
    let more = values.checked_add(1)?;
    let equal = values.checked_mul(most_types(classes - 1, values)?)?;
    let between = more.checked_mul(most_types(classes - 1, more)?)?;
    let most = equal.checked_add(between)?;
    Some(most)
}

/// Whether the bound tells that `classes` classes have no more order types than the limit.
fn are_few(classes: usize, values: usize, limit: usize) -> bool
    ensures { OnTrue result (most_types classes values ≤ limit) }
{
    if classes > FEW_CLASSES {
        return false;
    }
    match most_types(classes, values) {
        Some(most) => most <= limit,
        None => false,
    }
}

/// Whether `classes` classes have more order types among the constants than `limit`. The constants rise. The walk stops
/// once the limit is passed, and holds one list of values.
///
/// # Errors
/// Where memory is refused.
pub fn has_more_types(
    alloc: Global,
    classes: usize,
    constants: &[i64],
    limit: usize,
) -> Result<bool, AllocError>
    requires rising { Rises constants.now }
    ensures { IfOk result (λ more. IsTrue more ↔ MoreTypesThan limit classes constants.now) }
{
    if classes > MAX_CLASSES {
        return Ok(true);
    }
    if are_many(classes, limit) {
        return Ok(true);
    }
    if are_few(classes, constants.len(), limit) {
        return Ok(false);
    }
    let candidates = all_candidates(alloc, classes, constants)?;
    // Each list of constants is an order type of its own, so a walk that would meet more of them than the limit isn't
    // begun.
    if has_more_lists(constants.len(), classes, limit) {
        return Ok(true);
    }
    let mut count = LimitedCount { found: 0, limit };
    let mut prefix = Vec::new(alloc);
    walk(
        alloc,
        &candidates,
        classes,
        &mut prefix,
        &[],
        &AllLists,
        &mut count,
    )
}
