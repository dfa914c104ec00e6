//! All order types.
ghost use Rattle.std.specs.Prelude.{◌≡◌, ◌<◌, ◌≤◌, ◌^◌, ℤ, List, IfOk, IfErr, vec_len};
ghost use Rattle.std.specs.Bool.{OnTrue};
ghost use Rattle.chr_types.specs.OrderTypes.{Rises, MoreTypesThan};
ghost use Rattle.chr_types.specs.Representatives.{AreTypes};
ghost use Rattle.chr_types.specs.declared.fault.TypesFault.TheVariants.{TooManyTypes};
ghost use Rattle.chr_types.specs.Refusals.{WhereTooMany};

use crate::candidates::all_candidates;
use crate::fault::TypesFault;
use crate::order_type::OrderType;
use crate::search::add_lists;
use std::alloc::Global;

/// The greatest number of classes whose order types can be within a limit. Of more classes there are more than any
/// limit: each class but the first can be equal to it or greater.
pub const MAX_CLASSES: usize = 64;

/// Whether there are more lists of `length` values out of `values` than `limit`.
pub(crate) fn has_more_lists(values: usize, length: usize, limit: usize) -> bool
    ensures { OnTrue result (limit < values ^ length) }
{
    let mut lists: usize = 1;
    for _place in 0..length {
        lists = lists.saturating_mul(values);
    }
    lists > limit
}

/// Less, equal and greater.
const COMPARISONS: usize = 3;

/// Whether `classes` classes have more order types than `limit`, whatever the constants, since each class but the first
/// may be less than it, equal to it or greater.
pub(crate) fn are_many(classes: usize, limit: usize) -> bool
    ensures { OnTrue result ((constants : List ℤ) → MoreTypesThan limit classes constants) }
{
    match classes.checked_sub(1) {
        Some(others) => has_more_lists(COMPARISONS, others, limit),
        None => false,
    }
}

/// All order types of `classes` classes among the constants, each by its representative, in lexicographic order.
///
/// The constants rise, each greater than the one before. There may be any number of classes, and any limit. The search
/// stops once the limit is passed, and keeps no more than the listed types and the prefix that it is at.
///
/// # Errors
/// `TooManyTypes` exactly where there are more order types than the limit, and without memory where there are more than
/// `MAX_CLASSES` classes; `Memory` where there is no memory left.
pub fn types(
    alloc: Global,
    classes: usize,
    constants: &[i64],
    limit: usize,
) -> Result<Vec<OrderType>, TypesFault>
    requires rising { Rises constants.now }
    ensures types { IfOk result (λ ts. AreTypes classes constants.now ts.items) }
    ensures within { IfOk result (λ ts. vec_len ts ≤ limit) }
    ensures no_more { IfOk result (λ _. ¬ MoreTypesThan limit classes constants.now) }
    ensures many { IfErr result (λ e. WhereTooMany e (MoreTypesThan limit classes constants.now)) }
    ensures wide { MAX_CLASSES < classes → result ≡ Err TooManyTypes }
{
    if classes > MAX_CLASSES {
        return Err(TypesFault::TooManyTypes);
    }
    if are_many(classes, limit) {
        return Err(TypesFault::TooManyTypes);
    }
    let candidates = all_candidates(alloc, classes, constants)?;
    // Each list of constants has an order type of its own. The search goes through all candidates for each value of a
    // list, so it is not begun where it would pass the limit.
    if has_more_lists(constants.len(), classes, limit) {
        return Err(TypesFault::TooManyTypes);
    }
    let mut found = Vec::new(alloc);
    add_lists(alloc, &candidates, classes, &[], &[], limit, &mut found)?;
    Ok(found)
}
