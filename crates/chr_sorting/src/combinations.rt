//! All combinations of one list at each of the classes' sorts.
ghost use Rattle.std.specs.Prelude.{◌≡◌, ◌≤◌, ◌↔◌, ℕ, ℤ, List, IfOk, IfSome, IfNone, IsTrue, length};
ghost use Rattle.chr_types.specs.OrderTypes.{Rises};
ghost use Rattle.chr_types.specs.Visits.{Visited};
ghost use Rattle.chr_confluence.specs.SortLists.{sort_count};
ghost use Rattle.chr_sorting.specs.FinestSorts.{sorts_of};
ghost use Rattle.chr_sorting.specs.SortedCaseLists.{AreCombinations, MoreCombinationsThan};
ghost use Rattle.chr_sorting.specs.working.Weaving.{held, AreListsOf, HasMoreLists, IsOnlyOrdered, LeaveRoom};

use crate::kind::Kind;
use crate::lists::{are_values, lists_at};
use crate::sorting::Sorting;
use crate::weave::{SortLists, weave};
use chr_types::{AllLists, LimitedCount, Visit, has_more_types, visit_types};
use std::alloc::{AllocError, Global};

/// How many of the classes are of the sort.
fn count_of(classes: &[usize], sort: usize) -> usize
    ensures count { result ≡ sort_count sort classes.now }
    ensures most { result ≤ length classes.now }
{
    let mut count = 0;
    for class in classes {
        if *class == sort {
            count += 1;
        }
    }
    count
}

/// The sort of all the classes, where they have one and it is ordered.
fn only_ordered(sorting: &Sorting, classes: &[usize]) -> Option<usize>
    ensures { IfSome result (IsOnlyOrdered (sorts_of sorting.now) classes.now) }
{
    let sort = *classes.first()?;
    match sorting.kind(sort) {
        Kind::Ordered if count_of(classes, sort) == classes.len() => Some(sort),
        _ => None,
    }
}

/// Constants in memory are 64-bit values, and leave room for more. Nothing is computed here.
fn leave_room(sorting: &Sorting, classes: &[usize])
    ensures { LeaveRoom (sorts_of sorting.now) (length classes.now) classes.now }
{
    for class in classes {
        are_values(sorting.constants(*class));
    }
}

/// The lists of values at the sorts of the classes; None where a sort has more than the limit.
fn sort_lists(
    alloc: Global,
    sorting: &Sorting,
    classes: &[usize],
    limit: usize,
) -> Result<Option<Vec<SortLists>>, AllocError>
    requires rise { (k : ℕ) → Rises ((sorts_of sorting.now).constants k) }
    ensures lists { IfOk result (λ found. IfSome found (λ all.
        AreListsOf (sorts_of sorting.now) classes.now classes.now (held all.items))) }
    ensures more { IfOk result (λ found. IfNone found (HasMoreLists limit (sorts_of sorting.now) classes.now)) }
{
    let mut all = Vec::new(alloc);
    for i in 0..classes.len() {
        let sort = classes[i];
        if !classes[..i].contains(&sort) {
            let count = count_of(classes, sort);
            match lists_at(
                alloc,
                sorting.kind(sort),
                sorting.constants(sort),
                count,
                limit,
            )? {
                Some(lists) => all.push(SortLists { sort, lists })?,
                None => return Ok(None),
            }
        }
    }
    Ok(Some(all))
}

/// Visits all combinations of one list at each of the classes' sorts, in lexicographic order, up to the first visit
/// that stops the walk, and tells whether one did. There must not be more than `limit` combinations:
/// [`has_more_combinations`] tells.
///
/// The constants of each sort rise, as those of finest sorts do. The lists of each sort are held in memory, but no list
/// of combinations; where all classes are of one ordered sort, no list is held.
///
/// # Errors
///
/// Where memory is refused, here or by the visitor.
pub fn visit_combinations<V: Visit>(
    alloc: Global,
    sorting: &Sorting,
    classes: &[usize],
    limit: usize,
    visitor: &mut V,
) -> Result<bool, AllocError>
    requires rise { (k : ℕ) → Rises ((sorts_of sorting.now).constants k) }
    requires few { ¬ MoreCombinationsThan (sorts_of sorting.now) classes.now limit }
    requires ready { V.ready visitor.old }
    ensures ready { IfOk result (λ _. V.ready visitor.new) }
    ensures visited { IfOk result (λ stopped. (rs : List (List ℤ))
        × AreCombinations (sorts_of sorting.now) classes.now rs
        × Visited V.step visitor.old rs stopped visitor.new) }
{
    if let Some(sort) = only_ordered(sorting, classes) {
        let constants = sorting.constants(sort);
        return visit_types(alloc, classes.len(), constants, &AllLists, visitor);
    }
    let Some(mut lists) = sort_lists(alloc, sorting, classes, limit)? else {
        leave_room(sorting, classes);
        unreachable!()
    };
    weave(alloc, classes, &mut lists, &[], visitor)
}

/// Whether there are more than `limit` combinations.
///
/// The constants of each sort rise, as those of finest sorts do. The walk stops once the limit is passed.
///
/// # Errors
///
/// Where memory is refused.
pub fn has_more_combinations(
    alloc: Global,
    sorting: &Sorting,
    classes: &[usize],
    limit: usize,
) -> Result<bool, AllocError>
    requires rise { (k : ℕ) → Rises ((sorts_of sorting.now).constants k) }
    ensures { IfOk result (λ more. IsTrue more ↔ MoreCombinationsThan (sorts_of sorting.now) classes.now limit) }
{
    if let Some(sort) = only_ordered(sorting, classes) {
        leave_room(sorting, classes);
        return has_more_types(alloc, classes.len(), sorting.constants(sort), limit);
    }
    let Some(mut lists) = sort_lists(alloc, sorting, classes, limit)? else {
        leave_room(sorting, classes);
        return Ok(true);
    };
    let mut count = LimitedCount { found: 0, limit };
    weave(alloc, classes, &mut lists, &[], &mut count)
}
