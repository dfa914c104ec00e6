//! Which overlaps are worth it to be shared out among threads.
ghost use Rattle.std.specs.Prelude.{All};
ghost use Rattle.chr_weights.specs.WeighedPrograms.{rules_in};
ghost use Rattle.chr_overlaps.specs.OverlapLists.{IsOverlapOf};
ghost use Rattle.chr_join.specs.working.Checking.{IsListerOf};

use crate::counting::MANY_CLASSES;
use crate::coverage::Coverage;
use crate::lister::Lister;
use crate::portions::{FEW_OVERLAPS, Portion, alone_from};
use crate::settled::{few_types, joining_overlaps};
use chr_overlaps::Overlap;
use chr_overlaps::cases::unified;
use chr_weights::Weighed;
use std::alloc::Global;
use std::ops::Range;

/// Whether several of these overlaps have many order types.
fn have_many_types(weighed: &Weighed, overlaps: &[Overlap]) -> bool
    requires { All (IsOverlapOf (rules_in weighed.now)) overlaps.now }
{
    let mut has_one = false;
    for overlap in overlaps {
        match unified(weighed, overlap) {
            Some(unified) if unified.free_classes() >= MANY_CLASSES => {
                if has_one {
                    return true;
                }
                has_one = true;
            }
            _ => {}
        }
    }
    false
}

/// The number of the first overlaps of this portion of which all sorted cases are joinable, and which come before one
/// that has too many order types.
fn joining_in(alloc: Global, weighed: &Weighed, lister: &Lister, portion: &Portion) -> usize
    requires overlaps { All (IsOverlapOf (rules_in weighed.now)) portion.now.overlaps.items }
    requires lister { IsListerOf (rules_in weighed.now) lister.now }
{
    if portion.end <= lister.joining {
        return portion.overlaps.len();
    }
    let Ok(few) = few_types(alloc, weighed, &lister.constants, &portion.overlaps) else {
        return 0;
    };
    let (first, _) = portion.overlaps.split_at(few.min(portion.overlaps.len()));
    joining_overlaps(alloc, weighed, &lister.sorting, first)
}

/// The number of first overlaps that are worth it to be shared out, where all sorted cases of the first `joining` are
/// joinable: these, if they are many or several have many order types, and else none.
fn first_worth(weighed: &Weighed, overlaps: &[Overlap], joining: usize) -> usize
    requires { All (IsOverlapOf (rules_in weighed.now)) overlaps.now }
{
    let (first, _) = overlaps.split_at(joining.min(overlaps.len()));
    if first.len() > FEW_OVERLAPS || have_many_types(weighed, first) {
        first.len()
    } else {
        0
    }
}

/// The places of those overlaps of a portion that several threads look at ahead of their turn. The portion's first rule
/// stands at `place`. Joint cases are looked at ahead only where all sorted ones are joinable; a failing case is found
/// in turn.
pub(crate) fn shared_out(
    alloc: Global,
    weighed: &Weighed,
    lister: &Lister,
    portion: &Portion,
    place: usize,
) -> Range<usize>
    requires overlaps { All (IsOverlapOf (rules_in weighed.now)) portion.now.overlaps.items }
    requires lister { IsListerOf (rules_in weighed.now) lister.now }
{
    match lister.coverage {
        Coverage::Joint => {
            let joining = joining_in(alloc, weighed, lister, portion);
            0..first_worth(weighed, &portion.overlaps, joining)
        }
        Coverage::Sorted => alone_from(place)..portion.overlaps.len(),
    }
}
