//! Order types that are visited and not listed.
ghost use Rattle.std.specs.Prelude.{◌≡◌, ◌<◌, ◌^◌, ℤ, List, [], IfOk};
ghost use Rattle.std.specs.List.{filter};
ghost use Rattle.chr_types.specs.OrderTypes.{Rises};
ghost use Rattle.chr_types.specs.Representatives.{AreTypes};
ghost use Rattle.chr_types.specs.Visits.{are_admitted, Visited};

use crate::candidates::all_candidates;
use crate::walk::{Beginnings, Visit, walk};
use std::alloc::{AllocError, Global};

/// Visits the order types of `classes` classes among the constants, in lexicographic order of their representatives, up
/// to the first visit that stops the walk, and tells whether one did. Only those are visited of which `wanted` admits
/// each beginning: one that it doesn't admit is left at once.
///
/// The constants rise. One list of values is held at a time.
///
/// # Errors
/// Where memory is refused, here or by the visitor.
pub fn visit_types<T: Beginnings, V: Visit>(
    alloc: Global,
    classes: usize,
    constants: &[i64],
    wanted: &T,
    visitor: &mut V,
) -> Result<bool, AllocError>
    requires few { classes < 2 ^ 63 }
    requires rising { Rises constants.now }
    requires ready { V.ready visitor.old }
    ensures ready { IfOk result (λ _. V.ready visitor.new) }
    ensures visited { IfOk result (λ stopped. (rs : List (List ℤ)) × AreTypes classes constants.now rs
        × Visited V.step visitor.old (filter (are_admitted (T.admits wanted.now) []) rs) stopped visitor.new) }
{
    let candidates = all_candidates(alloc, classes, constants)?;
    let mut prefix = Vec::new(alloc);
    walk(
        alloc,
        &candidates,
        classes,
        &mut prefix,
        &[],
        wanted,
        visitor,
    )
}
