//! The sorts of an overlap's classes.
ghost use Rattle.std.specs.Prelude.{◌≡◌, ◌<◌, ◌≤◌, ◌-◌, if◌then◌else◌, nat_le, IfOk};
ghost use Rattle.chr_base.specs.Rules.{heads_of};
ghost use Rattle.chr_confluence.specs.Overlaps.{variables_of};
ghost use Rattle.chr_confluence.specs.Sorts.{first_sort};
ghost use Rattle.chr_confluence.specs.SortedCases.{class_sorts};
ghost use Rattle.chr_overlaps.specs.working.Unifiers.{classes_of, IsUnified};
ghost use Rattle.chr_sorting.specs.FinestSorts.{AreShort, sorts_of};

use crate::notes::{first_position, placed_heads};
use crate::sorting::Sorting;
use chr_base::rule::Rule;
use chr_base::term::Term;
use chr_overlaps::{Unified, variables};
use std::alloc::{AllocError, Global};

/// The first position of a joint variable in the heads of two rules, the second numbered on from the first.
fn class_position(first: &[(u32, Term)], second: &[(u32, Term)], shift: u8, class: u8) -> u32
    ensures { result ≡ (if nat_le class shift then first_sort first.now class else first_sort second.now
        (class - shift)) }
{
    if class <= shift {
        first_position(first, class)
    } else {
        first_position(second, class - shift)
    }
}

/// The sorts of the classes of two rules' heads that are bound to no constant, in their order.
///
/// # Errors
///
/// Where there is not enough memory.
pub fn class_sorts(
    alloc: Global,
    sorting: &Sorting,
    first: &Rule,
    second: &Rule,
    unified: &Unified,
) -> Result<Vec<usize>, AllocError>
    requires first { AreShort (heads_of first.now) }
    requires second { AreShort (heads_of second.now) }
    requires unified { IsUnified first.now second.now unified.now }
    ensures { IfOk result (λ sorts. sorts.items ≡
        class_sorts (sorts_of sorting.now) (classes_of unified.now) first.now second.now) }
{
    let shift = variables(first);
    let left = placed_heads(alloc, first)?;
    let right = placed_heads(alloc, second)?;
    let mut sorts = Vec::new(alloc);
    for class in unified.free() {
        let position = class_position(&left, &right, shift, *class);
        sorts.push(sorting.sort_at(position))?;
    }
    Ok(sorts)
}
