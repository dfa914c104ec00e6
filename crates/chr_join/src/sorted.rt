//! The sorted cases of an overlap.
ghost use Rattle.std.specs.Prelude.{◌≡◌, IfOk, IfErr};
ghost use Rattle.chr_weights.specs.WeighedPrograms.{rules_in};
ghost use Rattle.chr_confluence.specs.SortedCases.{class_sorts};
ghost use Rattle.chr_overlaps.specs.OverlapLists.{IsOverlapOf};
ghost use Rattle.chr_overlaps.specs.declared.cases.TheConstants.{MAX_TYPES};
ghost use Rattle.chr_overlaps.specs.UnifiedOverlaps.{AreRulesOf, IsSortedUnifiedAt};
ghost use Rattle.chr_overlaps.specs.working.Unifiers.{classes_of};
ghost use Rattle.chr_base.specs.declared.rule.Rule.{Rule as RuleValue};
ghost use Rattle.chr_sorting.specs.FinestSorts.{AreFinest, sorts_of};
ghost use Rattle.chr_sorting.specs.SortedCaseLists.{MoreCombinationsThan};
ghost use Rattle.chr_join.specs.declared.coverage.Coverage.TheVariants.{Sorted};
ghost use Rattle.chr_join.specs.Verdicts.{HasJoinableCasesBy};
ghost use Rattle.chr_join.specs.working.Checking.{RefusesAt};

use crate::checker::{Checker, told};
use crate::refused::{Cause, TooManyTypes};
use chr_confluence::sorted_laws::sorted_cases;
use chr_overlaps::cases::{MAX_TYPES, rule_of, sorted_unified};
use chr_overlaps::{Overlap, Unified};
use chr_sorting::{Sorting, class_sorts, has_more_combinations, visit_combinations};
use chr_weights::Weighed;
use std::alloc::{AllocError, Global};

/// The sorts of an overlap's classes.
pub(crate) fn sorts_at(
    alloc: Global,
    weighed: &Weighed,
    sorting: &Sorting,
    overlap: &Overlap,
    unified: &Unified,
) -> Result<Vec<usize>, AllocError>
    requires overlap { IsOverlapOf (rules_in weighed.now) overlap.now }
    requires unified { IsSortedUnifiedAt (rules_in weighed.now) overlap.now unified.now }
    requires finest { AreFinest (rules_in weighed.now) (sorts_of sorting.now) }
    ensures { (r1 r2 : RuleValue) → AreRulesOf (rules_in weighed.now) overlap.now r1 r2 →
        IfOk result (λ sorts. sorts.items ≡
        class_sorts (sorts_of sorting.now) (classes_of unified.now) r1 r2) }
{
    let first = rule_of(weighed, overlap.first);
    let second = rule_of(weighed, overlap.second);
    class_sorts(alloc, sorting, first, second, unified)
}

/// The number of sorted cases of an overlap whose heads are made one, where all of them are joinable.
pub(crate) fn check_combinations<'a>(
    alloc: Global,
    weighed: &'a Weighed,
    sorting: &Sorting,
    overlap: &'a Overlap,
    unified: &'a Unified,
    sorts: &[usize],
) -> Result<usize, Cause>
    requires overlap { IsOverlapOf (rules_in weighed.now) overlap.now }
    requires unified { IsSortedUnifiedAt (rules_in weighed.now) overlap.now unified.now }
    requires finest { AreFinest (rules_in weighed.now) (sorts_of sorting.now) }
    requires sorts { (r1 r2 : RuleValue) → AreRulesOf (rules_in weighed.now) overlap.now r1 r2 →
        sorts.now ≡ class_sorts (sorts_of sorting.now) (classes_of unified.now) r1 r2 }
    requires few { ¬ MoreCombinationsThan (sorts_of sorting.now) sorts.now MAX_TYPES }
    ensures ok { IfOk result (HasJoinableCasesBy Sorted (rules_in weighed.now) overlap.now) }
    ensures err { IfErr result (RefusesAt Sorted (rules_in weighed.now) overlap.now) }
{
    sorted_cases();
    let mut checker = Checker::new(alloc, weighed, overlap, unified);
    let stopped = visit_combinations(alloc, sorting, sorts, MAX_TYPES, &mut checker)?;
    let Checker {
        passed,
        failing,
        ..
    } = checker;
    told(stopped, passed, failing)
}

/// The number of sorted cases of an overlap, where all of them are joinable.
// Not put into its caller, whose frame would hold the room that this one takes.
#[inline(never)]
pub(crate) fn check_overlap(
    alloc: Global,
    weighed: &Weighed,
    sorting: &Sorting,
    overlap: &Overlap,
) -> Result<usize, Cause>
    requires overlap { IsOverlapOf (rules_in weighed.now) overlap.now }
    requires finest { AreFinest (rules_in weighed.now) (sorts_of sorting.now) }
    ensures ok { IfOk result (HasJoinableCasesBy Sorted (rules_in weighed.now) overlap.now) }
    ensures err { IfErr result (RefusesAt Sorted (rules_in weighed.now) overlap.now) }
{
    let Some(unified) = sorted_unified(weighed, overlap) else {
        return Ok(0);
    };
    let sorts = sorts_at(alloc, weighed, sorting, overlap, &unified)?;
    if has_more_combinations(alloc, sorting, &sorts, MAX_TYPES)? {
        return Err(Cause::TooManyTypes(TooManyTypes {
            overlap: overlap.copy(),
            classes: sorts.len(),
        }));
    }
    check_combinations(alloc, weighed, sorting, overlap, &unified, &sorts)
}
