//! Overlaps of which all sorted cases are joinable, or which are copies of earlier ones.
ghost use Rattle.std.specs.Prelude.{◌≡◌, ◌≤◌, All, IfOk, length, ⊤};
ghost use Rattle.std.specs.Bool.{OnTrue};
ghost use Rattle.chr_types.specs.OrderTypes.{Rises};
ghost use Rattle.chr_weights.specs.WeighedPrograms.{rules_in};
ghost use Rattle.chr_confluence.specs.Confluence.{Confluent};
ghost use Rattle.chr_confluence.specs.SortedCases.{class_sorts};
ghost use Rattle.chr_overlaps.specs.OverlapLists.{IsOverlapOf};
ghost use Rattle.chr_overlaps.specs.declared.cases.TheConstants.{MAX_TYPES};
ghost use Rattle.chr_overlaps.specs.UnifiedOverlaps.{AreRulesOf, IsSortedUnifiedAt};
ghost use Rattle.chr_overlaps.specs.working.Unifiers.{classes_of};
ghost use Rattle.chr_base.specs.declared.rule.Rule.{Rule as RuleValue};
ghost use Rattle.chr_sorting.specs.FinestSorts.{AreFinest, sorts_of};
ghost use Rattle.chr_sorting.specs.SortedCaseLists.{MoreCombinationsThan};
ghost use Rattle.chr_join.specs.declared.coverage.Coverage.TheVariants.{Sorted};
ghost use Rattle.chr_join.specs.working.Checking.{Joins};
ghost use Rattle.chr_join.specs.working.Portions.{AreOriginals, IsSettled};

use crate::copies::{is_copy, originals};
use crate::once::accepted_are_confluent;
use crate::portions::{LEAST_PIECE, alone_from, portion_from, worth_thread};
use crate::sorted::{check_combinations, sorts_at};
use chr_confluence::laws::peak;
use chr_confluence::sorted_laws::sorted_cases;
use chr_overlaps::cases::{MAX_TYPES, sorted_unified, unified};
use chr_overlaps::constants::constants;
use chr_overlaps::{Overlap, Unified, has_equal_sides};
use chr_sorting::{Sorting, class_sorts, finest_sorts, has_more_combinations, visit_combinations};
use chr_types::{Visit, has_more_types};
use chr_weights::Weighed;
use rayon::prelude::*;
use std::alloc::{AllocError, Global};
use std::thread::Threads;

/// Sees no more than that there are lists to visit.
#[derive(Drop)]
struct Glance;

impl Visit for Glance {
    ghost ready = { λ _. ⊤ };

    ghost step = { λ _ _ _ _. ⊤ };

    fn visit(&mut self, _values: &[i64]) -> Result<bool, AllocError> {
        Ok(true)
    }
}

/// Whether both sides of each sorted case of an overlap are equal by their patterns alone, so that no case has to be
/// looked at. False is also answered where memory is refused.
fn have_equal_sides(
    alloc: Global,
    weighed: &Weighed,
    sorting: &Sorting,
    overlap: &Overlap,
    unified: &Unified,
    sorts: &[usize],
) -> bool
    requires overlap { IsOverlapOf (rules_in weighed.now) overlap.now }
    requires unified { IsSortedUnifiedAt (rules_in weighed.now) overlap.now unified.now }
    requires finest { AreFinest (rules_in weighed.now) (sorts_of sorting.now) }
    requires sorts { (r1 r2 : RuleValue) → AreRulesOf (rules_in weighed.now) overlap.now r1 r2 →
        sorts.now ≡ class_sorts (sorts_of sorting.now) (classes_of unified.now) r1 r2 }
    requires few { ¬ MoreCombinationsThan (sorts_of sorting.now) sorts.now MAX_TYPES }
    ensures { OnTrue result (Joins Sorted (rules_in weighed.now) overlap.now) }
{
    peak();
    sorted_cases();
    if !has_equal_sides(weighed, overlap, unified) {
        return false;
    }
    visit_combinations(alloc, sorting, sorts, MAX_TYPES, &mut Glance).is_ok()
}

/// Whether all sorted cases of an overlap are joinable. False is also answered where there are too many, or where
/// memory is refused.
fn overlap_joins(alloc: Global, weighed: &Weighed, sorting: &Sorting, overlap: &Overlap) -> bool
    requires overlap { IsOverlapOf (rules_in weighed.now) overlap.now }
    requires finest { AreFinest (rules_in weighed.now) (sorts_of sorting.now) }
    ensures { OnTrue result (Joins Sorted (rules_in weighed.now) overlap.now) }
{
    let Some(unified) = sorted_unified(weighed, overlap) else {
        return true;
    };
    let Ok(sorts) = sorts_at(alloc, weighed, sorting, overlap, &unified) else {
        return false;
    };
    match has_more_combinations(alloc, sorting, &sorts, MAX_TYPES) {
        Ok(false) => {}
        _ => return false,
    }
    if have_equal_sides(alloc, weighed, sorting, overlap, &unified, &sorts) {
        return true;
    }
    check_combinations(alloc, weighed, sorting, overlap, &unified, &sorts).is_ok()
}

/// Whether all sorted cases of an overlap are joinable, or it is a copy of an earlier one.
fn is_settled(
    alloc: Global,
    weighed: &Weighed,
    sorting: &Sorting,
    originals: &[usize],
    overlap: &Overlap,
) -> bool
    requires overlap { IsOverlapOf (rules_in weighed.now) overlap.now }
    requires finest { AreFinest (rules_in weighed.now) (sorts_of sorting.now) }
    requires originals { AreOriginals (rules_in weighed.now) originals.now }
    ensures { OnTrue result (IsSettled (rules_in weighed.now) overlap.now) }
{
    is_copy(weighed, originals, overlap) || overlap_joins(alloc, weighed, sorting, overlap)
}

/// Whether these overlaps are settled, one after the other.
fn few_settled(
    alloc: Global,
    weighed: &Weighed,
    sorting: &Sorting,
    originals: &[usize],
    overlaps: &[Overlap],
) -> bool
    requires overlaps { All (IsOverlapOf (rules_in weighed.now)) overlaps.now }
    requires finest { AreFinest (rules_in weighed.now) (sorts_of sorting.now) }
    requires originals { AreOriginals (rules_in weighed.now) originals.now }
    ensures { OnTrue result (All (IsSettled (rules_in weighed.now)) overlaps.now) }
{
    for overlap in overlaps {
        if !is_settled(alloc, weighed, sorting, originals, overlap) {
            return false;
        }
    }
    true
}

/// Like [`few_settled`], but shared out among threads.
fn many_settled(
    rt: &(impl Threads + Sync),
    alloc: Global,
    weighed: &Weighed,
    sorting: &Sorting,
    originals: &[usize],
    overlaps: &[Overlap],
) -> bool
    requires overlaps { All (IsOverlapOf (rules_in weighed.now)) overlaps.now }
    requires finest { AreFinest (rules_in weighed.now) (sorts_of sorting.now) }
    requires originals { AreOriginals (rules_in weighed.now) originals.now }
    ensures { OnTrue result (All (IsSettled (rules_in weighed.now)) overlaps.now) }
{
    overlaps
        .par_iter()
        .with_min_len(worth_thread(alloc, LEAST_PIECE))
        .all(
            rt,
            |overlap: &Overlap| -> bool
                requires { IsOverlapOf (rules_in weighed.now) overlap.now
                    × AreFinest (rules_in weighed.now) (sorts_of sorting.now)
                    × AreOriginals (rules_in weighed.now) originals.now }
                ensures { OnTrue result (IsSettled (rules_in weighed.entry.now) overlap.now) }
            { is_settled(alloc, weighed, sorting, originals, overlap) },
        )
}

/// Whether these overlaps are settled. The first ones are looked at before threads are started.
fn are_settled(
    rt: &(impl Threads + Sync),
    alloc: Global,
    weighed: &Weighed,
    sorting: &Sorting,
    originals: &[usize],
    overlaps: &[Overlap],
    alone: usize,
) -> bool
    requires overlaps { All (IsOverlapOf (rules_in weighed.now)) overlaps.now }
    requires finest { AreFinest (rules_in weighed.now) (sorts_of sorting.now) }
    requires originals { AreOriginals (rules_in weighed.now) originals.now }
    ensures { OnTrue result (All (IsSettled (rules_in weighed.now)) overlaps.now) }
{
    let (first, rest) = overlaps.split_at(alone.min(overlaps.len()));
    few_settled(alloc, weighed, sorting, originals, first)
        && many_settled(rt, alloc, weighed, sorting, originals, rest)
}

/// The number of overlaps before the first of these that has too many order types. It ends a verdict by joint cases, so
/// nothing behind it has to be looked at.
pub(crate) fn few_types(
    alloc: Global,
    weighed: &Weighed,
    constants: &[i64],
    overlaps: &[Overlap],
) -> Result<usize, AllocError>
    requires overlaps { All (IsOverlapOf (rules_in weighed.now)) overlaps.now }
    requires constants { Rises constants.now }
{
    let mut known = 0;
    for (place, overlap) in overlaps.iter().enumerate() {
        let classes = match unified(weighed, overlap) {
            Some(unified) => unified.free_classes(),
            None => 0,
        };
        if classes > known {
            if has_more_types(alloc, classes, constants, MAX_TYPES)? {
                return Ok(place);
            }
            known = classes;
        }
    }
    Ok(overlaps.len())
}

/// A number of first rules that have, among them and with all later ones, no overlap of which a sorted case fails.
/// Where these are all rules, the rules are confluent. The search stops at a rule that has an overlap of too many order
/// types.
pub(crate) fn joining_rules(
    rt: &(impl Threads + Sync),
    alloc: Global,
    weighed: &Weighed,
) -> Result<usize, AllocError>
    ensures { IfOk result (λ n. length (rules_in weighed.now) ≤ n → Confluent (rules_in weighed.now)) }
{
    accepted_are_confluent();
    let sorting = finest_sorts(alloc, weighed.program())?;
    let originals = originals(alloc, weighed)?;
    let constants = constants(alloc, weighed.program().rules())?;
    let rules = weighed.program().rules().len();
    let mut place = 0;
    while place < rules {
        let portion = portion_from(alloc, weighed, place)?;
        if few_types(alloc, weighed, &constants, &portion.overlaps)? < portion.overlaps.len() {
            return Ok(place);
        }
        let alone = alone_from(place);
        if !are_settled(
            rt,
            alloc,
            weighed,
            &sorting,
            &originals,
            &portion.overlaps,
            alone,
        ) {
            return Ok(place);
        }
        place = portion.end;
    }
    Ok(place)
}

/// The number of overlaps before the first of these of which not all sorted cases are joinable.
pub(crate) fn joining_overlaps(
    alloc: Global,
    weighed: &Weighed,
    sorting: &Sorting,
    overlaps: &[Overlap],
) -> usize
    requires overlaps { All (IsOverlapOf (rules_in weighed.now)) overlaps.now }
    requires finest { AreFinest (rules_in weighed.now) (sorts_of sorting.now) }
{
    for (place, overlap) in overlaps.iter().enumerate() {
        if !overlap_joins(alloc, weighed, sorting, overlap) {
            return place;
        }
    }
    overlaps.len()
}
