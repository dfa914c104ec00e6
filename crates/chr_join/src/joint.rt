//! The cases of an overlap at the order types of its free classes.
ghost use Rattle.std.specs.Prelude.{IfOk, IfErr, IfNone, IfSome, length};
ghost use Rattle.std.specs.Bool.{OnTrue, OnFalse};
ghost use Rattle.chr_types.specs.OrderTypes.{Rises, MoreTypesThan};
ghost use Rattle.chr_weights.specs.WeighedPrograms.{rules_in};
ghost use Rattle.chr_confluence.specs.Constants.{AreConstants};
ghost use Rattle.chr_overlaps.specs.OverlapLists.{IsOverlapOf};
ghost use Rattle.chr_overlaps.specs.declared.cases.TheConstants.{MAX_TYPES};
ghost use Rattle.chr_overlaps.specs.UnifiedOverlaps.{IsUnifiedAt};
ghost use Rattle.chr_join.specs.declared.coverage.Coverage.TheVariants.{Joint};
ghost use Rattle.chr_join.specs.Verdicts.{HasJoinableCasesBy};
ghost use Rattle.chr_join.specs.working.Checking.{HaveFewTypes, RefusesAt};
ghost use Rattle.chr_join.specs.working.Counting.{HasFewTypes};

use crate::checker::{Checker, told};
use crate::refused::{Cause, TooManyTypes};
use chr_confluence::listing::listed_cases;
use chr_overlaps::cases::{MAX_TYPES, unified};
use chr_overlaps::{Overlap, Unified};
use chr_types::{has_more_types, visit_types};
use chr_weights::Weighed;
use std::alloc::{AllocError, Global};

/// Whether `classes` classes have no more order types than an overlap may have. If so, the number is remembered in
/// `known`.
pub(crate) fn are_few(
    alloc: Global,
    classes: usize,
    constants: &[i64],
    known: &mut Vec<usize>,
) -> Result<bool, AllocError>
    requires rising { Rises constants.now }
    requires known { HaveFewTypes constants.now known.old.items }
    ensures known { IfOk result (λ _. HaveFewTypes constants.now known.new.items) }
    ensures few { IfOk result (λ few. OnTrue few (¬ MoreTypesThan MAX_TYPES classes constants.now)) }
    ensures many { IfOk result (λ few. OnFalse few (MoreTypesThan MAX_TYPES classes constants.now)) }
{
    if known.contains(&classes) {
        return Ok(true);
    }
    if has_more_types(alloc, classes, constants, MAX_TYPES)? {
        return Ok(false);
    }
    known.push(classes)?;
    Ok(true)
}

/// The number of cases of an overlap whose heads are made one, where all of them are joinable.
fn check_cases<'a>(
    alloc: Global,
    weighed: &'a Weighed,
    overlap: &'a Overlap,
    unified: &'a Unified,
    constants: &[i64],
) -> Result<usize, Cause>
    requires overlap { IsOverlapOf (rules_in weighed.now) overlap.now }
    requires unified { IsUnifiedAt (rules_in weighed.now) overlap.now unified.now }
    requires constants { AreConstants (rules_in weighed.now) constants.now }
    requires few { ¬ MoreTypesThan MAX_TYPES (length unified.now.free.items) constants.now }
    ensures ok { IfOk result (HasJoinableCasesBy Joint (rules_in weighed.now) overlap.now) }
    ensures err { IfErr result (RefusesAt Joint (rules_in weighed.now) overlap.now) }
{
    listed_cases();
    let mut checker = Checker::new(alloc, weighed, overlap, unified);
    let classes = unified.free_classes();
    let stopped = visit_types(alloc, classes, constants, unified, &mut checker)?;
    let Checker {
        passed,
        failing,
        ..
    } = checker;
    told(stopped, passed, failing)
}

/// An overlap whose heads are made one, which has few order types. None where two constants would have to be one.
pub(crate) fn made_one(
    alloc: Global,
    weighed: &Weighed,
    overlap: &Overlap,
    constants: &[i64],
    few: &mut Vec<usize>,
) -> Result<Option<Unified>, Cause>
    requires overlap { IsOverlapOf (rules_in weighed.now) overlap.now }
    requires constants { AreConstants (rules_in weighed.now) constants.now }
    requires few { HaveFewTypes constants.now few.old.items }
    ensures few { IfOk result (λ _. HaveFewTypes constants.now few.new.items) }
    ensures none { IfOk result (λ made. IfNone made (HasJoinableCasesBy Joint (rules_in weighed.now) overlap.now 0)) }
    ensures unified { IfOk result (λ made. IfSome made (IsUnifiedAt (rules_in weighed.now) overlap.now)) }
    ensures types { IfOk result (λ made. IfSome made (HasFewTypes constants.now)) }
    ensures err { IfErr result (RefusesAt Joint (rules_in weighed.now) overlap.now) }
{
    let Some(unified) = unified(weighed, overlap) else {
        return Ok(None);
    };
    let classes = unified.free_classes();
    if !are_few(alloc, classes, constants, few)? {
        return Err(Cause::TooManyTypes(TooManyTypes {
            overlap: overlap.copy(),
            classes,
        }));
    }
    Ok(Some(unified))
}

/// The number of cases of an overlap, where all of them are joinable.
// Not put into its caller, whose frame would hold the room that this one takes.
#[inline(never)]
pub(crate) fn check_overlap(
    alloc: Global,
    weighed: &Weighed,
    overlap: &Overlap,
    constants: &[i64],
) -> Result<usize, Cause>
    requires overlap { IsOverlapOf (rules_in weighed.now) overlap.now }
    requires constants { AreConstants (rules_in weighed.now) constants.now }
    ensures ok { IfOk result (HasJoinableCasesBy Joint (rules_in weighed.now) overlap.now) }
    ensures err { IfErr result (RefusesAt Joint (rules_in weighed.now) overlap.now) }
{
    let mut few = Vec::new(alloc);
    match made_one(alloc, weighed, overlap, constants, &mut few)? {
        None => Ok(0),
        Some(unified) => check_cases(alloc, weighed, overlap, &unified, constants),
    }
}
