//! The joint cases of confluent rules are counted, overlap by overlap. None of them is looked at.
ghost use Rattle.std.specs.Prelude.{◌*◌, ◌≤◌, All, IfOk, IfErr, length};
ghost use Rattle.chr_base.specs.declared.limits.TheConstants.{MAX_RULES};
ghost use Rattle.chr_types.specs.OrderTypes.{Rises};
ghost use Rattle.chr_weights.specs.WeighedPrograms.{rules_in};
ghost use Rattle.chr_confluence.specs.Confluence.{Confluent};
ghost use Rattle.chr_confluence.specs.Constants.{AreConstants};
ghost use Rattle.chr_overlaps.specs.OverlapLists.{IsOverlapOf};
ghost use Rattle.chr_overlaps.specs.UnifiedOverlaps.{IsUnifiedAt};
ghost use Rattle.chr_join.specs.declared.coverage.Coverage.TheVariants.{Joint};
ghost use Rattle.chr_join.specs.Verdicts.{HasJoinableCasesBy, HaveJoinableCasesBy, IsAcceptedBy};
ghost use Rattle.chr_join.specs.Explanations.{IsRefusalBy};
ghost use Rattle.chr_join.specs.working.Checking.{HaveFewTypes, RefusesAt};
ghost use Rattle.chr_join.specs.working.Portions.{MOST_OF_RULE, RefusesIn};
ghost use Rattle.chr_join.specs.working.Counting.{AreCounts, HasFewTypes};

use crate::ahead::{BATCH, batch_from};
use crate::counting::Counts;
use crate::joint::{are_few, made_one};
use crate::once::joint_cases_join;
use crate::portions::portion_from;
use crate::refused::Cause;
use chr_overlaps::cases::unified;
use chr_overlaps::constants::constants;
use chr_overlaps::{Overlap, Unified};
use chr_weights::Weighed;
use std::alloc::{AllocError, Global};
use std::thread::Threads;

/// The number of cases of an overlap whose heads are made one. The rules are confluent, so all of them are joinable.
pub(crate) fn count_cases(
    alloc: Global,
    weighed: &Weighed,
    overlap: &Overlap,
    unified: Unified,
    constants: &[i64],
    counts: &mut Counts,
) -> Result<usize, AllocError>
    requires confluent { Confluent (rules_in weighed.now) }
    requires overlap { IsOverlapOf (rules_in weighed.now) overlap.now }
    requires unified { IsUnifiedAt (rules_in weighed.now) overlap.now unified }
    requires constants { AreConstants (rules_in weighed.now) constants.now }
    requires few { HasFewTypes constants.now unified }
    requires counts { AreCounts constants.now counts.old.entries.items }
    ensures counts { IfOk result (λ _. AreCounts constants.now counts.new.entries.items) }
    ensures number { IfOk result (HasJoinableCasesBy Joint (rules_in weighed.now) overlap.now) }
{
    joint_cases_join();
    counts.count(alloc, unified, constants)
}

/// What is remembered from overlap to overlap.
#[derive(Drop)]
pub(crate) struct Remembered {
    /// Numbers of classes that have few order types.
    pub(crate) few: Vec<usize>,
    pub(crate) counts: Counts,
}

/// Whether guards like these are among those.
fn are_there(guards: &[Unified], unified: &Unified) -> bool {
    guards.iter().any(|it| it.has_guards_of(unified))
}

/// Adds guards, unless like ones are there or counted, or their free classes have many order types.
fn add_guards(
    alloc: Global,
    guards: &mut Vec<Unified>,
    unified: Unified,
    constants: &[i64],
    few: &mut Vec<usize>,
    counts: &Counts,
) -> Result<(), AllocError>
    requires rising { Rises constants.now }
    requires few { HaveFewTypes constants.now few.old.items }
    requires guards { All (HasFewTypes constants.now) guards.old.items }
    ensures few { IfOk result (λ _. HaveFewTypes constants.now few.new.items) }
    ensures guards { IfOk result (λ _. All (HasFewTypes constants.now) guards.new.items) }
{
    if are_there(guards, &unified) || counts.has(&unified) {
        return Ok(());
    }
    if !are_few(alloc, unified.free_classes(), constants, few)? {
        return Ok(());
    }
    guards.push(unified)?;
    Ok(())
}

/// The different guards of overlaps with few order types, without those that are counted.
fn new_guards(
    alloc: Global,
    weighed: &Weighed,
    overlaps: &[Overlap],
    constants: &[i64],
    few: &mut Vec<usize>,
    counts: &Counts,
) -> Result<Vec<Unified>, AllocError>
    requires overlaps { All (IsOverlapOf (rules_in weighed.now)) overlaps.now }
    requires rising { Rises constants.now }
    requires few { HaveFewTypes constants.now few.old.items }
    ensures few { IfOk result (λ _. HaveFewTypes constants.now few.new.items) }
    ensures guards { IfOk result (λ guards. All (HasFewTypes constants.now) guards.items) }
{
    let mut guards = Vec::new(alloc);
    for overlap in overlaps {
        let Some(unified) = unified(weighed, overlap) else {
            continue;
        };
        add_guards(alloc, &mut guards, unified, constants, few, counts)?;
    }
    Ok(guards)
}

/// Counts the guards of these overlaps that aren't counted yet, before the overlaps are looked at one by one.
pub(crate) fn count_ahead(
    rt: &(impl Threads + Sync),
    alloc: Global,
    weighed: &Weighed,
    overlaps: &[Overlap],
    constants: &[i64],
    known: &mut Remembered,
) -> Result<(), AllocError>
    requires overlaps { All (IsOverlapOf (rules_in weighed.now)) overlaps.now }
    requires rising { Rises constants.now }
    requires few { HaveFewTypes constants.now known.old.few.items }
    requires counts { AreCounts constants.now known.old.counts.entries.items }
    ensures few { IfOk result (λ _. HaveFewTypes constants.now known.new.few.items) }
    ensures counts { IfOk result (λ _. AreCounts constants.now known.new.counts.entries.items) }
{
    let Remembered { few, counts } = known;
    let guards = new_guards(alloc, weighed, overlaps, constants, few, counts)?;
    counts.add_all(rt, alloc, guards, constants)
}

/// The number of cases of an overlap. The rules are confluent, so all of them are joinable.
fn count_overlap(
    alloc: Global,
    weighed: &Weighed,
    overlap: &Overlap,
    constants: &[i64],
    known: &mut Remembered,
) -> Result<usize, Cause>
    requires confluent { Confluent (rules_in weighed.now) }
    requires overlap { IsOverlapOf (rules_in weighed.now) overlap.now }
    requires constants { AreConstants (rules_in weighed.now) constants.now }
    requires few { HaveFewTypes constants.now known.old.few.items }
    requires counts { AreCounts constants.now known.old.counts.entries.items }
    ensures few { IfOk result (λ _. HaveFewTypes constants.now known.new.few.items) }
    ensures counts { IfOk result (λ _. AreCounts constants.now known.new.counts.entries.items) }
    ensures ok { IfOk result (HasJoinableCasesBy Joint (rules_in weighed.now) overlap.now) }
    ensures err { IfErr result (RefusesAt Joint (rules_in weighed.now) overlap.now) }
{
    match made_one(alloc, weighed, overlap, constants, &mut known.few)? {
        None => Ok(0),
        Some(unified) => {
            let counts = &mut known.counts;
            Ok(count_cases(alloc, weighed, overlap, unified, constants, counts)?)
        }
    }
}

/// The number of joint cases of these overlaps of confluent rules, which are counted and not looked at.
fn count_portion(
    rt: &(impl Threads + Sync),
    alloc: Global,
    weighed: &Weighed,
    overlaps: &[Overlap],
    constants: &[i64],
    known: &mut Remembered,
) -> Result<u64, Cause>
    requires confluent { Confluent (rules_in weighed.now) }
    requires overlaps { All (IsOverlapOf (rules_in weighed.now)) overlaps.now }
    requires number { length overlaps.now ≤ MAX_RULES * MOST_OF_RULE }
    requires constants { AreConstants (rules_in weighed.now) constants.now }
    requires few { HaveFewTypes constants.now known.old.few.items }
    requires counts { AreCounts constants.now known.old.counts.entries.items }
    ensures few { IfOk result (λ _. HaveFewTypes constants.now known.new.few.items) }
    ensures counts { IfOk result (λ _. AreCounts constants.now known.new.counts.entries.items) }
    ensures ok { IfOk result (HaveJoinableCasesBy Joint (rules_in weighed.now) overlaps.now) }
    ensures err { IfErr result (RefusesIn Joint (rules_in weighed.now) overlaps.now) }
{
    let mut total: u64 = 0;
    for (place, overlap) in overlaps.iter().enumerate() {
        if place % BATCH == 0 {
            let batch = batch_from(overlaps, place, BATCH);
            count_ahead(rt, alloc, weighed, batch, constants, known)?;
        }
        match count_overlap(alloc, weighed, overlap, constants, known) {
            Ok(cases) => total += cases as u64,
            Err(cause) => return Err(cause),
        }
    }
    Ok(total)
}

/// The number of all joint cases of confluent rules, which are counted and not looked at.
pub(crate) fn count_joint(
    rt: &(impl Threads + Sync),
    alloc: Global,
    weighed: &Weighed,
) -> Result<u64, Cause>
    requires { Confluent (rules_in weighed.now) }
    ensures ok { IfOk result (IsAcceptedBy Joint (rules_in weighed.now)) }
    ensures err { IfErr result (IsRefusalBy Joint (rules_in weighed.now)) }
{
    let constants = constants(alloc, weighed.program().rules())?;
    let rules = weighed.program().rules().len();
    let mut known = Remembered {
        few: Vec::new(alloc),
        counts: Counts::new(alloc),
    };
    let mut total: u64 = 0;
    let mut place = 0;
    while place < rules {
        let portion = portion_from(alloc, weighed, place)?;
        match count_portion(
            rt,
            alloc,
            weighed,
            &portion.overlaps,
            &constants,
            &mut known,
        ) {
            Ok(cases) => total += cases,
            Err(cause) => return Err(cause),
        }
        place = portion.end;
    }
    Ok(total)
}
