//! The overlaps of rules are checked in order, portion by portion, up to the first of which not all cases are joinable.
ghost use Rattle.std.specs.Prelude.{◌*◌, ◌≤◌, All, IfOk, IfErr, IfSome, length};
ghost use Rattle.chr_base.specs.declared.limits.TheConstants.{MAX_RULES};
ghost use Rattle.chr_weights.specs.WeighedPrograms.{rules_in};
ghost use Rattle.chr_overlaps.specs.OverlapLists.{IsOverlapOf};
ghost use Rattle.chr_join.specs.Verdicts.{HasJoinableCasesBy, HaveJoinableCasesBy, IsAcceptedBy};
ghost use Rattle.chr_join.specs.Explanations.{IsRefusalBy};
ghost use Rattle.chr_join.specs.working.Checking.{IsListerOf, RefusesAt};
ghost use Rattle.chr_join.specs.working.Portions.{MOST_OF_RULE, RefusesIn};

use crate::ahead::{Ahead, look_ahead};
use crate::lister::Lister;
use crate::portions::portion_from;
use crate::refused::Cause;
use crate::sharing::shared_out;
use chr_overlaps::Overlap;
use chr_weights::Weighed;
use std::alloc::Global;
use std::ops::Range;
use std::thread::Threads;

/// The number of cases of an overlap, where all of them are joinable. It may be known.
fn checked(
    alloc: Global,
    weighed: &Weighed,
    lister: &Lister,
    overlap: &Overlap,
    known: Option<usize>,
) -> Result<usize, Cause>
    requires lister { IsListerOf (rules_in weighed.now) lister.now }
    requires overlap { IsOverlapOf (rules_in weighed.now) overlap.now }
    requires known { IfSome known (HasJoinableCasesBy lister.now.coverage (rules_in weighed.now) overlap.now) }
    ensures ok { IfOk result (HasJoinableCasesBy lister.now.coverage (rules_in weighed.now) overlap.now) }
    ensures err { IfErr result (RefusesAt lister.now.coverage (rules_in weighed.now) overlap.now) }
{
    match known {
        Some(cases) => Ok(cases),
        None => lister.check(alloc, weighed, overlap),
    }
}

/// The number of cases of these overlaps, where all of them are joinable. Those at the shared places are looked at
/// ahead of their turn by several threads.
fn check_portion(
    rt: &(impl Threads + Sync),
    alloc: Global,
    weighed: &Weighed,
    lister: &Lister,
    overlaps: &[Overlap],
    shared: Range<usize>,
) -> Result<u64, Cause>
    requires lister { IsListerOf (rules_in weighed.now) lister.now }
    requires overlaps { All (IsOverlapOf (rules_in weighed.now)) overlaps.now }
    requires few { length overlaps.now ≤ MAX_RULES * MOST_OF_RULE }
    ensures ok { IfOk result (HaveJoinableCasesBy lister.now.coverage (rules_in weighed.now) overlaps.now) }
    ensures err { IfErr result (RefusesIn lister.now.coverage (rules_in weighed.now) overlaps.now) }
{
    let Range { start, end } = shared;
    let mut ahead = Ahead::none(alloc);
    let mut total: u64 = 0;
    for (place, overlap) in overlaps.iter().enumerate() {
        if start <= place && place < end && ahead.ends_before(place) {
            ahead = look_ahead(rt, alloc, weighed, lister, overlaps, place..end)?;
        }
        match checked(alloc, weighed, lister, overlap, ahead.number_at(place)) {
            Ok(cases) => total += cases as u64,
            Err(cause) => return Err(cause),
        }
    }
    Ok(total)
}

/// The number of all cases of these rules' overlaps, where all of them are joinable.
pub(crate) fn check_rules(
    rt: &(impl Threads + Sync),
    alloc: Global,
    weighed: &Weighed,
    lister: &Lister,
) -> Result<u64, Cause>
    requires { IsListerOf (rules_in weighed.now) lister.now }
    ensures ok { IfOk result (IsAcceptedBy lister.now.coverage (rules_in weighed.now)) }
    ensures err { IfErr result (IsRefusalBy lister.now.coverage (rules_in weighed.now)) }
{
    let rules = weighed.program().rules().len();
    let mut total: u64 = 0;
    let mut place = 0;
    while place < rules {
        let portion = portion_from(alloc, weighed, place)?;
        let shared = shared_out(alloc, weighed, lister, &portion, place);
        match check_portion(rt, alloc, weighed, lister, &portion.overlaps, shared) {
            Ok(cases) => total += cases,
            Err(cause) => return Err(cause),
        }
        place = portion.end;
    }
    Ok(total)
}
