//! The cases of an overlap are checked one after the other, and none is kept.
ghost use Rattle.std.specs.Prelude.{◌≡◌, false, IfOk, IfErr};
ghost use Rattle.chr_join.specs.working.Visits.{setting_of, HasTold};

use crate::ends::Ends;
use crate::refused::{Cause, Failure};
use crate::sides::{different_ends, explained};
use chr_confluence::laws::peak;
use chr_overlaps::cases::case_among;
use chr_overlaps::{Overlap, Unified, has_equal_sides};
use chr_types::Visit;
use chr_weights::Weighed;
use std::alloc::{AllocError, Global};

/// Checks the cases of an overlap at the values that it visits, up to the first that fails.
#[derive(Drop)]
pub(crate) struct Checker<'a> {
    /// What gives memory.
    pub(crate) alloc: Global,
    /// The program.
    pub(crate) weighed: &'a Weighed,
    /// The overlap of the cases.
    pub(crate) overlap: &'a Overlap,
    /// The overlap with its matched heads made one.
    pub(crate) unified: &'a Unified,
    /// Whether both steps of each case lead to one store, so that no case has to be made.
    pub(crate) equal: bool,
    /// The ends of stores that are known already.
    pub(crate) ends: Ends,
    /// The number of cases that have joined.
    pub(crate) passed: usize,
    /// The first case that fails, once there is one.
    pub(crate) failing: Option<Failure>,
}

impl<'a> Checker<'a> {
    ghost use Rattle.std.specs.Prelude.{None, List};
    ghost use Rattle.chr_base.specs.declared.rule.Rule.{Rule};
    ghost use Rattle.chr_weights.specs.WeighedPrograms.{rules_in};
    ghost use Rattle.chr_overlaps.specs.OverlapLists.{IsOverlapOf};
    ghost use Rattle.chr_overlaps.specs.UnifiedOverlaps.{HasUnified};
    ghost use Rattle.chr_join.specs.working.Ends.{AreEnds};
    ghost use Rattle.chr_join.specs.working.Visits.{TellsEqualSides};

    /// A checker that has visited nothing.
    pub(crate) fn new(
        alloc: Global,
        weighed: &'a Weighed,
        overlap: &'a Overlap,
        unified: &'a Unified,
    ) -> Checker<'a>
        requires overlap { IsOverlapOf (rules_in weighed.now) overlap.now }
        requires unified { HasUnified (rules_in weighed.now) overlap.now unified.now }
        ensures setting { setting_of result ≡
            record { weighed = weighed.now; overlap = overlap.now; unified = unified.now } }
        ensures equal { TellsEqualSides result }
        ensures ends { (rules : List Rule) → AreEnds rules result.ends.entries.items }
        ensures passed { result.passed ≡ 0 }
        ensures failing { result.failing ≡ None }
    {
        Checker {
            alloc,
            weighed,
            overlap,
            unified,
            equal: has_equal_sides(weighed, overlap, unified),
            ends: Ends::new(alloc),
            passed: 0,
            failing: None,
        }
    }
}

/// What a walk has found: it has ended, or was stopped.
pub(crate) fn told(stopped: bool, passed: usize, failing: Option<Failure>) -> Result<usize, Cause>
    ensures passed { IfOk result (λ n. (stopped ≡ false) × (n ≡ passed)) }
    ensures failing { IfErr result (HasTold failing stopped) }
{
    if !stopped {
        return Ok(passed);
    }
    match failing {
        Some(failure) => Err(Cause::Fails(failure)),
        // A walk that was stopped has found a case, so this is never answered.
        None => Err(Cause::Memory),
    }
}

impl Visit for Checker<'_> {
    ghost use Rattle.chr_join.specs.working.Visits.{MayCheck, Checks};

    ghost ready = { λ v. MayCheck v };

    ghost step = { λ v values stops w. Checks v values stops w };

    fn visit(&mut self, values: &[i64]) -> Result<bool, AllocError> {
        peak();
        if self.equal {
            if self.unified.guards_hold(values) {
                self.passed = self.passed.saturating_add(1);
            }
            return Ok(false);
        }
        let Some(case) = case_among(self.alloc, self.weighed, self.overlap, self.unified, values)?
        else {
            return Ok(false);
        };
        let Some(ends) = different_ends(self.alloc, self.weighed, &mut self.ends, &case)? else {
            self.passed = self.passed.saturating_add(1);
            return Ok(false);
        };
        let failure = explained(self.alloc, self.weighed, self.overlap, &case, ends)?;
        self.failing = Some(failure);
        Ok(true)
    }
}
