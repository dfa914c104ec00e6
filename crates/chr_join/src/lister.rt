//! What the cases of overlaps are listed from.
ghost use Rattle.std.specs.Prelude.{◌≡◌, IfOk, IfErr};
ghost use Rattle.chr_weights.specs.WeighedPrograms.{rules_in};

use crate::coverage::Coverage;
use crate::portions::LEAST_PIECE;
use crate::refused::Cause;
use crate::{joint, sorted};
use chr_overlaps::Overlap;
use chr_overlaps::constants::constants;
use chr_sorting::{Sorting, finest_sorts};
use chr_weights::Weighed;
use std::alloc::{AllocError, Global};

/// What the cases of a program's overlaps are listed from.
#[derive(Drop)]
pub(crate) struct Lister {
    /// Which cases are listed.
    pub(crate) coverage: Coverage,
    /// The constants of all rules, rising.
    pub(crate) constants: Vec<i64>,
    /// The finest sorts of the program.
    pub(crate) sorting: Sorting,
    /// The number of first rules that are known to have no overlap of which a sorted case fails.
    pub(crate) joining: usize,
}

impl Lister {
    ghost use Rattle.chr_overlaps.specs.OverlapLists.{IsOverlapOf};
    ghost use Rattle.chr_join.specs.Verdicts.{HasJoinableCasesBy};
    ghost use Rattle.chr_join.specs.working.Checking.{IsListerOf, RefusesAt};

    /// The lister of these rules, of which the first `joining` are known to have no overlap of which a sorted case
    /// fails.
    pub(crate) fn new(
        alloc: Global,
        weighed: &Weighed,
        coverage: Coverage,
        joining: usize,
    ) -> Result<Lister, AllocError>
        ensures coverage { IfOk result (λ lister. lister.coverage ≡ coverage) }
        ensures lister { IfOk result (IsListerOf (rules_in weighed.now)) }
    {
        Ok(Lister {
            coverage,
            constants: constants(alloc, weighed.program().rules())?,
            sorting: finest_sorts(alloc, weighed.program())?,
            joining,
        })
    }

    /// The least number of overlaps for which one more thread is begun.
    pub(crate) fn least_piece(&self) -> usize {
        match self.coverage {
            Coverage::Joint => 1,
            Coverage::Sorted => LEAST_PIECE,
        }
    }

    /// The number of cases of an overlap, where all of them are joinable.
    pub(crate) fn check(
        &self,
        alloc: Global,
        weighed: &Weighed,
        overlap: &Overlap,
    ) -> Result<usize, Cause>
        requires lister { IsListerOf (rules_in weighed.now) self.now }
        requires overlap { IsOverlapOf (rules_in weighed.now) overlap.now }
        ensures ok { IfOk result (HasJoinableCasesBy self.now.coverage (rules_in weighed.now) overlap.now) }
        ensures err { IfErr result (RefusesAt self.now.coverage (rules_in weighed.now) overlap.now) }
    {
        match self.coverage {
            Coverage::Joint => joint::check_overlap(alloc, weighed, overlap, &self.constants),
            Coverage::Sorted => sorted::check_overlap(alloc, weighed, &self.sorting, overlap),
        }
    }
}
