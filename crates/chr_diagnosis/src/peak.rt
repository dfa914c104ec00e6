//! A program with a case that fails.
ghost use Rattle.std.specs.Prelude.{◌≡◌, IfErr, IfOk};
ghost use Rattle.chr_weights.specs.WeighedPrograms.{rules_in};
ghost use Rattle.chr_join.specs.declared.coverage.Coverage.{Coverage};
ghost use Rattle.chr_join.specs.declared.refused.Cause.TheVariants.{Fails};
ghost use Rattle.chr_join.specs.Explanations.{IsRefusalBy, ReplaysApart};
ghost use Rattle.chr_diagnosis.specs.Diagnoses.{IsPeakBy};

use crate::smallest::smaller_where_told;
use crate::ways::{Ways, ways_of};
use chr_join::Failure;
use chr_weights::Weighed;
use std::alloc::{AllocFailed, Global};

/// A program with a case that fails.
#[derive(Drop)]
pub struct Peak {
    pub weighed: Weighed,
    /// The first case that fails.
    pub first: Ways,
    /// Of the joint cases of all overlaps that were looked at and fail the one with the smallest store, where that is
    /// smaller than the first's: it has fewer atoms; or as many, and fewer different values; or as many of these too,
    /// and comes before it. None where it is the first one's in other numbers, and where there was no memory to look
    /// for it.
    pub smaller: Option<Ways>,
}

impl Peak {
    /// The case that is shown to a person.
    pub fn shown(&self) -> &Ways {
        match &self.smaller {
            Some(smaller) => smaller,
            None => &self.first,
        }
    }
}

/// The case that fails, with the stores of both sides, and a smaller one. Where memory is refused, the program is
/// handed back.
pub(crate) fn peak_of(
    alloc: Global,
    weighed: Weighed,
    failure: Failure,
) -> Result<Peak, AllocFailed<Weighed>>
    requires { ReplaysApart (rules_in weighed) failure }
    ensures weighed { IfOk result (λ p. p.weighed ≡ weighed) }
    ensures peak { (coverage : Coverage) → IsRefusalBy coverage (rules_in weighed) (Fails failure) →
        IfOk result (IsPeakBy coverage (rules_in weighed)) }
    ensures handed_back { IfErr result (λ e. e.value ≡ weighed) }
{
    let smaller = smaller_where_told(alloc, &weighed, &failure);
    match ways_of(alloc, &weighed, failure) {
        Ok(first) => Ok(Peak {
            weighed,
            first,
            smaller,
        }),
        Err(_) => Err(AllocFailed { value: weighed }),
    }
}
