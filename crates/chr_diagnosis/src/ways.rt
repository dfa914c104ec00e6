//! A case that fails, with the stores of both sides.
ghost use Rattle.std.specs.Prelude.{◌≡◌, IfOk};
ghost use Rattle.chr_weights.specs.WeighedPrograms.{rules_in};
ghost use Rattle.chr_join.specs.Explanations.{ReplaysApart};
ghost use Rattle.chr_diagnosis.specs.Diagnoses.{AreWaysOf};

use crate::stores::first_stores;
use chr_base::bag::Bag;
use chr_join::Failure;
use chr_weights::Weighed;
use std::alloc::{AllocError, Global};

/// A case whose two sides end in different stores, and the first stores of both.
#[derive(Drop)]
pub struct Ways {
    /// The case, with the derivations of both sides.
    pub failure: Failure,
    /// The stores after the first steps of the left side, `MAX_TOLD_STEPS` at most.
    pub left: Vec<Bag>,
    /// The same of the right side.
    pub right: Vec<Bag>,
}

/// A case that fails, with the first stores of both sides.
pub(crate) fn ways_of(
    alloc: Global,
    weighed: &Weighed,
    failure: Failure,
) -> Result<Ways, AllocError>
    requires { ReplaysApart (rules_in weighed.now) failure }
    ensures failure { IfOk result (λ w. w.failure ≡ failure) }
    ensures stores { IfOk result (AreWaysOf (rules_in weighed.now)) }
{
    let left = first_stores(alloc, weighed, &failure.left)?;
    let right = first_stores(alloc, weighed, &failure.right)?;
    Ok(Ways {
        failure,
        left,
        right,
    })
}
