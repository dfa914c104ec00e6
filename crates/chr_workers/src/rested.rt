//! What comes of parts that are rested.
ghost use Rattle.chr_base.specs.Rewriting.{IsAtRest};
ghost use Rattle.chr_base.specs.Rules.{Step};
ghost use Rattle.chr_weights.specs.WeighedPrograms.{rules_in};

use crate::gate::Passed;
use chr_join::{Accepted, Done};
use std::alloc::Global;

/// What came of a lease that was rested: its type keeps that the result is at rest. It is made of a lease with which a
/// gate was passed, and of nothing else.
#[derive(Drop)]
pub struct Rested {
    /// What is put for the lease.
    pub done: Done,
    // Private, so that no other file makes one.
    made_here: (),
    pub ghost rests: { IsAtRest (Step (rules_in done.weighed)) done.result },
}

impl Rested {
    /// What comes of a lease, or nothing where memory is refused.
    pub(crate) fn of(alloc: Global, accepted: &Accepted, passed: Passed) -> Option<Rested> {
        match accepted.rest_part(alloc, passed.into_lease()) {
            Ok(done) => Some(Rested {
                done,
                made_here: (),
            }),
            Err(_) => None,
        }
    }
}
