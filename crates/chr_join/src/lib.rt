//! Which programs are accepted: those in which no overlap of rules has a case whose sides end in different stores
//! (after Abdennadher, Frühwirth and Meuss 1999); and parts of a store that an accepted program rewrites by themselves.
#![tactic(auto)]

mod accepted;
mod accepting;
mod ahead;
mod checker;
mod checking;
mod copies;
mod counting;
mod coverage;
mod ends;
mod joint;
pub mod laws;
mod lease;
mod lister;
mod numbers;
mod once;
mod parts;
mod portions;
mod refused;
mod settled;
mod sharing;
mod sides;
mod sorted;
mod totals;

pub use accepted::Accepted;
pub use accepting::accept;
pub use coverage::Coverage;
pub use lease::{Done, Lease, NotStepped, StepFault};
pub use numbers::case_numbers;
pub use once::{accepted_are_confluent, refused_are_not_confluent, verdict_is_one, verdicts_exist};
pub use refused::{Cause, Failure, Refused, TooManyTypes};
