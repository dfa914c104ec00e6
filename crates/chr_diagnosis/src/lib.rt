//! What a verdict on a program text is for, and changes with which a refused one is accepted.
#![tactic(auto)]

mod beside;
mod diagnosis;
mod draft;
mod draft_text;
mod fact_text;
mod keeping;
mod limits;
mod peak;
mod proposal;
mod proposing;
mod renaming;
mod rule_text;
mod small;
mod smaller;
mod smallest;
mod staying;
mod stores;
mod ways;

pub use beside::{Pair, pairs_beside, staying_pair};
pub use diagnosis::{Census, Counted, Diagnosis, Judged, Throng, Unlowered, Verdict, diagnose};
pub use draft_text::sign;
pub use keeping::kept_alone;
pub use limits::{MAX_LOOKED_AT, MAX_PROPOSALS, MAX_TOLD_STEPS};
pub use peak::Peak;
pub use proposal::Proposal;
pub use proposing::proposals;
pub use rule_text::{NamedProgram, ToldRule, told_rule};
pub use small::SmallStores;
pub use ways::Ways;
