//! Overlaps of rules, and their cases.
#![tactic(auto)]

pub mod cases;
mod classes;
pub mod constants;
mod equal_sides;
mod fault;
mod instances;
mod listing;
mod numbered;
mod overlap;
mod sorted;
mod unify;

pub use equal_sides::has_equal_sides;
pub use fault::CaseFault;
pub use listing::{overlaps, overlaps_of};
pub use numbered::variables;
pub use overlap::Overlap;
pub use unify::Unified;
