//! Weights under which each rule of a program lowers, or rules that show that there are none.
#![tactic(auto)]

mod cycle;
mod reweighing;
mod row;
mod search;
mod tableau;
mod weighing;

pub use cycle::Cycle;
pub use search::MAX_SEARCH_STEPS;
pub use weighing::{Weighing, find_weights};
