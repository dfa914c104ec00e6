//! The sorts of a program's positions: which values it compares with which, how, and with which constants.
//!
//! A position is a symbol with an argument number. [`finest_sorts`] finds the finest sorts that fit the program's
//! rules, with the least kinds and constants, and [`lists::lists_at`] the lists of values at a sort. Nothing here lists
//! the sorted cases of an overlap; what they are is defined in `specs/`, and [`laws::combinations`] says what their
//! lists of values are worth.
#![tactic(auto)]

mod classes;
mod combinations;
mod gather;
mod join;
mod kind;
pub mod laws;
pub mod lists;
mod notes;
mod sorting;
mod weave;

pub use classes::class_sorts;
pub use combinations::{has_more_combinations, visit_combinations};
pub use kind::Kind;
pub use sorting::{Sorting, finest_sorts};
