//! Terms, atoms, rules, programs and multisets of atoms of Constraint Handling Rules.
#![tactic(auto)]

pub mod atom;
pub mod bag;
pub mod derivation;
pub mod laws;
pub mod limits;
pub mod lists;
mod matching;
pub mod program;
pub mod rule;
mod runs;
pub mod term;
pub mod text;
mod values;
pub mod weight;

/// A value: a signed 64-bit whole number.
pub type Value = i64;
