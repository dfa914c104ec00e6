//! Rows that are found by a hash, or by a hash and a range of values.
#![tactic(auto)]

pub mod hashes;
pub mod ranges;
mod slots;
