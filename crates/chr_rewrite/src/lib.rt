//! Pools, which are stores in which rules are applied, resting them, and derivations step by step.
#![tactic(auto)]

mod choose;
mod columns;
mod edits;
pub mod laws;
pub mod list;
pub mod plain;
pub mod pool;
pub mod replay;
pub mod resting;
