//! What the tests of several crates share: atoms, programs and stores that are given as texts, and numbers that look
//! random.
//!
//! Nearly all functions here promise nothing, so that the tests which call them are proved fast. What may fail answers
//! a `Result` or an `Option`, which a test expects.
#![tactic(auto)]

pub mod atoms;
pub mod random;
pub mod texts;
