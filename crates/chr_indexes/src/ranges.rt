//! Rows that are found by a hash and a range of values.
//!
//! Each row stands in the chain of its slot, the newest first. A look-up skips a row together with many that stand
//! below it, where none of their values lies in the range. Rows with two values each are found by a range of either.
//!
//! A row is pushed with a 32-bit hash and a value, and its number is how many were pushed before it. A dead row keeps
//! its number. Contracts see the hashes and values of the live rows alone: chains, slots, links and bounds are private.

mod chain;
mod crossing;
mod index;
mod range;
mod row;

pub use crossing::Crossing;
pub use index::Index;
pub use range::Range;
