//! Rows that are found by a hash. Each row stands in the chain of its slot, the newest first.
//!
//! A row is pushed with a 32-bit hash, and its number is how many were pushed before it. A dead row keeps its number. A
//! look-up that meets it takes it out of its chain, so a key that is overwritten again and again stays cheap. Contracts
//! see the hashes of the live rows alone: chains, slots and links are private.

mod chain;
mod index;
mod row;

pub use index::Index;
