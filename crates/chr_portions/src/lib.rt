//! Rows that are found by a hash and ranges of two values, in portions that are put in order where look-ups are slow.
//!
//! A row is pushed with a 32-bit hash and two values, and its number is how many were pushed before it. Its record
//! stands at a place, which is its rank: each look-up tells the wanted row of the greatest rank. Each record stands in
//! the chain of its slot, the greatest place first, and a look-up goes down this chain at first. Where that takes long,
//! records are put in order in portions, and each block of eight places gets bounds of its records, so that a look-up
//! skips blocks, and many blocks at once, that have nothing it looks for.
//!
//! No answer rests on portions being in order, nor on how far a look-up goes down a chain. Contracts see the hashes and
//! values of the live rows, and all ranks: records, chains and blocks are private.
#![tactic(auto)]

mod bounds;
mod chains;
mod cover;
mod entry;
mod index;
mod placed;
mod record;
mod search;
mod skips;

pub use index::Index;
