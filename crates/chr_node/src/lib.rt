//! A node that keeps its own facts: a set of operations over a feed that it alone writes, and over files that it takes
//! in.
//!
//! A tell is staged first, with others that are there; a commit puts the records of all of them on the disk by one
//! call. Only then may they be answered. Each run of a node writes a feed of its own, under an origin of its own. What
//! holds the operations, and what it makes of them, is a type parameter.
#![tactic(auto)]

mod fault;
mod holder;
mod node;
mod reading;
mod recovery;
mod staging;

pub use fault::{NodeFault, Refusal};
pub use holder::{Holder, Shower};
pub use node::{Node, TakenIn};
pub use recovery::crash_and_open;
