//! Replicas of an accepted program: what they hold, the events that change them, and why those that hold the same
//! operations come to the same store.
#![tactic(auto)]

mod agreeing;
mod board;
mod cutting;
mod declared;
pub mod laws;
mod leases;
pub mod limits;
mod refusal;
mod rested;

pub use agreeing::agree;
pub use board::{Board, NotPut};
pub use declared::{declares, declares_all};
pub use refusal::{Limit, Refusal};
pub use rested::{Destination, LeasedPart, Placed, RestedOps};
