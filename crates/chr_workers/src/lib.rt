//! Boards whose pools are rested by several threads: the pool is leased out in parts, workers claim these one after
//! another, and what came of them goes back.
//!
//! What a worker does is known by types alone: a [`Rested`] has a store at rest that its part reaches. So the answer is
//! that of one thread, whatever the workers do, and whichever of them were started.
#![tactic(auto)]

pub mod claims;
mod gate;
mod parts;
mod rested;
mod resting;
mod returning;

pub use gate::{Gate, OpenGate};
pub use parts::{Parts, rest_parts};
pub use rested::Rested;
pub use resting::{rest_board, rest_in_parts};
pub use returning::recall_all;
