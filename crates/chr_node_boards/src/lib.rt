//! Nodes whose operations a replica's board holds: what they show.
//!
//! A node of `chr_node` holds a set of operations. Here the set is a board's, which can be brought to rest, so that the
//! node shows a store: the one normal form of what its files tell.
#![tactic(auto)]

mod board;
mod calls;
mod laws;
mod showing;

pub use board::NodeBoard;
pub use laws::{acknowledged_are_shown, shown_stores_agree};
pub use showing::show;
