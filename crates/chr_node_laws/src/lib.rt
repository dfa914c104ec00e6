//! The laws of nodes that keep their facts in feeds and read each other's: what each of them holds after crashes,
//! restarts, retries and copies, and that they show one store.
#![tactic(auto)]

mod laws;

pub use laws::{feeds_keep_what_was_told, nodes_agree, origins_keep_apart};
