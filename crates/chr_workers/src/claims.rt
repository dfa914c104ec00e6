//! Numbers that threads claim from one shared word: each number is claimed once, and none is left out.
//!
//! The word is stepped by one `fetch_add` for each claim, with no lock. Which numbers a seat drew is known in proofs
//! alone.

mod counter;
mod law;

pub use counter::{ClaimSeat, Claims};
