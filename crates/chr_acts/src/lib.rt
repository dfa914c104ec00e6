//! What is asked of a replica and what it answers, as plain data with equal copies; the calls that
//! carry it out on a board; and books: boards with journals of what was asked and answered.
#![tactic(auto)]

mod act;
mod acting;
mod book;
mod entry;
pub mod journals;
mod lists;
mod numbers;
mod reply;

pub use act::Act;
pub use acting::{carry_out, lacks, merge, settle, show, show_by, summary, tell};
pub use book::{Book, CallFault};
pub use entry::{Entry, Journal};
pub use lists::{LeaseList, OpList};
pub use reply::Reply;
