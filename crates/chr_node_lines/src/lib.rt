//! The words of a node: what a line of JSON asks of it, in atoms of its program, and the text of its reply.
#![tactic(auto)]

mod fault;
mod reply;
mod request;
mod values;
mod word;

pub use fault::Refusal;
pub use reply::{FileSize, LeftFile, Reply, Status, push_reply};
pub use request::{Request, request_of};
