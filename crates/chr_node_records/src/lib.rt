//! The records of a node's operations, written and read.
#![tactic(auto)]

mod laws;
mod record;

pub use laws::operation_texts_are_read;
pub use record::{operations_of_text, push_operation};
