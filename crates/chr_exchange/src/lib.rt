//! Messages between replicas: summaries and deltas, as text.
//!
//! A summary says which operations a replica holds, by ranges of their ids. A delta carries operations. Both are JSON
//! without white space. What is written is read back, and any other text of the same JSON value is read in the same
//! way.
#![tactic(auto)]

mod fault;
mod groups;
mod keys;
mod laws;
mod named;
mod order;
mod pieces;
mod reading;
mod writing;

pub use fault::MessageFault;
pub use laws::{lacked_ids_differ, messages_are_read_back};
pub use named::{declared_operation, declared_operations, named_atoms};
pub use pieces::{push_atoms, push_natural};
pub use reading::{delta_of, op_of, read_delta, read_summary, summary_of};
pub use writing::{delta_text, delta_text_1, summary_text};
