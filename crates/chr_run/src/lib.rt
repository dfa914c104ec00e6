//! One loop that feeds a machine what a peer gives and sends the peer what it answers, whatever the manners of reading
//! and of sending are, and the machine.
#![tactic(auto)]

mod answering;
mod batch;
mod blocks;
mod machine;
mod one_read;
mod peer;
mod reading;
mod running;
mod sink;
mod sinks;
mod source;

pub use answering::answer;
pub use batch::Batch;
pub use blocks::{Anywhere, Blocks, Cut};
pub use machine::Machine;
pub use one_read::OneRead;
pub use peer::{Peer, Wire};
pub use running::{answer_at_end, answer_promptly};
pub use sink::Sink;
pub use sinks::{HoldsAll, SendsPromptly};
pub use source::Source;
