//! A node that answers lines: what each asks is answered over what the node holds, and nothing that it was told is
//! answered before its disk has it.
//!
//! Lines come in batches. The tells of a batch are staged, one commit puts them all on the disk, and then the batch is
//! answered, line by line.
#![tactic(auto)]

mod folder;
mod machine;
mod replies;
mod talk;

pub use folder::{Alone, Folder};
pub use machine::NodeMachine;
pub use talk::Talk;
