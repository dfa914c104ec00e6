//! The command `chrrep node`: a node over a folder, from its words to its exit status.
//!
//! It ends with 0 where its input has ended, 1 where the program is refused, 2 for words that ask for what can't be
//! had, 3 where the folder, the input or the output has failed and 4 for want of memory.
#![tactic(auto)]

mod failure;
mod folder;
mod following;
mod program;
mod session;
mod words;

pub use session::{is_asked, start_node};
