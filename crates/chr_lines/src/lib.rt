//! Command lines told to a person: which of them a run refuses, why and where, and what would be right.
#![tactic(auto)]

mod command_text;
mod heard;
mod json;
mod json_text;
mod limits;
mod lines;
mod lines_text;
mod mistake;
mod pieces;
mod places;
mod shape;
mod symbol_text;

pub use heard::{Heard, line_heard};
pub use limits::MAX_TOLD_LINES;
pub use lines_text::push_lines;
pub use mistake::{
    ArgumentPlace, Found, JsonFault, Mistake, NoCommand, NoJson, NoReplica, Undeclared, Wanted,
    Word,
};
