//! Command lines of JSON, read as commands by their shape alone.
//!
//! A line is one JSON value in at most [`MAX_LINE`] bytes. A tell without white space and escapes is read straight from
//! its bytes. What a command's names and replicas mean is left to the caller: no program is looked at here.
#![tactic(auto)]

mod atom;
mod comma;
mod command;
mod compact;
mod delta;
mod fault;
mod limits;
mod line;
mod message;
mod operation;
mod piece;
mod summary;
mod value;

pub use atom::{Arguments, RawAtom, atoms};
pub use chr_base::limits::MAX_OPERATION;
pub use command::{Command, DeltaVersion, command_texts_are_said, commands_are_read};
pub use delta::operations_in;
pub use fault::LineFault;
pub use limits::{MAX_LINE, MAX_ORIGIN};
pub use line::{is_blank, read_line, value_in};
pub use message::message_texts_are_read;
pub use operation::{RawOp, operation_in};
pub use summary::ranges_in;
pub use value::{elements, is_string};
