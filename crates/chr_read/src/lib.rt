//! The program of a text, and the text of a program.
#![tactic(auto)]

mod adding;
mod binding;
mod doubles;
mod fault;
mod faults;
mod grammar;
mod limits;
mod number;
mod progress;
mod reader;
mod resolve;
mod symbols;
mod writer;

pub use fault::{Fault, ReadFault};
pub use grammar::{
    meanings_have_programs, names_are_text, programs_come_back, texts_have_one_answer,
    variables_are_numbered,
};
pub use reader::{MAX_TEXT, read};
pub use writer::{push_pattern, push_rule, write};
