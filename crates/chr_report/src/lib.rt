//! Checks of a program, and runs over its command lines, from bytes to bytes.
#![tactic(auto)]

mod ahead;
mod between;
mod block;
mod blocks;
mod carriage;
mod coming;
mod gathering;
mod input;
mod judging;
mod keeping;
mod laws;
mod one_text;
mod promptly;
mod readers;
mod running;
mod serving;
mod sharing;
mod turning;
mod verdict;
mod wanted;
mod wire;

pub use chr_answers::{Refusal, answers_are_one, answers_exist, lines_are_the_input};
pub use chr_device::{RunFault, Settings, Style, Verb, Watched, WordsFault, read_words};
pub use chr_run::{Peer, Wire};
pub use input::program_text;
pub use keeping::read_input;
pub use laws::checks_begin_runs;
pub use one_text::{outputs_are_one, outputs_exist};
pub use running::{Status, run};
pub use serving::serve;
pub use wanted::Wanted;
pub use wire::Streams;
