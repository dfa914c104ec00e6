//! A diagnosis in sentences.
mod beside_text;
mod crowd_text;
mod judged_text;
mod keys;
mod limits;
mod overlap_text;
mod pairs;
mod peak_text;
mod proposal_text;
mod symbol_text;
mod telling;
mod told;
mod weighing_text;
mod weight_text;

pub(crate) use crowd_text::{columns_text, has_head, push_column};
pub(crate) use pairs::{ToldPair, pairs_of, push_numbers};
pub(crate) use symbol_text::push_symbol;
pub(crate) use telling::told_text;
pub(crate) use told::Told;
