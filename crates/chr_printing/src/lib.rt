//! The text of a store that is kept in pools: it is written from the rows of their tables, by several threads where
//! there are many, and no list of the atoms is made.
#![tactic(auto)]

mod flat;
mod flats;
mod pools;
mod portions;
mod turns;
mod writing;

pub use pools::push_text;
