//! What a pool is made of that rests in near linear time: atoms in tables by symbol and number of arguments, with
//! indexes, and fresh atoms.
//!
//! Some atoms are at rest, and sit in rows; the others are fresh. A step takes a fresh atom and looks for its partners
//! in the rows by plans. Where it has some, the rule fires; where it has none, the atom joins the rows.
#![tactic(auto)]

mod arranging;
mod candidates;
pub mod columns;
mod everywhere;
mod firing;
mod groups;
mod instances;
pub mod joint;
mod listing;
mod making;
mod own;
mod removing;
mod rested;
pub mod rows;
mod same;
mod settle;
mod stepping;
mod taking;
