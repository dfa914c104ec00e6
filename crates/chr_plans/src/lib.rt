//! Plans of rules: how the partners of an active atom are found, head by head.
//!
//! An active atom stands at one head place of a rule, an occurrence of its symbol. A plan says in which order its
//! partners at the other places are looked for, and by which of their arguments: those that are constants, or that
//! stand in a head found before. So each look-up is by a key, and its rows come from an index. What a look-up gives
//! is only a candidate: whether the heads are an instance is asked of the rule.
#![tactic(auto)]

pub mod actives;
pub mod constants;
pub mod key;
mod missing;
pub mod plan;
pub mod planning;
pub mod react;
pub mod rows;
pub mod search;
