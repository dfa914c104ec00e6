//! Confluence: what it is, and why it can be told from finitely many cases. Nothing here computes: the definitions are
//! in `specs/`, and each law is a function whose contract is the law.
#![tactic(auto)]

pub mod laws;
pub mod listing;
pub mod sorted_laws;
