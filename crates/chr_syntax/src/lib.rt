//! From the bytes of a program text to its clauses, as they are written.
#![tactic(auto)]

mod bytes;
mod clause;
mod fault;
mod form;
mod grammar;
mod reading;
mod split;
mod token;

pub use bytes::{next_clause, without_comments};
pub use clause::{Comparator, RawAtom, RawClause, RawComparison, RawRule, RawSymbol, RawTerm};
pub use fault::{ClauseFault, RestFault};
pub use grammar::{
    clauses_are_parted, clauses_have_one_form, comments_are_erased, written_tokens_are_read,
};
pub use reading::{clause_in, rest_fault};
pub use token::{PlacedToken, Sign, Token, placed_tokens};
