//! What is wrong with a program text, where, and what would be right, told to a person.
#![tactic(auto)]

mod cause;
mod clause;
mod columns;
mod declaring;
mod fault_text;
mod faults;
mod finding;
mod foreign;
mod limits;
mod line;
mod misnaming;
mod names;
mod naming;
mod part;
mod place;
mod rule;
mod span;
mod syntax;
mod token;
mod word;

pub use columns::{ColumnNames, columns_in, columns_of};
pub use fault_text::{Note, bad_spans, explain_text, faults_told, notes_of};
pub use faults::{BadClause, TextFaults, text_faults, texts_have_one_list};
pub use limits::MAX_TOLD_FAULTS;
pub use line::{line_end, line_start, push_line, shown};
pub use misnaming::{ColumnFault, column_faults, push_column_faults};
pub use names::{ANONYMOUS, Names, RuleNames};
pub use part::{push_number, push_text, push_word};
pub use place::{Place, place_of, place_outside, places_are_outside};
pub use span::{Span, rule_span};
