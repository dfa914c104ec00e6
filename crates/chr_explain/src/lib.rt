//! Explanations of program texts: a verdict told to a person, in sentences or drawn.
#![tactic(auto)]

mod drawings;
mod explanation;
mod prose;
mod sentences;

pub use chr_diagnosis::{
    Census, Counted, Diagnosis, Judged, MAX_PROPOSALS, MAX_TOLD_STEPS, Peak, Proposal, Throng,
    Unlowered, Verdict, Ways, diagnose,
};
pub use chr_faults::{
    BadClause, MAX_TOLD_FAULTS, Place, TextFaults, explain_text, line_end, line_start, place_of,
    place_outside, places_are_outside, push_line, text_faults, texts_have_one_list,
};
pub use explanation::{Explanation, Manner, explain};
