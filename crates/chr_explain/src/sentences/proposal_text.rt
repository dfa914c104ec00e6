//! Proposals, as text.

use crate::prose::Prose;
use chr_base::bag::Bag;
use chr_diagnosis::{NamedProgram, Peak, Proposal, SmallStores, kept_alone};
use chr_faults::Names;
use chr_join::Coverage;
use std::alloc::{AllocError, Global};

/// Adds rules, each in its line.
fn push_lines(out: &mut Prose, rules: &str) {
    out.push_str("  ");
    for c in rules.chars() {
        out.push(c);
        if c == '\n' {
            out.push_str("  ");
        }
    }
    out.push_str("\n")
}

/// What stands before the first proposal.
fn beginning(coverage: Coverage) -> &'static str {
    match coverage {
        Coverage::Joint => "The program is accepted",
        Coverage::Sorted => "With --wide the program is accepted",
    }
}

/// What stands before a store that one proposal alone keeps, by whether an atom of it is there twice.
fn kept_as(copies: bool) -> &'static str {
    if copies {
        "Kept twice by this one alone: "
    } else {
        "Kept by this one alone: "
    }
}

/// What is told of a proposal that keeps no such store.
const NONE_KEPT: &str = "Of the small stores that were tried none is kept by this one alone.";

/// What is looked at of a case that fails, and proposed of it.
#[derive(Clone, Copy)]
struct Choice<'a> {
    /// The names in the text of the program.
    names: &'a Names,
    peak: &'a Peak,
    /// The small stores among which one is looked for that a proposal alone keeps.
    small: &'a SmallStores,
    /// All that are proposed.
    proposals: &'a [Proposal],
}

/// What is told of a store that one proposal alone keeps.
fn kept_text(
    alloc: Global,
    choice: Choice<'_>,
    store: &Bag,
    copies: bool,
) -> Result<String, AllocError> {
    let program = choice.peak.weighed.program();
    let source = NamedProgram {
        program,
        names: choice.names,
    };
    let mut sentence = Prose::new(alloc);
    sentence.push_str(kept_as(copies));
    sentence.push_store(alloc, source, store);
    sentence.finish()
}

/// Adds the smallest store that a proposal alone keeps, where there is one.
fn push_kept(
    alloc: Global,
    kept: &mut Vec<String>,
    choice: Choice<'_>,
    proposal: &Proposal,
    copies: bool,
) -> Result<(), AllocError> {
    let found = kept_alone(
        alloc,
        choice.peak,
        choice.small,
        choice.proposals,
        proposal,
        copies,
    )?;
    if let Some(store) = found {
        kept.push(kept_text(alloc, choice, &store, copies)?)?;
    }
    Ok(())
}

/// Adds a sentence to others.
fn push_sentence(
    alloc: Global,
    sentences: &mut Vec<String>,
    sentence: &str,
) -> Result<(), AllocError> {
    sentences.push(String::from_str(alloc, sentence)?)?;
    Ok(())
}

/// What a proposal alone keeps.
fn kept_by(
    alloc: Global,
    choice: Choice<'_>,
    proposal: &Proposal,
) -> Result<Vec<String>, AllocError> {
    let mut kept = Vec::new(alloc);
    push_kept(alloc, &mut kept, choice, proposal, false)?;
    push_kept(alloc, &mut kept, choice, proposal, true)?;
    if kept.is_empty() {
        push_sentence(alloc, &mut kept, NONE_KEPT)?;
    }
    Ok(kept)
}

/// What each of these proposals alone keeps.
pub(crate) fn kept_of(
    alloc: Global,
    names: &Names,
    peak: &Peak,
    proposals: &[Proposal],
) -> Result<Vec<Vec<String>>, AllocError> {
    let mut all = Vec::new(alloc);
    if proposals.is_empty() {
        return Ok(all);
    }
    let small = SmallStores::of(alloc, peak)?;
    let choice = Choice {
        names,
        peak,
        small: &small,
        proposals,
    };
    for proposal in proposals {
        all.push(kept_by(alloc, choice, proposal)?)?;
    }
    Ok(all)
}

/// Adds a proposal, and what it alone keeps.
fn push_proposal(out: &mut Prose, proposal: &Proposal, kept: &[String]) {
    out.push_number(" with this in place of rule ", proposal.rule as u64, ":\n");
    push_lines(out, proposal.rules.as_str());
    for sentence in kept {
        out.push_str(sentence.as_str());
        out.push_str("\n");
    }
}

/// Tells with which rules a program is accepted by these cases, and what each of them alone keeps.
pub(crate) fn push_proposals(
    out: &mut Prose,
    coverage: Coverage,
    proposals: &[Proposal],
    kept: &[Vec<String>],
) {
    for (i, (proposal, kept)) in proposals.iter().zip(kept.iter()).enumerate() {
        out.push_str(if i == 0 { beginning(coverage) } else { "Or" });
        push_proposal(out, proposal, kept);
    }
}
