//! A case that fails, as text.

use crate::prose::Prose;
use crate::sentences::overlap_text::{ToldOverlap, told_overlap};
use chr_base::bag::Bag;
use chr_base::derivation::{Derivation, Step};
use chr_base::program::Program;
use chr_diagnosis::{NamedProgram, Peak, Proposal, Ways, told_rule};
use chr_faults::Names;
use chr_join::Failure;
use chr_overlaps::Overlap;
use std::alloc::{AllocError, Global};

/// What can be done of any case.
const ADVICE: &str =
    "Add a rule that takes one end to the other, or write a guard under which only one of the two steps is possible.";

/// What can be done of a case in which two facts compete for a third one.
const COMPETITION: &str =
    "Two facts want one that is there once: let it name which, or tell by a number who comes first ('Reservations' in docs/GUIDE.md).";

/// What is told where nothing is proposed.
const NO_CHANGE: &str = "No change of one rule was found with which the program is accepted.";

/// Adds what a step does, and the store that it leaves.
fn push_step(alloc: Global, out: &mut Prose, source: NamedProgram<'_>, step: &Step, store: &Bag) {
    if let Some(rule) = told_rule(source, step.rule as usize) {
        out.push_step(rule, &step.heads);
    }
    out.push_str(", and leaves ");
    out.push_store(alloc, source, store);
    out.push_str("\n")
}

/// Adds the steps of one side, a line for each, and its end.
fn push_side(
    alloc: Global,
    out: &mut Prose,
    source: NamedProgram<'_>,
    side: &Derivation,
    stores: &[Bag],
    end: &Bag,
) {
    for (i, (step, store)) in side.steps.iter().zip(stores.iter()).enumerate() {
        out.push_number("  ", usize::saturating_add(i, 1) as u64, ". ");
        push_step(alloc, out, source, step, store);
    }
    let more = side.steps.len().saturating_sub(stores.len());
    if 0 < more {
        out.push_number("  and ", more as u64, " steps more\n");
    }
    out.push_str("  end: ");
    out.push_store(alloc, source, end);
    out.push_str("\n")
}

/// Adds values behind commas, where there are some.
fn push_listed(out: &mut Prose, values: Prose) {
    match values.finish() {
        Ok(values) => if let Some(values) = values.as_str().strip_prefix(", ") {
            out.push_text("Values with which they disagree: ", values, "\n");
        },
        Err(_) => out.lose(),
    }
}

/// Adds the values of the variables of both rules, where they have some.
fn push_values(alloc: Global, out: &mut Prose, told: ToldOverlap<'_>, failure: &Failure) {
    let mut values = Prose::new(alloc);
    if let Some(step) = failure.left.steps.first() {
        values.push_values(told.first, &step.heads);
    }
    if let Some(step) = failure.right.steps.first() {
        values.push_values(told.second, &step.heads);
    }
    push_listed(out, values);
}

/// Adds the store of a case that fails, and both ways from it.
fn push_ways(alloc: Global, out: &mut Prose, source: NamedProgram<'_>, ways: &Ways) {
    let failure = &ways.failure;
    out.push_str("The store: ");
    out.push_store(alloc, source, &failure.left.start);
    out.push_str("\nOne way:\n");
    push_side(
        alloc,
        out,
        source,
        &failure.left,
        &ways.left,
        &failure.left_end,
    );
    out.push_str("The other way:\n");
    push_side(
        alloc,
        out,
        source,
        &failure.right,
        &ways.right,
        &failure.right_end,
    )
}

/// Adds the rules of a case that fails, and both ways of it.
fn push_case(
    alloc: Global,
    out: &mut Prose,
    told: ToldOverlap<'_>,
    source: NamedProgram<'_>,
    ways: &Ways,
) {
    told.push_rules(alloc, out);
    told.push_matched(alloc, out);
    push_values(alloc, out, told, &ways.failure);
    push_ways(alloc, out, source, ways)
}

/// Adds an overlap as a check writes it.
fn push_overlap(out: &mut Prose, overlap: &Overlap) {
    out.push_number("  rules ", u64::from(overlap.first), " ");
    out.push_number("", u64::from(overlap.second), "; matching (");
    for (place, entry) in overlap.matching.iter().enumerate() {
        let before = if place == 0 { "" } else { "," };
        out.push_number(before, u64::from(*entry), "");
    }
    out.push_str(")")
}

/// Adds what a check writes of the first case that fails.
fn push_first(alloc: Global, out: &mut Prose, program: &Program, failure: &Failure) {
    out.push_str("A check tells of the first case:\n");
    push_overlap(out, &failure.overlap);
    out.push_str("; store ");
    out.push_plain_store(alloc, program, &failure.left.start);
    out.push_str("; left ");
    out.push_plain_store(alloc, program, &failure.left_end);
    out.push_str("; right ");
    out.push_plain_store(alloc, program, &failure.right_end);
    out.push_str("\n")
}

/// Tells of a case whose sides end in different stores: of the smallest one that was found.
pub(crate) fn push_peak(alloc: Global, out: &mut Prose, names: &Names, peak: &Peak) {
    let program = peak.weighed.program();
    let source = NamedProgram { program, names };
    let Some(told) = told_overlap(source, &peak.shown().failure.overlap) else {
        return;
    };
    push_case(alloc, out, told, source, peak.shown());
    if peak.smaller.is_some() {
        push_first(alloc, out, program, &peak.first.failure);
    }
    out.push_str("Two replicas that took these rules in another order would disagree for ever.\n")
}

/// Whether two facts compete for a third one in the case that is shown.
fn is_competition(names: &Names, peak: &Peak) -> bool {
    let program = peak.weighed.program();
    let source = NamedProgram { program, names };
    match told_overlap(source, &peak.shown().failure.overlap) {
        Some(told) => told.is_competition(),
        None => false,
    }
}

/// What a person can do where a case fails, but for what is proposed.
pub(crate) fn advice_of(
    alloc: Global,
    names: &Names,
    peak: &Peak,
    proposals: &[Proposal],
) -> Result<Vec<&'static str>, AllocError> {
    let mut advice = Vec::new(alloc);
    advice.push(ADVICE)?;
    if is_competition(names, peak) {
        advice.push(COMPETITION)?;
    }
    if proposals.is_empty() {
        advice.push(NO_CHANGE)?;
    }
    Ok(advice)
}
