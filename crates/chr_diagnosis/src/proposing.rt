//! What is proposed of a case that fails.
ghost use Rattle.std.specs.Prelude.{IfOk};
ghost use Rattle.std.specs.List.{All};
ghost use Rattle.chr_diagnosis.specs.Proposals.{IsProposal};

use crate::diagnosis::Diagnosis;
use crate::draft::{Draft, candidates};
use crate::draft_text::drafts_text;
use crate::limits::{MAX_PROPOSALS, MAX_TRIES};
use crate::peak::Peak;
use crate::proposal::{Proposal, Try, accepted_of};
use crate::rule_text::{NamedProgram, told_rule};
use crate::small::SmallStores;
use chr_faults::{Names, rule_span};
use chr_join::Coverage;
use std::alloc::{AllocError, Global};
use std::thread::Threads;

/// Adds what may stand in place of the rule of this number, that which makes it fire on equal columns alone where
/// `narrow`, else the others.
fn push_tries(
    alloc: Global,
    tries: &mut Vec<Try>,
    text: &[u8],
    source: NamedProgram<'_>,
    number: usize,
    narrow: bool,
) -> Result<(), AllocError> {
    let Some(told) = told_rule(source, number) else {
        return Ok(());
    };
    let Some(span) = rule_span(alloc, text, number)? else {
        return Ok(());
    };
    let candidates = candidates(alloc, told.rule)?;
    for drafts in candidates.iter().take(MAX_TRIES) {
        if !drafts.is_empty() && are_narrow(drafts) == narrow {
            let rules = drafts_text(alloc, told, drafts)?;
            push_new(
                tries,
                Try {
                    rule: number,
                    from: span.from,
                    to: span.to,
                    rules,
                    is_narrow: narrow,
                },
            )?;
        }
    }
    Ok(())
}

/// Adds what is to be tried, where it isn't there.
fn push_new(tries: &mut Vec<Try>, one: Try) -> Result<(), AllocError> {
    for other in tries.iter() {
        if other.from == one.from && other.rules.as_str() == one.rules.as_str() {
            return Ok(());
        }
    }
    tries.push(one)?;
    Ok(())
}

/// Whether one of them fires only where two columns are equal, of which the rule compared none.
fn are_narrow(drafts: &[Draft]) -> bool {
    for draft in drafts {
        if draft.is_narrow {
            return true;
        }
    }
    false
}

/// The numbers of the rules that lead to two ends, in the case that is shown and in the first one.
fn numbers_of(alloc: Global, peak: &Peak) -> Result<Vec<usize>, AllocError> {
    let shown = &peak.shown().failure.overlap;
    let first = &peak.first.failure.overlap;
    let mut numbers = Vec::new(alloc);
    for number in [shown.first, shown.second, first.first, first.second] {
        let number = number as usize;
        if !numbers.contains(&number) {
            numbers.push(number)?;
        }
    }
    Ok(numbers)
}

/// What may stand in place of one of the rules that lead to two ends.
fn tries_of(alloc: Global, text: &[u8], peak: &Peak) -> Result<Vec<Try>, AllocError> {
    let program = peak.weighed.program();
    let names = Names::of(alloc, text, program)?;
    let source = NamedProgram {
        program,
        names: &names,
    };
    let numbers = numbers_of(alloc, peak)?;
    let mut tries = Vec::new(alloc);
    for number in &numbers {
        push_tries(alloc, &mut tries, text, source, *number, false)?;
    }
    for number in &numbers {
        push_tries(alloc, &mut tries, text, source, *number, true)?;
    }
    Ok(tries)
}

/// What is proposed of a case that fails.
fn peak_proposals(
    rt: &(impl Threads + Sync),
    alloc: Global,
    text: &[u8],
    coverage: Coverage,
    peak: &Peak,
) -> Result<Vec<Proposal>, AllocError>
    ensures { IfOk result (λ v. All (IsProposal coverage text.now) v.items) }
{
    let tries = tries_of(alloc, text, peak)?;
    let small = SmallStores::of(alloc, peak)?;
    let mut proposals = accepted_of(rt, alloc, text, coverage, &small, tries)?;
    proposals.sort_by_key(|proposal| proposal.rank)?;
    proposals.truncate(MAX_PROPOSALS);
    Ok(proposals)
}

/// Rules with which a text is accepted of which a case fails, `MAX_PROPOSALS` at most, those first with which fewer
/// small stores stay; none where memory is refused.
pub fn proposals(
    rt: &(impl Threads + Sync),
    alloc: Global,
    text: &[u8],
    coverage: Coverage,
    diagnosis: &Diagnosis,
) -> Vec<Proposal>
    ensures { All (IsProposal coverage text.now) result.items }
{
    let Diagnosis::Fails(peak) = diagnosis else {
        return Vec::new(alloc);
    };
    match peak_proposals(rt, alloc, text, coverage, peak) {
        Ok(proposals) => proposals,
        Err(_) => Vec::new(alloc),
    }
}
