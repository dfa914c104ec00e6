//! Rules with which a refused program is accepted.
ghost use Rattle.std.specs.Prelude.{◌≡◌, ◌++◌, ◌≤◌, IfOk, IfSome, OnOk, length, take, drop};
ghost use Rattle.std.specs.List.{All};
ghost use Rattle.chr_weights.specs.WeighedPrograms.{program_of};
ghost use Rattle.chr_join.specs.AcceptedPrograms.{program_in};
ghost use Rattle.chr_diagnosis.specs.Verdicts.{IsAcceptedAs, IsAcceptedText};
ghost use Rattle.chr_diagnosis.specs.Proposals.{IsProposal};

use crate::limits::{MAX_FOUND, MAX_SMALL_STORES};
use crate::small::SmallStores;
use chr_base::program::Program;
use chr_join::{Accepted, Cause, Coverage, accept};
use chr_read::{ReadFault, read};
use chr_weights::{Weighed, weigh};
use std::alloc::{AllocError, Global};
use std::thread::Threads;

/// Rules to be tried in place of one of a text's clauses.
#[derive(Drop)]
pub(crate) struct Try {
    pub(crate) rule: usize,
    pub(crate) from: usize,
    pub(crate) to: usize,
    pub(crate) rules: String,
    /// Whether they fire only where two columns are equal, of which the rule compared none.
    pub(crate) is_narrow: bool,
}

/// Rules to be pasted into a text in place of one of its clauses.
#[derive(Drop)]
pub struct Proposal {
    /// The number of the rule in whose place they stand, counted from 1.
    pub rule: usize,
    /// How many bytes of the text stand before its clause.
    pub from: usize,
    /// How many bytes of the text stand before the end of its clause.
    pub to: usize,
    /// The rules, each in its line.
    pub rules: String,
    /// The order in which proposals are told, the least first: by how few small stores stay, and behind all others
    /// those that fire only where two columns are equal, of which the rule compared none.
    pub rank: usize,
    /// The program with them.
    pub accepted: Accepted,
}

/// A program that lowers, where it is accepted.
fn accepted_weighed(
    rt: &(impl Threads + Sync),
    alloc: Global,
    weighed: Weighed,
    coverage: Coverage,
) -> Result<Option<Accepted>, AllocError>
    ensures { IfOk result (λ found. IfSome found (IsAcceptedAs coverage (program_of weighed))) }
{
    match accept(rt, alloc, weighed, coverage) {
        Ok(accepted) => Ok(Some(accepted)),
        Err(refused) => match refused.cause {
            Cause::Memory => Err(AllocError),
            _ => Ok(None),
        },
    }
}

/// A program, where it lowers and is accepted.
fn accepted_program(
    rt: &(impl Threads + Sync),
    alloc: Global,
    program: Program,
    coverage: Coverage,
) -> Result<Option<Accepted>, AllocError>
    ensures { IfOk result (λ found. IfSome found (IsAcceptedAs coverage program)) }
{
    match weigh(program) {
        Ok(weighed) => accepted_weighed(rt, alloc, weighed, coverage),
        Err(_) => Ok(None),
    }
}

/// The program that a text is, where it is one that is accepted.
fn accepted_text(
    rt: &(impl Threads + Sync),
    alloc: Global,
    text: &[u8],
    coverage: Coverage,
) -> Result<Option<Accepted>, AllocError>
    ensures { IfOk result (λ found. IfSome found (IsAcceptedText coverage text.now)) }
{
    match read(alloc, text) {
        Ok(program) => accepted_program(rt, alloc, program, coverage),
        Err(ReadFault::Memory) => Err(AllocError),
        Err(_) => Ok(None),
    }
}

/// The text with these rules in place of the bytes from one place up to another.
fn changed_text(
    alloc: Global,
    text: &[u8],
    from: usize,
    to: usize,
    rules: &str,
) -> Result<Vec<u8>, AllocError>
    requires from { from ≤ length text.now }
    requires to { to ≤ length text.now }
    ensures { IfOk result (λ v. v.items ≡ take from text.now ++ rules.now ++ drop to text.now) }
{
    let mut changed = Vec::from_slice(alloc, &text[..from])?;
    changed.extend_from_slice(rules.as_bytes())?;
    changed.extend_from_slice(&text[to..])?;
    Ok(changed)
}

/// What was tried, where the text with it is accepted.
fn tried(
    rt: &(impl Threads + Sync),
    alloc: Global,
    text: &[u8],
    coverage: Coverage,
    small: &SmallStores,
    one: Try,
) -> Result<Option<Proposal>, AllocError>
    ensures { IfOk result (λ found. IfSome found (IsProposal coverage text.now)) }
{
    let Try {
        rule,
        from,
        to,
        rules,
        is_narrow,
    } = one;
    if text.len() < from || text.len() < to {
        return Ok(None);
    }
    let changed = changed_text(alloc, text, from, to, rules.as_str())?;
    let Some(accepted) = accepted_text(rt, alloc, &changed, coverage)? else {
        return Ok(None);
    };
    let stays = small.count(alloc, accepted.weighed())?;
    let before = if is_narrow { MAX_SMALL_STORES } else { 0 };
    let rank = stays.saturating_add(before);
    Ok(Some(Proposal {
        rule,
        from,
        to,
        rules,
        rank,
        accepted,
    }))
}

/// Adds what was tried, where the text with it is accepted.
fn push_tried(
    rt: &(impl Threads + Sync),
    alloc: Global,
    text: &[u8],
    coverage: Coverage,
    small: &SmallStores,
    proposals: &mut Vec<Proposal>,
    one: Try,
) -> Result<(), AllocError>
    requires { All (IsProposal coverage text.now) proposals.old.items }
    ensures { OnOk result (All (IsProposal coverage text.now) proposals.new.items) }
{
    if let Some(proposal) = tried(rt, alloc, text, coverage, small, one)? {
        proposals.push(proposal)?;
    }
    Ok(())
}

/// Those of the tries with which the text is accepted, `MAX_FOUND` at most.
pub(crate) fn accepted_of(
    rt: &(impl Threads + Sync),
    alloc: Global,
    text: &[u8],
    coverage: Coverage,
    small: &SmallStores,
    tries: Vec<Try>,
) -> Result<Vec<Proposal>, AllocError>
    ensures { IfOk result (λ v. All (IsProposal coverage text.now) v.items) }
{
    let mut proposals = Vec::new(alloc);
    for one in tries {
        if proposals.len() < MAX_FOUND {
            push_tried(rt, alloc, text, coverage, small, &mut proposals, one)?;
        }
    }
    Ok(proposals)
}
