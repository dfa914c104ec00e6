//! The verdict on a program.
ghost use Rattle.std.specs.Prelude.{◌≡◌, IfOk, IfErr, OnOk};
ghost use Rattle.chr_weights.specs.WeighedPrograms.{rules_in};
ghost use Rattle.chr_confluence.specs.Confluence.{Confluent};
ghost use Rattle.chr_join.specs.AcceptedPrograms.{weighed_of, coverage_of, cases_of};
ghost use Rattle.chr_join.specs.declared.coverage.Coverage.TheVariants.{Joint, Sorted};
ghost use Rattle.chr_join.specs.Verdicts.{IsAcceptedBy};
ghost use Rattle.chr_join.specs.Explanations.{IsRefusalBy, IfFails, ReplaysApart};

use crate::accepted::Accepted;
use crate::checking::check_rules;
use crate::coverage::Coverage;
use crate::lister::Lister;
use crate::once::{accepted_are_confluent, refused_are_not_confluent};
use crate::refused::{Cause, Refused};
use crate::settled::joining_rules;
use crate::totals::count_joint;
use chr_weights::Weighed;
use std::alloc::Global;
use std::thread::Threads;

/// The number of all joint cases, where all of them are joinable. Sorted cases are far fewer and are looked at first:
/// where all of them are joinable, the joint ones are too, and are only counted.
// Not put into its caller, whose frame would hold the room that this one takes.
#[inline(never)]
fn check_joint(rt: &(impl Threads + Sync), alloc: Global, weighed: &Weighed) -> Result<u64, Cause>
    ensures ok { IfOk result (IsAcceptedBy Joint (rules_in weighed.now)) }
    ensures err { IfErr result (IsRefusalBy Joint (rules_in weighed.now)) }
{
    let joining = joining_rules(rt, alloc, weighed)?;
    if joining >= weighed.program().rules().len() {
        return count_joint(rt, alloc, weighed);
    }
    let lister = Lister::new(alloc, weighed, Coverage::Joint, joining)?;
    check_rules(rt, alloc, weighed, &lister)
}

/// The number of all sorted cases, where all of them are joinable.
// Not put into its caller, whose frame would hold the room that this one takes.
#[inline(never)]
fn check_sorted(rt: &(impl Threads + Sync), alloc: Global, weighed: &Weighed) -> Result<u64, Cause>
    ensures ok { IfOk result (IsAcceptedBy Sorted (rules_in weighed.now)) }
    ensures err { IfErr result (IsRefusalBy Sorted (rules_in weighed.now)) }
{
    let lister = Lister::new(alloc, weighed, Coverage::Sorted, 0)?;
    check_rules(rt, alloc, weighed, &lister)
}

/// The number of all cases, where all of them are joinable.
fn judged(
    rt: &(impl Threads + Sync),
    alloc: Global,
    weighed: &Weighed,
    coverage: Coverage,
) -> Result<u64, Cause>
    ensures ok { IfOk result (IsAcceptedBy coverage (rules_in weighed.now)) }
    ensures err { IfErr result (IsRefusalBy coverage (rules_in weighed.now)) }
{
    match coverage {
        Coverage::Joint => check_joint(rt, alloc, weighed),
        Coverage::Sorted => check_sorted(rt, alloc, weighed),
    }
}

/// Accepts a program of which no case fails, of the cases that the coverage looks at. A case is a least store in which
/// two rules, or a rule twice, can fire on shared atoms. It fails where the plain derivations of its two sides end in
/// different stores (after Abdennadher, Frühwirth and Meuss 1999).
///
/// # Errors
///
/// The program is handed back with the first cause there is, by the order of overlaps, and of the cases in each: a case
/// that fails, with its two derivations; an overlap of more than 50,000 order types, or combinations of values of its
/// sorts; or want of memory.
pub fn accept(
    rt: &(impl Threads + Sync),
    alloc: Global,
    weighed: Weighed,
    coverage: Coverage,
) -> Result<Accepted, Refused>
    ensures program { IfOk result (λ a. weighed_of a ≡ weighed) }
    ensures coverage { IfOk result (λ a. coverage_of a ≡ coverage) }
    ensures accepted { IfOk result (λ a. IsAcceptedBy coverage (rules_in weighed) (cases_of a)) }
    ensures handed_back { IfErr result (λ e. e.weighed ≡ weighed) }
    ensures refused { IfErr result (λ e. IsRefusalBy coverage (rules_in weighed) e.cause) }
    ensures replays { IfErr result (λ e. IfFails e.cause (ReplaysApart (rules_in weighed))) }
    ensures confluent { OnOk result (Confluent (rules_in weighed)) }
    ensures not_confluent { IfErr result (λ e. IfFails e.cause (λ _. ¬ (Confluent (rules_in weighed)))) }
{
    accepted_are_confluent();
    refused_are_not_confluent();
    match judged(rt, alloc, &weighed, coverage) {
        Ok(cases) => match Accepted::new(alloc, weighed, coverage, cases) {
            Ok(accepted) => Ok(accepted),
            Err(failed) => Err(Refused {
                weighed: failed.value,
                cause: Cause::Memory,
            }),
        },
        Err(cause) => Err(Refused { weighed, cause }),
    }
}
