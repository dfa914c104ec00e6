//! What is to be told of a text: why it is refused, or what was accepted.
ghost use Rattle.std.specs.Prelude.{◌≡◌, false, true, All, IfOk, None};
ghost use Rattle.chr_weights.specs.WeighedPrograms.{program_of, rules_in};
ghost use Rattle.chr_overlaps.specs.OverlapLists.{IsOverlapOf};
ghost use Rattle.chr_diagnosis.specs.Verdicts.{verdict_of};
ghost use Rattle.chr_join.specs.declared.refused.Cause.TheVariants.{Fails};
ghost use Rattle.chr_join.specs.declared.coverage.Coverage.{Coverage as CoverageValue};
ghost use Rattle.chr_join.specs.declared.coverage.Coverage.TheVariants.{Joint, Sorted};
ghost use Rattle.chr_base.specs.Programs.{rules_of};
ghost use Rattle.chr_join.specs.AcceptedPrograms.{cases_of, program_in};
ghost use Rattle.chr_join.specs.Verdicts.{IsAcceptedBy};
ghost use Rattle.chr_join.specs.Explanations.{IfFails, IsRefusalBy, ReplaysApart};
ghost use Rattle.chr_faults.specs.BadClauses.{IsRefused};
ghost use Rattle.chr_diagnosis.specs.Diagnoses.{AreCountedBy, IsDiagnosis, IsDiagnosisOf};
ghost use Rattle.chr_diagnosis.specs.working.Numbers.{AreNumbersBy, number_at};
ghost use Rattle.chr_diagnosis.specs.Judgements.{IsChosen, IsJudged, IsJudgedOf};

use crate::peak::{Peak, peak_of};
use chr_base::program::Program;
use chr_faults::{TextFaults, text_faults};
use chr_join::{Accepted, Cause, Coverage, Failure, Refused, TooManyTypes, accept, case_numbers};
use chr_overlaps::{Overlap, overlaps};
use chr_read::{ReadFault, read};
use chr_weighing::{Weighing, find_weights};
use chr_weights::{NotLowered, Weighed, weigh};
use std::alloc::{AllocError, Global};
use std::thread::Threads;

/// Whether a text is a program that is accepted.
#[derive(Clone, Copy, Debug, PartialEq, Eq)]
pub enum Verdict {
    Accepted,
    Refused,
}

/// A program with a rule that does not lower the weight.
#[derive(Drop)]
pub struct Unlowered {
    pub program: Program,
    /// The first such rule, with both weights.
    pub fault: NotLowered,
    /// Weights under which each rule lowers, or rules that show that there are none, where either is found.
    pub weighing: Weighing,
}

/// A program with an overlap of too many combinations of values.
#[derive(Drop)]
pub struct Throng {
    pub weighed: Weighed,
    /// The first such overlap.
    pub too_many: TooManyTypes,
}

/// An overlap, and the number of its joint cases, which is 0 where sorted ones were looked at.
#[derive(Drop)]
pub struct Counted {
    pub overlap: Overlap,
    pub cases: usize,
}

/// An accepted program, and all of its overlaps, in order.
#[derive(Drop)]
pub struct Census {
    pub accepted: Accepted,
    pub counts: Vec<Counted>,
}

/// What is to be told of a text.
#[derive(Drop)]
pub enum Diagnosis {
    /// The text is no program.
    Text(TextFaults),
    /// A rule does not lower the weight.
    NotLowered(Unlowered),
    /// Two rules, or a rule twice, lead one store to two ends.
    Fails(Peak),
    /// An overlap has too many combinations of values.
    TooManyCombinations(Throng),
    /// The program is accepted.
    Accepted(Census),
}

/// What is to be told of a text, and by which cases.
#[derive(Drop)]
pub struct Judged {
    pub diagnosis: Diagnosis,
    /// The cases that were looked at.
    pub coverage: Coverage,
    /// The first overlap of too many order types, for which sorted cases were looked at though none had asked for them.
    pub crowd: Option<TooManyTypes>,
}

impl Diagnosis {
    /// Whether the text is a program that is accepted.
    pub fn verdict(&self) -> Verdict
        ensures { result ≡ verdict_of self.now }
    {
        match self {
            Diagnosis::Accepted(_) => Verdict::Accepted,
            _ => Verdict::Refused,
        }
    }
}

/// The numbers of joint cases of these overlaps, each at its place, and none where sorted ones were looked at.
fn joint_numbers(
    rt: &(impl Threads + Sync),
    alloc: Global,
    accepted: &Accepted,
    overlaps: &[Overlap],
    coverage: Coverage,
) -> Result<Vec<Option<usize>>, AllocError>
    requires { All (IsOverlapOf (rules_of (program_in accepted.now))) overlaps.now }
    ensures { IfOk result (λ numbers.
        AreNumbersBy coverage (rules_of (program_in accepted.now)) overlaps.now numbers.items) }
{
    match coverage {
        Coverage::Joint => case_numbers(rt, alloc, accepted, overlaps),
        Coverage::Sorted => Ok(Vec::new(alloc)),
    }
}

/// An overlap with the number of its cases that stands at its place, 0 where none does.
fn counted_at(overlap: &Overlap, numbers: &[Option<usize>], place: usize) -> Counted
    ensures overlap { result.overlap ≡ overlap.now }
    ensures cases { result.cases ≡ number_at numbers.now place }
{
    let cases = match numbers.get(place) {
        Some(Some(number)) => *number,
        _ => 0,
    };
    Counted {
        overlap: overlap.copy(),
        cases,
    }
}

/// All overlaps with the numbers of their cases.
fn all_counted(
    rt: &(impl Threads + Sync),
    alloc: Global,
    accepted: &Accepted,
    coverage: Coverage,
) -> Result<Vec<Counted>, AllocError>
    ensures { IfOk result (λ v.
        AreCountedBy coverage (rules_of (program_in accepted.now)) v.items) }
{
    let overlaps = overlaps(alloc, accepted.weighed())?;
    let numbers = joint_numbers(rt, alloc, accepted, &overlaps, coverage)?;
    let mut counts = Vec::new(alloc);
    for (place, overlap) in overlaps.iter().enumerate() {
        counts.push(counted_at(overlap, &numbers, place))?;
    }
    Ok(counts)
}

/// What is to be told of a case that fails.
fn failing_diagnosis(
    alloc: Global,
    weighed: Weighed,
    failure: Failure,
    coverage: Coverage,
) -> Result<Diagnosis, AllocError>
    requires first { IsRefusalBy coverage (rules_in weighed) (Fails failure) }
    requires replays { ReplaysApart (rules_in weighed) failure }
    ensures { IfOk result (IsDiagnosisOf coverage (program_of weighed)) }
{
    match peak_of(alloc, weighed, failure) {
        Ok(peak) => Ok(Diagnosis::Fails(peak)),
        Err(_) => Err(AllocError),
    }
}

/// What is to be told of an accepted program.
fn accepted_diagnosis(
    rt: &(impl Threads + Sync),
    alloc: Global,
    accepted: Accepted,
    coverage: Coverage,
) -> Result<Diagnosis, AllocError>
    requires { IsAcceptedBy coverage (rules_of (program_in accepted)) (cases_of accepted) }
    ensures { IfOk result (IsDiagnosisOf coverage (program_in accepted)) }
{
    let counts = all_counted(rt, alloc, &accepted, coverage)?;
    Ok(Diagnosis::Accepted(Census { accepted, counts }))
}

/// What is to be told of a program that is refused by sorted cases.
fn sorted_refusal(alloc: Global, refused: Refused) -> Result<Diagnosis, AllocError>
    requires first { IsRefusalBy Sorted (rules_in refused.weighed) refused.cause }
    requires replays { IfFails refused.cause (ReplaysApart (rules_in refused.weighed)) }
    ensures { IfOk result (IsDiagnosisOf Sorted (program_of refused.weighed)) }
{
    let weighed = refused.weighed;
    match refused.cause {
        Cause::Fails(failure) => failing_diagnosis(alloc, weighed, failure, Coverage::Sorted),
        Cause::TooManyTypes(too_many) => {
            Ok(Diagnosis::TooManyCombinations(Throng { weighed, too_many }))
        }
        Cause::Memory => Err(AllocError),
    }
}

/// What is to be told of a program by sorted cases.
fn sorted_diagnosis(
    rt: &(impl Threads + Sync),
    alloc: Global,
    weighed: Weighed,
) -> Result<Diagnosis, AllocError>
    ensures { IfOk result (IsDiagnosisOf Sorted (program_of weighed)) }
{
    match accept(rt, alloc, weighed, Coverage::Sorted) {
        Ok(accepted) => accepted_diagnosis(rt, alloc, accepted, Coverage::Sorted),
        Err(refused) => sorted_refusal(alloc, refused),
    }
}

/// What is to be told of a program that is refused by joint cases: where these are too many, what the sorted ones say.
fn joint_refusal(
    rt: &(impl Threads + Sync),
    alloc: Global,
    refused: Refused,
) -> Result<Judged, AllocError>
    requires first { IsRefusalBy Joint (rules_in refused.weighed) refused.cause }
    requires replays { IfFails refused.cause (ReplaysApart (rules_in refused.weighed)) }
    ensures { IfOk result (IsJudgedOf false (program_of refused.weighed)) }
{
    let weighed = refused.weighed;
    match refused.cause {
        Cause::Fails(failure) => {
            let diagnosis = failing_diagnosis(alloc, weighed, failure, Coverage::Joint)?;
            Ok(Judged {
                diagnosis,
                coverage: Coverage::Joint,
                crowd: None,
            })
        }
        Cause::TooManyTypes(too_many) => {
            let diagnosis = sorted_diagnosis(rt, alloc, weighed)?;
            Ok(Judged {
                diagnosis,
                coverage: Coverage::Sorted,
                crowd: Some(too_many),
            })
        }
        Cause::Memory => Err(AllocError),
    }
}

/// What is to be told of a program by joint cases, or where these are too many by sorted ones.
fn joint_judged(
    rt: &(impl Threads + Sync),
    alloc: Global,
    weighed: Weighed,
) -> Result<Judged, AllocError>
    ensures { IfOk result (IsJudgedOf false (program_of weighed)) }
{
    match accept(rt, alloc, weighed, Coverage::Joint) {
        Ok(accepted) => {
            let diagnosis = accepted_diagnosis(rt, alloc, accepted, Coverage::Joint)?;
            Ok(Judged {
                diagnosis,
                coverage: Coverage::Joint,
                crowd: None,
            })
        }
        Err(refused) => joint_refusal(rt, alloc, refused),
    }
}

/// Which cases are looked at first.
#[tactic(auto, using(crate::proofs::Verdicts::chosen_wide, crate::proofs::Verdicts::chosen_joint))]
fn coverage_for(wide: bool) -> Coverage
    ensures { IsChosen wide result None }
{
    if wide {
        Coverage::Sorted
    } else {
        Coverage::Joint
    }
}

/// What is told by the cases that are looked at first.
fn at_once(diagnosis: Diagnosis, wide: bool) -> Judged
    ensures diagnosis { result.diagnosis ≡ diagnosis }
    ensures chosen { IsChosen wide result.coverage None }
    ensures crowd { result.crowd ≡ None }
{
    Judged {
        diagnosis,
        coverage: coverage_for(wide),
        crowd: None,
    }
}

/// What is to be told of a program by sorted cases alone.
fn sorted_judged(
    rt: &(impl Threads + Sync),
    alloc: Global,
    weighed: Weighed,
) -> Result<Judged, AllocError>
    ensures { IfOk result (IsJudgedOf true (program_of weighed)) }
{
    let diagnosis = sorted_diagnosis(rt, alloc, weighed)?;
    Ok(Judged {
        diagnosis,
        coverage: Coverage::Sorted,
        crowd: None,
    })
}

fn weighed_judged(
    rt: &(impl Threads + Sync),
    alloc: Global,
    weighed: Weighed,
    wide: bool,
) -> Result<Judged, AllocError>
    ensures { IfOk result (IsJudgedOf wide (program_of weighed)) }
{
    if wide {
        sorted_judged(rt, alloc, weighed)
    } else {
        joint_judged(rt, alloc, weighed)
    }
}

fn program_judged(
    rt: &(impl Threads + Sync),
    alloc: Global,
    program: Program,
    wide: bool,
) -> Result<Judged, AllocError>
    ensures { IfOk result (IsJudgedOf wide program) }
{
    let copy = program.copy(alloc)?;
    match weigh(program) {
        Ok(weighed) => weighed_judged(rt, alloc, weighed, wide),
        Err(fault) => {
            let weighing = find_weights(alloc, &copy);
            let unlowered = Diagnosis::NotLowered(Unlowered {
                program: copy,
                fault,
                weighing,
            });
            Ok(at_once(unlowered, wide))
        }
    }
}

/// What is wrong with a text that is no program.
fn text_diagnosis(alloc: Global, text: &[u8]) -> Result<Diagnosis, AllocError>
    requires { IsRefused text.now }
    ensures { (coverage : CoverageValue) → IfOk result (IsDiagnosis coverage text.now) }
{
    let faults = text_faults(alloc, text)?;
    Ok(Diagnosis::Text(faults))
}

/// What is to be told of a text: its first bad clauses; or of the program that it is, the first rule that does not
/// lower the weight, the first cause for which it is refused, or what was accepted: by sorted cases where `wide`, else
/// by joint ones, and where an overlap has too many of these, by sorted ones.
#[tactic(auto, using(crate::proofs::Verdicts::too_long_refused, crate::proofs::Verdicts::bad_refused))]
pub fn diagnose(
    rt: &(impl Threads + Sync),
    alloc: Global,
    text: &[u8],
    wide: bool,
) -> Result<Judged, AllocError>
    ensures { IfOk result (IsJudged wide text.now) }
{
    match read(alloc, text) {
        Ok(program) => program_judged(rt, alloc, program, wide),
        Err(ReadFault::Memory) => Err(AllocError),
        Err(ReadFault::TooLong) => {
            let diagnosis = text_diagnosis(alloc, text)?;
            Ok(at_once(diagnosis, wide))
        }
        Err(ReadFault::Bad { .. }) => {
            let diagnosis = text_diagnosis(alloc, text)?;
            Ok(at_once(diagnosis, wide))
        }
    }
}
