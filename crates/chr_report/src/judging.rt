//! Program texts that are judged.
ghost use Rattle.std.specs.Prelude.{◌≡◌, Ok, IfOk};
ghost use Rattle.chr_weights.specs.WeighedPrograms.{program_of};
ghost use Rattle.chr_join.specs.AcceptedPrograms.{weighed_of, coverage_of, cases_of};
ghost use Rattle.chr_read.specs.ProgramTexts.{IsAnswer};
ghost use Rattle.chr_report.specs.working.Judged.{IsJudged, IsJudgedText};

use crate::verdict::{fault_line, not_lowered_line, refusal_line};
use chr_base::program::Program;
use chr_join::{Accepted, Coverage, accept};
use chr_read::read;
use chr_weights::{Weighed, weigh};
use std::alloc::{AllocError, Global};
use std::random::RandomSource;
use std::thread::Threads;

/// A program that is accepted, or the line for a text that is refused.
#[derive(Drop)]
pub(crate) enum Judged {
    Accepted(Accepted),
    Refused(String),
}

/// The program, whose stores hash keys under a seed that the system draws, so that nobody can choose facts whose keys
/// meet in one place. Where the system draws none, the stores keep their seed.
fn with_drawn_seed(rt: &impl RandomSource, accepted: Accepted) -> Accepted
    ensures weighed { weighed_of result ≡ weighed_of accepted }
    ensures coverage { coverage_of result ≡ coverage_of accepted }
    ensures cases { cases_of result ≡ cases_of accepted }
{
    let mut bytes = [0; 8];
    match rt.fill_bytes(&mut bytes) {
        Ok(()) => accepted.seeded(u64::from_le_bytes(bytes)),
        Err(_) => accepted,
    }
}

/// Judges a program in which each rule lowers the weight.
fn judge_weighed(
    rt: &(impl RandomSource + Threads + Sync),
    alloc: Global,
    weighed: Weighed,
    coverage: Coverage,
) -> Result<Judged, AllocError>
    ensures { IfOk result (IsJudged coverage (Ok (program_of weighed))) }
{
    match accept(rt, alloc, weighed, coverage) {
        Ok(accepted) => Ok(Judged::Accepted(with_drawn_seed(rt, accepted))),
        Err(refused) => {
            let line = refusal_line(alloc, refused.weighed.program(), &refused.cause)?;
            Ok(Judged::Refused(line))
        }
    }
}

fn judge_program(
    rt: &(impl RandomSource + Threads + Sync),
    alloc: Global,
    program: Program,
    coverage: Coverage,
) -> Result<Judged, AllocError>
    ensures { IfOk result (IsJudged coverage (Ok program)) }
{
    let paired = program.has_pairs();
    match weigh(program) {
        Ok(weighed) => judge_weighed(rt, alloc, weighed, coverage),
        Err(fault) => {
            let line = not_lowered_line(alloc, paired, &fault)?;
            Ok(Judged::Refused(line))
        }
    }
}

/// Judges a program text, by the cases that the coverage looks at.
pub(crate) fn judge(
    rt: &(impl RandomSource + Threads + Sync),
    alloc: Global,
    text: &[u8],
    coverage: Coverage,
) -> Result<Judged, AllocError>
    ensures { IfOk result (IsJudgedText coverage text.now) }
{
    match read(alloc, text) {
        Ok(program) => judge_program(rt, alloc, program, coverage),
        Err(fault) => {
            let line = fault_line(alloc, &fault)?;
            Ok(Judged::Refused(line))
        }
    }
}
