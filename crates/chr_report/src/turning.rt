//! Lines of an input, of which each has its turn: program text, a verdict, and then commands.
ghost use Rattle.std.specs.Prelude.{◌≡◌, ◌≤◌, [], ◌∷◌, ◌++◌, Ok, IfOk, string_bytes};
ghost use Rattle.chr_base.specs.declared.limits.TheConstants.{MAX_REPLICAS};
ghost use Rattle.chr_base.specs.Programs.{rules_of};
ghost use Rattle.chr_join.specs.AcceptedPrograms.{cases_of, program_in};
ghost use Rattle.chr_join.specs.Verdicts.{IsAcceptedBy};
ghost use Rattle.chr_report.specs.working.Coming.{Adds, EndsInput, EndsLine, IsReadyAt, IsStageAfter, Takes};
ghost use Rattle.chr_report.specs.working.Coming.{TurnsTo};
ghost use Rattle.chr_report.specs.Inputs.{text_of};
ghost use Rattle.chr_report.specs.working.Opened.{IsVerdict, IsVerdictOn};
ghost use Rattle.chr_answers.specs.Services.{IsBetweenLines};
ghost use Rattle.chr_device.specs.Settings.{IsWithinLimits};
ghost use Rattle.chr_report.specs.Asked.{wanted_by};

use crate::input::is_divider;
use crate::judging::{Judged, judge};
use crate::running::opening;
use crate::sharing::sharing_by;
use crate::wanted::Wanted;
use chr_answers::{Service, Sharing, answer_line, answers_exist, without_return};
use chr_device::{Settings, Verb};
use chr_join::Accepted;
use std::alloc::{AllocError, Global};
use std::random::RandomSource;
use std::sync::Wait;
use std::thread::Threads;

/// What is asked of an input.
#[derive(Clone, Copy)]
pub(crate) struct Asked {
    /// Whether commands are answered.
    pub(crate) verb: Verb,
    /// Which verdict is wanted, and of how many replicas the answers.
    pub(crate) wanted: Wanted,
    /// How the resting of stores is shared out.
    pub(crate) sharing: Sharing,
}

impl Asked {
    /// What the settings ask for.
    pub(crate) fn from_settings(settings: Settings) -> Asked
        requires { IsWithinLimits settings }
        ensures verb { result.verb ≡ settings.command }
        ensures wanted { result.wanted ≡ wanted_by settings }
    {
        Asked {
            verb: settings.command,
            wanted: Wanted::from_settings(settings),
            sharing: sharing_by(settings),
        }
    }
}

/// What an input stands at, at the end of a line.
#[derive(Drop)]
pub(crate) enum Stage {
    /// These lines of program text have come, and no divider.
    Text(Vec<u8>),
    /// The program was accepted, and its commands are answered. Each line moves the stage, and so not the replicas.
    Commands(Box<Service>),
    /// The program was accepted, and no command is answered.
    Checked,
    /// The text was refused.
    Refused,
}

/// A line that has its turn.
#[derive(Drop)]
pub(crate) struct Turn {
    /// What the input stood at before the line, or stands at after it.
    pub(crate) stage: Stage,
    /// The line, without its line feed.
    pub(crate) line: Vec<u8>,
    /// What was written.
    pub(crate) held: String,
    /// Whether the input ends with the line.
    pub(crate) is_last: bool,
}

/// What comes after the verdict on an accepted program: by a run or a service commands are answered, by a check or an
/// explanation they are not.
fn stage_after(verb: Verb, service: Box<Service>) -> Stage
    ensures { IsStageAfter verb service.value result }
{
    match verb {
        Verb::Check | Verb::Explain => Stage::Checked,
        Verb::Run | Verb::Serve => Stage::Commands(service),
    }
}

/// Adds the verdict's line on an accepted program.
fn open(
    alloc: Global,
    asked: Asked,
    accepted: Accepted,
    held: &mut String,
) -> Result<Stage, AllocError>
    requires replicas { (1 ≤ asked.wanted.replicas) × (asked.wanted.replicas ≤ MAX_REPLICAS) }
    requires accepted { IsAcceptedBy asked.wanted.coverage (rules_of (program_in accepted)) (cases_of accepted) }
    ensures ready { IfOk result IsReadyAt }
    ensures verdict { IfOk result (λ stage. Adds (string_bytes held.old) (string_bytes held.new)
        (IsVerdict asked (Ok (program_in accepted)) stage)) }
{
    answers_exist();
    let (line, service) = opening(alloc, accepted, asked.wanted, asked.sharing)?;
    held.push_str(&line)?;
    let service = Box::new(alloc, service)?;
    Ok(stage_after(asked.verb, service))
}

/// Adds the verdict on a program text.
fn judge_text(
    rt: &(impl RandomSource + Threads + Wait + Sync),
    alloc: Global,
    asked: Asked,
    text: &[u8],
    held: &mut String,
) -> Result<Stage, AllocError>
    requires { (1 ≤ asked.wanted.replicas) × (asked.wanted.replicas ≤ MAX_REPLICAS) }
    ensures ready { IfOk result IsReadyAt }
    ensures verdict { IfOk result (λ stage. Adds (string_bytes held.old) (string_bytes held.new)
        (IsVerdictOn asked text.now stage)) }
{
    match judge(rt, alloc, text, asked.wanted.coverage)? {
        Judged::Accepted(accepted) => open(alloc, asked, accepted, held),
        Judged::Refused(line) => {
            held.push_str(&line)?;
            Ok(Stage::Refused)
        }
    }
}

/// Takes a line of program text. After the divider the verdict is added.
fn take_text_line(
    rt: &(impl RandomSource + Threads + Wait + Sync),
    alloc: Global,
    asked: Asked,
    text: Vec<u8>,
    line: &[u8],
    held: &mut String,
) -> Result<Stage, AllocError>
    requires { (1 ≤ asked.wanted.replicas) × (asked.wanted.replicas ≤ MAX_REPLICAS) }
    ensures ready { IfOk result IsReadyAt }
    ensures line { IfOk result (λ stage. Adds (string_bytes held.old) (string_bytes held.new)
        (λ added. EndsLine asked (Stage.Text text) line.now added stage)) }
{
    if is_divider(line) {
        return judge_text(rt, alloc, asked, &text, held);
    }
    let mut text = text;
    text.extend_from_slice(line)?;
    text.push(b'\n')?;
    Ok(Stage::Text(text))
}

/// Program text with a last line, which may be the divider.
fn with_last(text: Vec<u8>, line: &[u8]) -> Result<Vec<u8>, AllocError>
    ensures { IfOk result (λ all. all.items ≡ text.items ++ text_of (line.now ∷ [])) }
{
    if is_divider(line) {
        return Ok(text);
    }
    let mut text = text;
    text.extend_from_slice(line)?;
    Ok(text)
}

/// Takes the last line of an input without commands, and adds the verdict.
fn end_text(
    rt: &(impl RandomSource + Threads + Wait + Sync),
    alloc: Global,
    asked: Asked,
    text: Vec<u8>,
    line: &[u8],
    held: &mut String,
) -> Result<Stage, AllocError>
    requires { (1 ≤ asked.wanted.replicas) × (asked.wanted.replicas ≤ MAX_REPLICAS) }
    ensures ready { IfOk result IsReadyAt }
    ensures input { IfOk result (λ stage. Adds (string_bytes held.old) (string_bytes held.new)
        (λ added. EndsInput asked (Stage.Text text) line.now added stage)) }
{
    let all = with_last(text, line)?;
    judge_text(rt, alloc, asked, &all, held)
}

/// Answers a command line, after which others may come or not.
fn take_command(
    rt: &(impl Threads + Wait + Sync),
    alloc: Global,
    asked: Asked,
    service: Box<Service>,
    line: &[u8],
    held: &mut String,
) -> Result<Stage, AllocError>
    requires { IsBetweenLines service.value }
    ensures ready { IfOk result IsReadyAt }
    ensures line { IfOk result (λ stage. Adds (string_bytes held.old) (string_bytes held.new) (λ added.
        EndsLine asked (Stage.Commands service) line.now added stage
        × EndsInput asked (Stage.Commands service) line.now added stage)) }
{
    answers_exist();
    let mut service = service;
    let replicas: &mut Service = &mut service;
    answer_line(rt, alloc, replicas, without_return(line), held)?;
    Ok(Stage::Commands(service))
}

/// Takes a line at a stage, after which others may come or not.
fn take_line(
    rt: &(impl RandomSource + Threads + Wait + Sync),
    alloc: Global,
    asked: Asked,
    stage: Stage,
    line: &[u8],
    is_last: bool,
    held: &mut String,
) -> Result<Stage, AllocError>
    requires replicas { (1 ≤ asked.wanted.replicas) × (asked.wanted.replicas ≤ MAX_REPLICAS) }
    requires ready { IsReadyAt stage }
    ensures ready { IfOk result IsReadyAt }
    ensures taken { IfOk result (λ new. Adds (string_bytes held.old) (string_bytes held.new)
        (TurnsTo is_last asked stage line.now new)) }
{
    match stage {
        Stage::Text(text) => {
            if is_last {
                return end_text(rt, alloc, asked, text, line, held);
            }
            take_text_line(rt, alloc, asked, text, line, held)
        }
        Stage::Commands(service) => take_command(rt, alloc, asked, service, line, held),
        Stage::Checked => Ok(Stage::Checked),
        Stage::Refused => Ok(Stage::Refused),
    }
}

/// Takes the line whose turn it is, and adds what is written for it.
pub(crate) fn take_turn(
    rt: &(impl RandomSource + Threads + Wait + Sync),
    alloc: Global,
    asked: Asked,
    turn: Turn,
) -> Result<Turn, AllocError>
    requires replicas { (1 ≤ asked.wanted.replicas) × (asked.wanted.replicas ≤ MAX_REPLICAS) }
    requires ready { IsReadyAt turn.stage }
    ensures { IfOk result (Takes asked turn) }
{
    let Turn {
        stage,
        line,
        held,
        is_last,
    } = turn;
    let mut held = held;
    let stage = take_line(rt, alloc, asked, stage, &line, is_last, &mut held)?;
    Ok(Turn {
        stage,
        line,
        held,
        is_last,
    })
}
