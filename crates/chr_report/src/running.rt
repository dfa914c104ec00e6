//! Checks and runs, from the bytes of an input to the bytes of its output.
ghost use Rattle.std.specs.Prelude.{◌≡◌, ◌≤◌, ◌⊎◌, [], Ok, Some, false, true, IfOk, IfSome, IsErrOf, IsTrue, OnErr};
ghost use Rattle.std.specs.Prelude.{OnOk};
ghost use Rattle.std.specs.Prelude.{string_bytes};
ghost use Rattle.std.specs.Bool.{OnTrue};
ghost use Rattle.std.specs.Io.KnownBytes.{Appends, IsAtEnd};
ghost use Rattle.chr_device.specs.Devices.{inner_of, has_failed};
ghost use Rattle.chr_device.specs.Settings.{IsWithinLimits};
ghost use Rattle.chr_base.specs.declared.limits.TheConstants.{MAX_REPLICAS};
ghost use Rattle.chr_device.specs.declared.fault.RunFault.TheVariants.{Device, Memory};
ghost use Rattle.chr_device.specs.declared.words.Verb.TheVariants.{Run};
ghost use Rattle.chr_base.specs.Programs.{declarations, rules_of};
ghost use Rattle.chr_join.specs.AcceptedPrograms.{cases_of};
ghost use Rattle.chr_join.specs.Verdicts.{IsAcceptedBy};
ghost use Rattle.chr_read.specs.ProgramTexts.{IsAnswer};
ghost use Rattle.chr_report.specs.declared.running.Status.TheVariants as status;
ghost use Rattle.chr_report.specs.declared.running.Status.TheVariants.{Refused};
ghost use Rattle.chr_report.specs.Asked.{wanted_by};
ghost use Rattle.chr_report.specs.Outputs.{IsOutput, IsAnswered};
ghost use Rattle.chr_report.specs.Written.{Writes, WritesOutput, WritesBeginning};
ghost use Rattle.chr_join.specs.AcceptedPrograms.{program_in};
ghost use Rattle.chr_answers.specs.Answered.{AnswersRest};
ghost use Rattle.chr_report.specs.working.LinesLeft.{lines_left};
ghost use Rattle.chr_answers.specs.Services.{held, served, IsBetweenLines};
ghost use Rattle.std.specs.Thread.{IsSync};
ghost use Rattle.chr_report.specs.working.Coming.{IsReadyAt, Takes};
ghost use Rattle.chr_report.specs.working.Serving.{IsOpened, WritesText};

use crate::blocks::answer_input;
use crate::coming::Coming;
use crate::input::{MOST_TEXT, asked, divided, split};
use crate::judging::{Judged, judge};
use crate::turning::{Asked, Turn, take_turn};
use crate::verdict::accepted_line;
use crate::wanted::Wanted;
use chr_answers::{Ahead, Answering, Service, Sharing, answer_all};
use chr_device::{RunFault, Settings, Verb, Watched, read_on, read_past, write_whole};
use chr_join::Accepted;
use chr_run::answer_at_end;
use std::alloc::{AllocError, Global};
use std::io::{Read, Write};
use std::random::RandomSource;
use std::sync::Wait;
use std::thread::Threads;

/// Whether a program was read and accepted: each of its rules lowers the weight, and each case of each overlap joins.
#[derive(Clone, Copy, Debug, PartialEq, Eq)]
pub enum Status {
    Accepted,
    Refused,
}

/// All that is written for an input.
#[derive(Drop)]
pub(crate) struct Output {
    pub status: Status,
    pub text: String,
}

impl Output {
    /// The verdict on a program that is refused, or on a text that is no program.
    fn refused(text: String) -> Output
        ensures status { result.status ≡ Refused }
        ensures text { result.text ≡ text }
    {
        Output {
            status: Status::Refused,
            text,
        }
    }
}

/// The verdict's line on an accepted program, and `replicas` replicas of it, which were told nothing.
pub(crate) fn opening(
    alloc: Global,
    accepted: Accepted,
    wanted: Wanted,
    sharing: Sharing,
) -> Result<(String, Service), AllocError>
    requires replicas { (1 ≤ wanted.replicas) × (wanted.replicas ≤ MAX_REPLICAS) }
    requires accepted { IsAcceptedBy wanted.coverage (rules_of (program_in accepted)) (cases_of accepted) }
    ensures ready { IfOk result (λ r. IsBetweenLines r.1) }
    ensures program { IfOk result (λ r. served r.1 ≡ program_in accepted) }
    ensures opened { IfOk result (λ r. IsOpened (program_in accepted) wanted (held r.1) (string_bytes r.0)) }
{
    let rules = accepted.program().rules().len();
    let line = accepted_line(alloc, rules, accepted.cases())?;
    let service = Service::open(alloc, accepted, wanted.replicas, sharing)?;
    Ok((line, service))
}

/// Answers all commands that are held, where there are any, after a text. The process is about to end then, and its
/// memory with it, so the replicas are left as they are: to free a million operations one by one takes time.
fn answer_commands<R: Threads + Wait + Sync>(
    rt: &R,
    alloc: Global,
    service: Service,
    commands: Option<&[u8]>,
    text: String,
) -> Result<String, AllocError>
    requires { IsBetweenLines service }
    ensures { IfOk result (λ out. AnswersRest (declarations (served service)) (rules_of (served service))
        (lines_left commands.entry) (held service) (string_bytes text) (string_bytes out)) }
{
    let Some(input) = commands else {
        return Ok(text);
    };
    let at = Answering {
        service,
        out: text,
        left: input.len(),
    };
    answer_all(rt, alloc, input, at, Ahead::none(alloc))
}

/// The verdict's line, and the answers to the commands that are held.
fn answer_program(
    rt: &(impl Threads + Wait + Sync),
    alloc: Global,
    accepted: Accepted,
    wanted: Wanted,
    sharing: Sharing,
    commands: Option<&[u8]>,
) -> Result<String, AllocError>
    requires replicas { (1 ≤ wanted.replicas) × (wanted.replicas ≤ MAX_REPLICAS) }
    requires accepted { IsAcceptedBy wanted.coverage (rules_of (program_in accepted)) (cases_of accepted) }
    ensures { IfOk result (λ s. IsAnswered (declarations (program_in accepted)) (rules_of (program_in accepted))
        wanted (lines_left commands.entry) (string_bytes s)) }
{
    let (line, service) = opening(alloc, accepted, wanted, sharing)?;
    answer_commands(rt, alloc, service, commands, line)
}

/// The whole output for an input.
pub(crate) fn output_of(
    rt: &(impl RandomSource + Threads + Wait + Sync),
    alloc: Global,
    verb: Verb,
    wanted: Wanted,
    sharing: Sharing,
    input: &[u8],
) -> Result<Output, AllocError>
    requires { (1 ≤ wanted.replicas) × (wanted.replicas ≤ MAX_REPLICAS) }
    ensures { IfOk result (λ o. IsOutput verb wanted input.now o.status (string_bytes o.text)) }
{
    let (text, rest) = split(input);
    match judge(rt, alloc, text, wanted.coverage)? {
        Judged::Accepted(accepted) => {
            let text = answer_program(rt, alloc, accepted, wanted, sharing, asked(verb, rest))?;
            Ok(Output {
                status: Status::Accepted,
                text,
            })
        }
        Judged::Refused(line) => Ok(Output::refused(line)),
    }
}

/// The verdict's line, and the answers to the commands: those in `first`, and in all that comes after it, if the input
/// has not `ended` with that.
fn answer_read<D: Read>(
    rt: &(impl Threads + Wait + Sync),
    alloc: Global,
    accepted: Accepted,
    wanted: Wanted,
    sharing: Sharing,
    first: &[u8],
    ended: bool,
    reader: &mut Watched<D>,
) -> Result<String, RunFault>
    requires replicas { (1 ≤ wanted.replicas) × (wanted.replicas ≤ MAX_REPLICAS) }
    requires accepted { IsAcceptedBy wanted.coverage (rules_of (program_in accepted)) (cases_of accepted) }
    requires end { OnTrue ended (IsAtEnd (D.remaining (inner_of reader.old))) }
    ensures ok { IfOk result (λ out. WritesText (λ answer. answer ≡ Ok (program_in accepted)) first.now
        (D.remaining (inner_of reader.old)) wanted status.Accepted (Appends (Some []) (Some (string_bytes out)))) }
    ensures end { OnOk result (IsAtEnd (D.remaining (inner_of reader.new))) }
    ensures whole { OnOk result (has_failed reader.new ≡ has_failed reader.old) }
    ensures device { IsErrOf result Device → has_failed reader.new ≡ true }
    ensures memory { IsErrOf result Memory → has_failed reader.new ≡ has_failed reader.old }
{
    let (line, service) = opening(alloc, accepted, wanted, sharing)?;
    answer_input(rt, alloc, service, first, ended, reader, line)
}

/// Reads to the end, if that was not seen yet. What is read is not held.
fn read_rest<D: Read>(rt: &impl Wait, ended: bool, reader: &mut Watched<D>) -> Result<(), RunFault>
    requires { OnTrue ended (IsAtEnd (D.remaining (inner_of reader.old))) }
    ensures end { OnOk result (IsAtEnd (D.remaining (inner_of reader.new))) }
    ensures whole { OnOk result (has_failed reader.new ≡ has_failed reader.old) }
    ensures device { IsErrOf result Device → has_failed reader.new ≡ true }
    ensures memory { IsErrOf result Memory → has_failed reader.new ≡ has_failed reader.old }
{
    if ended {
        return Ok(());
    }
    read_past(rt, reader)
}

/// The output of a run of a program text and of the commands after it: those in `first`, and in all that comes after
/// it, which is read to the end, if the input has not `ended` with `first`.
fn output_of_text<D: Read>(
    rt: &(impl RandomSource + Threads + Wait + Sync),
    alloc: Global,
    text: &[u8],
    wanted: Wanted,
    sharing: Sharing,
    first: &[u8],
    ended: bool,
    reader: &mut Watched<D>,
) -> Result<Output, RunFault>
    requires replicas { (1 ≤ wanted.replicas) × (wanted.replicas ≤ MAX_REPLICAS) }
    requires end { OnTrue ended (IsAtEnd (D.remaining (inner_of reader.old))) }
    ensures ok { IfOk result (λ o. WritesText (IsAnswer text.now) first.now (D.remaining (inner_of reader.old)) wanted
        o.status (Appends (Some []) (Some (string_bytes o.text)))) }
    ensures end { OnOk result (IsAtEnd (D.remaining (inner_of reader.new))) }
    ensures whole { OnOk result (has_failed reader.new ≡ has_failed reader.old) }
    ensures device { IsErrOf result Device → has_failed reader.new ≡ true }
    ensures memory { IsErrOf result Memory → has_failed reader.new ≡ has_failed reader.old }
{
    match judge(rt, alloc, text, wanted.coverage)? {
        Judged::Accepted(accepted) => {
            let text = answer_read(rt, alloc, accepted, wanted, sharing, first, ended, reader)?;
            Ok(Output {
                status: Status::Accepted,
                text,
            })
        }
        Judged::Refused(line) => {
            read_rest(rt, ended, reader)?;
            Ok(Output::refused(line))
        }
    }
}

/// The output of a run. Its commands are read while they are answered.
fn output_of_run<D: Read>(
    rt: &(impl RandomSource + Threads + Wait + Sync),
    alloc: Global,
    reader: &mut Watched<D>,
    wanted: Wanted,
    sharing: Sharing,
) -> Result<Output, RunFault>
    requires { (1 ≤ wanted.replicas) × (wanted.replicas ≤ MAX_REPLICAS) }
    ensures ok { IfOk result (λ o. Writes (D.remaining (inner_of reader.old)) Run wanted o.status
        (Appends (Some []) (Some (string_bytes o.text)))) }
    ensures end { OnOk result (IsAtEnd (D.remaining (inner_of reader.new))) }
    ensures whole { OnOk result (has_failed reader.new ≡ has_failed reader.old) }
    ensures device { IsErrOf result Device → has_failed reader.new ≡ true }
    ensures memory { IsErrOf result Memory → has_failed reader.new ≡ has_failed reader.old }
{
    let mut kept = Vec::new(alloc);
    let ended = read_on(reader, &mut kept, MOST_TEXT)?;
    if let Some((text, first)) = divided(&kept) {
        return output_of_text(rt, alloc, text, wanted, sharing, first, ended, reader);
    }
    read_rest(rt, ended, reader)?;
    Ok(output_of(rt, alloc, Verb::Run, wanted, sharing, &kept)?)
}

/// Runs by several workers: some read command lines before their turn.
fn run_by_workers<R: Read, W: Write>(
    rt: &(impl RandomSource + Threads + Wait + Sync),
    alloc: Global,
    reader: &mut Watched<R>,
    writer: &mut Watched<W>,
    wanted: Wanted,
    sharing: Sharing,
) -> Result<Status, RunFault>
    requires reads { has_failed reader.old ≡ false }
    requires writes { has_failed writer.old ≡ false }
    requires replicas { (1 ≤ wanted.replicas) × (wanted.replicas ≤ MAX_REPLICAS) }
    ensures ok { IfOk result (λ status. WritesOutput (R.remaining (inner_of reader.old))
        (W.contents (inner_of writer.old)) (W.contents (inner_of writer.new)) Run wanted status) }
    ensures err { OnErr result (WritesBeginning (R.remaining (inner_of reader.old))
        (W.contents (inner_of writer.old)) (W.contents (inner_of writer.new)) Run wanted) }
    ensures end { OnOk result (IsAtEnd (R.remaining (inner_of reader.new))) }
    ensures whole { OnOk result ((has_failed reader.new ≡ false) × (has_failed writer.new ≡ false)) }
    ensures device { IsErrOf result Device → (has_failed reader.new ≡ true) ⊎ (has_failed writer.new ≡ true) }
    ensures memory { IsErrOf result Memory → (has_failed reader.new ≡ false) × (has_failed writer.new ≡ false) }
    ensures unread { has_failed reader.new ≡ true → writer.new ≡ writer.old }
    ensures unanswered { IsErrOf result Memory → writer.new ≡ writer.old }
{
    let output = output_of_run(rt, alloc, reader, wanted, sharing)?;
    write_whole(writer, output.text.as_bytes())?;
    Ok(output.status)
}

/// Checks, or runs by one worker.
fn run_asked<X: RandomSource + Threads + Wait + Sync, R: Read, W: Write>(
    rt: &X,
    alloc: Global,
    reader: &mut Watched<R>,
    writer: &mut Watched<W>,
    asked: Asked,
) -> Result<Status, RunFault>
    requires reads { has_failed reader.old ≡ false }
    requires writes { has_failed writer.old ≡ false }
    requires replicas { (1 ≤ asked.wanted.replicas) × (asked.wanted.replicas ≤ MAX_REPLICAS) }
    ensures ok { IfOk result (λ status. WritesOutput (R.remaining (inner_of reader.old))
        (W.contents (inner_of writer.old)) (W.contents (inner_of writer.new)) asked.verb asked.wanted status) }
    ensures err { OnErr result (WritesBeginning (R.remaining (inner_of reader.old))
        (W.contents (inner_of writer.old)) (W.contents (inner_of writer.new)) asked.verb asked.wanted) }
    ensures end { OnOk result (IsAtEnd (R.remaining (inner_of reader.new))) }
    ensures whole { OnOk result ((has_failed reader.new ≡ false) × (has_failed writer.new ≡ false)) }
    ensures device { IsErrOf result Device → (has_failed reader.new ≡ true) ⊎ (has_failed writer.new ≡ true) }
    ensures memory { IsErrOf result Memory → (has_failed reader.new ≡ false) × (has_failed writer.new ≡ false) }
    ensures unread { has_failed reader.new ≡ true → writer.new ≡ writer.old }
    ensures unanswered { IsErrOf result Memory → writer.new ≡ writer.old }
{
    let take = |line: Turn| -> Result<Turn, AllocError>
        requires threads { IsSync X.row }
        requires replicas { (1 ≤ asked.wanted.replicas) × (asked.wanted.replicas ≤ MAX_REPLICAS) }
        requires ready { IsReadyAt line.stage }
        ensures { IfOk result (Takes asked line) }
    { take_turn(rt, alloc, asked, line) };
    let mut coming = Coming::new(alloc, asked, take);
    answer_at_end(rt, alloc, &mut coming, reader, writer)?;
    Ok(coming.end())
}

/// Whether several workers run: nothing else is shared out among them while it is read.
fn is_shared(asked: Asked) -> bool
    ensures { IsTrue result → asked.verb ≡ Run }
{
    asked.verb == Verb::Run && asked.sharing.workers > 1
}

/// Reads all of the input, and then writes its output: the verdict on the program text, and by `Verb::Run` for an
/// accepted program the answer line of each command. Commands are answered as they are read, and not held. What is
/// written does not depend on the numbers of workers and of parts by which stores are rested. The replicas of a run are
/// not freed: they are left to the end of the process.
///
/// # Errors
///
/// - `Device`: the reader or the writer has failed. Nothing is written where it was the reader; where it was the
///   writer, nothing or a beginning of the input's output.
/// - `Memory`: memory was refused, and neither has failed. Nothing is written.
// Inlined, its frame would be part of the caller's, and take stack for as long as the caller runs.
#[inline(never)]
pub fn run<R: Read, W: Write>(
    rt: &(impl RandomSource + Threads + Wait + Sync),
    alloc: Global,
    reader: &mut Watched<R>,
    writer: &mut Watched<W>,
    settings: Settings,
) -> Result<Status, RunFault>
    requires reads { has_failed reader.old ≡ false }
    requires writes { has_failed writer.old ≡ false }
    requires limits { IsWithinLimits settings }
    ensures ok { IfOk result (λ status. WritesOutput (R.remaining (inner_of reader.old))
        (W.contents (inner_of writer.old)) (W.contents (inner_of writer.new)) settings.command
        (wanted_by settings) status) }
    ensures err { OnErr result (WritesBeginning (R.remaining (inner_of reader.old))
        (W.contents (inner_of writer.old)) (W.contents (inner_of writer.new)) settings.command (wanted_by settings)) }
    // Nothing is left to be read.
    ensures end { OnOk result (IfSome (R.remaining (inner_of reader.new)) (λ left. left ≡ [])) }
    ensures whole { OnOk result ((has_failed reader.new ≡ false) × (has_failed writer.new ≡ false)) }
    ensures device { IsErrOf result Device → (has_failed reader.new ≡ true) ⊎ (has_failed writer.new ≡ true) }
    ensures memory { IsErrOf result Memory → (has_failed reader.new ≡ false) × (has_failed writer.new ≡ false) }
    ensures unread { has_failed reader.new ≡ true → writer.new ≡ writer.old }
    ensures unanswered { IsErrOf result Memory → writer.new ≡ writer.old }
{
    let asked = Asked::from_settings(settings);
    if is_shared(asked) {
        return run_by_workers(rt, alloc, reader, writer, asked.wanted, asked.sharing);
    }
    run_asked(rt, alloc, reader, writer, asked)
}
