//! The explanation of an input's program text.

ghost use Rattle.std.specs.Prelude.{◌≡◌, ◌⊎◌, false, true, IfOk, IsErrOf, OnOk};
ghost use Rattle.chr_device.specs.Devices.{has_failed};
ghost use Rattle.chr_device.specs.declared.fault.RunFault.TheVariants.{Device, Memory};
ghost use Rattle.chr_report.specs.Wires.{reader_of};
ghost use Rattle.chr_start.specs.Statuses.{EndsAsJudged};
ghost use Rattle.chr_start.specs.working.Verdicts.{as_status};

use chr_device::{Style, write_whole};
use chr_explain::{Manner, Verdict, explain};
use chr_report::{RunFault, Status, Streams, program_text, read_input};
use std::alloc::Global;
use std::io::{Read, Write};
use std::sync::Wait;
use std::thread::Threads;

/// How an explanation is to be written: a page has the drawing as well; both have the numbers, the steps and the rest
/// in any case.
fn manner_of(style: Style) -> Manner {
    if style.html {
        Manner::Page
    } else if style.dot {
        Manner::Drawing
    } else if style.all {
        Manner::FullText
    } else {
        Manner::Text
    }
}

/// The status of a check with this verdict.
fn status_of(verdict: Verdict) -> Status
    ensures { result ≡ as_status verdict }
{
    match verdict {
        Verdict::Accepted => Status::Accepted,
        Verdict::Refused => Status::Refused,
    }
}

/// What comes behind the program text of an input: nothing, or the line `---` and command lines.
fn behind_text(input: &[u8]) -> &[u8] {
    input.get(program_text(input).len()..).unwrap_or(&[])
}

/// Reads all of the input, and writes the explanation of its program text and of its command lines, by sorted cases
/// where `wide` or where there are too many joint ones. Of a text that is too long only as much is kept as shows that
/// it is.
///
/// # Errors
///
/// `Device` where the reader or the writer has failed, and `Memory` where no memory was left: nothing is written then.
pub(crate) fn explain_input<R: Read, W: Write>(
    rt: &(impl Threads + Wait + Sync),
    alloc: Global,
    streams: &mut Streams<R, W>,
    wide: bool,
    style: Style,
) -> Result<Status, RunFault>
    requires reads { has_failed streams.old.reader ≡ false }
    requires writes { has_failed streams.old.writer ≡ false }
    ensures ok { IfOk result (EndsAsJudged wide (R.remaining (reader_of streams.old))) }
    ensures whole { OnOk result ((has_failed streams.new.reader ≡ false) × (has_failed streams.new.writer ≡ false)) }
    ensures device { IsErrOf result Device
        → (has_failed streams.new.reader ≡ true) ⊎ (has_failed streams.new.writer ≡ true) }
    ensures memory { IsErrOf result Memory
        → (has_failed streams.new.reader ≡ false) × (has_failed streams.new.writer ≡ false) }
    ensures unread { has_failed streams.new.reader ≡ true → streams.new.writer ≡ streams.old.writer }
    ensures unanswered { IsErrOf result Memory → streams.new.writer ≡ streams.old.writer }
{
    let input = read_input(rt, alloc, &mut streams.reader)?;
    let explanation = explain(
        rt,
        alloc,
        program_text(&input),
        behind_text(&input),
        wide,
        manner_of(style),
    )?;
    write_whole(&mut streams.writer, explanation.text.as_bytes())?;
    Ok(status_of(explanation.verdict))
}
