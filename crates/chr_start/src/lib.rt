//! The program, from its words to its exit status.
//!
//! It ends with 0 where the program was accepted, 1 where it was refused, 2 for words that are no command (their text
//! and that of help go to standard error), 3 where a device failed and 4 for want of memory or of stack.
#![tactic(auto)]

ghost use Rattle.std.specs.Prelude.{◌≡◌, ◌≢◌, ◌⊎◌, false, IfOk, map, string_bytes};
ghost use Rattle.std.specs.IoError.{error_kind};
ghost use Rattle.std.specs.Vec.Iter.{into_iter_items};
ghost use Rattle.std.specs.Process.{exit_status};
ghost use Rattle.std.specs.declared.io.ErrorKind.TheVariants.{OutOfMemory};
ghost use Rattle.chr_device.specs.Devices.{has_failed};
ghost use Rattle.chr_device.specs.Settings.{IsWithinLimits};
ghost use Rattle.chr_device.specs.declared.words.Verb.TheVariants.{Explain, Serve};
ghost use Rattle.chr_device.specs.declared.words.WordsFault.TheVariants.{Memory};
ghost use Rattle.chr_report.specs.Wires.{reader_of, writer_of};
ghost use Rattle.chr_report.specs.Asked.{wanted_by};
ghost use Rattle.chr_start.specs.Statuses.{status_of, EndsByWords, ExplanationEnds, ProgramEnds, RunEnds};

mod explained;
mod limits;

use chr_device::{Verb, refusal_text};
use chr_report::{RunFault, Settings, Status, WordsFault, read_words, run, serve};
pub use chr_report::{Streams, Watched};
use explained::explain_input;
pub use limits::Limits;
use std::alloc::{AllocError, Global};
use std::env::Args;
use std::fs::Files;
use std::io::{Read, Write};
use std::process::ExitCode;
use std::random::RandomSource;
use std::rt::Env;
use std::sync::Wait;
use std::thread::Threads;
use std::{env, io};

/// The exit status where there is not enough stack or memory.
const WANT_OF_MEMORY: u8 = 4;

/// The exit status of a run.
fn exit_code(outcome: Result<Status, RunFault>) -> ExitCode
    ensures { exit_status result ≡ status_of outcome }
{
    match outcome {
        Ok(Status::Accepted) => ExitCode::from(0),
        Ok(Status::Refused) => ExitCode::from(1),
        Err(RunFault::Device) => ExitCode::from(3),
        Err(RunFault::Memory) => ExitCode::from(WANT_OF_MEMORY),
    }
}

/// Writes an explanation, and answers the exit status.
fn end_explanation<R: Read, W: Write>(
    rt: &(impl Threads + Wait + Sync),
    alloc: Global,
    streams: &mut Streams<R, W>,
    settings: Settings,
) -> ExitCode
    requires reads { has_failed streams.old.reader ≡ false }
    requires writes { has_failed streams.old.writer ≡ false }
    ensures { ExplanationEnds streams.old streams.new settings.wide (R.remaining (reader_of streams.old))
        (exit_status result) }
{
    exit_code(explain_input(rt, alloc, streams, settings.wide, settings.style))
}

/// Answers lines as they come, and then the exit status.
fn end_service<R: Read, W: Write>(
    rt: &(impl RandomSource + Threads + Wait + Sync),
    alloc: Global,
    streams: &mut Streams<R, W>,
    settings: Settings,
) -> ExitCode
    requires reads { has_failed streams.old.reader ≡ false }
    requires writes { has_failed streams.old.writer ≡ false }
    requires limits { IsWithinLimits settings }
    ensures { RunEnds streams.old streams.new (R.remaining (reader_of streams.old)) (W.contents (writer_of streams.old))
        (W.contents (writer_of streams.new)) Serve (wanted_by settings) (exit_status result) }
{
    exit_code(serve(rt, alloc, streams, settings))
}

/// Writes a verdict, and by a run the answers of all lines, and answers the exit status.
fn end_run<R: Read, W: Write>(
    rt: &(impl RandomSource + Threads + Wait + Sync),
    alloc: Global,
    streams: &mut Streams<R, W>,
    settings: Settings,
) -> ExitCode
    requires reads { has_failed streams.old.reader ≡ false }
    requires writes { has_failed streams.old.writer ≡ false }
    requires limits { IsWithinLimits settings }
    ensures { RunEnds streams.old streams.new (R.remaining (reader_of streams.old)) (W.contents (writer_of streams.old))
        (W.contents (writer_of streams.new)) settings.command (wanted_by settings) (exit_status result) }
{
    let Streams { reader, writer } = streams;
    exit_code(run(rt, alloc, reader, writer, settings))
}

/// Does what these settings ask for.
// Inlined, its frame would be part of the caller's, and take stack for as long as the caller runs.
#[inline(never)]
fn run_settings<R: Read, W: Write>(
    rt: &(impl RandomSource + Threads + Wait + Sync),
    alloc: Global,
    streams: &mut Streams<R, W>,
    settings: Settings,
) -> ExitCode
    requires reads { has_failed streams.old.reader ≡ false }
    requires writes { has_failed streams.old.writer ≡ false }
    requires limits { IsWithinLimits settings }
    ensures answered { settings.command ≢ Explain → RunEnds streams.old streams.new
        (R.remaining (reader_of streams.old)) (W.contents (writer_of streams.old))
        (W.contents (writer_of streams.new)) settings.command (wanted_by settings) (exit_status result) }
    ensures explained { settings.command ≡ Explain → ExplanationEnds streams.old streams.new settings.wide
        (R.remaining (reader_of streams.old)) (exit_status result) }
{
    match settings.command {
        Verb::Explain => end_explanation(rt, alloc, streams, settings),
        Verb::Serve => end_service(rt, alloc, streams, settings),
        Verb::Check | Verb::Run => end_run(rt, alloc, streams, settings),
    }
}

/// The exit status for words that gave no settings. What `clap` says of them is told on the standard error, with the
/// likely cause.
// Inlined, its frame would be part of the caller's, and take stack for as long as the caller runs.
#[inline(never)]
fn refuse_words(rt: &(impl Eprint + AllocGlobal), words: &[String], fault: &WordsFault) -> ExitCode
    ensures memory { fault.now ≡ Memory → exit_status result ≡ 4 }
    ensures words { fault.now ≢ Memory → exit_status result ≡ 2 }
{
    match fault {
        WordsFault::Words(error) => {
            let _ = match refusal_text(rt.alloc(), words, error) {
                Ok(text) => eprint!(rt; "{text}"),
                Err(_) => eprint!(rt; "{error}"),
            };
            ExitCode::from(2)
        }
        WordsFault::Memory => ExitCode::from(WANT_OF_MEMORY),
    }
}

/// Does what the words ask for, of which the first is the program's name, and answers the exit status. Words that
/// `clap` refuses are told on the standard error; nothing is read or written then. Where `limits` leave too little
/// address space for several workers there is one.
pub fn run_words<R: Read, W: Write>(
    rt: &(impl Eprint + AllocGlobal + RandomSource + Threads + Wait + Sync),
    words: &[String],
    limits: Limits,
    streams: &mut Streams<R, W>,
) -> ExitCode
    requires reads { has_failed streams.old.reader ≡ false }
    requires writes { has_failed streams.old.writer ≡ false }
    ensures ends { ProgramEnds (map string_bytes words.now) streams.old streams.new
        (R.remaining (reader_of streams.old)) (W.contents (writer_of streams.old))
        (W.contents (writer_of streams.new)) (exit_status result) }
{
    match read_words(rt.alloc(), words) {
        Ok(settings) => run_settings(rt, rt.alloc(), streams, limits.fitting(settings)),
        Err(fault) => refuse_words(rt, words, &fault),
    }
}

/// The exit status where the program could not be told its words. Want of memory is not told on the standard error.
fn without_words(rt: &impl Eprint, error: &io::Error) -> ExitCode
    ensures memory { error_kind error.now ≡ OutOfMemory → exit_status result ≡ 4 }
    ensures words { error_kind error.now ≢ OutOfMemory → exit_status result ≡ 2 }
    ensures refused { (exit_status result ≡ 2) ⊎ (exit_status result ≡ 4) }
{
    if error.kind() == io::ErrorKind::OutOfMemory {
        return ExitCode::from(WANT_OF_MEMORY);
    }
    let _ = eprintln!(rt; "error: a word is not UTF-8");
    ExitCode::from(2)
}

/// All words.
fn words_of(alloc: Global, args: Args) -> Result<Vec<String>, AllocError>
    ensures { IfOk result (λ words. words.items ≡ into_iter_items args) }
{
    let mut words = Vec::new(alloc);
    for word in args {
        words.push(word)?;
    }
    Ok(words)
}

/// The words that the program was called with, its own name first. A word that is not UTF-8 is an error.
fn words(rt: &(impl Env + AllocGlobal)) -> io::Result<Vec<String>> {
    let args = env::args(rt)?;
    Ok(words_of(rt.alloc(), args)?)
}

/// Does what the program's words ask for, and gives the status to end with. Where the system allows too little stack
/// nothing is read or written.
///
/// Its contract says nothing of the words and of the limits of the process: the system tells these.
pub fn start<R: Read, W: Write>(
    rt: &(impl Env + Eprint + Files + AllocGlobal + RandomSource + Threads + Wait + Sync),
    streams: &mut Streams<R, W>,
) -> ExitCode
    requires reads { has_failed streams.old.reader ≡ false }
    requires writes { has_failed streams.old.writer ≡ false }
    ensures ends { EndsByWords streams.old streams.new (R.remaining (reader_of streams.old))
        (W.contents (writer_of streams.old)) (W.contents (writer_of streams.new)) (exit_status result) }
{
    let limits = Limits::of_process(rt);
    if limits.has_little_stack() {
        return ExitCode::from(WANT_OF_MEMORY);
    }
    match words(rt) {
        Ok(words) => run_words(rt, &words, limits, streams),
        Err(error) => without_words(rt, &error),
    }
}
