//! Lines answered as they come.
ghost use Rattle.std.specs.Prelude.{◌≡◌, ◌≤◌, true, false, IfOk, IsErrOf, OnErr, OnOk};
ghost use Rattle.std.specs.Io.KnownBytes.{IsAtEnd};
ghost use Rattle.std.specs.Thread.{IsSync};
ghost use Rattle.chr_device.specs.Settings.{IsWithinLimits};
ghost use Rattle.chr_device.specs.declared.fault.RunFault.TheVariants.{Device, Memory};
ghost use Rattle.chr_device.specs.declared.words.Verb.TheVariants.{Run};
ghost use Rattle.chr_base.specs.declared.limits.TheConstants.{MAX_REPLICAS};
ghost use Rattle.chr_report.specs.declared.running.Status.TheVariants as status;
ghost use Rattle.chr_report.specs.Asked.{wanted_by};
ghost use Rattle.chr_report.specs.Served.{AllAnswered};
ghost use Rattle.chr_report.specs.Written.{WritesOutput, WritesBeginning};
ghost use Rattle.chr_report.specs.working.Coming.{IsReadyAt, Takes};

use crate::coming::Coming;
use crate::running::Status;
use crate::sharing::sharing_by;
use crate::turning::{Asked, Turn, take_turn};
use crate::wanted::Wanted;
use chr_device::{RunFault, Settings, Verb};
use chr_run::{Wire, answer_promptly};
use std::alloc::{AllocError, Global};
use std::random::RandomSource;
use std::sync::Wait;
use std::thread::Threads;

/// Answers lines as they come, as is asked.
fn serve_asked<R: RandomSource + Threads + Wait + Sync, T: Wire>(
    rt: &R,
    alloc: Global,
    wire: &mut T,
    asked: Asked,
) -> Result<Status, RunFault>
    requires unbroken { T.is_broken wire.old ≡ false }
    requires replicas { (1 ≤ asked.wanted.replicas) × (asked.wanted.replicas ≤ MAX_REPLICAS) }
    requires run { asked.verb ≡ Run }
    requires prompt { (w : T) → AllAnswered (T.unread wire.old) (T.unread w) (T.sent wire.old) (T.sent w)
        asked.wanted → T.may_wait w }
    ensures ok { IfOk result (λ status. WritesOutput (T.unread wire.old) (T.sent wire.old) (T.sent wire.new)
        asked.verb asked.wanted status) }
    ensures err { OnErr result (WritesBeginning (T.unread wire.old) (T.sent wire.old) (T.sent wire.new) asked.verb
        asked.wanted) }
    ensures end { IfOk result (λ s. s ≡ status.Accepted → IsAtEnd (T.unread wire.new)) }
    ensures whole { OnOk result (T.is_broken wire.new ≡ false) }
    ensures device { IsErrOf result Device → T.is_broken wire.new ≡ true }
    ensures memory { IsErrOf result Memory → T.is_broken wire.new ≡ false }
{
    let take = |line: Turn| -> Result<Turn, AllocError>
        requires threads { IsSync R.row }
        requires replicas { (1 ≤ asked.wanted.replicas) × (asked.wanted.replicas ≤ MAX_REPLICAS) }
        requires ready { IsReadyAt line.stage }
        ensures { IfOk result (Takes asked line) }
    { take_turn(rt, alloc, asked, line) };
    let mut coming = Coming::new(alloc, asked, take);
    answer_promptly(rt, alloc, &mut coming, wire)?;
    Ok(coming.end())
}

/// Reads the program text, sends the verdict, and then sends the answer line of each command as soon as it has been
/// read: it waits only where each whole line that was read is answered. A service ends with a program that is refused,
/// or with the end of the input, where a last line without a line feed is answered too. What is sent is what
/// [`crate::run`] writes for the same input, and does not depend on the numbers of workers and of parts.
///
/// # Errors
///
/// `Device` where the wire has failed, and `Memory` where memory was refused and the wire has not failed. Nothing, or a
/// beginning of the input's output, is sent then.
// Inlined, its frame would be part of the caller's, and take stack for as long as the caller runs.
#[inline(never)]
pub fn serve<T: Wire>(
    rt: &(impl RandomSource + Threads + Wait + Sync),
    alloc: Global,
    wire: &mut T,
    settings: Settings,
) -> Result<Status, RunFault>
    requires unbroken { T.is_broken wire.old ≡ false }
    requires limits { IsWithinLimits settings }
    requires prompt { (w : T) → AllAnswered (T.unread wire.old) (T.unread w) (T.sent wire.old) (T.sent w)
        (wanted_by settings) → T.may_wait w }
    ensures ok { IfOk result (λ status. WritesOutput (T.unread wire.old) (T.sent wire.old) (T.sent wire.new)
        Run (wanted_by settings) status) }
    ensures err { OnErr result (WritesBeginning (T.unread wire.old) (T.sent wire.old) (T.sent wire.new)
        Run (wanted_by settings)) }
    // Nothing is left to be read of an accepted program's input.
    ensures end { IfOk result (λ s. s ≡ status.Accepted → IsAtEnd (T.unread wire.new)) }
    ensures whole { OnOk result (T.is_broken wire.new ≡ false) }
    ensures device { IsErrOf result Device → T.is_broken wire.new ≡ true }
    ensures memory { IsErrOf result Memory → T.is_broken wire.new ≡ false }
{
    let asked = Asked {
        verb: Verb::Run,
        wanted: Wanted::from_settings(settings),
        sharing: sharing_by(settings),
    };
    serve_asked(rt, alloc, wire, asked)
}
