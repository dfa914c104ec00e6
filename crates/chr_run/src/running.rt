//! The loop over all of an input, and as bytes come.
ghost use Rattle.std.specs.Prelude.{◌≡◌, ◌⊎◌, [], true, false, IfSome, IsErrOf, OnErr, OnOk};
ghost use Rattle.std.specs.Io.KnownBytes.{IsAtEnd};
ghost use Rattle.chr_device.specs.Devices.{inner_of, has_failed};
ghost use Rattle.chr_device.specs.declared.fault.RunFault.TheVariants.{Device, Memory};
ghost use Rattle.chr_run.specs.Written.{AllAnswered, WritesAnswers, WritesBeginning};

use crate::answering::answer;
use crate::blocks::{Anywhere, Blocks};
use crate::machine::Machine;
use crate::one_read::OneRead;
use crate::peer::Wire;
use crate::sinks::{HoldsAll, SendsPromptly};
use chr_device::{RunFault, Watched, write_whole};
use std::alloc::Global;
use std::io::{Read, Write};
use std::sync::Wait;

/// The bytes of the first block.
const FIRST_BLOCK: usize = 16_384;

/// Those of the longest one: what was read is to be in a cache still when it is answered.
const MOST_BLOCK: usize = 524_288;

/// Answers of this many bytes are sent before more is answered, though more bytes are there.
const MOST_HELD: usize = 65_536;

/// Reads all of the input, and then writes what the machine answers to it.
///
/// # Errors
///
/// `Device` where the reader or the writer has failed: nothing, or a beginning of the answers is written then, and
/// nothing where it was the reader. `Memory` where no memory was left and neither has failed: nothing is written then.
pub fn answer_at_end<M: Machine<Vec<u8>>, R: Read, W: Write>(
    rt: &impl Wait,
    alloc: Global,
    machine: &mut M,
    reader: &mut Watched<R>,
    writer: &mut Watched<W>,
) -> Result<(), RunFault>
    requires ready { M.IsReady machine.old }
    requires any { (m : M) (b : _) → M.fits m b }
    requires reads { has_failed reader.old ≡ false }
    requires writes { has_failed writer.old ≡ false }
    ensures ok { OnOk result (WritesAnswers (λ input text. M.Finishes machine.old input text machine.new)
        (R.remaining (inner_of reader.old)) (W.contents (inner_of writer.old)) (W.contents (inner_of writer.new))) }
    ensures err { OnErr result (WritesBeginning (M.AnswersAll machine.old) (R.remaining (inner_of reader.old))
        (W.contents (inner_of writer.old)) (W.contents (inner_of writer.new))) }
    // Nothing is left to be read.
    ensures end { OnOk result (IfSome (R.remaining (inner_of reader.new)) (λ left. left ≡ [])) }
    ensures whole { OnOk result ((has_failed reader.new ≡ false) × (has_failed writer.new ≡ false)) }
    ensures device { IsErrOf result Device → (has_failed reader.new ≡ true) ⊎ (has_failed writer.new ≡ true) }
    ensures memory { IsErrOf result Memory → (has_failed reader.new ≡ false) × (has_failed writer.new ≡ false) }
    ensures unread { has_failed reader.new ≡ true → writer.new ≡ writer.old }
    ensures unanswered { IsErrOf result Memory → writer.new ≡ writer.old }
{
    let mut batch = Vec::new(alloc);
    let mut held = String::new(alloc);
    let mut source = Blocks::new(alloc, Anywhere, FIRST_BLOCK, MOST_BLOCK);
    let mut sink = HoldsAll;
    answer(
        rt,
        reader,
        machine,
        &mut source,
        &mut sink,
        &mut batch,
        &mut held,
    )?;
    write_whole(writer, held.as_bytes())
}

/// Sends what the machine answers as soon as its bytes have been read: it waits only where all that was read is
/// answered, and more may be. It ends with the input, or where nothing that comes is answered any more. What it sends
/// is what [`answer_at_end`] writes for the same input.
///
/// # Errors
///
/// `Device` where the wire has failed, and `Memory` where no memory was left and it has not. Nothing, or a beginning of
/// the answers is sent then.
pub fn answer_promptly<M: Machine<Vec<u8>>, T: Wire>(
    rt: &impl Wait,
    alloc: Global,
    machine: &mut M,
    wire: &mut T,
) -> Result<(), RunFault>
    requires ready { M.IsReady machine.old }
    requires any { (m : M) (b : _) → M.fits m b }
    requires unbroken { T.is_broken wire.old ≡ false }
    requires prompt { (w : T) → AllAnswered (M.Answers machine.old) M.IsDone (T.unread wire.old) (T.unread w)
        (T.sent wire.old) (T.sent w) → T.may_wait w }
    ensures ok { OnOk result (WritesAnswers (λ input text. M.Finishes machine.old input text machine.new)
        (T.unread wire.old) (T.sent wire.old) (T.sent wire.new)) }
    ensures err { OnErr result (WritesBeginning (M.AnswersAll machine.old) (T.unread wire.old)
        (T.sent wire.old) (T.sent wire.new)) }
    ensures end { OnOk result (IsAtEnd (T.unread wire.new) ⊎ M.IsDone machine.new) }
    ensures whole { OnOk result (T.is_broken wire.new ≡ false) }
    ensures device { IsErrOf result Device → T.is_broken wire.new ≡ true }
    ensures memory { IsErrOf result Memory → T.is_broken wire.new ≡ false }
{
    let mut batch = Vec::new(alloc);
    let mut held = String::new(alloc);
    let mut source = OneRead;
    let mut sink = SendsPromptly { most: MOST_HELD };
    answer(
        rt,
        wire,
        machine,
        &mut source,
        &mut sink,
        &mut batch,
        &mut held,
    )
}
