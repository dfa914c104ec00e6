//! The loop.
ghost use Rattle.std.specs.Prelude.{◌≡◌, ◌⊎◌, ◌↔◌, ℕ, List, ◌++◌, Bool, true, IsTrue, OnOk, OnErr, string_bytes};
ghost use Rattle.std.specs.Io.KnownBytes.{IsAtEnd, prepend_known};
ghost use Rattle.chr_device.specs.Devices.{AppendsPart};
ghost use Rattle.chr_run.specs.Answered.{AnswersInput, HasAnswered, Moves};
ghost use Rattle.chr_run.specs.Ends.{Ends};
ghost use Rattle.chr_run.specs.working.Batches.{AnswersBatch, AnswersPart};

use crate::batch::Batch;
use crate::machine::Machine;
use crate::peer::Peer;
use crate::sink::Sink;
use crate::source::Source;
use chr_device::RunFault;
use std::sync::Wait;

/// Answers a batch, and offers each answer to the sink.
fn answer_batch<P: Peer, B: Batch, M: Machine<B>, K: Sink<P>>(
    peer: &mut P,
    machine: &mut M,
    sink: &mut K,
    batch: &mut B,
    held: &mut String,
) -> Result<(), RunFault>
    requires ready { M.IsReady machine.old }
    requires fits { M.fits machine.old batch.old }
    ensures ok { OnOk result (AnswersBatch (M.Answers machine.old) machine.new (B.bytes batch.old)
        (P.sent peer.old) (P.sent peer.new) (string_bytes held.old) (string_bytes held.new)) }
    ensures err { OnErr result (AnswersPart (M.Answers machine.old) (B.bytes batch.old)
        (P.sent peer.old) (P.sent peer.new) (string_bytes held.old)) }
    ensures ready { OnOk result (M.IsReady machine.new) }
    ensures kept { P.unread peer.new ≡ P.unread peer.old }
    ensures ends { Ends result (P.is_broken peer.old) (P.is_broken peer.new) }
{
    let mut at = 0;
    while at < batch.bytes().len() {
        at = machine.answer(batch, at, held)?;
        sink.offer(peer, held)?;
    }
    Ok(())
}

/// Whether nothing that comes is answered any more, and the source leaves the peer then.
fn is_over<P: Peer, B: Batch, M: Machine<B>, S: Source<P, B>>(machine: &M, source: &S) -> bool
    ensures { IsTrue result ↔ ((S.leaves source.now ≡ true) × M.IsDone machine.now) }
{
    source.leaves() && machine.is_done()
}

/// Feeds a machine the batch that is there, and then all that a source gives: to its end, or until nothing that comes
/// is answered any more and the source leaves the peer then. Where the peer is waited for, all that came is answered,
/// and the sink has sent what it has to. What is held when this begins comes first.
///
/// # Errors
///
/// `Device` where the peer has failed, and `Memory` where no memory was left and it has not.
pub fn answer<P: Peer, B: Batch, M: Machine<B>, S: Source<P, B>, K: Sink<P>>(
    rt: &impl Wait,
    peer: &mut P,
    machine: &mut M,
    source: &mut S,
    sink: &mut K,
    batch: &mut B,
    held: &mut String,
) -> Result<(), RunFault>
    requires agree { (m : M) (b : B) (more : Bool) (bytes text : List ℕ) → M.Answers machine.old bytes text m
        → S.gives more b → M.fits m b }
    requires ready { M.IsReady machine.old }
    requires first { M.fits machine.old batch.old }
    requires fits { S.fits source.old (P.unread peer.old) }
    requires prompt { (s : S) (p : P) (k : K) (m : M) (left : List ℕ) → HasAnswered (M.Answers machine.old) m
        (B.bytes batch.old) (prepend_known (S.begun source.old) (P.unread peer.old))
        (prepend_known (S.begun s) (P.unread p)) (P.sent peer.old) (P.sent p) (string_bytes held.old) left
        → ¬ ((S.leaves source.old ≡ true) × M.IsDone m) → K.is_settled k left → S.fits s (P.unread p)
        → S.may_read_on s p }
    ensures ok { OnOk result (AnswersInput (λ input text. M.Finishes machine.old input text machine.new)
        (B.bytes batch.old) (prepend_known (S.begun source.old) (P.unread peer.old))
        (Moves (P.sent peer.old) (P.sent peer.new) (string_bytes held.old) (string_bytes held.new))) }
    ensures err { OnErr result (AnswersInput (M.AnswersAll machine.old)
        (B.bytes batch.old) (prepend_known (S.begun source.old) (P.unread peer.old))
        (λ text. AppendsPart (P.sent peer.old) (P.sent peer.new) (string_bytes held.old ++ text))) }
    ensures settled { OnOk result (K.is_settled sink.new (string_bytes held.new)) }
    ensures end { OnOk result (IsAtEnd (P.unread peer.new)
        ⊎ (M.IsDone machine.new × (S.leaves source.old ≡ true))) }
    ensures ends { Ends result (P.is_broken peer.old) (P.is_broken peer.new) }
{
    answer_batch(peer, machine, sink, batch, held)?;
    for _turn in rt.forever() {
        sink.settle(peer, held)?;
        if is_over(machine, source) {
            return Ok(());
        }
        let more = source.next(peer, batch)?;
        answer_batch(peer, machine, sink, batch, held)?;
        if !more {
            machine.finish(held)?;
            return sink.settle(peer, held);
        }
    }
    unreachable!()
}
