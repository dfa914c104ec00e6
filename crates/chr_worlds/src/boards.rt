//! The boards of a world: one of them changes, and the others stay as they are.
ghost use Rattle.std.specs.Prelude.{◌≡◌, ◌+◌, ◌<◌, ◌≤◌, ◌≢◌, IfErr, IfNone, IfOk, IfSome, OnErr, OnOk, length};
ghost use Rattle.std.specs.Prelude.{replicate};
ghost use Rattle.std.specs.Arc.{arc_value};
ghost use Rattle.chr_ops.specs.News.{LacksOnly};
ghost use Rattle.chr_replica.specs.Boards.{program_on};
ghost use Rattle.chr_replica.specs.Replicas.{first};
ghost use Rattle.chr_worlds.specs.Worlds.{Works};
ghost use Rattle.chr_worlds.specs.working.Boards.{AreLacked, IsWorked};

use chr_acts::Reply;
use chr_base::derivation::Step;
use chr_join::{Accepted, Done, StepFault};
use chr_ops::{Op, OpId, summaries_are_one};
use chr_replica::{Board, Refusal};
use std::alloc::{AllocError, Global};
use std::sync::Arc;

/// Opens `count` boards of a program that were told nothing.
pub(crate) fn opened(
    alloc: Global,
    accepted: &Arc<Accepted>,
    count: u32,
) -> Result<Vec<Board>, AllocError>
    ensures { IfOk result (λ boards.
        boards.items ≡ replicate count (record { accepted = arc_value accepted.now; replica = first })) }
{
    let mut boards = Vec::with_capacity(alloc, count as usize)?;
    for _number in 0..count {
        boards.push(Board::open(alloc, accepted.clone()?)?)?;
    }
    Ok(boards)
}

/// The place of the board of a number.
pub(crate) fn place_of(boards: &[Board], number: u64) -> Option<usize>
    ensures none { IfNone result (¬ ((0 < number) × (number ≤ length boards.now))) }
    ensures some { IfSome result (λ place. (number ≡ place + 1) × (place < length boards.now)) }
{
    let place = number.checked_sub(1)?;
    if place < boards.len() as u64 {
        Some(place as usize)
    } else {
        None
    }
}

/// What comes of the part that the board has out under a number, after these steps.
fn stepped(alloc: Global, board: &Board, number: u64, steps: &[Step]) -> Result<Done, Refusal>
    ensures ok { IfOk result (IsWorked (program_on board.now) board.now.replica number steps.now) }
    ensures refused { IfErr result (λ refusal. refusal ≢ Refusal.Memory →
        Works (program_on board.now) board.now.replica number steps.now (Reply.Refused refusal) board.now.replica) }
{
    let lease = board.again(alloc, number)?;
    match board.program().step_part(alloc, lease, steps) {
        Ok(done) => Ok(done),
        Err(not_stepped) => Err(match not_stepped.fault {
            StepFault::NotThere(_) => Refusal::NotThere,
            StepFault::Memory => Refusal::Memory,
        }),
    }
}

/// Takes these steps on the part that the board has out under a number, and puts back what comes of it.
fn put_stepped(alloc: Global, board: &mut Board, number: u64, steps: &[Step]) -> Result<(), Refusal>
    ensures program { board.new.accepted ≡ board.old.accepted }
    ensures ok { OnOk result (
        Works (program_on board.old) board.old.replica number steps.now Reply.WasPut board.new.replica) }
    ensures refused { IfErr result (λ refusal. refusal ≢ Refusal.Memory →
        Works (program_on board.old) board.old.replica number steps.now (Reply.Refused refusal) board.old.replica) }
    ensures err { OnErr result (board.new ≡ board.old) }
{
    let done = stepped(alloc, board, number, steps)?;
    match board.put(done) {
        Ok(()) => Ok(()),
        Err(not_put) => Err(not_put.refusal),
    }
}

/// Takes these steps on the part that the board has out under a number, puts back what comes of it, and answers with
/// what is refused. Where memory is refused nothing changes.
pub(crate) fn work(
    alloc: Global,
    board: &mut Board,
    number: u64,
    steps: &[Step],
) -> Result<Reply, AllocError>
    ensures program { board.new.accepted ≡ board.old.accepted }
    ensures ok { IfOk result (λ reply.
        Works (program_on board.old) board.old.replica number steps.now reply board.new.replica) }
    ensures err { OnErr result (board.new ≡ board.old) }
{
    match put_stepped(alloc, board, number, steps) {
        Ok(()) => Ok(Reply::WasPut),
        Err(refusal) => Reply::refused(refusal),
    }
}

/// What the first board holds and the second lacks.
pub(crate) fn lacked(alloc: Global, giver: &Board, taker: &Board) -> Result<Vec<Op>, AllocError>
    ensures { IfOk result (λ ops. AreLacked giver.now.replica.operations taker.now.replica.operations ops.items) }
{
    let summary = taker.summary(alloc)?;
    giver.lacks(alloc, &summary)
}

/// What the first board holds and the second lacks, where it lacks no other ids than these. It costs look-ups for these
/// ids alone.
pub(crate) fn lacked_among(
    alloc: Global,
    giver: &Board,
    taker: &Board,
    ids: &[OpId],
) -> Result<Vec<Op>, AllocError>
    requires { LacksOnly giver.now.replica.operations taker.now.replica.operations ids.now }
    ensures { IfOk result (λ ops. AreLacked giver.now.replica.operations taker.now.replica.operations ops.items) }
{
    summaries_are_one();
    giver.ops().lacked_among(alloc, taker.ops(), ids)
}
