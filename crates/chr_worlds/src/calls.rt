//! Calls on a board, with values of their own.
ghost use Rattle.std.specs.Prelude.{◌≡◌, IfErr, IfOk, OnErr, OnOk};
ghost use Rattle.chr_replica.specs.Boards.{program_on};
ghost use Rattle.chr_replica.specs.Refusals.{RefusesShow};
ghost use Rattle.chr_replica.specs.Replicas.{IsSettled};
ghost use Rattle.chr_acts.specs.Events.{Does};
ghost use Rattle.chr_worlds.specs.Answers.{merged_answer, settled_answer, shown_answer, told_answer};
ghost use Rattle.chr_worlds.specs.working.Boards.{IsReplied};

use crate::refusal::{NotSettled, WorldRefusal};
use chr_acts::Act;
use chr_base::bag::Bag;
use chr_ops::{Added, Op};
use chr_replica::{Board, Refusal};
use std::alloc::{AllocError, Global};
use std::thread::Threads;

/// Tells a board an operation, which moves into it.
pub(crate) fn tell(
    alloc: Global,
    board: &mut Board,
    op: Op,
) -> Result<Result<Added, WorldRefusal>, AllocError>
    ensures program { board.new.accepted ≡ board.old.accepted }
    ensures ok { IfOk result (λ told. IsReplied (told_answer told)
        (λ x. Does (program_on board.old) board.old.replica (Act.Tell op) x board.new.replica)) }
    ensures err { OnErr result (board.new ≡ board.old) }
{
    match board.tell(alloc, op) {
        Ok(added) => Ok(Ok(added)),
        Err(refusal) => Ok(Err(WorldRefusal::by_replica(refusal)?)),
    }
}

/// Merges operations into those of a board.
pub(crate) fn merge(
    alloc: Global,
    board: &mut Board,
    ops: &[Op],
) -> Result<Result<u64, WorldRefusal>, AllocError>
    ensures program { board.new.accepted ≡ board.old.accepted }
    ensures ok { IfOk result (λ merged. IsReplied (merged_answer merged)
        (λ x. Does (program_on board.old) board.old.replica (Act.Merge ops.now) x board.new.replica)) }
    ensures err { OnErr result (board.new ≡ board.old) }
{
    match board.merge(alloc, ops) {
        Ok(count) => Ok(Ok(count)),
        Err(refusal) => Ok(Err(WorldRefusal::by_replica(refusal)?)),
    }
}

/// Rests a board's pool.
pub(crate) fn settle(board: &mut Board) -> Result<u64, NotSettled>
    ensures program { board.new.accepted ≡ board.old.accepted }
    ensures settled { IsReplied (settled_answer result)
        (λ x. Does (program_on board.old) board.old.replica Act.Settle x board.new.replica) }
{
    match board.settle() {
        Ok(steps) => Ok(steps),
        Err(stopped) => Err(NotSettled::Stopped(stopped.steps)),
    }
}

/// A board's pool, where it has settled, put in order by this number of threads at most.
fn pool<R: Threads + Sync>(
    rt: &R,
    alloc: Global,
    board: &Board,
    threads: usize,
) -> Result<Bag, Refusal>
    ensures ok { IfOk result (λ bag. bag ≡ board.now.replica.pool) }
    ensures settled { OnOk result (IsSettled (program_on board.now) board.now.replica) }
    ensures refused { IfErr result (RefusesShow (program_on board.now) board.now.replica) }
{
    if threads > 1 {
        board.show_by(rt, alloc)
    } else {
        board.show(alloc)
    }
}

/// Shows a board's pool, put in order by this number of threads at most.
pub(crate) fn show<R: Threads + Sync>(
    rt: &R,
    alloc: Global,
    board: &Board,
    threads: usize,
) -> Result<Result<Bag, WorldRefusal>, AllocError>
    ensures { IfOk result (λ shown. IsReplied (shown_answer shown)
        (λ x. Does (program_on board.now) board.now.replica Act.Show x board.now.replica)) }
{
    match pool(rt, alloc, board, threads) {
        Ok(bag) => Ok(Ok(bag)),
        Err(refusal) => Ok(Err(WorldRefusal::by_replica(refusal)?)),
    }
}
