//! Acts, carried out on boards.
ghost use Rattle.std.specs.Prelude.{◌≡◌, ◌≤◌, IfOk, OnErr};
ghost use Rattle.chr_base.specs.declared.limits.TheConstants.{MAX_PARTS};
ghost use Rattle.chr_replica.specs.Boards.{program_on};
ghost use Rattle.chr_acts.specs.Acts.{FitsAct, TakesNoParts};
ghost use Rattle.chr_acts.specs.Replies.{TakesNoMemory};
ghost use Rattle.chr_acts.specs.Events.{Does};

use crate::act::Act;
use crate::lists::{LeaseList, OpList};
use crate::reply::Reply;
use chr_base::bag::Bag;
use chr_base::derivation::Step;
use chr_join::{Done, Lease};
use chr_ops::{Op, Summary};
use chr_replica::Board;
use std::alloc::{AllocError, Global};
use std::thread::Threads;

/// Tells a board an operation, which moves into it. It is [`Act::Tell`], without a copy.
///
/// # Errors
/// Where memory is refused. The board is as it was.
pub fn tell(alloc: Global, board: &mut Board, op: Op) -> Result<Reply, AllocError>
    ensures program { board.new.accepted ≡ board.old.accepted }
    ensures ok { IfOk result (λ reply.
        Does (program_on board.old) board.old.replica (Act.Tell op) reply board.new.replica) }
    ensures no_memory { IfOk result TakesNoMemory }
    ensures err { OnErr result (board.new ≡ board.old) }
{
    match board.tell(alloc, op) {
        Ok(added) => Ok(Reply::Told(added)),
        Err(refusal) => Reply::refused(refusal),
    }
}

/// Merges operations into those of a board. It is [`Act::Merge`], without a list of their own.
///
/// # Errors
/// Where memory is refused. The board is as it was.
pub fn merge(alloc: Global, board: &mut Board, ops: &[Op]) -> Result<Reply, AllocError>
    ensures program { board.new.accepted ≡ board.old.accepted }
    ensures ok { IfOk result (λ reply.
        Does (program_on board.old) board.old.replica (Act.Merge ops.now) reply board.new.replica) }
    ensures no_memory { IfOk result TakesNoMemory }
    ensures err { OnErr result (board.new ≡ board.old) }
{
    match board.merge(alloc, ops) {
        Ok(count) => Ok(Reply::Merged(count)),
        Err(refusal) => Reply::refused(refusal),
    }
}

fn take_step(board: &mut Board, step: &Step) -> Result<Reply, AllocError>
    ensures program { board.new.accepted ≡ board.old.accepted }
    ensures ok { IfOk result (λ reply.
        Does (program_on board.old) board.old.replica (Act.Step step.now) reply board.new.replica) }
    ensures no_memory { IfOk result TakesNoMemory }
    ensures err { OnErr result (board.new ≡ board.old) }
{
    match board.step(step) {
        Ok(()) => Ok(Reply::Stepped),
        Err(refusal) => Reply::refused(refusal),
    }
}

fn take(alloc: Global, board: &mut Board, part: &Bag) -> Result<Reply, AllocError>
    ensures program { board.new.accepted ≡ board.old.accepted }
    ensures ok { IfOk result (λ reply.
        Does (program_on board.old) board.old.replica (Act.Take part.now) reply board.new.replica) }
    ensures err { OnErr result (board.new ≡ board.old) }
{
    match board.take(alloc, part) {
        Ok(lease) => Ok(Reply::Leased(lease)),
        Err(refusal) => Reply::refused(refusal),
    }
}

fn take_parts(alloc: Global, board: &mut Board, count: u32) -> Result<Reply, AllocError>
    requires { (1 ≤ count) × (count ≤ MAX_PARTS) }
    ensures program { board.new.accepted ≡ board.old.accepted }
    ensures ok { IfOk result (λ reply.
        Does (program_on board.old) board.old.replica (Act.TakeParts count) reply board.new.replica) }
    ensures err { OnErr result (board.new ≡ board.old) }
{
    match board.take_parts(alloc, count) {
        Ok(leases) => Ok(Reply::LeasedParts(LeaseList::of(leases))),
        Err(refusal) => Reply::refused(refusal),
    }
}

fn put(alloc: Global, board: &mut Board, done: &Done) -> Result<Reply, AllocError>
    ensures program { board.new.accepted ≡ board.old.accepted }
    ensures ok { IfOk result (λ reply.
        Does (program_on board.old) board.old.replica (Act.Put done.now) reply board.new.replica) }
    ensures no_memory { IfOk result TakesNoMemory }
    ensures err { OnErr result (board.new ≡ board.old) }
{
    match board.put(done.copy(alloc)?) {
        Ok(()) => Ok(Reply::WasPut),
        Err(not_put) => Reply::refused(not_put.refusal),
    }
}

fn recall(board: &mut Board, number: u64) -> Result<Reply, AllocError>
    ensures program { board.new.accepted ≡ board.old.accepted }
    ensures ok { IfOk result (λ reply.
        Does (program_on board.old) board.old.replica (Act.Recall number) reply board.new.replica) }
    ensures no_memory { IfOk result TakesNoMemory }
    ensures err { OnErr result (board.new ≡ board.old) }
{
    match board.recall(number) {
        Ok(()) => Ok(Reply::Recalled),
        Err(refusal) => Reply::refused(refusal),
    }
}

/// Rests a board's pool. It is [`Act::Settle`]: where memory is refused, that is the reply, and the steps up to there
/// stand.
pub fn settle(board: &mut Board) -> Reply
    ensures program { board.new.accepted ≡ board.old.accepted }
    ensures does { Does (program_on board.old) board.old.replica Act.Settle result board.new.replica }
    ensures no_memory { TakesNoMemory result }
{
    match board.settle() {
        Ok(steps) => Reply::Settled(steps),
        Err(stopped) => Reply::Stopped(stopped.steps),
    }
}

/// Shows a board's pool. It is [`Act::Show`].
///
/// # Errors
/// Where memory is refused.
pub fn show(alloc: Global, board: &Board) -> Result<Reply, AllocError>
    ensures { IfOk result (λ reply.
        Does (program_on board.now) board.now.replica Act.Show reply board.now.replica) }
{
    match board.show(alloc) {
        Ok(bag) => Ok(Reply::Shown(bag)),
        Err(refusal) => Reply::refused(refusal),
    }
}

/// Like [`show`], but several threads put the pool in order.
///
/// # Errors
/// Where memory is refused.
pub fn show_by<R: Threads + Sync>(rt: &R, alloc: Global, board: &Board) -> Result<Reply, AllocError>
    ensures { IfOk result (λ reply.
        Does (program_on board.now) board.now.replica Act.Show reply board.now.replica) }
{
    match board.show_by(rt, alloc) {
        Ok(bag) => Ok(Reply::Shown(bag)),
        Err(refusal) => Reply::refused(refusal),
    }
}

/// Tells which ids a board's operations have. It is [`Act::Summary`].
///
/// # Errors
/// Where memory is refused.
pub fn summary(alloc: Global, board: &Board) -> Result<Reply, AllocError>
    ensures { IfOk result (λ reply.
        Does (program_on board.now) board.now.replica Act.Summary reply board.now.replica) }
{
    Ok(Reply::Summed(board.summary(alloc)?))
}

/// Tells a board's operations whose ids a summary does not cover. It is [`Act::Lacks`].
///
/// # Errors
/// Where memory is refused.
pub fn lacks(alloc: Global, board: &Board, summary: &Summary) -> Result<Reply, AllocError>
    ensures { IfOk result (λ reply.
        Does (program_on board.now) board.now.replica (Act.Lacks summary.now) reply board.now.replica) }
{
    Ok(Reply::Lacked(OpList::of(board.lacks(alloc, summary)?)))
}

fn least_lease(board: &Board) -> Reply
    ensures does { Does (program_on board.now) board.now.replica Act.LeastLease result board.now.replica }
    ensures no_memory { TakesNoMemory result }
{
    Reply::LeastLease(board.least_lease())
}

/// Carries an act out on a board. A refusal is a reply, and leaves the board as it was. Of a `settle` that was stopped
/// the reply says so, and its steps stand.
///
/// # Errors
/// Where memory is refused to any act but a `settle`. The board is as it was.
pub fn carry_out(alloc: Global, board: &mut Board, act: &Act) -> Result<Reply, AllocError>
    requires { FitsAct act.now }
    ensures program { board.new.accepted ≡ board.old.accepted }
    ensures ok { IfOk result (λ reply.
        Does (program_on board.old) board.old.replica act.now reply board.new.replica) }
    ensures err { OnErr result (board.new ≡ board.old) }
{
    match act {
        Act::Tell(op) => tell(alloc, board, op.copy(alloc)?),
        Act::Merge(ops) => merge(alloc, board, ops.as_slice()),
        Act::Step(step) => take_step(board, step),
        Act::Take(part) => take(alloc, board, part),
        Act::TakeParts(parts) => take_parts(alloc, board, *parts),
        Act::Put(done) => put(alloc, board, done),
        Act::Recall(number) => recall(board, *number),
        Act::Settle => Ok(settle(board)),
        Act::Show => show(alloc, board),
        Act::Summary => summary(alloc, board),
        Act::Lacks(ids) => lacks(alloc, board, ids),
        Act::LeastLease => Ok(least_lease(board)),
    }
}

/// Two equal replies, of one that takes no memory.
fn with_copy(reply: Reply) -> (Reply, Reply)
    requires { TakesNoMemory reply }
    ensures reply { result.0 ≡ reply }
    ensures copy { result.1 ≡ reply }
{
    let copy = reply.again();
    (reply, copy)
}

/// Two equal replies, of which one is a copy.
fn with_new_copy(alloc: Global, reply: Reply) -> Result<(Reply, Reply), AllocError>
    ensures reply { IfOk result (λ replies. replies.0 ≡ reply) }
    ensures copy { IfOk result (λ replies. replies.1 ≡ reply) }
{
    let copy = reply.copy(alloc)?;
    Ok((reply, copy))
}

/// Leases a part out, with two equal replies.
fn take_with_copy(
    alloc: Global,
    board: &mut Board,
    part: &Bag,
) -> Result<(Reply, Reply), AllocError>
    ensures program { board.new.accepted ≡ board.old.accepted }
    ensures ok { IfOk result (λ replies.
        Does (program_on board.old) board.old.replica (Act.Take part.now) replies.0 board.new.replica) }
    ensures same { IfOk result (λ replies. replies.1 ≡ replies.0) }
    ensures err { OnErr result (board.new ≡ board.old) }
{
    let spare = part.copy(alloc)?;
    match board.take(alloc, part) {
        Ok(lease) => {
            let copy = Lease {
                number: lease.number,
                part: spare,
            };
            Ok((Reply::Leased(lease), Reply::Leased(copy)))
        }
        Err(refusal) => Ok(with_copy(Reply::refused(refusal)?)),
    }
}

/// Carries an act out on a board, like [`carry_out`], but answers two equal replies. The second is made before the
/// board changes, or where it does not change.
///
/// # Errors
/// Where memory is refused to any act but a `settle`. The board is as it was.
pub(crate) fn carry_out_with_copy(
    alloc: Global,
    board: &mut Board,
    act: &Act,
) -> Result<(Reply, Reply), AllocError>
    requires { TakesNoParts act.now }
    ensures program { board.new.accepted ≡ board.old.accepted }
    ensures ok { IfOk result (λ replies.
        Does (program_on board.old) board.old.replica act.now replies.0 board.new.replica) }
    ensures same { IfOk result (λ replies. replies.1 ≡ replies.0) }
    ensures err { OnErr result (board.new ≡ board.old) }
{
    match act {
        Act::Tell(op) => Ok(with_copy(tell(alloc, board, op.copy(alloc)?)?)),
        Act::Merge(ops) => Ok(with_copy(merge(alloc, board, ops.as_slice())?)),
        Act::Step(step) => Ok(with_copy(take_step(board, step)?)),
        Act::Take(part) => take_with_copy(alloc, board, part),
        Act::TakeParts(_) => unreachable!(),
        Act::Put(done) => Ok(with_copy(put(alloc, board, done)?)),
        Act::Recall(number) => Ok(with_copy(recall(board, *number)?)),
        Act::Settle => Ok(with_copy(settle(board))),
        Act::Show => with_new_copy(alloc, show(alloc, board)?),
        Act::Summary => with_new_copy(alloc, summary(alloc, board)?),
        Act::Lacks(ids) => with_new_copy(alloc, lacks(alloc, board, ids)?),
        Act::LeastLease => Ok(with_copy(least_lease(board))),
    }
}
