//! Boards rested by workers.
ghost use Rattle.std.specs.Prelude.{◌≡◌, ◌≤◌, ◌⊎◌, IfOk, OnOk};
ghost use Rattle.std.specs.FinMap as map;
ghost use Rattle.chr_base.specs.declared.limits.TheConstants.{MAX_PARTS, MAX_WORKERS};
ghost use Rattle.chr_base.specs.Programs.{rules_of};
ghost use Rattle.chr_join.specs.Parts.{IsOnlyNormalForm};
ghost use Rattle.chr_ops.specs.Operations.{told_store};
ghost use Rattle.chr_replica.specs.Boards.{program_on};
ghost use Rattle.chr_replica.specs.Replicas.{IsSettled, IsSound};
ghost use Rattle.chr_workers.specs.InParts.{RestsInParts, LacksNumbers};
ghost use Rattle.chr_workers.specs.Kept.{IsKeptBy};

use crate::gate::Gate;
use crate::parts::{Parts, rest_parts};
use crate::returning::{hasten, put_results, recall_all, rest};
use chr_base::limits::{MAX_PARTS, MAX_WORKERS};
use chr_replica::laws::one_answer;
use chr_replica::{Board, Refusal};
use std::alloc::{AllocError, Global};
use std::sync::Wait;
use std::thread::Threads;

/// The most waiting atoms with which the pool is settled at once: threads would cost more than they save.
const FEW_ATOMS: u64 = 1024;

/// Whether threads may save time.
fn is_worth_sharing(board: &Board, workers: u32) -> bool {
    workers > 1 && board.waiting() as u64 > FEW_ATOMS
}

/// Whether a pool that is not kept in several may be rested in parts. All of it is cut and put together again, so this
/// pays only where more than a quarter of the told atoms wait.
fn is_worth_cutting(board: &Board, parts: u32) -> bool {
    parts > 1 && board.waiting() as u64 > board.ops().told() / 4
}

/// Leases the whole pool of a board out in `parts` parts, 1 to [`MAX_PARTS`]. `workers` workers, 1 to [`MAX_WORKERS`],
/// claim and rest them in threads, of which the caller's is one; a worker that cannot be started is left out. What came
/// of the parts is put, and parts whose resting was refused memory are recalled. It answers how many came back rested:
/// none, and nothing happens, where the lease numbers don't suffice.
///
/// # Errors
/// Where memory is refused. Leases may be out then.
pub fn rest_in_parts<R: Threads + Wait + Sync, G: Gate>(
    rt: &R,
    alloc: Global,
    board: &mut Board,
    workers: u32,
    parts: u32,
    gate: &G,
) -> Result<usize, AllocError>
    requires out { board.old.replica.out ≡ map.empty }
    requires workers { (1 ≤ workers) × (workers ≤ MAX_WORKERS) }
    requires parts { (1 ≤ parts) × (parts ≤ MAX_PARTS) }
    ensures kept { IsKeptBy board.old board.new }
    ensures out { OnOk result (board.new.replica.out ≡ map.empty) }
    ensures rested { IfOk result (λ n.
        RestsInParts (program_on board.old) board.old.replica parts n board.new.replica
        ⊎ LacksNumbers board.old.replica parts n board.new.replica) }
{
    let places = Parts::open(alloc, parts, workers)?;
    let leases = match board.take_parts(alloc, parts) {
        Ok(leases) => leases,
        Err(Refusal::Full(_)) => return Ok(0),
        Err(_) => return Err(AllocError),
    };
    let results = rest_parts(rt, alloc, board.program(), places, leases, gate);
    let rested = put_results(board, results);
    recall_all(board)?;
    Ok(rested)
}

/// Looks into a board that has settled, for the contract alone.
fn has_the_answer(board: &Board)
    requires { IsSettled (program_on board.now) board.now.replica }
    ensures { IsOnlyNormalForm (rules_of (program_on board.now))
        (told_store board.now.replica.operations) board.now.replica.pool }
{
    one_answer();
    board.is_sound();
    board.program().weighed();
}

/// Rests by workers what they can: the pools of a board that has several, and else parts that are leased out.
fn rest_shared<R: Threads + Wait + Sync, G: Gate>(
    rt: &R,
    alloc: Global,
    board: &mut Board,
    workers: u32,
    parts: u32,
    gate: &G,
) -> Result<(), AllocError>
    requires out { board.old.replica.out ≡ map.empty }
    requires workers { (1 ≤ workers) × (workers ≤ MAX_WORKERS) }
    requires parts { (1 ≤ parts) × (parts ≤ MAX_PARTS) }
    ensures kept { IsKeptBy board.old board.new }
    ensures out { OnOk result (board.new.replica.out ≡ map.empty) }
{
    if !is_worth_sharing(board, workers) {
        return Ok(());
    }
    if board.pools() > 1 {
        hasten(rt, board, workers);
    } else if is_worth_cutting(board, parts) {
        rest_in_parts(rt, alloc, board, workers, parts, gate)?;
    }
    Ok(())
}

/// Rests the pool by workers, and then what they left by this thread.
fn rest_all<R: Threads + Wait + Sync, G: Gate>(
    rt: &R,
    alloc: Global,
    board: &mut Board,
    workers: u32,
    parts: u32,
    gate: &G,
) -> Result<(), AllocError>
    requires out { board.old.replica.out ≡ map.empty }
    requires workers { (1 ≤ workers) × (workers ≤ MAX_WORKERS) }
    requires parts { (1 ≤ parts) × (parts ≤ MAX_PARTS) }
    ensures kept { IsKeptBy board.old board.new }
    ensures settled { OnOk result (IsSettled (program_on board.old) board.new.replica) }
{
    rest_shared(rt, alloc, board, workers, parts, gate)?;
    rest(board)
}

/// Rests a board of which no lease is out. The pool is taken in `parts` parts, 1 to [`MAX_PARTS`], which `workers`
/// workers, 1 to [`MAX_WORKERS`], claim and rest in threads, of which the caller's is one; a worker that cannot be
/// started is left out. What came of the parts is put, and the rest is settled. A board that is kept in several pools
/// is not taken apart: `workers` threads rest these where they lie. The pool is then the one normal form of what was
/// told, whatever the workers did.
///
/// The pool is settled at once where lease numbers are used up, and where parts would save no time: with one worker or
/// one part, or where few atoms wait to be looked at, as in a board that was at rest before the last ones came in.
///
/// # Errors
/// Where memory is refused. Leases may be out then: [`Board::least_lease`] and [`Board::recall`] bring all back.
pub fn rest_board<R: Threads + Wait + Sync, G: Gate>(
    rt: &R,
    alloc: Global,
    board: &mut Board,
    workers: u32,
    parts: u32,
    gate: &G,
) -> Result<(), AllocError>
    requires out { board.old.replica.out ≡ map.empty }
    requires workers { (1 ≤ workers) × (workers ≤ MAX_WORKERS) }
    requires parts { (1 ≤ parts) × (parts ≤ MAX_PARTS) }
    ensures kept { IsKeptBy board.old board.new }
    ensures sound { IsSound (program_on board.old) board.new.replica }
    ensures settled { OnOk result (IsSettled (program_on board.old) board.new.replica) }
    ensures answer { OnOk result (IsOnlyNormalForm (rules_of (program_on board.old))
        (told_store board.old.replica.operations) board.new.replica.pool) }
{
    let rested = rest_all(rt, alloc, board, workers, parts, gate);
    board.is_sound();
    rested?;
    has_the_answer(board);
    Ok(())
}
