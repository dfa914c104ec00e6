//! Leases that come back to their board.
ghost use Rattle.std.specs.Prelude.{◌≡◌, ◌≤◌, ℕ, OnOk};
ghost use Rattle.std.specs.Bool.{OnTrue, OnFalse};
ghost use Rattle.std.specs.FinMap as map;
ghost use Rattle.chr_base.specs.Rules.{Step};
ghost use Rattle.chr_base.specs.Programs.{rules_of};
ghost use Rattle.chr_base.specs.Rewriting.{IsAtRest};
ghost use Rattle.chr_replica.specs.Boards.{program_on};
ghost use Rattle.chr_workers.specs.InParts.{PutsRested, PutsEach, RecallsEach};
ghost use Rattle.chr_workers.specs.Kept.{IsKeptBy};

use crate::rested::Rested;
use chr_replica::Board;
use std::alloc::AllocError;
use std::sync::Mutex;
use std::thread::Threads;

/// Puts one result, which is at rest. Answers whether there was one, and it was not refused.
fn put_one(board: &mut Board, rested: Option<Rested>) -> bool
    ensures kept { IsKeptBy board.old board.new }
    ensures put { OnTrue result (PutsRested (program_on board.old) board.old.replica board.new.replica) }
    ensures same { OnFalse result (board.new ≡ board.old) }
{
    match rested {
        Some(rested) => board.put(rested.done).is_ok(),
        None => false,
    }
}

/// Puts all results that are there, and answers how many were not refused.
pub(crate) fn put_results(board: &mut Board, results: Vec<Mutex<Option<Rested>>>) -> usize
    ensures kept { IsKeptBy board.old board.new }
    ensures puts { PutsEach (program_on board.old) result board.old.replica board.new.replica }
{
    let mut results = results;
    let mut count = 0;
    while let Some(cell) = results.pop() {
        if put_one(board, cell.into_inner()) {
            count += 1;
        }
    }
    count
}

/// Takes steps in the pools of a board by `workers` threads.
pub(crate) fn hasten<R: Threads + Sync>(rt: &R, board: &mut Board, workers: u32)
    requires { 1 ≤ workers }
    ensures kept { IsKeptBy board.old board.new }
    ensures out { board.new.replica.out ≡ board.old.replica.out }
{
    board.hasten(rt, workers as usize);
}

/// Takes all leased parts of a board back into its pool as they are. What comes of their leases later is refused.
///
/// # Errors
/// Where memory is refused. Some leases may be out then.
pub fn recall_all(board: &mut Board) -> Result<(), AllocError>
    ensures kept { IsKeptBy board.old board.new }
    ensures recalls { OnOk result ((n : ℕ) × RecallsEach n board.old.replica board.new.replica) }
    ensures out { OnOk result (board.new.replica.out ≡ map.empty) }
{
    while let Some(number) = board.least_lease() {
        if board.recall(number).is_err() {
            return Err(AllocError);
        }
    }
    Ok(())
}

/// Rests the pool.
pub(crate) fn rest(board: &mut Board) -> Result<(), AllocError>
    ensures kept { IsKeptBy board.old board.new }
    ensures out { board.new.replica.out ≡ board.old.replica.out }
    ensures rests { OnOk result (IsAtRest (Step (rules_of (program_on board.old))) board.new.replica.pool) }
{
    match board.settle() {
        Ok(_) => Ok(()),
        Err(_) => Err(AllocError),
    }
}
