//! A board comes to rest by workers.
ghost use Rattle.std.specs.Prelude.{◌≡◌, ◌≤◌, OnOk};
ghost use Rattle.chr_base.specs.declared.limits.TheConstants.{MAX_PARTS, MAX_WORKERS};
ghost use Rattle.chr_replica.specs.Boards.{program_on};
ghost use Rattle.chr_replica.specs.Replicas.{IsSettled, IsSound};

use chr_replica::Board;
use chr_workers::{OpenGate, recall_all, rest_board};
use std::alloc::{AllocError, Global};
use std::sync::Wait;
use std::thread::Threads;

/// Rests a board's pool with all parts that were out.
pub(crate) fn rest<R: Threads + Wait + Sync>(
    rt: &R,
    alloc: Global,
    board: &mut Board,
    workers: u32,
    parts: u32,
) -> Result<(), AllocError>
    requires workers { (1 ≤ workers) × (workers ≤ MAX_WORKERS) }
    requires parts { (1 ≤ parts) × (parts ≤ MAX_PARTS) }
    ensures program { board.new.accepted ≡ board.old.accepted }
    ensures operations { board.new.replica.operations ≡ board.old.replica.operations }
    ensures sound { IsSound (program_on board.old) board.new.replica }
    ensures settled { OnOk result (IsSettled (program_on board.old) board.new.replica) }
{
    let recalled = recall_all(board);
    board.is_sound();
    recalled?;
    rest_board(rt, alloc, board, workers, parts, &OpenGate)
}
