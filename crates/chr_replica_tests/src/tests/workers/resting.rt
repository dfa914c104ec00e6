//! Boards are rested.
ghost use Rattle.std.specs.Prelude.{◌≡◌, ◌≤◌, true};

use crate::tests::gates::{Holds, Notes};
use crate::tests::workers::making::{board, leasts, tell};
use chr_base::limits::{MAX_PARTS, MAX_WORKERS};
use chr_replica::Board;
use chr_workers::{Gate, OpenGate, rest_board, rest_in_parts};
use std::alloc::Global;
use std::process::Abort;
use std::sync::Wait;
use std::thread::Threads;

/// This many operations tell more atoms than are settled at once.
const MANY: u32 = 20;

/// This many operations tell no more atoms than are settled at once.
const FEW: u32 = 16;

/// One operation tells so few atoms that they are settled at once, unless parts are asked for.
const ONE: u32 = 1;

/// Whether a number is one of 1 to a limit.
fn fits(number: u32, most: u32) -> bool
    ensures { result ≡ true → (1 ≤ number) × (number ≤ most) }
{
    number >= 1 && number <= most
}

/// Rests a board of which no lease is out.
fn rest<R: Abort + Threads + Wait + Sync, G: Gate>(
    rt: &R,
    alloc: Global,
    board: &mut Board,
    workers: u32,
    parts: u32,
    gate: &G,
) {
    if board.least_lease().is_some() || !fits(workers, MAX_WORKERS) || !fits(parts, MAX_PARTS) {
        panic!(rt; "a lease is out, or a number is past its limit");
    }
    let rested = rest_board(rt, alloc, board, workers, parts, gate);
    assert!(rt; rested.is_ok(), "{workers} workers, {parts} parts");
}

/// The board holds `operations` operations, and shows the least value of each key.
fn shows(rt: &impl Abort, alloc: Global, board: &Board, operations: u32) {
    let shown = board.show(alloc).ok().expect(rt, "a settled board");
    assert!(rt; shown.is_same(&leasts(rt, alloc, operations)));
    assert!(rt; board.ops().told() == u64::from(operations) * 64);
}

/// Numbers of workers and of parts, and how many of these parts pass a gate.
const SHARED: [(u32, u32, u32); 9] = [
    (1, 1, 0),
    (1, 64, 0),
    (2, 1, 0),
    (2, 3, 3),
    (2, 64, 64),
    (4, 2, 2),
    (4, 16, 16),
    (16, 3, 3),
    (16, 64, 64),
];

/// `workers` workers come to the store that a plain loop finds of what `operations` operations told. Each part that
/// they rest passes the gate once, under its number.
fn come_to_the_least<R: Abort + Threads + Wait + Sync>(
    rt: &R,
    alloc: Global,
    operations: u32,
    workers: u32,
    parts: u32,
    passes: u32,
) {
    let mut board = board(rt, alloc, operations);
    let gate = Notes::new();
    rest(rt, alloc, &mut board, workers, parts, &gate);
    assert!(rt; gate.have(passes), "{workers} workers, {parts} parts");
    shows(rt, alloc, &board, operations);
}

#[test]
fn workers_come_to_the_least(rt: HostRuntime) {
    for (workers, parts, passes) in SHARED {
        come_to_the_least(&rt, rt.alloc(), MANY, workers, parts, passes);
    }
    come_to_the_least(&rt, rt.alloc(), FEW, 4, 16, 0);
}

/// The gate holds part 1 until part 2 has passed: it would give up if one worker came after the other.
#[test]
fn two_workers_rest_two_parts_at_once(rt: HostRuntime) {
    let mut board = board(&rt, rt.alloc(), MANY);
    let gate = Holds::new(1);
    rest(&rt, rt.alloc(), &mut board, 2, 2, &gate);
    assert!(rt; gate.has_seen_both());
    shows(&rt, rt.alloc(), &board, MANY);
}

/// With ample memory all parts come back rested, so that the workers were of use.
#[test]
fn all_parts_come_back_rested(rt: HostRuntime) {
    let mut board = board(&rt, rt.alloc(), ONE);
    assert!(rt; board.pools() == 1 && board.least_lease().is_none());
    let rested = rest_in_parts(&rt, rt.alloc(), &mut board, 2, 4, &OpenGate);
    assert!(rt; rested.ok() == Some(4));
    rest(&rt, rt.alloc(), &mut board, 1, 1, &OpenGate);
    shows(&rt, rt.alloc(), &board, ONE);
}

/// Where the pool was at rest before few atoms came in, it is not cut.
#[test]
fn a_pool_at_rest_is_not_cut_again(rt: HostRuntime) {
    let mut board = board(&rt, rt.alloc(), MANY);
    rest(&rt, rt.alloc(), &mut board, 4, 16, &OpenGate);
    tell(&rt, rt.alloc(), &mut board, MANY);
    let gate = Notes::new();
    rest(&rt, rt.alloc(), &mut board, 4, 16, &gate);
    assert!(rt; gate.have(0));
    shows(&rt, rt.alloc(), &board, MANY + 1);
}
