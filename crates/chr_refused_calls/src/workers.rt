//! Workers rest boards. Where memory is refused to that, the boards are recovered.
use crate::boards::grow;
use crate::printing::{answer_memory, call, print_bag, print_board, print_leases, print_set};
use crate::sets::minima;
use crate::texts::accepted_of;
use chr_replica::Board;
use chr_testing::texts::MINIMUM;
use chr_workers::{OpenGate, rest_board};
use std::alloc::Global;
use std::sync::Wait;
use std::thread::Threads;

/// How many atoms the board was told.
#[derive(Clone, Copy)]
pub enum Told {
    Few,
    /// More than are settled at once.
    Many,
}

const WORKERS: u32 = 2;

const PARTS: u32 = 3;

/// Operations of 64 equal atoms each, of which the last ones are the least.
const OPERATIONS: u8 = 20;

fn prepare(alloc: Global, board: &mut Board, told: Told) {
    match told {
        Told::Few => grow(alloc, board, minima(alloc, 1, 1, &[5, 3, 9])),
        Told::Many => {
            for number in 0..OPERATIONS {
                let value = i64::from(number).wrapping_sub(22).wrapping_neg();
                let op = minima(alloc, 1, u64::from(number), &[value; 64]);
                grow(alloc, board, op);
            }
        }
    }
}

fn opened(rt: &(impl Threads + Sync), alloc: Global, told: Told) -> Option<Board> {
    let mut board = Board::open(alloc, accepted_of(rt, alloc, MINIMUM)?).ok()?;
    prepare(alloc, &mut board, told);
    Some(board)
}

fn rest(rt: &(impl Print + Threads + Wait + Sync), alloc: Global, board: &mut Board) {
    if board.least_lease().is_none() {
        call(rt);
        let rested = rest_board(rt, alloc, board, WORKERS, PARTS, &OpenGate);
        answer_memory(rt, rested.is_err());
    }
}

/// Recalls all leases, and prints what the board then shows.
fn recover(rt: &impl Print, alloc: Global, board: &mut Board) {
    print_set(rt, alloc, board.program().program(), board.ops());
    print_leases(rt, alloc, board);
    let _ = board.settle();
    if let Ok(shown) = board.show(alloc) {
        print_bag(rt, alloc, board.program().program(), "shown", &shown);
    }
}

pub fn make(rt: &(impl Print + Threads + Wait + Sync), alloc: Global, told: Told) -> Option<()> {
    print_board(rt, alloc, &mut opened(rt, alloc, told)?);
    let mut board = opened(rt, alloc, told)?;
    rest(rt, alloc, &mut board);
    recover(rt, alloc, &mut board);
    Some(())
}
