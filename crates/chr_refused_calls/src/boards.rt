//! Calls of boards.
use crate::pools::EIGHT;
use crate::printing::{answer, call, count, print_bag, print_board, print_done};
use crate::sets::{Minima, minima, operations};
use crate::texts::{accepted_of, op_of};
use chr_base::bag::Bag;
use chr_ops::Op;
use chr_replica::{Board, Refusal};
use chr_testing::atoms::bag_of_values;
use chr_testing::texts::{MINIMUM, step_of, store_of};
use std::alloc::Global;
use std::thread::Threads;

#[derive(Clone, Copy)]
pub enum BoardCall {
    Tell,
    Merge,
    Step,
    Take,
    TakeParts,
    Recall,
    Put,
    Show,
    Settle,
    SettleOnceMore,
}

/// Tells the board an operation, where there is one.
pub fn grow(alloc: Global, board: &mut Board, op: Option<Op>) {
    if let Some(op) = op {
        let _ = board.tell(alloc, op);
    }
}

/// Leases a part out, where there is one.
fn lease(alloc: Global, board: &mut Board, part: Option<Bag>) {
    if let Some(part) = part {
        let _ = board.take(alloc, &part);
    }
}

/// Tells the board three operations, of which two atoms are leased out. The last operation comes after that, so that
/// there is no room left for what comes back.
fn lease_two(alloc: Global, board: &mut Board) {
    grow(alloc, board, minima(alloc, 1, 1, &[5, 3, 9]));
    grow(alloc, board, minima(alloc, 2, 7, &[7]));
    lease(alloc, board, bag_of_values(alloc, &[9, 7]).ok());
    grow(alloc, board, minima(alloc, 2, 8, &[8; 62]));
}

/// Tells the board three atoms that become eight each, and one more that is leased out.
fn lease_one(alloc: Global, board: &mut Board) {
    grow(alloc, board, op_of(alloc, EIGHT, 1, "a, a, a, b, a"));
    lease(alloc, board, store_of(alloc, EIGHT, "a"));
}

/// Tells the board what it is told before the call.
fn prepare(alloc: Global, board: &mut Board, made: BoardCall) {
    match made {
        BoardCall::Step | BoardCall::Settle => lease_one(alloc, board),
        BoardCall::TakeParts => grow(alloc, board, minima(alloc, 1, 1, &[5, 5, 5])),
        BoardCall::Show | BoardCall::SettleOnceMore => {
            grow(alloc, board, minima(alloc, 1, 1, &[5, 3, 9]));
            let _ = board.settle();
        }
        _ => lease_two(alloc, board),
    }
}

/// A board on which the call can be made.
fn opened(rt: &(impl Threads + Sync), alloc: Global, made: BoardCall) -> Option<Board> {
    let text = match made {
        BoardCall::Step | BoardCall::Settle => EIGHT,
        _ => MINIMUM,
    };
    let mut board = Board::open(alloc, accepted_of(rt, alloc, text)?).ok()?;
    prepare(alloc, &mut board, made);
    Some(board)
}

fn tell(rt: &impl Print, alloc: Global, board: &mut Board) {
    if let Some(op) = minima(alloc, 3, 1, &[8, 2]) {
        call(rt);
        answer(rt, board.tell(alloc, op).err());
    }
}

/// Operations of which the board holds the second.
const MERGED: [Minima; 3] = [(1, 2, &[1]), (2, 7, &[7]), (3, 1, &[8, 2])];

fn merge(rt: &impl Print, alloc: Global, board: &mut Board) {
    let ops = operations(alloc, &MERGED);
    call(rt);
    answer(rt, board.merge(alloc, &ops).err());
}

fn step(rt: &impl Print, alloc: Global, board: &mut Board) {
    if let Some(step) = step_of(alloc, EIGHT, 1, "a") {
        call(rt);
        answer(rt, board.step(&step).err());
    }
}

fn take(rt: &impl Print, alloc: Global, board: &mut Board) {
    if let Ok(part) = bag_of_values(alloc, &[5]) {
        call(rt);
        answer(rt, board.take(alloc, &part).err());
    }
}

fn take_parts(rt: &impl Print, alloc: Global, board: &mut Board) {
    call(rt);
    answer(rt, board.take_parts(alloc, 3).err());
}

fn recall(rt: &impl Print, board: &mut Board) {
    call(rt);
    answer(rt, board.recall(1).err());
}

/// Puts back what came of a lease. It is handed back where that is refused.
fn put(rt: &impl Print, alloc: Global, board: &mut Board) -> Option<()> {
    let lease = board.again(alloc, 1).ok()?;
    let done = board.program().rest_part(alloc, lease).ok()?;
    call(rt);
    match board.put(done) {
        Ok(()) => answer(rt, None),
        Err(not_put) => {
            answer(rt, Some(not_put.refusal));
            print_done(rt, alloc, board.program().program(), &not_put.done);
        }
    }
    Some(())
}

fn show(rt: &impl Print, alloc: Global, board: &Board) {
    call(rt);
    match board.show(alloc) {
        Ok(shown) => {
            answer(rt, None);
            print_bag(rt, alloc, board.program().program(), "shown", &shown);
        }
        Err(refusal) => answer(rt, Some(refusal)),
    }
}

fn settle(rt: &impl Print, board: &mut Board) {
    call(rt);
    match board.settle() {
        Ok(steps) => {
            answer(rt, None);
            count(rt, "steps", steps);
        }
        Err(stopped) => {
            answer(rt, Some(Refusal::Memory));
            count(rt, "steps", stopped.steps);
        }
    }
}

pub fn make(rt: &(impl Print + Threads + Sync), alloc: Global, made: BoardCall) -> Option<()> {
    print_board(rt, alloc, &mut opened(rt, alloc, made)?);
    let mut board = opened(rt, alloc, made)?;
    match made {
        BoardCall::Tell => tell(rt, alloc, &mut board),
        BoardCall::Merge => merge(rt, alloc, &mut board),
        BoardCall::Step => step(rt, alloc, &mut board),
        BoardCall::Take => take(rt, alloc, &mut board),
        BoardCall::TakeParts => take_parts(rt, alloc, &mut board),
        BoardCall::Recall => recall(rt, &mut board),
        BoardCall::Put => drop(put(rt, alloc, &mut board)),
        BoardCall::Show => show(rt, alloc, &board),
        BoardCall::Settle | BoardCall::SettleOnceMore => settle(rt, &mut board),
    }
    print_board(rt, alloc, &mut board);
    Some(())
}
