//! Boards that were told many atoms, and what they come to.
use crate::tests::texts::opened_in;
use chr_base::atom::Atom;
use chr_base::bag::Bag;
use chr_ops::{Op, OpId};
use chr_replica::Board;
use chr_testing::atoms::atom;
use std::alloc::Global;
use std::process::Abort;
use std::thread::Threads;

/// The program of the least value of each key.
const LEAST: &str = ":- chr_constraint best/2. best(K,V) \\ best(K,W) <=> V =< W | true.";

/// How many keys there are.
const KEYS: u64 = 10;

/// How many atoms an operation has.
const SIZE: u64 = 64;

/// The key of the atom of a number.
fn key_of(number: u64) -> i64 {
    (number % KEYS) as i64
}

/// The value of the atom of a number. Atoms have different values, in an order that is not that of the numbers.
fn value_of(number: u64) -> i64 {
    (number % 100_000 * 7919 % 100_003) as i64
}

/// `best(key,value)`.
fn best(key: i64, value: i64) -> Atom {
    atom(0, &[key, value])
}

/// The atoms that follow those of the operation before this one.
fn atoms_of(rt: &impl Abort, alloc: Global, number: u32) -> Bag {
    let mut bag = Bag::new(alloc);
    for place in 0..SIZE {
        let at = u64::from(number) * SIZE + place;
        bag.add(best(key_of(at), value_of(at))).expect(rt, "memory");
    }
    bag
}

/// The operation of this number.
fn operation(rt: &impl Abort, alloc: Global, number: u32) -> Op {
    let id = OpId {
        origin: 1,
        number: u64::from(number),
    };
    Op::of(id, atoms_of(rt, alloc, number)).expect(rt, "an operation")
}

/// Tells a board the operation of this number.
pub fn tell(rt: &impl Abort, alloc: Global, board: &mut Board, number: u32) {
    let told = board.tell(alloc, operation(rt, alloc, number));
    assert!(rt; told.is_ok(), "{number}");
}

/// A board of the least values that was told `operations` operations of 64 atoms.
pub fn board(rt: &(impl Abort + Threads + Sync), alloc: Global, operations: u32) -> Board {
    let mut board = opened_in(rt, alloc, LEAST, 1);
    for number in 0..operations {
        tell(rt, alloc, &mut board, number);
    }
    board
}

/// The least value of a key among the atoms of `operations` operations.
fn least(key: i64, operations: u32) -> i64 {
    let mut least = i64::MAX;
    for number in 0..u64::from(operations) * SIZE {
        if key_of(number) == key {
            least = least.min(value_of(number));
        }
    }
    least
}

/// The store of the least values.
pub fn leasts(rt: &impl Abort, alloc: Global, operations: u32) -> Bag {
    let mut bag = Bag::new(alloc);
    for key in 0..KEYS as i64 {
        let atom = best(key, least(key, operations));
        bag.add(atom).expect(rt, "memory");
    }
    bag
}
