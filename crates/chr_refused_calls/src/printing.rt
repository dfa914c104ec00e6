//! States and answers are printed.
use chr_base::atom::Atom;
use chr_base::bag::Bag;
use chr_base::program::Program;
use chr_join::{Done, Lease};
use chr_ops::{Op, OpSet};
use chr_replica::{Board, Refusal};
use chr_testing::texts::atoms_text;
use std::alloc::Global;

/// More leases than are out at any board.
const LEASES: u32 = 8;

/// Prints a line of text.
pub fn say(rt: &impl Print, text: &str) {
    let _ = println!(rt; "{text}");
}

/// Prints a number, after what it is.
pub fn count(rt: &impl Print, what: &str, number: u64) {
    let _ = println!(rt; "{what} {number}");
}

/// Adds how often an atom is there: nothing where it is there once.
fn push_times(text: &mut String, equal: u64) {
    if equal > 1 {
        let _ = write!(text, "{equal} times ");
    }
}

/// Adds an atom that is there `equal` times: after this number, where it is more than 1.
fn push_atom(alloc: Global, text: &mut String, program: &Program, atom: &Atom, equal: u64) {
    let _ = text.push_str(if text.is_empty() { "" } else { ", " });
    push_times(text, equal);
    if let Ok(atom) = atoms_text(alloc, program, &[atom.copy()]) {
        let _ = text.push_str(&atom);
    }
}

/// The text of a store. Of equal atoms one stands there, after their number.
fn text_of(alloc: Global, program: &Program, bag: &Bag) -> String {
    let mut text = String::new(alloc);
    let mut equal: u64 = 1;
    let mut later = bag.atoms().iter();
    later.next();
    for atom in bag.atoms() {
        if later.next() == Some(atom) {
            equal = equal.saturating_add(1);
        } else {
            push_atom(alloc, &mut text, program, atom, equal);
            equal = 1;
        }
    }
    text
}

/// Prints a store, after what it is.
pub fn print_bag(rt: &impl Print, alloc: Global, program: &Program, what: &str, bag: &Bag) {
    let text = text_of(alloc, program, bag);
    let _ = println!(rt; "{what}: {text}");
}

pub fn print_lease(rt: &impl Print, alloc: Global, program: &Program, lease: &Lease) {
    let text = text_of(alloc, program, &lease.part);
    let _ = println!(rt; "lease {}: {text}", lease.number);
}

/// Prints what came of a lease.
pub fn print_done(rt: &impl Print, alloc: Global, program: &Program, done: &Done) {
    count(rt, "done", done.number());
    print_bag(rt, alloc, program, "from", done.part());
    print_bag(rt, alloc, program, "to", done.result());
}

pub fn print_operation(rt: &impl Print, alloc: Global, program: &Program, op: &Op) {
    let _ = println!(rt; "operation {}/{}", op.id().origin, op.id().number);
    print_bag(rt, alloc, program, "of", op.bag());
}

/// Prints all operations of a set, and how many atoms they tell.
pub fn print_set(rt: &impl Print, alloc: Global, program: &Program, set: &OpSet) -> Option<()> {
    count(rt, "told", set.told());
    let none = OpSet::new(alloc).summary(alloc).ok()?;
    for op in &set.lacks(alloc, &none).ok()? {
        print_operation(rt, alloc, program, op);
    }
    Some(())
}

/// Prints the least lease that is out, and takes it back.
fn print_least(rt: &impl Print, alloc: Global, board: &mut Board, number: u64) {
    if let Ok(lease) = board.again(alloc, number) {
        print_lease(rt, alloc, board.program().program(), &lease);
    }
    let _ = board.recall(number);
}

/// Prints all leases that are out, and takes them back.
pub fn print_leases(rt: &impl Print, alloc: Global, board: &mut Board) {
    for _ in 0..LEASES {
        if let Some(number) = board.least_lease() {
            print_least(rt, alloc, board, number);
        }
    }
}

/// Prints all that a board holds: its operations, the leases that are out, and last its pool, as the next lease.
pub fn print_board(rt: &impl Print, alloc: Global, board: &mut Board) {
    print_set(rt, alloc, board.program().program(), board.ops());
    let _ = board.take_parts(alloc, 1);
    print_leases(rt, alloc, board);
}

/// Prints that the call is made next.
pub fn call(rt: &impl Print) {
    say(rt, "call");
}

/// Prints the answer of a call: why it was refused, if it was.
pub fn answer(rt: &impl Print, refusal: Option<Refusal>) {
    match refusal {
        None => say(rt, "answer done"),
        Some(refusal) => count(rt, "answer refused", u64::from(refusal.number())),
    }
}

/// Prints the answer of a call to which only memory may be refused.
pub fn answer_memory(rt: &impl Print, refused: bool) {
    answer(rt, if refused { Some(Refusal::Memory) } else { None });
}
