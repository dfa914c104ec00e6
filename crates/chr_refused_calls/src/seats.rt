//! A seat has its book rested by workers. Where memory is refused to that, calls of the seat bring the parts back.
ghost use Rattle.std.specs.Prelude.{◌≡◌};

use crate::pools::EIGHT;
use crate::printing::{answer, call, count, print_bag, print_operation};
use crate::texts::{accepted_of, op_of};
use chr_acts::{Book, CallFault, Reply};
use chr_base::program::Program;
use chr_ops::Op;
use chr_shared::{Naming, Opening, Receipt, Seat, Settled, Shared};
use chr_workers::OpenGate;
use std::alloc::Global;
use std::marker::Brand;
use std::sync::Wait;
use std::thread::Threads;

const WORKERS: u32 = 2;

const PARTS: u32 = 3;

/// What the seat tells. At rest there are eight atoms for each `a`: one that is lost, or comes twice, is seen.
const TOLD: [&str; 3] = ["a, b", "a, a, a", "a, b, a"];

/// The receipt of a call, where memory was not refused to it.
fn receipt_of(answered: Result<Receipt, CallFault>) -> Option<Receipt> {
    answered.ok()
}

fn tell_one<J: Naming>(
    rt: &(impl Print + Wait),
    alloc: Global,
    program: &Program,
    shared: &Shared<J>,
    seat: &mut Seat<J>,
    op: Op,
) {
    print_operation(rt, alloc, program, &op);
    receipt_of(shared.tell(rt, alloc, seat, op));
}

fn tell<J: Naming>(
    rt: &(impl Print + Wait),
    alloc: Global,
    program: &Program,
    shared: &Shared<J>,
    seat: &mut Seat<J>,
) {
    let mut number = 0u64;
    for atoms in TOLD {
        number = number.wrapping_add(1);
        if let Some(op) = op_of(alloc, EIGHT, number, atoms) {
            tell_one(rt, alloc, program, shared, seat, op);
        }
    }
}

/// Prints the store that a receipt shows, if it shows one.
fn print_shown(rt: &impl Print, alloc: Global, program: &Program, what: &str, receipt: &Receipt) {
    if let Reply::Shown(store) = &receipt.reply {
        print_bag(rt, alloc, program, what, store);
    }
}

fn rest<J: Naming>(
    rt: &(impl Print + Threads + Wait + Sync),
    alloc: Global,
    program: &Program,
    shared: &Shared<J>,
    seat: &mut Seat<J>,
) {
    call(rt);
    match shared.settle_with(rt, alloc, seat, WORKERS, PARTS, &OpenGate) {
        Settled::Rest(receipt) => {
            answer(rt, None);
            print_shown(rt, alloc, program, "rested", &receipt);
        }
        Settled::NotRested(refusal) => answer(rt, Some(refusal)),
    }
}

/// The number that a receipt tells.
fn number_in(receipt: &Receipt) -> Option<u64> {
    match &receipt.reply {
        Reply::LeastLease(number) => *number,
        _ => None,
    }
}

/// The least lease number that is out.
fn least_lease<J: Naming>(
    rt: &impl Wait,
    alloc: Global,
    shared: &Shared<J>,
    seat: &mut Seat<J>,
) -> Option<u64> {
    match receipt_of(shared.least_lease(rt, alloc, seat)) {
        Some(receipt) => number_in(&receipt),
        None => None,
    }
}

/// Recalls all leases that are out.
fn recall<J: Naming>(
    rt: &(impl Print + Wait),
    alloc: Global,
    shared: &Shared<J>,
    seat: &mut Seat<J>,
) {
    for _ in 0..PARTS {
        if let Some(number) = least_lease(rt, alloc, shared, seat) {
            count(rt, "lease", number);
            receipt_of(shared.recall(rt, alloc, seat, number));
        }
    }
}

fn show<J: Naming>(
    rt: &(impl Print + Wait),
    alloc: Global,
    program: &Program,
    shared: &Shared<J>,
    seat: &mut Seat<J>,
) {
    receipt_of(shared.settle(rt, alloc, seat));
    if let Some(receipt) = receipt_of(shared.show(rt, alloc, seat)) {
        print_shown(rt, alloc, program, "shown", &receipt);
    }
}

fn run<J: Naming, R: Print + Threads + Wait + Sync>(
    rt: &R,
    alloc: Global,
    program: &Program,
    opening: Opening,
) -> Option<()>
    requires { opening ≡ J.opening }
{
    let (shared, mut seats) = Shared::<J>::open(alloc, opening).ok()?;
    let seat = seats.first_mut()?;
    tell(rt, alloc, program, &shared, seat);
    rest(rt, alloc, program, &shared, seat);
    recall(rt, alloc, &shared, seat);
    show(rt, alloc, program, &shared, seat);
    Some(())
}

pub fn make(rt: &(impl Print + Threads + Wait + Sync), alloc: Global) -> Option<()> {
    let accepted = accepted_of(rt, alloc, EIGHT)?;
    let book = Book::open(alloc, accepted.clone().ok()?).ok()?;
    let opening = Opening::of(alloc, book, 1).ok()?;
    run::<Brand, _>(rt, alloc, accepted.program(), opening)
}
