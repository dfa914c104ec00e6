//! Calls of books.
use crate::pools::EIGHT;
use crate::printing::{answer, call, count, print_lease, print_operation, print_set, say};
use crate::sets::minima;
use crate::texts::{accepted_of, op_of};
use chr_acts::{Act, Book, Reply};
use chr_ops::Op;
use chr_replica::Refusal;
use chr_testing::texts::MINIMUM;
use std::alloc::Global;
use std::thread::Threads;

#[derive(Clone, Copy)]
pub enum BookCall {
    Tell,
    Settle,
}

/// The seat that calls.
const SEAT: u32 = 1;

/// The text of the program.
fn text_of(made: BookCall) -> &'static str {
    match made {
        BookCall::Tell => MINIMUM,
        BookCall::Settle => EIGHT,
    }
}

/// What the book is told before the call.
fn told(alloc: Global, made: BookCall) -> Option<Op> {
    match made {
        BookCall::Tell => minima(alloc, 1, 1, &[5, 3, 9]),
        BookCall::Settle => op_of(alloc, EIGHT, 1, "a, a, a, b, a"),
    }
}

/// A book on which the call can be made.
fn opened(rt: &(impl Threads + Sync), alloc: Global, made: BookCall) -> Option<Book> {
    let accepted = accepted_of(rt, alloc, text_of(made))?;
    let mut book = Book::open(alloc, accepted).ok()?;
    book.call(alloc, SEAT, Act::Tell(told(alloc, made)?)).ok()?;
    Some(book)
}

/// Prints the number of steps that a reply tells, if it does.
fn print_steps(rt: &impl Print, reply: &Reply) {
    match reply {
        Reply::Settled(steps) => count(rt, "settled", *steps),
        Reply::Stopped(steps) => count(rt, "stopped", *steps),
        _ => {}
    }
}

fn print_last_steps(rt: &impl Print, book: &Book) {
    if let Some(entry) = book.entry(book.entries()) {
        print_steps(rt, &entry.reply);
    }
}

/// Prints the act that is handed back.
fn print_act(rt: &impl Print, alloc: Global, book: &Book, act: &Act) {
    match act {
        Act::Tell(op) => print_operation(rt, alloc, book.board().program().program(), op),
        Act::Settle => say(rt, "settle"),
        _ => {}
    }
}

fn ask(rt: &impl Print, alloc: Global, book: &mut Book, act: Act) {
    if !act.fits() {
        return;
    }
    call(rt);
    match book.call(alloc, SEAT, act) {
        Ok(_) => {
            answer(rt, None);
            print_last_steps(rt, book);
        }
        Err(fault) => {
            answer(rt, Some(Refusal::Memory));
            print_act(rt, alloc, book, &fault.act);
        }
    }
}

/// Prints the pool, as the next lease.
fn print_pool(rt: &impl Print, alloc: Global, book: &mut Book) -> Option<()> {
    let place = book.call(alloc, SEAT, Act::TakeParts(1)).ok()?;
    if let Reply::LeasedParts(leases) = &book.entry(place)?.reply {
        for lease in leases.as_slice() {
            print_lease(rt, alloc, book.board().program().program(), lease);
        }
    }
    Some(())
}

/// Prints the number of entries, and all that the board holds.
fn print_book(rt: &impl Print, alloc: Global, book: &mut Book) {
    count(rt, "entries", book.entries());
    print_set(
        rt,
        alloc,
        book.board().program().program(),
        book.board().ops(),
    );
    print_pool(rt, alloc, book);
}

pub fn make(rt: &(impl Print + Threads + Sync), alloc: Global, made: BookCall) -> Option<()> {
    print_book(rt, alloc, &mut opened(rt, alloc, made)?);
    let mut book = opened(rt, alloc, made)?;
    let act = match made {
        BookCall::Tell => Act::Tell(minima(alloc, 3, 1, &[8, 2])?),
        BookCall::Settle => Act::Settle,
    };
    ask(rt, alloc, &mut book, act);
    print_book(rt, alloc, &mut book);
    Some(())
}
