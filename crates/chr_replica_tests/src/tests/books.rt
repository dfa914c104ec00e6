//! A book that is called many times.
use crate::tests::texts::accepted;
use chr_acts::{Act, Book, Entry};
use chr_testing::texts::MINIMUM;
use std::alloc::Global;
use std::process::Abort;

/// The copy of the entry of a seat that asks for the least lease number.
fn asked(rt: &impl Abort, alloc: Global, book: &mut Book, seat: u32) -> Entry {
    let entered = book.call_with_copy(alloc, seat, Act::LeastLease);
    entered.ok().expect(rt, "memory")
}

/// Two seats ask in turn, 50,000 times each. Answers the number of the last entry.
fn last_of_many(rt: &impl Abort, alloc: Global, book: &mut Book) -> u64 {
    let mut last = 0;
    for seat in 0..100_000 {
        last = asked(rt, alloc, book, seat % 2).number;
    }
    last
}

#[test]
fn a_call_costs_no_more_after_many(rt: HostRuntime) {
    let alloc = rt.alloc();
    let mut book = Book::open(alloc, accepted(&rt, alloc, MINIMUM)).expect(&rt, "memory");
    assert!(rt; last_of_many(&rt, alloc, &mut book) == 50_000);
    assert!(rt; book.entries() == 100_000);
}
