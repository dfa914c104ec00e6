//! Seats ask a shared book at random, in threads of their own. A slow replica replays the journal of the closed book.
ghost use Rattle.std.specs.Prelude.{◌≡◌};

use crate::tests::model::replica::Replica;
use crate::tests::random::tally::Tally;
use crate::tests::seats::work::{Task, shared};
use crate::tests::seats::{close, opening};
use crate::tests::texts::accepted;
use chr_acts::Book;
use chr_join::Accepted;
use chr_shared::{Naming, Opening};
use chr_testing::texts::MINIMUM;
use std::alloc::Global;
use std::marker::Brand;
use std::process::Abort;
use std::sync::{Arc, Wait};
use std::thread::Threads;

/// How many books are shared.
const BOOKS: u64 = 1_000;

/// A book whose seats asked at random.
fn asked<J: Naming + Send + Sync, R: Abort + Threads + Wait + Sync>(
    rt: &R,
    alloc: Global,
    accepted: &Accepted,
    opening: Opening,
    seed: u64,
) -> Book
    requires { opening ≡ J.opening }
{
    let (shared, seats) = shared::<J, _>(rt, alloc, accepted, opening, Task::AtRandom(seed));
    close(rt, shared, seats)
}

/// A slow replica gives each reply of the journal.
fn replay(rt: &impl Abort, alloc: Global, book: &Book, tally: &mut Tally) {
    let mut replica = Replica::new(alloc);
    for place in 0..book.entries() {
        let entry = book.entry(place.wrapping_add(1));
        let entry = entry.expect(rt, "an entry");
        assert!(rt;
            replica.replies(rt, &entry.act, &entry.reply),
            "entry {place}"
        );
        tally.add(&entry.reply);
    }
}

/// The book of a seed, with two to sixteen seats.
fn book_of(
    rt: &(impl Abort + Threads + Wait + Sync),
    alloc: Global,
    accepted: &Arc<Accepted>,
    seed: u64,
) -> Book {
    let seats = 2 + (seed % 15) as u32;
    let opening = opening(rt, alloc, accepted, seats);
    asked::<Brand, _>(rt, alloc, accepted, opening, seed)
}

/// Each kind of reply comes, but that to a step.
#[test]
fn journals_are_replayed(rt: HostRuntime) {
    let alloc = rt.alloc();
    let program = accepted(&rt, alloc, MINIMUM);
    let mut tally = Tally::new();
    for seed in 0..BOOKS {
        replay(&rt, alloc, &book_of(&rt, alloc, &program, seed), &mut tally);
    }
    assert!(rt; tally.kinds(100) == 17);
}
