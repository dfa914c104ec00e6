//! Sixteen seats in threads of their own: they tell ten operations each, or lease coins out; then the first of them has
//! the book rested.
ghost use Rattle.std.specs.Prelude.{◌≡◌};

use crate::tests::seats::closing::{closed, shown};
use crate::tests::seats::opening;
use crate::tests::seats::work::{Task, shared};
use crate::tests::texts::{accepted, store};
use chr_acts::{Act, Book, Entry, Reply};
use chr_base::bag::Bag;
use chr_join::Accepted;
use chr_ops::Added;
use chr_replica::Refusal;
use chr_shared::{Naming, Opening, Receipt};
use chr_testing::texts::{COINS, MINIMUM};
use std::alloc::Global;
use std::marker::Brand;
use std::process::Abort;
use std::sync::Wait;
use std::thread::Threads;

const SEATS: u32 = 16;

/// The seats do their work, and the first one has four workers rest the book in eight parts.
fn rested<J: Naming + Send + Sync, R: Abort + Threads + Wait + Sync>(
    rt: &R,
    alloc: Global,
    accepted: &Accepted,
    opening: Opening,
    task: Task,
) -> (Receipt, Book)
    requires { opening ≡ J.opening }
{
    let (shared, seats) = shared::<J, _>(rt, alloc, accepted, opening, task);
    closed(rt, alloc, shared, seats, 4, 8)
}

/// The last receipt and the closed book of sixteen seats of a program.
fn book_of(
    rt: &(impl Abort + Threads + Wait + Sync),
    alloc: Global,
    text: &str,
    task: Task,
) -> (Receipt, Book) {
    let accepted = accepted(rt, alloc, text);
    let opening = opening(rt, alloc, &accepted, SEATS);
    rested::<Brand, _>(rt, alloc, &accepted, opening, task)
}

/// What an entry counts as: as a new operation, as a put that was taken, and as one that came too late.
fn counts_as(entry: &Entry) -> (bool, bool, bool) {
    match (&entry.act, &entry.reply) {
        (Act::Tell(_), Reply::Told(Added::New)) => (true, false, false),
        (Act::Put(_), Reply::WasPut) => (false, true, false),
        (_, Reply::Refused(Refusal::NoLease(_))) => (false, false, true),
        _ => (false, false, false),
    }
}

/// How many entries count as each of these, and how many there are.
fn counted(book: &Book) -> (u32, u32, u32, u64) {
    let (mut new, mut put, mut late) = (0u32, 0u32, 0u32);
    for place in 0..book.entries() {
        if let Some(entry) = book.entry(place.wrapping_add(1)) {
            let (is_new, is_put, is_late) = counts_as(entry);
            new = new.wrapping_add(u32::from(is_new));
            put = put.wrapping_add(u32::from(is_put));
            late = late.wrapping_add(u32::from(is_late));
        }
    }
    (new, put, late, book.entries())
}

#[test]
fn sixteen_seats_tell_at_once(rt: HostRuntime) {
    let alloc = rt.alloc();
    let (receipt, book) = book_of(&rt, alloc, MINIMUM, Task::Tell);
    let store = store(&rt, alloc, &[11]);
    assert!(rt; shown(&receipt).expect(&rt, "a store").is_same(&store));
    assert!(rt; counted(&book) == (160, 8, 0, 171));
    assert!(rt; receipt.seat == 1 && receipt.number == 21);
}

/// How many coins and how many notes there are.
fn money(store: &Bag) -> (u32, u32) {
    let (mut coins, mut notes) = (0u32, 0u32);
    for atom in store.atoms() {
        coins = coins.wrapping_add(u32::from(atom.symbol.0 == 0));
        notes = notes.wrapping_add(u32::from(atom.symbol.0 == 1));
    }
    (coins, notes)
}

#[test]
fn late_returns_are_refused(rt: HostRuntime) {
    let (receipt, book) = book_of(&rt, rt.alloc(), COINS, Task::Lend);
    assert!(rt; money(shown(&receipt).expect(&rt, "a store")) == (0, 24));
    assert!(rt; counted(&book) == (16, 16, 8, 67));
}
