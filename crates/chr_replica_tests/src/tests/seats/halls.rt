//! A worked example of shared books: an auction in two halls, of one item that the least bid gets. It is to be read.
//!
//! Each hall has a book of one program, by which of two bids the lower one stays. Threads share a book: each has a seat
//! of its own and makes its calls by it. What a seat does to a book is one act under the book's lock, and its receipt
//! tells what came of it.
//!
//! - In each hall a clerk tells ten bids, in a thread of its own.
//! - A messenger with a seat in either hall exchanges bids between the books meanwhile, and once more in the end.
//!
//! Then both books hold the same bids. Each hall's clerk has workers rest the book, and the book is closed with the
//! receipt of that. `stores_of_receipts` of `chr_acts::journals` hands out what both receipts show. It is proved that
//! each store is the one normal form of the bids that are held at its receipt's place in its book, whatever the threads
//! did and however the books were rested: so the stores are equal where these are the same bids. That the messenger has
//! made them the same is not proved, and so the stores are compared.
ghost use Rattle.std.specs.Prelude.{◌≡◌, Some};
ghost use Rattle.std.specs.List.{Contains};

use crate::tests::seats::calls::receipt;
use crate::tests::seats::closing::closed;
use crate::tests::seats::{opened, opening};
use crate::tests::texts::{accepted, op, store};
use chr_acts::journals::stores_of_receipts;
use chr_acts::{Book, Reply};
use chr_ops::{Op, Summary};
use chr_shared::{Naming, Opening, Receipt, Seat, Shared};
use chr_testing::texts::MINIMUM;
use std::alloc::Global;
use std::marker::Brand;
use std::process::Abort;
use std::sync::Wait;
use std::thread::{Threads, join};

/// A clerk's thread: ten bids of an origin, with the values that follow on a base.
fn tell_ten<J: Naming, R: Abort + Wait>(
    rt: &R,
    alloc: Global,
    book: &Shared<J>,
    seat: &mut Seat<J>,
    origin: u32,
    base: i64,
) {
    for number in 1..11u64 {
        let bid = op(
            rt,
            alloc,
            origin,
            number,
            &[base.wrapping_add(number as i64)],
        );
        receipt(rt, book.tell(rt, alloc, seat, bid));
    }
}

/// Which bids a book has, by their ids.
fn known<J: Naming, R: Abort + Wait>(
    rt: &R,
    alloc: Global,
    book: &Shared<J>,
    seat: &mut Seat<J>,
) -> Summary {
    let Receipt { reply, .. } = receipt(rt, book.summary(rt, alloc, seat));
    match reply {
        Reply::Summed(ids) => ids,
        _ => panic!(rt; "no summary"),
    }
}

/// The bids of a book that are not among these.
fn lacked<J: Naming, R: Abort + Wait>(
    rt: &R,
    alloc: Global,
    book: &Shared<J>,
    seat: &mut Seat<J>,
    ids: Summary,
) -> Vec<Op> {
    let Receipt { reply, .. } = receipt(rt, book.lacks(rt, alloc, seat, ids));
    match reply {
        Reply::Lacked(bids) => bids.into_vec(),
        _ => panic!(rt; "no bids"),
    }
}

/// Takes to one book what the other has and it lacks: three calls, and each hall goes on between them.
fn bring<J: Naming, K: Naming, R: Abort + Wait>(
    rt: &R,
    alloc: Global,
    from: &Shared<J>,
    there: &mut Seat<J>,
    to: &Shared<K>,
    here: &mut Seat<K>,
) {
    let ids = known(rt, alloc, to, here);
    let bids = lacked(rt, alloc, from, there, ids);
    receipt(rt, to.merge(rt, alloc, here, bids));
}

/// A messenger's thread: in each round bids are brought to the first hall and then to the second.
fn exchange<J: Naming, K: Naming, R: Abort + Wait>(
    rt: &R,
    alloc: Global,
    first: &Shared<J>,
    here: &mut Seat<J>,
    second: &Shared<K>,
    there: &mut Seat<K>,
    rounds: u32,
) {
    for _ in 0..rounds {
        bring(rt, alloc, second, there, first, here);
        bring(rt, alloc, first, here, second, there);
    }
}

/// The two seats of a book.
fn two_of<J: Naming>(rt: &impl Abort, seats: Vec<Seat<J>>) -> [Seat<J>; 2] {
    let mut seats = seats;
    let second = seats.pop().expect(rt, "a seat");
    let first = seats.pop().expect(rt, "a seat");
    [first, second]
}

/// The clerks tell and the messenger goes at once, and once more after that. The seats come back.
fn tell_and_exchange<
    J: Naming + Send + Sync,
    K: Naming + Send + Sync,
    R: Abort + Threads + Wait + Sync,
>(
    rt: &R,
    alloc: Global,
    first: &Shared<J>,
    here: [Seat<J>; 2],
    second: &Shared<K>,
    there: [Seat<K>; 2],
) -> ([Seat<J>; 2], [Seat<K>; 2]) {
    let [mut one, mut mine] = here;
    let [mut other, mut theirs] = there;
    join(
        rt,
        || tell_ten(rt, alloc, first, &mut one, 1, 20),
        || {
            join(
                rt,
                || tell_ten(rt, alloc, second, &mut other, 2, 10),
                || exchange(rt, alloc, first, &mut mine, second, &mut theirs, 10),
            );
        },
    );
    exchange(rt, alloc, first, &mut mine, second, &mut theirs, 1);
    ([one, mine], [other, theirs])
}

/// A hall's first seat has two workers rest its book in four parts, and the book is closed with the receipt of that.
fn end<J: Naming, R: Abort + Threads + Wait + Sync>(
    rt: &R,
    alloc: Global,
    book: Shared<J>,
    seats: [Seat<J>; 2],
) -> (Receipt, Book)
    ensures receipt { Contains result.1.entries result.0 }
    ensures program { Some result.1.board.accepted ≡ J.opening.accepted }
{
    let [first, second] = seats;
    let seats = vec![in alloc; first, second].expect(rt, "memory");
    closed(rt, alloc, book, seats, 2, 4)
}

/// What the receipts with which both halls closed their books show: the one store that comes of their bids.
fn compare(
    rt: &impl Abort,
    alloc: Global,
    here: (Receipt, Book),
    there: (Receipt, Book),
) -> [Book; 2]
    requires program { here.1.board.accepted ≡ there.1.board.accepted }
    requires here { Contains here.1.entries here.0 }
    requires there { Contains there.1.entries there.0 }
{
    let (receipt, book) = here;
    let (other_receipt, other_book) = there;
    let stores = stores_of_receipts(&book, &receipt, &other_book, &other_receipt);
    let (shown, other_shown) = stores.expect(rt, "two stores");
    assert!(rt; shown.is_same(other_shown));
    assert!(rt; shown.is_same(&store(rt, alloc, &[11])));
    [book, other_book]
}

/// The auction, and the closed books of both halls.
fn auction<J: Naming + Send + Sync, K: Naming + Send + Sync, R: Abort + Threads + Wait + Sync>(
    rt: &R,
    alloc: Global,
    first: Opening,
    second: Opening,
) -> [Book; 2]
    requires first { first ≡ J.opening }
    requires second { second ≡ K.opening }
    requires program { first.accepted ≡ second.accepted }
{
    let (one, seats) = opened::<J, _>(rt, alloc, first);
    let (other, other_seats) = opened::<K, _>(rt, alloc, second);
    let (here, there) = (two_of(rt, seats), two_of(rt, other_seats));
    let (here, there) = tell_and_exchange(rt, alloc, &one, here, &other, there);
    let here = end(rt, alloc, one, here);
    let there = end(rt, alloc, other, there);
    compare(rt, alloc, here, there)
}

#[test]
fn both_halls_know_the_winner(rt: HostRuntime) {
    let alloc = rt.alloc();
    let accepted = accepted(&rt, alloc, MINIMUM);
    let first = opening(&rt, alloc, &accepted, 2);
    let second = opening(&rt, alloc, &accepted, 2);
    for book in auction::<Brand, Brand, _>(&rt, alloc, first, second) {
        assert!(rt; book.entries() == 50 && book.board().ops().told() == 20);
    }
}
