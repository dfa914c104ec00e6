//! What seats do in threads of their own.
ghost use Rattle.std.specs.Prelude.{◌≡◌};

use crate::tests::random::acts::Asker;
use crate::tests::seats::calls::{ask, receipt};
use crate::tests::seats::opened;
use crate::tests::texts::op;
use chr_acts::Reply;
use chr_base::bag::Bag;
use chr_join::{Accepted, Done};
use chr_ops::{Op, OpId};
use chr_shared::{Naming, Opening, Receipt, Seat, Shared};
use chr_testing::atoms::atom;
use chr_workers::OpenGate;
use std::alloc::Global;
use std::process::Abort;
use std::sync::Wait;
use std::thread;
use std::thread::Threads;

/// What each seat of a book does.
#[derive(Clone, Copy)]
pub enum Task {
    /// Tells ten operations.
    Tell,
    /// Leases two of three coins out and puts back what came of them. Where the seat's number is even, it recalls the
    /// coins first.
    Lend,
    /// Makes calls at random, by a number that all seats of a book have.
    AtRandom(u64),
}

/// The seat of number s tells the values 10 s + 1 to 10 s + 10, with its number as the origin.
fn tell_ten<J: Naming, R: Abort + Wait>(
    rt: &R,
    alloc: Global,
    shared: &Shared<J>,
    seat: &mut Seat<J>,
) {
    for number in 1..11u64 {
        let origin = seat.number();
        let value = i64::from(origin) * 10 + number as i64;
        let op = op(rt, alloc, origin, number, &[value]);
        receipt(rt, shared.tell(rt, alloc, seat, op));
    }
}

/// The store of `count` coins.
fn coins(rt: &impl Abort, alloc: Global, count: u32) -> Bag {
    let mut bag = Bag::new(alloc);
    for _ in 0..count {
        bag.add(atom(0, &[])).expect(rt, "memory");
    }
    bag
}

/// Three coins as an operation.
fn three(rt: &impl Abort, alloc: Global, origin: u32) -> Op {
    let id = OpId { origin, number: 1 };
    Op::of(id, coins(rt, alloc, 3)).expect(rt, "an operation")
}

/// What comes of the lease of a receipt, by resting a copy of it with no lock held.
fn done_of(rt: &impl Abort, alloc: Global, accepted: &Accepted, receipt: &Receipt) -> Done {
    let Reply::Leased(lease) = &receipt.reply else {
        panic!(rt; "no lease");
    };
    let lease = lease.copy(alloc).expect(rt, "memory");
    accepted.rest_part(alloc, lease).ok().expect(rt, "memory")
}

/// Tells three coins, and leases two of them out and rests these.
fn lend<J: Naming, R: Abort + Wait>(
    rt: &R,
    alloc: Global,
    accepted: &Accepted,
    shared: &Shared<J>,
    seat: &mut Seat<J>,
) -> Done {
    let three = three(rt, alloc, seat.number());
    receipt(rt, shared.tell(rt, alloc, seat, three));
    let taken = receipt(rt, shared.take(rt, alloc, seat, coins(rt, alloc, 2)));
    done_of(rt, alloc, accepted, &taken)
}

/// Where the seat's number is even, its lease is recalled.
fn recall_if_even<J: Naming, R: Abort + Wait>(
    rt: &R,
    alloc: Global,
    shared: &Shared<J>,
    seat: &mut Seat<J>,
    lease: u64,
) {
    if seat.number() % 2 == 0 {
        receipt(rt, shared.recall(rt, alloc, seat, lease));
    }
}

/// Puts back what came of a lease. Where the seat's number is even, the lease is recalled first.
fn give_back<J: Naming, R: Abort + Wait>(
    rt: &R,
    alloc: Global,
    shared: &Shared<J>,
    seat: &mut Seat<J>,
    done: Done,
) {
    recall_if_even(rt, alloc, shared, seat, done.number());
    receipt(rt, shared.put(rt, alloc, seat, done));
}

/// Calls at random, now and then one by which two workers rest the book.
fn call_at_random<J: Naming, R: Abort + Threads + Wait + Sync>(
    rt: &R,
    alloc: Global,
    accepted: &Accepted,
    shared: &Shared<J>,
    seat: &mut Seat<J>,
    asker: &mut Asker,
    calls: u32,
) {
    for _ in 0..calls {
        if asker.random.below(12) == 0 {
            let _ = shared.settle_with(rt, alloc, seat, 2, 3, &OpenGate);
        }
        let act = asker.call(rt, alloc);
        let asked = ask(rt, alloc, shared, seat, act);
        asker.learn(rt, alloc, accepted, &asked.reply);
    }
}

/// How many calls a seat makes at random.
const CALLS: u32 = 6;

/// The asker of a seat.
fn asker_of(seat: u32, seed: u64) -> Asker {
    let number = seed.wrapping_mul(64).wrapping_add(u64::from(seat));
    Asker::new(number, seat)
}

fn work<J: Naming, R: Abort + Threads + Wait + Sync>(
    rt: &R,
    alloc: Global,
    accepted: &Accepted,
    shared: &Shared<J>,
    seat: Seat<J>,
    task: Task,
) -> Seat<J> {
    let mut seat = seat;
    match task {
        Task::Tell => tell_ten(rt, alloc, shared, &mut seat),
        Task::Lend => {
            let done = lend(rt, alloc, accepted, shared, &mut seat);
            give_back(rt, alloc, shared, &mut seat, done);
        }
        Task::AtRandom(seed) => {
            let mut asker = asker_of(seat.number(), seed);
            call_at_random(rt, alloc, accepted, shared, &mut seat, &mut asker, CALLS);
        }
    }
    seat
}

/// Each seat does its work in a thread of its own. The seats come back.
fn all_work<J: Naming + Send + Sync, R: Abort + Threads + Wait + Sync>(
    rt: &R,
    alloc: Global,
    accepted: &Accepted,
    shared: &Shared<J>,
    seats: Vec<Seat<J>>,
    task: Task,
) -> Vec<Seat<J>> {
    let job = |seat: Seat<J>| -> Seat<J> { work(rt, alloc, accepted, shared, seat, task) };
    let seats = thread::map_vec(rt, seats, &job).ok();
    seats.expect(rt, "memory")
}

/// A book that is shared, each of whose seats has done its work.
pub fn shared<J: Naming + Send + Sync, R: Abort + Threads + Wait + Sync>(
    rt: &R,
    alloc: Global,
    accepted: &Accepted,
    opening: Opening,
    task: Task,
) -> (Shared<J>, Vec<Seat<J>>)
    requires { opening ≡ J.opening }
{
    let (shared, seats) = opened::<J, _>(rt, alloc, opening);
    let seats = all_work(rt, alloc, accepted, &shared, seats, task);
    (shared, seats)
}
