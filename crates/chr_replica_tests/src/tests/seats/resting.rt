//! A seat tells while another one's parts are rested: no lock is held then.
ghost use Rattle.std.specs.Prelude.{◌≡◌};

use crate::tests::gates::{Holds, goes_up};
use crate::tests::seats::calls::receipt;
use crate::tests::seats::closing::shown;
use crate::tests::seats::{opened, opening};
use crate::tests::texts::{accepted, op, store};
use chr_shared::{Naming, Opening, Seat, Settled, Shared};
use chr_testing::texts::MINIMUM;
use std::alloc::Global;
use std::marker::Brand;
use std::process::Abort;
use std::sync::Wait;
use std::sync::atomic::Ordering;
use std::thread::{Threads, join};

fn tell<J: Naming, R: Abort + Wait>(
    rt: &R,
    alloc: Global,
    shared: &Shared<J>,
    seat: &mut Seat<J>,
    number: u64,
    value: i64,
) {
    let op = op(rt, alloc, seat.number(), number, &[value]);
    receipt(rt, shared.tell(rt, alloc, seat, op));
}

/// Tells once a part is held at the gate, and lets the part go. Answers whether one was held in time.
fn tell_late<J: Naming, R: Abort + Wait>(
    rt: &R,
    alloc: Global,
    shared: &Shared<J>,
    seat: &mut Seat<J>,
    gate: &Holds,
) -> bool {
    let was_held = goes_up(&gate.first_came);
    tell(rt, alloc, shared, seat, 1, 1);
    gate.may_go.store(1, Ordering::SeqCst);
    was_held
}

/// The first seat rests what was told, while the second tells.
fn share<J: Naming + Send + Sync, R: Abort + Threads + Wait + Sync>(
    rt: &R,
    alloc: Global,
    opening: Opening,
    gate: &Holds,
) -> (Settled, bool)
    requires { opening ≡ J.opening }
{
    let (shared, mut seats) = opened::<J, _>(rt, alloc, opening);
    let mut second = seats.pop().expect(rt, "a seat");
    let mut first = seats.pop().expect(rt, "a seat");
    tell(rt, alloc, &shared, &mut first, 1, 5);
    tell(rt, alloc, &shared, &mut first, 2, 3);
    let all = &shared;
    join(
        rt,
        || all.settle_with(rt, alloc, &mut first, 2, 2, gate),
        || tell_late(rt, alloc, all, &mut second, gate),
    )
}

#[test]
fn no_lock_is_held_while_parts_are_rested(rt: HostRuntime) {
    let alloc = rt.alloc();
    let opening = opening(&rt, alloc, &accepted(&rt, alloc, MINIMUM), 2);
    let gate = Holds::new(0);
    let (settled, told) = share::<Brand, _>(&rt, alloc, opening, &gate);
    let Settled::Rest(receipt) = settled else {
        panic!(rt; "no store is shown");
    };
    assert!(rt; told && gate.has_seen_both());
    let store = store(&rt, alloc, &[1]);
    assert!(rt; shown(&receipt).expect(&rt, "a store").is_same(&store));
}
