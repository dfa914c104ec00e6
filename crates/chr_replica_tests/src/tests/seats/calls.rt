//! What seats ask of shared books.
use chr_acts::{Act, CallFault};
use chr_shared::{Naming, Receipt, Seat, Shared};
use std::alloc::Global;
use std::process::Abort;
use std::sync::Wait;

/// The receipt of a call.
pub fn receipt(rt: &impl Abort, answered: Result<Receipt, CallFault>) -> Receipt {
    answered.ok().expect(rt, "memory")
}

/// The receipt of an act without an argument that takes memory.
fn ask_plainly<J: Naming, R: Abort + Wait>(
    rt: &R,
    alloc: Global,
    shared: &Shared<J>,
    seat: &mut Seat<J>,
    act: Act,
) -> Result<Receipt, CallFault> {
    match act {
        Act::Recall(number) => shared.recall(rt, alloc, seat, number),
        Act::Settle => shared.settle(rt, alloc, seat),
        Act::Show => shared.show(rt, alloc, seat),
        Act::Summary => shared.summary(rt, alloc, seat),
        Act::LeastLease => shared.least_lease(rt, alloc, seat),
        act => Err(CallFault { act }),
    }
}

/// The receipt of an act for which a seat has a call.
pub fn ask<J: Naming, R: Abort + Wait>(
    rt: &R,
    alloc: Global,
    shared: &Shared<J>,
    seat: &mut Seat<J>,
    act: Act,
) -> Receipt {
    let answered = match act {
        Act::Tell(op) => shared.tell(rt, alloc, seat, op),
        Act::Merge(ops) => shared.merge(rt, alloc, seat, ops.into_vec()),
        Act::Take(part) => shared.take(rt, alloc, seat, part),
        Act::Put(done) => shared.put(rt, alloc, seat, done),
        Act::Lacks(ids) => shared.lacks(rt, alloc, seat, ids),
        act => ask_plainly(rt, alloc, shared, seat, act),
    };
    receipt(rt, answered)
}
