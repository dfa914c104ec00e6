//! Programs as texts, boards of such programs, and stores and operations of a program's first symbol.
use chr_base::bag::Bag;
use chr_join::{Accepted, Coverage, accept};
use chr_ops::{Op, OpId};
use chr_replica::Board;
use chr_testing::atoms::bag_of_values;
use chr_testing::texts::weighed_of;
use std::alloc::Global;
use std::process::Abort;
use std::sync::Arc;
use std::thread::Threads;

/// The accepted program of a text, whose stores are kept in at most `pools` pools.
pub fn accepted_in(
    rt: &(impl Abort + Threads + Sync),
    alloc: Global,
    text: &str,
    pools: usize,
) -> Arc<Accepted> {
    let weighed = weighed_of(alloc, text).expect(rt, "a program that lowers");
    let accepted = accept(rt, alloc, weighed, Coverage::Joint).ok();
    let accepted = accepted.expect(rt, "accepted").in_pools(pools);
    Arc::new(alloc, accepted).expect(rt, "memory")
}

/// The accepted program of a text, whose stores are kept in one pool.
pub fn accepted(rt: &(impl Abort + Threads + Sync), alloc: Global, text: &str) -> Arc<Accepted> {
    accepted_in(rt, alloc, text, 1)
}

/// A board of a program that was told nothing, whose store is kept in at most `pools` pools.
pub fn opened_in(
    rt: &(impl Abort + Threads + Sync),
    alloc: Global,
    text: &str,
    pools: usize,
) -> Board {
    Board::open(alloc, accepted_in(rt, alloc, text, pools)).expect(rt, "memory")
}

/// The store of the first symbol at each of these values.
pub fn store(rt: &impl Abort, alloc: Global, values: &[i64]) -> Bag {
    bag_of_values(alloc, values).expect(rt, "memory")
}

/// An operation of the first symbol at each of these values.
pub fn op(rt: &impl Abort, alloc: Global, origin: u32, number: u64, values: &[i64]) -> Op {
    let id = OpId { origin, number };
    Op::of(id, store(rt, alloc, values)).expect(rt, "an operation")
}
