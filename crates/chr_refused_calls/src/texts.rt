//! Accepted programs and operations that are given as texts.
use chr_join::{Accepted, Coverage, accept};
use chr_ops::{Op, OpId};
use chr_testing::texts::{store_of, weighed_of};
use std::alloc::Global;
use std::sync::Arc;
use std::thread::Threads;

/// The accepted program of a text, where it is one.
pub fn accepted_of(rt: &(impl Threads + Sync), alloc: Global, text: &str) -> Option<Arc<Accepted>> {
    let weighed = weighed_of(alloc, text)?;
    let accepted = accept(rt, alloc, weighed, Coverage::Joint).ok()?;
    Arc::new(alloc, accepted).ok()
}

/// The operation of origin 1 and of up to eight atoms that the program of the first text declares.
pub fn op_of(alloc: Global, program: &str, number: u64, atoms: &str) -> Option<Op> {
    let store = store_of(alloc, program, atoms)?;
    Op::of(OpId { origin: 1, number }, store)
}
