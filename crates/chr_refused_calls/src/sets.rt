//! Calls of operation sets.
use crate::printing::{answer, call, print_set};
use chr_ops::{Op, OpId, OpSet};
use chr_replica::Refusal;
use chr_testing::atoms::bag_of_values;
use chr_testing::texts::{MINIMUM, program_of};
use std::alloc::Global;

#[derive(Clone, Copy)]
pub enum SetCall {
    Add,
    Join,
}

/// The operation of this origin and number, of `min` at these values.
pub fn minima(alloc: Global, origin: u32, number: u64, values: &[i64]) -> Option<Op> {
    Op::of(OpId { origin, number }, bag_of_values(alloc, values).ok()?)
}

/// An operation of `min` by its origin, its number and its values.
pub type Minima = (u32, u64, &'static [i64]);

fn push_op(ops: &mut Vec<Op>, op: Option<Op>) {
    if let Some(op) = op {
        let _ = ops.push(op);
    }
}

/// Operations of `min`.
pub fn operations(alloc: Global, rows: &[Minima]) -> Vec<Op> {
    let mut ops = Vec::new(alloc);
    for (origin, number, values) in rows {
        push_op(&mut ops, minima(alloc, *origin, *number, values));
    }
    ops
}

/// Operations that the set holds before others join it.
const HELD: [Minima; 2] = [(1, 1, &[5, 3]), (2, 7, &[9])];

/// Adds what the set holds before the call: nothing where one operation is added, so that there is no room for it.
fn prepare(alloc: Global, set: &mut OpSet, made: SetCall) {
    if let SetCall::Join = made {
        let _ = set.join(alloc, &operations(alloc, &HELD));
    }
}

fn add(rt: &impl Print, alloc: Global, set: &mut OpSet) {
    if let Some(op) = minima(alloc, 3, 1, &[8, 2]) {
        call(rt);
        match set.add(op) {
            Ok(_) => answer(rt, None),
            Err(fault) => answer(rt, Some(Refusal::from(fault))),
        }
    }
}

/// Operations of which the set holds the second.
const JOINED: [Minima; 3] = [(1, 2, &[1]), (2, 7, &[9]), (3, 1, &[8, 2])];

fn join(rt: &impl Print, alloc: Global, set: &mut OpSet) {
    let ops = operations(alloc, &JOINED);
    call(rt);
    match set.join(alloc, &ops) {
        Ok(_) => answer(rt, None),
        Err(fault) => answer(rt, Some(Refusal::from(fault))),
    }
}

pub fn make(rt: &impl Print, alloc: Global, made: SetCall) -> Option<()> {
    let program = program_of(alloc, MINIMUM)?;
    let mut set = OpSet::new(alloc);
    prepare(alloc, &mut set, made);
    print_set(rt, alloc, &program, &set);
    match made {
        SetCall::Add => add(rt, alloc, &mut set),
        SetCall::Join => join(rt, alloc, &mut set),
    }
    print_set(rt, alloc, &program, &set)
}
