//! The worked examples of operation sets. Where memory runs out a test ends.
use super::{
    GREATEST, add, bag, grow, have_ids, id, lacked, op, own_summary, put_in, set_of, summary_of,
};
use chr_base::bag::Bag;
use chr_ops::{AddFault, Added, IdRange, Op, OpId, OpSet, Summary};
use std::alloc::Global;
use std::process::Abort;

/// A bag of `atoms` equal atoms.
fn bag_of_equal(rt: &impl Abort, alloc: Global, atoms: u32) -> Bag {
    let mut bag = Bag::new(alloc);
    for _ in 0..atoms {
        put_in(rt, &mut bag, 5);
    }
    bag
}

/// An operation of `atoms` equal atoms.
fn op_of_equal(rt: &impl Abort, alloc: Global, id: OpId, atoms: u32) -> Op {
    Op::of(id, bag_of_equal(rt, alloc, atoms)).expect(rt, "an operation")
}

/// Operations with these origins, numbers and symbols, of one atom each.
fn ops(rt: &impl Abort, alloc: Global, told: &[(u32, u64, u16)]) -> Vec<Op> {
    let mut ops = Vec::new(alloc);
    for (origin, number, symbol) in told {
        let op = op(rt, alloc, id(*origin, *number), &[*symbol]);
        ops.push(op).expect(rt, "memory");
    }
    ops
}

/// Whether the set gives the expected answer to an operation.
fn adds(
    rt: &impl Abort,
    alloc: Global,
    set: &mut OpSet,
    id: OpId,
    symbols: &[u16],
    expected: Result<Added, AddFault>,
) -> bool {
    set.add(op(rt, alloc, id, symbols)) == expected
}

/// Whether the set gives the expected answer to operations that it is to take in at once.
fn joins(alloc: Global, set: &mut OpSet, ops: &[Op], expected: Result<u64, AddFault>) -> bool {
    set.join(alloc, ops) == expected
}

fn tells(set: &OpSet, told: u64) -> bool {
    set.told() == told
}

fn is_missing(set: &OpSet, id: OpId) -> bool {
    set.get(id).is_none()
}

/// Adds `operations` operations of origin 9, of 64 atoms each.
fn add_full(rt: &impl Abort, alloc: Global, set: &mut OpSet, operations: u64) {
    for number in 0..operations {
        add(rt, set, op_of_equal(rt, alloc, id(9, number), 64));
    }
}

/// Adds `operations` operations of origin 8, of one atom each.
fn add_single(rt: &impl Abort, alloc: Global, set: &mut OpSet, operations: u64) {
    for number in 0..operations {
        grow(rt, alloc, set, id(8, number));
    }
}

/// A set that tells `atoms` atoms.
fn set_telling(rt: &impl Abort, alloc: Global, atoms: u64) -> OpSet {
    let mut set = OpSet::new(alloc);
    add_full(rt, alloc, &mut set, atoms / 64);
    add_single(rt, alloc, &mut set, atoms % 64);
    set
}

/// Whether the ranges have these origins and ends.
fn are_ranges(ranges: &[IdRange], ends: &[(u32, u64, u64)]) -> bool {
    let mut all = ranges.len() == ends.len();
    for (range, (origin, lo, hi)) in ranges.iter().zip(ends) {
        all = all && range.origin == *origin && range.lo == *lo && range.hi == *hi;
    }
    all
}

fn has_ranges(summary: &Summary, ends: &[(u32, u64, u64)]) -> bool {
    are_ranges(summary.ranges(), ends)
}

fn copied(rt: &impl Abort, alloc: Global, summary: &Summary) -> Summary {
    summary.copy(alloc).expect(rt, "memory")
}

/// Compares the ranges of the set's summary, and of a copy of it.
fn expect_ranges(rt: &impl Abort, alloc: Global, set: &OpSet, ends: &[(u32, u64, u64)]) {
    let summary = own_summary(rt, alloc, set);
    assert!(rt; has_ranges(&summary, ends));
    assert!(rt; has_ranges(&copied(rt, alloc, &summary), ends));
}

const HELD: [(u32, u64); 4] = [(1, GREATEST), (1, 0), (0, 5), (1, 1)];

const HELD_RANGES: [(u32, u64, u64); 3] = [(0, 5, 5), (1, 0, 1), (1, GREATEST, GREATEST)];

#[test]
fn what_a_summary_leaves_out_is_lacked(rt: HostRuntime) {
    let alloc = rt.alloc();
    let set = set_of(&rt, alloc, &HELD);
    expect_ranges(&rt, alloc, &set, &HELD_RANGES);
    let summary = own_summary(&rt, alloc, &set);
    assert!(rt; lacked(&rt, alloc, &set, &summary).is_empty());
    let middle = summary_of(&rt, alloc, &[(1, 1, 1)]);
    let lacked = lacked(&rt, alloc, &set, &middle);
    assert!(rt; have_ids(&lacked, &[(0, 5), (1, 0), (1, GREATEST)]));
}

/// Whether these atoms are those of the operations that the set lacks.
fn are_fresh(rt: &impl Abort, alloc: Global, set: &OpSet, ops: &[Op], symbols: &[u16]) -> bool {
    let list = set.fresh_list(alloc, ops).expect(rt, "memory");
    let list = Bag::of(list).expect(rt, "memory");
    let fresh = set.fresh_atoms(alloc, ops).expect(rt, "memory");
    fresh.is_same(&bag(rt, alloc, symbols)) && list.is_same(&fresh)
}

#[test]
fn joins_count_new_operations(rt: HostRuntime) {
    let alloc = rt.alloc();
    let mut set = OpSet::new(alloc);
    assert!(rt; adds(&rt, alloc, &mut set, id(1, 1), &[5], Ok(Added::New)));
    let repeated = ops(&rt, alloc, &[(1, 2, 1), (1, 2, 1), (1, 1, 5)]);
    assert!(rt; are_fresh(&rt, alloc, &set, &repeated, &[1]));
    assert!(rt; joins(alloc, &mut set, &repeated, Ok(1)));
    assert!(rt; are_fresh(&rt, alloc, &set, &repeated, &[]));
    assert!(rt; tells(&set, 2));
}

/// Whether the set refuses operations since this id stands for two bags.
fn clashes(alloc: Global, set: &mut OpSet, ops: &[Op], id: OpId) -> bool {
    joins(alloc, set, ops, Err(AddFault::Clash(id)))
}

#[test]
fn joins_take_all_or_none(rt: HostRuntime) {
    let alloc = rt.alloc();
    let mut set = OpSet::new(alloc);
    let told = ops(&rt, alloc, &[(1, 1, 5), (1, 2, 1)]);
    assert!(rt; joins(alloc, &mut set, &told, Ok(2)));
    let held = ops(&rt, alloc, &[(1, 3, 0), (1, 1, 6)]);
    assert!(rt; clashes(alloc, &mut set, &held, id(1, 1)));
    let earlier = ops(&rt, alloc, &[(1, 4, 1), (1, 4, 2)]);
    assert!(rt; clashes(alloc, &mut set, &earlier, id(1, 4)));
    assert!(rt; tells(&set, 2));
    expect_ranges(&rt, alloc, &set, &[(1, 1, 2)]);
}

/// A set that tells the most atoms refuses one atom more, and these operations, and knows the operation 1 of origin 1.
fn expect_full(rt: &impl Abort, alloc: Global, set: &mut OpSet, ops: &[Op]) {
    assert!(rt; tells(set, 1_000_000));
    assert!(rt; adds(rt, alloc, set, id(1, 2), &[1], Err(AddFault::Full)));
    assert!(rt; adds(rt, alloc, set, id(1, 1), &[1], Ok(Added::Again)));
    assert!(rt; joins(alloc, set, ops, Err(AddFault::Full)));
    assert!(rt; tells(set, 1_000_000));
}

#[test]
fn at_most_a_million_atoms_are_told(rt: HostRuntime) {
    let alloc = rt.alloc();
    let mut set = set_telling(&rt, alloc, 999_999);
    let two = ops(&rt, alloc, &[(1, 1, 1), (1, 2, 1)]);
    assert!(rt; joins(alloc, &mut set, &two, Err(AddFault::Full)));
    assert!(rt; tells(&set, 999_999) && is_missing(&set, id(1, 1)));
    assert!(rt; adds(&rt, alloc, &mut set, id(1, 1), &[1], Ok(Added::New)));
    expect_full(&rt, alloc, &mut set, &two);
}
