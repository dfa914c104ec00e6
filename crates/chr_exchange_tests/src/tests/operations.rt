//! Operations, sets of them and summaries, in the public words of `chr_ops`.
mod news;
mod orders;
mod sets;

use chr_base::atom::{Atom, SymbolId};
use chr_base::bag::Bag;
use chr_ops::{IdRange, Op, OpId, OpSet, Summary};
use std::alloc::Global;
use std::process::Abort;

const GREATEST: u64 = 18_446_744_073_709_551_615;

fn id(origin: u32, number: u64) -> OpId {
    OpId { origin, number }
}

/// An atom without arguments.
fn atom(symbol: u16) -> Atom {
    Atom {
        symbol: SymbolId(symbol),
        ..Atom::default()
    }
}

/// The next of some numbers that jump about.
fn jumped(number: u64) -> u64 {
    number
        .wrapping_mul(6_364_136_223_846_793_005)
        .wrapping_add(1_442_695_040_888_963_407)
}

fn put_in(rt: &impl Abort, bag: &mut Bag, symbol: u16) {
    bag.add(atom(symbol)).expect(rt, "memory");
}

/// A bag of atoms without arguments, named by their symbols. Where memory runs out a test ends, here and in all
/// functions of these tests.
fn bag(rt: &impl Abort, alloc: Global, symbols: &[u16]) -> Bag {
    let mut bag = Bag::new(alloc);
    for symbol in symbols {
        put_in(rt, &mut bag, *symbol);
    }
    bag
}

fn op(rt: &impl Abort, alloc: Global, id: OpId, symbols: &[u16]) -> Op {
    Op::of(id, bag(rt, alloc, symbols)).expect(rt, "an operation")
}

fn add(rt: &impl Abort, set: &mut OpSet, op: Op) {
    assert!(rt; set.add(op).is_ok());
}

/// Adds an operation of one atom.
fn grow(rt: &impl Abort, alloc: Global, set: &mut OpSet, id: OpId) {
    add(rt, set, op(rt, alloc, id, &[0]));
}

/// The set of operations with these origins and numbers, each of one atom, added one by one.
fn set_of(rt: &impl Abort, alloc: Global, ids: &[(u32, u64)]) -> OpSet {
    let mut set = OpSet::new(alloc);
    for (origin, number) in ids {
        grow(rt, alloc, &mut set, id(*origin, *number));
    }
    set
}

/// Ranges by their origins and both ends.
fn ranges_of(rt: &impl Abort, alloc: Global, ends: &[(u32, u64, u64)]) -> Vec<IdRange> {
    let mut ranges = Vec::new(alloc);
    for (origin, lo, hi) in ends {
        let range = IdRange {
            origin: *origin,
            lo: *lo,
            hi: *hi,
        };
        ranges.push(range).expect(rt, "memory");
    }
    ranges
}

/// The summary of ranges, none of which is empty.
fn summary_of(rt: &impl Abort, alloc: Global, ends: &[(u32, u64, u64)]) -> Summary {
    let ranges = ranges_of(rt, alloc, ends);
    let all = ranges.iter().all(|range| range.lo <= range.hi);
    assert!(rt; all, "an empty range");
    Summary::of(ranges).expect(rt, "memory")
}

/// The operations that the set has and the summary doesn't, in order.
fn lacked(rt: &impl Abort, alloc: Global, set: &OpSet, summary: &Summary) -> Vec<Op> {
    set.lacks(alloc, summary).expect(rt, "memory")
}

fn own_summary(rt: &impl Abort, alloc: Global, set: &OpSet) -> Summary {
    set.summary(alloc).expect(rt, "memory")
}

/// Whether the operations have just these ids, in this order.
fn have_ids(ops: &[Op], ids: &[(u32, u64)]) -> bool {
    let mut all = ops.len() == ids.len();
    for (op, (origin, number)) in ops.iter().zip(ids) {
        all = all && op.id() == id(*origin, *number);
    }
    all
}
