//! Sets that are told ids in some orders, beside a plain list of what they were told. Where memory runs out a test
//! ends.
use super::{bag, have_ids, id, jumped, lacked, op, own_summary, summary_of};
use chr_ops::{AddFault, Added, Op, OpSet};
use std::alloc::Global;
use std::process::Abort;

/// An operation of one atom: its origin, number and symbol.
type Row = (u32, u64, u16);

/// Whether the ids of the set that the ranges leave out are just these, in this order.
fn lacks_just(
    rt: &impl Abort,
    alloc: Global,
    set: &OpSet,
    ranges: &[(u32, u64, u64)],
    ids: &[(u32, u64)],
) -> bool {
    let summary = summary_of(rt, alloc, ranges);
    have_ids(&lacked(rt, alloc, set, &summary), ids)
}

/// A range of an origin from 0 to 3 that a number gives, with numbers from 0 to 63.
fn range_by(number: u64) -> (u32, u64, u64) {
    let lo = (number >> 33) % 64;
    let hi = (lo + (number >> 40) % 9).min(63);
    (((number >> 50) % 4) as u32, lo, hi)
}

/// Up to twelve ranges that a seed gives, each by [`range_by`].
fn ranges_by(rt: &impl Abort, alloc: Global, seed: u64) -> Vec<(u32, u64, u64)> {
    let mut ranges = Vec::new(alloc);
    let mut number = seed;
    for _ in 0..seed % 13 {
        number = jumped(number);
        ranges.push(range_by(number)).expect(rt, "memory");
    }
    ranges
}

/// Whether one of the ranges has an id, tried one by one.
fn is_covered(ranges: &[(u32, u64, u64)], id: (u32, u64)) -> bool {
    for (origin, lo, hi) in ranges {
        if *origin == id.0 && *lo <= id.1 && id.1 <= *hi {
            return true;
        }
    }
    false
}

/// The ids that the ranges leave out, tried one by one.
fn left_out(
    rt: &impl Abort,
    alloc: Global,
    ids: &[(u32, u64)],
    ranges: &[(u32, u64, u64)],
) -> Vec<(u32, u64)> {
    let mut left = Vec::new(alloc);
    for id in ids {
        if !is_covered(ranges, *id) {
            left.push(*id).expect(rt, "memory");
        }
    }
    left
}

/// A set, and the operations that it was told and took, in the order in which they came.
#[derive(Drop)]
struct Told {
    set: OpSet,
    rows: Vec<Row>,
}

impl Told {
    /// A set that was told nothing.
    fn none(alloc: Global) -> Told {
        Told {
            set: OpSet::new(alloc),
            rows: Vec::new(alloc),
        }
    }

    /// The symbol that an id was told with.
    fn symbol(&self, origin: u32, number: u64) -> Option<u16> {
        for (of, at, symbol) in &self.rows {
            if *of == origin && *at == number {
                return Some(*symbol);
            }
        }
        None
    }

    /// What the set has to answer to an operation.
    fn answer(&self, row: Row) -> Result<Added, AddFault> {
        match self.symbol(row.0, row.1) {
            None => Ok(Added::New),
            Some(symbol) if symbol == row.2 => Ok(Added::Again),
            Some(_) => Err(AddFault::Clash(id(row.0, row.1))),
        }
    }

    /// Tells the set an operation, and answers whether the set gave the answer that it has to give.
    fn tell(&mut self, rt: &impl Abort, alloc: Global, row: Row) -> bool {
        let wanted = self.answer(row);
        if wanted == Ok(Added::New) {
            self.rows.push(row).expect(rt, "memory");
        }
        self.set.add(op(rt, alloc, id(row.0, row.1), &[row.2])) == wanted
    }

    /// Whether the set has under an id what was told, or nothing.
    fn has_as_told(&self, rt: &impl Abort, alloc: Global, origin: u32, number: u64) -> bool {
        match (
            self.set.get(id(origin, number)),
            self.symbol(origin, number),
        ) {
            (Some(held), Some(symbol)) => held.is_same(&bag(rt, alloc, &[symbol])),
            (None, None) => true,
            _ => false,
        }
    }

    /// The ids that were told, in order.
    fn ids(&self, rt: &impl Abort, alloc: Global) -> Vec<(u32, u64)> {
        let mut ids = Vec::new(alloc);
        for (origin, number, _) in &self.rows {
            ids.push((*origin, *number)).expect(rt, "memory");
        }
        ids.sort_unstable();
        ids
    }

    /// Whether the set lacks nothing of its own summary, and of ranges of a seed just what these leave out.
    fn lacks_as_told(&self, rt: &impl Abort, alloc: Global, seed: u64) -> bool {
        let own = lacked(rt, alloc, &self.set, &own_summary(rt, alloc, &self.set));
        let ids = self.ids(rt, alloc);
        let ranges = ranges_by(rt, alloc, seed);
        let left = left_out(rt, alloc, &ids, &ranges);
        own.is_empty()
            && lacks_just(rt, alloc, &self.set, &[], &ids)
            && lacks_just(rt, alloc, &self.set, &ranges, &left)
    }

    /// Has the set refuse three operations at once: two with ids that are never told otherwise, and one that clashes.
    fn refuses(&mut self, rt: &impl Abort, alloc: Global, seed: u64) -> bool {
        let Some((origin, number, symbol)) = self.rows.first().copied() else {
            return true;
        };
        let refused = [
            ((seed % 4) as u32, 64 + seed % 7, 0),
            ((seed % 4) as u32, 71 + seed % 7, 0),
            (origin, number, symbol ^ 1),
        ];
        let ops = ops_of(rt, alloc, &refused);
        self.set.join(alloc, &ops) == Err(AddFault::Clash(id(origin, number)))
            && self.has_as_told(rt, alloc, refused[0].0, refused[0].1)
            && self.has_as_told(rt, alloc, refused[1].0, refused[1].1)
    }
}

fn ops_of(rt: &impl Abort, alloc: Global, rows: &[Row]) -> Vec<Op> {
    let mut ops = Vec::new(alloc);
    for (origin, number, symbol) in rows {
        let op = op(rt, alloc, id(*origin, *number), &[*symbol]);
        ops.push(op).expect(rt, "memory");
    }
    ops
}

/// The id of each of 192 places in an order: rising; falling; three replicas in turn; even numbers before odd ones; or
/// jumping about, so that some come again.
fn id_in(order: u64, place: u64) -> (u32, u64) {
    let number = jumped(jumped(place));
    match order {
        0 => ((place / 64 % 3) as u32, place % 64),
        1 => ((2 - place / 64 % 3) as u32, 63 - place % 64),
        2 => ((place % 3) as u32, place / 3 % 64),
        3 => (1, place % 32 * 2 + place / 32 % 2),
        _ => (((number >> 40) % 3) as u32, (number >> 50) % 64),
    }
}

/// One step in an order: an operation is told, mostly with one symbol, and each eighth time some are refused.
fn step(rt: &impl Abort, alloc: Global, told: &mut Told, order: u64, place: u64) -> bool {
    let (origin, number) = id_in(order, place);
    let symbol = if jumped(place ^ order) >> 61 == 0 {
        1
    } else {
        0
    };
    let seed = jumped(place) >> 20;
    told.tell(rt, alloc, (origin, number, symbol))
        && told.has_as_told(rt, alloc, origin, number)
        && told.has_as_told(rt, alloc, ((seed >> 8) % 4) as u32, seed % 64)
        && (place % 8 != 7 || told.refuses(rt, alloc, seed))
        && told.lacks_as_told(rt, alloc, seed)
}

#[test]
fn ids_told_in_any_order_are_held_as_told(rt: HostRuntime) {
    let alloc = rt.alloc();
    for order in 0..5_u64 {
        let mut told = Told::none(alloc);
        for place in 0..192_u64 {
            assert!(rt;
                step(&rt, alloc, &mut told, order, place),
                "step {place} of order {order}"
            );
        }
    }
}
