//! What is kept of what sets gained. Exchanges by what is kept carry the same operations as exchanges by summaries.
use super::{add, id, jumped, lacked, op, own_summary};
use chr_ops::{News, Op, OpId, OpSet};
use std::alloc::Global;
use std::process::Abort;

/// Operations of one origin with these numbers.
fn ops_of(rt: &impl Abort, alloc: Global, numbers: &[u64]) -> Vec<Op> {
    let mut ops = Vec::new(alloc);
    for number in numbers {
        ops.push(op(rt, alloc, id(1, *number), &[0]))
            .expect(rt, "memory");
    }
    ops
}

/// A call on the news.
enum Call {
    Gained(usize, &'static [u64]),
    GainedOne(usize, u64),
    Met(usize, usize),
    Forgotten,
}

fn carry_out(rt: &impl Abort, alloc: Global, news: &mut News, call: &Call) {
    match call {
        Call::Gained(giver, numbers) => news.gained(*giver, &ops_of(rt, alloc, numbers)),
        Call::GainedOne(giver, number) => news.gained_one(*giver, id(1, *number)),
        Call::Met(giver, taker) => news.met(alloc, *giver, *taker),
        Call::Forgotten => news.forget(),
    }
}

fn have_numbers(ids: &[OpId], numbers: &[u64]) -> bool {
    let mut all = ids.len() == numbers.len();
    for (found, number) in ids.iter().zip(numbers) {
        all = all && *found == id(1, *number);
    }
    all
}

/// Whether the news say that a giver gained just these numbers since a taker held all, or that it is not known what.
fn is_known(news: &News, giver: usize, taker: usize, wanted: Option<&[u64]>) -> bool {
    match (news.since(giver, taker), wanted) {
        (Some(ids), Some(numbers)) => have_numbers(ids, numbers),
        (None, None) => true,
        _ => false,
    }
}

/// A call, a giver and a taker, and the numbers that are then known of them.
type Row = (Call, usize, usize, Option<&'static [u64]>);

const ROWS: [Row; 16] = [
    (Call::Gained(0, &[1]), 0, 1, None),
    (Call::Met(0, 1), 0, 1, Some(&[])),
    (Call::Gained(0, &[2, 3]), 0, 1, Some(&[2, 3])),
    (Call::Gained(1, &[9]), 0, 1, Some(&[2, 3])),
    (Call::Met(0, 2), 0, 2, Some(&[])),
    (Call::Gained(0, &[4]), 0, 2, Some(&[4])),
    (Call::Gained(0, &[]), 0, 1, Some(&[2, 3, 4])),
    (Call::Met(0, 1), 0, 1, Some(&[])),
    (Call::Gained(0, &[5]), 0, 2, Some(&[4, 5])),
    (Call::GainedOne(0, 6), 0, 2, Some(&[4, 5, 6])),
    (Call::GainedOne(1, 6), 0, 1, Some(&[5, 6])),
    (Call::Gained(0, &[6]), 1, 0, None),
    (Call::Forgotten, 0, 1, None),
    (Call::Met(0, 1), 0, 1, Some(&[])),
    (Call::Gained(0, &[7]), 0, 1, Some(&[7])),
    (Call::GainedOne(0, 8), 0, 1, Some(&[7, 8])),
];

#[test]
fn what_was_gained_is_known_for_each_taker(rt: HostRuntime) {
    let alloc = rt.alloc();
    let mut news = News::new(alloc);
    for (place, (call, giver, taker, wanted)) in ROWS.iter().enumerate() {
        carry_out(&rt, alloc, &mut news, call);
        assert!(rt; is_known(&news, *giver, *taker, *wanted), "row {place}");
    }
}

/// Sets, and the news of them.
#[derive(Drop)]
struct Sets {
    sets: [OpSet; 3],
    news: News,
}

/// What the taker lacks, as a walk along summaries finds it.
fn walked(rt: &impl Abort, alloc: Global, giver: &OpSet, taker: &OpSet) -> Vec<Op> {
    lacked(rt, alloc, giver, &own_summary(rt, alloc, taker))
}

/// What the taker lacks among the ids that the giver is known to have gained, or all that it lacks where none are
/// known.
fn lacked_of(
    rt: &impl Abort,
    alloc: Global,
    giver: &OpSet,
    taker: &OpSet,
    known: Option<&[OpId]>,
) -> Vec<Op> {
    match known {
        Some(ids) => giver.lacked_among(alloc, taker, ids).expect(rt, "memory"),
        None => walked(rt, alloc, giver, taker),
    }
}

fn have_same_ids(ops: &[Op], others: &[Op]) -> bool {
    let mut all = ops.len() == others.len();
    for (op, other) in ops.iter().zip(others) {
        all = all && op.id() == other.id();
    }
    all
}

/// What a taker lacks of a giver, both by their numbers modulo 3, and whether that is what a walk finds.
fn found(
    rt: &impl Abort,
    alloc: Global,
    all: &Sets,
    giver: usize,
    taker: usize,
) -> (Vec<Op>, bool) {
    let from = &all.sets[giver % 3];
    let to = &all.sets[taker % 3];
    let known = all.news.since(giver % 3, taker % 3);
    let ops = lacked_of(rt, alloc, from, to, known);
    let is_same = have_same_ids(&ops, &walked(rt, alloc, from, to));
    (ops, is_same)
}

/// A taker takes in what it lacks of a giver. Answers whether that was what a walk finds.
fn exchange(rt: &impl Abort, alloc: Global, all: &mut Sets, giver: usize, taker: usize) -> bool {
    let (ops, is_same) = found(rt, alloc, all, giver, taker);
    let joined = all.sets[taker % 3].join(alloc, &ops);
    all.news.gained(taker % 3, &ops);
    all.news.met(alloc, giver % 3, taker % 3);
    is_same && joined.is_ok()
}

/// An operation is told to a set, by its number modulo 3.
fn tell(rt: &impl Abort, alloc: Global, all: &mut Sets, place: usize, id: OpId) {
    let place = place % 3;
    all.news.gained_one(place, id);
    add(rt, &mut all.sets[place], op(rt, alloc, id, &[0]));
}

/// Takes a step that a number gives: mostly an operation is told, else two sets exchange. Answers whether all was as a
/// walk finds it.
fn step(rt: &impl Abort, alloc: Global, all: &mut Sets, number: u64) -> bool {
    let place = (number >> 20) as usize;
    if (number >> 30) % 4 == 0 {
        return exchange(rt, alloc, all, place, (number >> 40) as usize);
    }
    let told = id(((number >> 40) % 3) as u32, (number >> 50) % 512);
    tell(rt, alloc, all, place, told);
    true
}

#[test]
fn exchanges_by_news_are_those_by_summaries(rt: HostRuntime) {
    let alloc = rt.alloc();
    let sets = [OpSet::new(alloc), OpSet::new(alloc), OpSet::new(alloc)];
    let news = News::new(alloc);
    let mut all = Sets { sets, news };
    let mut number = 1;
    for place in 0..3_000_u64 {
        number = jumped(number);
        assert!(rt; step(&rt, alloc, &mut all, number), "step {place}");
    }
}
