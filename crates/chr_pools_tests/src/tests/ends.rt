//! The ends of stores of confluent programs: one in a pool of columns, in a plain list and by the plain derivation.
use crate::tests::drawing::store;
use crate::tests::programs::{CONFLUENT, program};
use crate::tests::steps::list_of;
use chr_base::bag::Bag;
use chr_columns::columns::Columns;
use chr_rewrite::plain::plain_end;
use chr_rewrite::pool::Pool;
use chr_rewrite::resting::{at_rest, rest};
use chr_testing::random::Random;
use chr_weights::Weighed;
use std::alloc::Global;
use std::process::Abort;

/// The number of stores of each program.
const STORES: usize = 200;

/// The pool of columns for a program, with these atoms. The seed under which keys are hashed is the number of atoms.
fn columns_of(rt: &impl Abort, alloc: Global, weighed: &Weighed, store: &Bag) -> Columns {
    let seed = store.atoms().len() as u64;
    let mut pool = Columns::seeded(alloc, seed, weighed.program().rules()).expect(rt, "memory");
    pool.insert(store.atoms()).expect(rt, "memory");
    pool
}

/// Rests the pool, which is at rest then and stays so, and answers how many steps that took.
fn rested<P: Pool>(rt: &impl Abort, weighed: &Weighed, pool: &mut P) -> u64 {
    let steps = rest(weighed, pool).expect(rt, "memory");
    assert!(rt; at_rest(weighed, pool), "a step after the end");
    assert!(rt; rest(weighed, pool).ok() == Some(0), "steps after the end");
    steps
}

fn bag_of<P: Pool>(rt: &impl Abort, alloc: Global, pool: &P) -> Bag {
    pool.bag(alloc).expect(rt, "memory")
}

/// The store comes to one end. Answers how many steps the pool of columns took.
fn has_one_end(rt: &impl Abort, alloc: Global, weighed: &Weighed, store: &Bag) -> u64 {
    let plain = plain_end(alloc, weighed, store).expect(rt, "memory");
    let mut list = list_of(rt, alloc, store);
    rested(rt, weighed, &mut list);
    assert!(rt;
        bag_of(rt, alloc, &list).is_same(&plain),
        "two ends in a list"
    );
    let mut columns = columns_of(rt, alloc, weighed, store);
    let steps = rested(rt, weighed, &mut columns);
    assert!(rt; bag_of(rt, alloc, &columns).is_same(&plain), "two ends");
    steps
}

/// Stores of a program come to one end each, many of them in more than two steps.
fn expect_ends(rt: &impl Abort, alloc: Global, random: &mut Random, rules: &str) {
    let weighed = program(rt, alloc, rules);
    let mut long = 0u32;
    for _ in 0..STORES {
        let times = random.below(6);
        let store = store(rt, alloc, random, weighed.program().rules(), times);
        let steps = has_one_end(rt, alloc, &weighed, &store);
        long = long.wrapping_add(u32::from(steps > 2));
    }
    assert!(rt; long >= 20, "{rules}");
}

#[test]
fn confluent_programs_have_one_end(rt: HostRuntime) {
    let mut random = Random::new(10);
    for rules in CONFLUENT {
        expect_ends(&rt, rt.alloc(), &mut random, rules);
    }
}
