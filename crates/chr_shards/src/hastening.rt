//! Pools that are rested by several threads.
ghost use Rattle.std.specs.Prelude.{◌<◌};
ghost use Rattle.std.specs.Thread.{IsSync};
ghost use Rattle.chr_base.specs.Rewriting.{Reaches};
ghost use Rattle.chr_base.specs.Rules.{Step};
ghost use Rattle.chr_weights.specs.WeighedPrograms.{rules_in};
ghost use Rattle.chr_shards.specs.working.Placed.{ReachEach};

use crate::pools::rest_one;
use chr_columns::columns::Columns;
use chr_weights::Weighed;
use std::thread::{Threads, join_mut};

/// Takes steps in a pool, until it is at rest or memory is refused.
fn hasten_one(weighed: &Weighed, pool: &mut Columns)
    ensures { Reaches (Step (rules_in weighed.now)) pool.old pool.new }
{
    let _ = rest_one(weighed, pool);
}

/// Takes steps in these pools, one after the other, until each is at rest or memory is refused.
fn hasten_in_turn(weighed: &Weighed, pools: &mut [Columns])
    ensures { ReachEach (rules_in weighed.now) pools.old pools.new }
{
    for place in 0..pools.len() {
        hasten_one(weighed, &mut pools[place]);
    }
}

/// Takes steps in the first pools by a thread of their own, and meanwhile in the others, `size` pools by a thread.
#[cycle(threads)]
fn hasten_both<R: Threads + Sync>(
    rt: &R,
    weighed: &Weighed,
    size: usize,
    first: &mut [Columns],
    others: &mut [Columns],
)
    requires { 0 < size }
    ensures first { ReachEach (rules_in weighed.now) first.old first.new }
    ensures others { ReachEach (rules_in weighed.now) others.old others.new }
{
    let mut there = ||
        ensures { ReachEach (rules_in weighed.entry.now) first.entry.now first.exit.now }
    { hasten_in_turn(weighed, first) };
    let mut here = ||
        requires { IsSync R.row × (0 < size) }
        ensures { ReachEach (rules_in weighed.entry.now) others.entry.now others.exit.now }
    { hasten_by_size(rt, weighed, size, others) };
    join_mut(rt, &mut there, &mut here);
}

/// Takes steps in all pools, `size` of them by a thread. The caller's thread begins all others: a thread that had to
/// begin others first would come late to its own pools.
#[cycle(threads)]
fn hasten_by_size<R: Threads + Sync>(rt: &R, weighed: &Weighed, size: usize, pools: &mut [Columns])
    requires { 0 < size }
    ensures { ReachEach (rules_in weighed.now) pools.old pools.new }
{
    if pools.len() <= size {
        hasten_in_turn(weighed, pools);
        return;
    }
    let (first, others) = pools.split_at_mut(size);
    hasten_both(rt, weighed, size, first, others);
}

/// Takes steps in each pool, by `threads` threads.
pub(crate) fn hasten_each<R: Threads + Sync>(
    rt: &R,
    weighed: &Weighed,
    pools: &mut Vec<Columns>,
    threads: usize,
)
    requires { 0 < threads }
    ensures { ReachEach (rules_in weighed.now) pools.old.items pools.new.items }
{
    let size = pools.len().div_ceil(threads).max(1);
    hasten_by_size(rt, weighed, size, pools.as_mut_slice());
}
