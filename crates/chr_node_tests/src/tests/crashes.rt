//! Crashes of nodes, and the runs that begin after them.
use crate::tests::talking::{answers, opened_on, taken_in};
use crate::tests::texts::{COIN, repeated};
use chr_testing::texts::COINS;
use sqlite_disk::{Crash, Fuse, Memory};
use std::alloc::Global;
use std::process::Abort;
use std::thread::Threads;

/// How many operations of a run are new to the next one, which takes its file in.
fn found_in(rt: &(impl Abort + Threads + Sync), alloc: Global, file: &mut Fuse<Memory>) -> u64 {
    let mut next = opened_on(rt, alloc, COINS, u64::MAX, 8).expect(rt, "a node");
    let taken = taken_in(rt, alloc, &mut next, file).expect(rt, "a file");
    assert!(rt; taken.strange == 0);
    taken.new
}

/// How many bytes two tells are answered, and how many of them the next run finds, where the disk stops after `calls`
/// calls. None where the feed isn't made.
fn kept(rt: &(impl Abort + Threads + Sync), alloc: Global, calls: u64) -> Option<(usize, u64)> {
    let mut machine = opened_on(rt, alloc, COINS, calls, 7)?;
    let lines = repeated(rt, alloc, COIN, 2);
    let mut held = String::new(alloc);
    let _are_answered = answers(alloc, &mut machine, lines.as_str(), &mut held);
    machine.talk.node.feed.disk.crash();
    Some((
        held.len(),
        found_in(rt, alloc, &mut machine.talk.node.feed.disk),
    ))
}

/// Three calls make a feed, and five more put a batch there: all but its gate, the next gate, a sync, the gate, a sync.
fn expected(calls: u64) -> Option<(usize, u64)> {
    match calls {
        0..3 => None,
        3..8 => Some((0, 0)),
        _ => Some((2 * "[\"told\",[7,1]]\n".len(), 2)),
    }
}

#[test]
fn a_crash_at_each_call_keeps_what_was_answered(rt: HostRuntime) {
    let alloc = rt.alloc();
    for calls in 0..12u64 {
        assert!(rt; kept(&rt, alloc, calls) == expected(calls), "{calls} calls");
    }
}
