//! Nodes that take in each other's files.
use crate::tests::talking::{Run, answers, opened_on, taken_in};
use crate::tests::texts::{COIN, repeated};
use chr_node::TakenIn;
use chr_testing::texts::{COINS, MINIMUM};
use std::alloc::Global;
use std::process::Abort;
use std::thread::Threads;

/// A run of a program that was told a line several times.
fn run_of(
    rt: &(impl Abort + Threads + Sync),
    alloc: Global,
    program: &str,
    origin: u32,
    line: &str,
    times: u64,
) -> Run {
    let mut machine = opened_on(rt, alloc, program, u64::MAX, origin).expect(rt, "a node");
    let lines = repeated(rt, alloc, line, times);
    let mut held = String::new(alloc);
    assert!(rt; answers(alloc, &mut machine, lines.as_str(), &mut held));
    machine
}

/// The store that a run shows, as it is answered.
fn shown(rt: &impl Abort, alloc: Global, machine: &mut Run) -> String {
    let mut held = String::new(alloc);
    let answered = machine.talk.answer_line(alloc, b"[\"show\"]", &mut held);
    assert!(rt; answered.is_ok());
    held
}

/// What four coins and as many as the place says come to.
const STORES: [&str; 4] = [
    "[\"store\",[[\"note\"],[\"note\"]]]\n",
    "[\"store\",[[\"coin\"],[\"note\"],[\"note\"]]]\n",
    "[\"store\",[[\"note\"],[\"note\"],[\"note\"]]]\n",
    "[\"store\",[[\"coin\"],[\"note\"],[\"note\"],[\"note\"]]]\n",
];

#[test]
fn nodes_that_read_each_other_show_one_store(rt: HostRuntime) {
    let alloc = rt.alloc();
    for (coins, expected) in STORES.iter().enumerate() {
        let mut left = run_of(&rt, alloc, COINS, 7, COIN, coins as u64);
        let mut right = run_of(&rt, alloc, COINS, 9, COIN, 4);
        assert!(rt; taken_in(&rt, alloc, &mut left, &mut right.talk.node.feed.disk).is_ok());
        assert!(rt; taken_in(&rt, alloc, &mut right, &mut left.talk.node.feed.disk).is_ok());
        assert!(rt;
            shown(&rt, alloc, &mut left).as_str() == *expected,
            "{coins}"
        );
        assert!(rt;
            shown(&rt, alloc, &mut right).as_str() == *expected,
            "{coins}"
        );
    }
}

#[test]
fn records_of_another_program_are_counted(rt: HostRuntime) {
    let alloc = rt.alloc();
    let mut machine = run_of(&rt, alloc, COINS, 7, COIN, 2);
    let mut other = run_of(&rt, alloc, MINIMUM, 9, "[\"tell\",[[\"min\",3]]]\n", 1);
    let strange = TakenIn { new: 0, strange: 1 };
    assert!(rt; taken_in(&rt, alloc, &mut machine, &mut other.talk.node.feed.disk) == Ok(strange));
    assert!(rt; shown(&rt, alloc, &mut machine).as_str() == "[\"store\",[[\"note\"]]]\n");
}
