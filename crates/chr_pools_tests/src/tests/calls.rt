//! A pool of columns under calls at random, beside a plain list.
use crate::tests::beside::Beside;
use crate::tests::programs::{CONFLUENT, OTHERS, program};
use crate::tests::tally::Tally;
use chr_weights::Weighed;
use std::alloc::Global;
use std::process::Abort;

/// The number of sequences of each program.
const SEQUENCES: u64 = 200;

/// The calls of each sequence.
const CALLS: u32 = 40;

/// Calls under the rules of the first program, and seldom under those of the second.
fn run_sequence(
    rt: &impl Abort,
    alloc: Global,
    first: &Weighed,
    second: &Weighed,
    seed: u64,
    tally: Tally,
) -> Tally {
    let mut beside = Beside::new(rt, alloc, first.program().rules(), seed);
    beside.tally = tally;
    for call in 0..CALLS {
        beside.call(rt, alloc, if call % 8 == 7 { second } else { first });
    }
    beside.tally
}

/// Sequences of calls under each of these programs, and seldom under the other one.
fn run_sequences(
    rt: &impl Abort,
    alloc: Global,
    texts: &[&str],
    other: &str,
    tally: Tally,
) -> Tally {
    let other = program(rt, alloc, other);
    let mut tally = tally;
    for text in texts {
        let first = program(rt, alloc, text);
        for seed in 0..SEQUENCES {
            tally = run_sequence(rt, alloc, &first, &other, seed, tally);
        }
    }
    tally
}

#[test]
fn calls_at_random(rt: HostRuntime) {
    let alloc = rt.alloc();
    let tally = run_sequences(&rt, alloc, &CONFLUENT, OTHERS[0], Tally::new());
    let tally = run_sequences(&rt, alloc, &OTHERS, CONFLUENT[0], tally);
    assert!(rt; tally.is_at_least(40));
}
