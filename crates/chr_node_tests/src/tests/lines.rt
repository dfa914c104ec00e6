//! What a node answers to the lines of one caller.
ghost use Rattle.chr_replica.specs.Boards.{program_on};
ghost use Rattle.chr_node_boards.specs.Shown.{operations_on};
ghost use Rattle.chr_node_talk.specs.Talks.{IsReady};

use crate::tests::talking::{Machine, answers, opened_on};
use chr_testing::texts::COINS;
use sqlite_disk::Disk;
use std::alloc::Global;
use std::process::Abort;

/// Bytes that come, and what is answered to the lines that end in them.
const ROWS: [(&str, &str); 14] = [
    (
        "[\"tell\",[[\"coin\"]]]\n[\"tell\",2,[[\"coin\"]]]\n",
        "[\"told\",[7,1]]\n[\"told\",[7,2]]\n",
    ),
    // Who had no answer tells it once more.
    ("[\"tell\",2,[[\"coin\"]]]\n", "[\"again\",[7,2]]\n"),
    (
        "[\"tell\",2,[[\"note\"]]]\n",
        "[\"refused\",33,\"the number stands for other atoms\"]\n",
    ),
    (
        "[\"tell\",4,[[\"coin\"]]]\n",
        "[\"refused\",41,\"the number is not the next one\"]\n",
    ),
    ("[\"last\"]\n[\"sho", "[\"last\",2]\n"),
    ("w\"]\n", "[\"store\",[[\"note\"]]]\n"),
    // What was told before in the same bytes counts.
    (
        "[\"tell\",[[\"coin\"]]]\n[\"count\",[\"coin\"]]\n",
        "[\"told\",[7,3]]\n[\"count\",1]\n",
    ),
    (
        "[\"changes\"]\n[\"changes\"]\n",
        "[\"changed\",[[\"coin\"],[\"note\"]],[]]\n[\"changed\",[],[]]\n",
    ),
    (
        "[\"tell\",[[\"coin\"]]]\n[\"changes\"]\n",
        "[\"told\",[7,4]]\n[\"changed\",[[\"note\"]],[[\"coin\"]]]\n",
    ),
    ("[\"show\",\"coin\"]\n", "[\"store\",[]]\n"),
    (
        "[\"show\",\"note\"]\n",
        "[\"store\",[[\"note\"],[\"note\"]]]\n",
    ),
    (
        "[\"find\",[\"note\"]]\n",
        "[\"found\",[[\"note\"],[\"note\"]]]\n",
    ),
    ("[\"status\"]\n", "[\"status\",[],[],4,2]\n"),
    (
        "\n",
        "[\"refused\",30,\"the line is no JSON value of at most 1048576 bytes\"]\n",
    ),
];

/// Compares what a node answers to the bytes of each row with the text beside it.
fn expect_answers<D: Disk>(
    rt: &impl Abort,
    alloc: Global,
    machine: &mut Machine<D>,
    rows: &[(&str, &str)],
)
    requires { IsReady D.seen D.may_leave D.is_usable operations_on program_on machine.old.talk.node }
{
    for (bytes, expected) in rows {
        let mut held = String::new(alloc);
        assert!(rt; answers(alloc, machine, bytes, &mut held));
        assert!(rt; held.as_str() == *expected, "at {bytes}: {held}");
    }
}

#[test]
fn lines_are_answered_one_after_another(rt: HostRuntime) {
    let alloc = rt.alloc();
    let mut machine = opened_on(&rt, alloc, COINS, u64::MAX, 7).expect(&rt, "a node");
    expect_answers(&rt, alloc, &mut machine, &ROWS);
}
