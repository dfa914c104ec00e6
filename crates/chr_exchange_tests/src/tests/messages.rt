//! Texts of messages, with what they mean.
use chr_base::program::Program;
use chr_exchange::{MessageFault, delta_text_1, op_of, read_delta, read_summary, summary_text};
use chr_ops::{AddFault, Op, OpId, OpSet};
use serde_json::Value;
use std::alloc::Global;
use std::process::Abort;

/// Declares `min/1`, `a/1`, `b/0` and `r/6`.
fn four_symbols(rt: &impl Abort, alloc: Global) -> Program {
    let mut program = Program::empty(alloc);
    program.declare("min", 1).expect(rt, "memory");
    program.declare("a", 1).expect(rt, "memory");
    program.declare("b", 0).expect(rt, "memory");
    program.declare("r", 6).expect(rt, "memory");
    program
}

/// The number of a refusal, as a line answers it.
fn refused(rt: &impl Abort, alloc: Global, number: u8) -> String {
    let text = match number {
        30 => "refused 30",
        31 => "refused 31",
        32 => "refused 32",
        33 => "refused 33",
        _ => "refused by another number",
    };
    String::from_str(alloc, text).expect(rt, "memory")
}

/// The operations of a set, as a delta of version 1.
#[tactic(auto, using(chr_exchange::proofs::Sorting::lacking_different))]
fn written(rt: &impl Abort, alloc: Global, program: &Program, set: &OpSet) -> String {
    let nothing = OpSet::new(alloc).summary(alloc).expect(rt, "memory");
    let ops = set.lacks(alloc, &nothing).expect(rt, "memory");
    delta_text_1(alloc, program, &ops).expect(rt, "memory")
}

/// The set of these operations as a text of version 1, or how two that clash are refused.
fn joined(rt: &impl Abort, alloc: Global, program: &Program, ops: &[Op]) -> String {
    let mut set = OpSet::new(alloc);
    match set.join(alloc, ops) {
        Err(AddFault::Clash(_)) => refused(rt, alloc, 33),
        Err(_) => panic!(rt; "not joined"),
        Ok(_) => written(rt, alloc, program, &set),
    }
}

/// The operations that a delta's text gives, as a text of version 1, or how it is refused.
fn delta_answer(rt: &impl Abort, alloc: Global, program: &Program, text: &[u8]) -> String {
    match read_delta(alloc, program, text) {
        Ok(ops) => joined(rt, alloc, program, &ops),
        Err(fault) => refused(rt, alloc, fault.number()),
    }
}

/// The summary that a text gives, as its own text, or how it is refused.
fn summary_answer(rt: &impl Abort, alloc: Global, text: &[u8]) -> String {
    match read_summary(alloc, text) {
        Ok(summary) => summary_text(alloc, &summary).expect(rt, "memory"),
        Err(fault) => refused(rt, alloc, fault.number()),
    }
}

/// What was found at a text is what was expected.
fn expect_found(rt: &impl Abort, text: &str, found: &str, expected: &str) {
    assert!(rt; found == expected, "at {text}: {found}");
}

/// Compares the answer to each text of a summary.
fn expect_summaries(rt: &impl Abort, alloc: Global, rows: &[(&str, &str)]) {
    for (text, answer) in rows {
        let found = summary_answer(rt, alloc, text.as_bytes());
        expect_found(rt, text, found.as_str(), answer);
    }
}

/// Compares the answer to each text of a delta.
fn expect_deltas(rt: &impl Abort, alloc: Global, rows: &[(&str, &str)]) {
    let program = four_symbols(rt, alloc);
    for (text, answer) in rows {
        let found = delta_answer(rt, alloc, &program, text.as_bytes());
        expect_found(rt, text, found.as_str(), answer);
    }
}

/// Texts of summaries, and the texts that are written of what they mean, or how they are refused.
const SUMMARIES: [(&str, &str); 15] = [
    ("[]", "[]"),
    (" [ [ 5 , [ [ 9 , 9 ] ] ] ]\n", "[[5,[[9,9]]]]"),
    ("[[5,[]]]", "[]"),
    ("[[5,[]],[4,[[1,1]]],[5,[]]]", "[[4,[[1,1]]]]"),
    (
        "[[4294967295,[[0,18446744073709551615]]]]",
        "[[4294967295,[[0,18446744073709551615]]]]",
    ),
    ("[[5,[[1,2],[3,4]]]]", "[[5,[[1,4]]]]"),
    ("[[5,[[3,4],[1,1]]]]", "[[5,[[1,1],[3,4]]]]"),
    ("[[5,[[1,9],[2,3],[1,9]]]]", "[[5,[[1,9]]]]"),
    (
        "[[5,[[1,1]]],[4,[[2,2]]],[5,[[3,3]]]]",
        "[[4,[[2,2]]],[5,[[1,1],[3,3]]]]",
    ),
    (
        "[[0,[[18446744073709551615,18446744073709551615],[0,0]]],[1,[[0,0]]]]",
        "[[0,[[0,0],[18446744073709551615,18446744073709551615]]],[1,[[0,0]]]]",
    ),
    ("[[5,[[9,9]]],[5,[[10,9]]]]", "refused 31"),
    ("[[4294967296,[]]]", "refused 31"),
    ("[[5,[[1,18446744073709551616]]]]", "refused 31"),
    ("[[5,[[1,2.0]]]]", "refused 31"),
    ("[2,[]]", "refused 31"),
];

#[test]
fn summaries_are_read_in_any_order(rt: HostRuntime) {
    expect_summaries(&rt, rt.alloc(), &SUMMARIES);
}

/// Deltas of version 1, and the texts of version 1 that are written of their operations, or their refusals.
const DELTAS_1: [(&str, &str); 26] = [
    ("[]", "[]"),
    (
        "[[[5,9],[[\"a\",2],[\"a\",-1]]]]",
        "[[[5,9],[[\"a\",-1],[\"a\",2]]]]",
    ),
    (" [ [ [5 , 9] , [ [\"b\"] ] ] ] ", "[[[5,9],[[\"b\"]]]]"),
    (
        "[[[5,10],[[\"a\",0]]],[[5,10],[[\"a\",0]]]]",
        "[[[5,10],[[\"a\",0]]]]",
    ),
    (
        "[[[5,10],[[\"b\"],[\"a\",0]]],[[5,10],[[\"a\",0],[\"b\"]]]]",
        "[[[5,10],[[\"a\",0],[\"b\"]]]]",
    ),
    ("[[[5,11],[[\"a\",0]]],[[5,11],[[\"a\",1]]]]", "refused 33"),
    (
        "[[[5,11],[[\"a\",0]]],[[5,11],[[\"a\",0],[\"a\",0]]]]",
        "refused 33",
    ),
    (
        "[[[2,1],[[\"b\"]]],[[1,2],[[\"b\"]]],[[1,1],[[\"b\"]]]]",
        "[[[1,1],[[\"b\"]]],[[1,2],[[\"b\"]]],[[2,1],[[\"b\"]]]]",
    ),
    (
        "[[[4294967295,18446744073709551615],[[\"a\",9223372036854775807],[\"a\",-9223372036854775808]]]]",
        "[[[4294967295,18446744073709551615],[[\"a\",-9223372036854775808],[\"a\",9223372036854775807]]]]",
    ),
    (
        "[[[1,1],[[\"min\",3],[\"r\",1,2,3,4,5,-6],[\"b\"],[\"a\",10],[\"a\",-10]]]]",
        "[[[1,1],[[\"a\",-10],[\"a\",10],[\"b\"],[\"min\",3],[\"r\",1,2,3,4,5,-6]]]]",
    ),
    (
        "[[[1,1],[[\"r\",1,2,3,4,5,6],[\"b\"],[\"r\",1,2,3,4,5,-6],[\"b\"],[\"r\",1,2,-3,4,5,9],[\"r\",-1,9,9,9,9,9]]]]",
        "[[[1,1],[[\"b\"],[\"b\"],[\"r\",-1,9,9,9,9,9],[\"r\",1,2,-3,4,5,9],[\"r\",1,2,3,4,5,-6],[\"r\",1,2,3,4,5,6]]]]",
    ),
    (
        "[[[1,1],[[\"r\",9223372036854775807,1,0,0,0,0],[\"r\",9223372036854775807,0,0,0,0,1],[\"r\",-9223372036854775808,0,0,0,0,1],[\"r\",-9223372036854775808,0,0,0,0,0]]]]",
        "[[[1,1],[[\"r\",-9223372036854775808,0,0,0,0,0],[\"r\",-9223372036854775808,0,0,0,0,1],[\"r\",9223372036854775807,0,0,0,0,1],[\"r\",9223372036854775807,1,0,0,0,0]]]]",
    ),
    ("[[[1,1],[[\"\\u0061\",0]]]]", "[[[1,1],[[\"a\",0]]]]"),
    ("[[[5,12],[[\"a\"]]]]", "refused 32"),
    ("[[[5,12],[[\"a\",0,0]]]]", "refused 32"),
    ("[[[5,12],[[\"r\",1,2,3,4,5,6,7]]]]", "refused 32"),
    ("[[[5,12],[[\"c\",0]]]]", "refused 32"),
    ("[[[5,12],[[\"A\",0]]]]", "refused 32"),
    ("[[[5,12],[[\"\",0]]]]", "refused 32"),
    ("[[[5,12],[[\"\u{e9}\",0]]]]", "refused 32"),
    (
        "[[[1,1],[[\"a\",0]]],[[1,1],[[\"a\",1]]],[[1,2],[[\"c\"]]]]",
        "refused 32",
    ),
    ("[[[1,1],[[\"c\",0]]],[[1],[[\"a\",0]]]]", "refused 31"),
    ("[[[1,1],[[\"c\",0]]],[[1,2],[[\"a\",0.5]]]]", "refused 31"),
    ("[[[1,1],[]]]", "refused 31"),
    ("[[[4294967296,1],[[\"a\",0]]]]", "refused 31"),
    ("[[[1,1],[[\"a\",9223372036854775808]]]]", "refused 31"),
];

/// Deltas of version 2, and the texts of version 1 that are written of their operations, or their refusals.
const DELTAS_2: [(&str, &str); 14] = [
    ("[2,[]]", "[]"),
    ("[2,[[6,[]]]]", "[]"),
    (
        "[2,[[5,[[9,[[\"a\",2],[\"a\",-1]]]]],[6,[]]]]",
        "[[[5,9],[[\"a\",-1],[\"a\",2]]]]",
    ),
    (
        "[2,[[6,[[1,[[\"b\"]]]]],[5,[[2,[[\"b\"]]],[1,[[\"b\"]]]]],[6,[[1,[[\"b\"]]],[0,[[\"b\"]]]]]]]",
        "[[[5,1],[[\"b\"]]],[[5,2],[[\"b\"]]],[[6,0],[[\"b\"]]],[[6,1],[[\"b\"]]]]",
    ),
    ("[2,[[5,[[9,[[\"a\",0]]],[9,[[\"a\",1]]]]]]]", "refused 33"),
    (
        "[2,[[5,[[9,[[\"a\",0]]]]],[5,[[9,[[\"b\"]]]]]]]",
        "refused 33",
    ),
    ("[2,[[5,[[9,[[\"c\"]]]]]]]", "refused 32"),
    ("[2,[[5,[[9,[[\"b\",1]]]]]]]", "refused 32"),
    ("[2,[[5,[[9,[[\"c\"]]]]],[6,[[1]]]]]", "refused 31"),
    ("[3,[]]", "refused 31"),
    ("[2]", "refused 31"),
    ("[2.0,[]]", "refused 31"),
    ("[2,[[5,[[9,[]]]]]]", "refused 31"),
    ("[2,[[[5,9],[[\"b\"]]]]]", "refused 31"),
];

#[test]
fn deltas_of_both_versions_are_read(rt: HostRuntime) {
    expect_deltas(&rt, rt.alloc(), &DELTAS_1);
    expect_deltas(&rt, rt.alloc(), &DELTAS_2);
}

/// The JSON value of a text.
fn value(rt: &impl Abort, alloc: Global, text: &str) -> Value {
    Value::from_str(alloc, text).expect(rt, "a value")
}

/// The operation of the values of an id and atoms, or why there is none.
fn op_in(rt: &impl Abort, alloc: Global, id: &str, atoms: &str) -> Result<Op, MessageFault> {
    let program = four_symbols(rt, alloc);
    let id = value(rt, alloc, id);
    op_of(alloc, &program, &id, &value(rt, alloc, atoms))
}

const ATOMS: &str = "[[\"a\",2],[\"a\",-1]]";

#[test]
fn values_of_operations_are_read(rt: HostRuntime) {
    let op = op_in(&rt, rt.alloc(), "[5,9]", ATOMS).expect(&rt, "an operation");
    let name = OpId {
        origin: 5,
        number: 9,
    };
    assert!(rt; op.id() == name);
    assert!(rt; op.bag().len() == 2);
}
