//! Counts and representatives of order types.
ghost use Rattle.std.specs.Prelude.{IsTrue};
ghost use Rattle.chr_types.specs.OrderTypes.{Rises};

use chr_types::{MAX_CLASSES, OrderType, TypesFault, types};
use std::alloc::Global;
use std::process::Abort;

/// Whether each number is greater than the one before it.
fn is_rising(numbers: &[i64]) -> bool
    ensures { IsTrue result → Rises numbers.now }
{
    for i in 1..numbers.len() {
        if numbers[i - 1] >= numbers[i] {
            return false;
        }
    }
    true
}

/// All order types within the limit, if there are not more. The constants are tested to rise.
fn types_within(
    rt: &impl Abort,
    alloc: Global,
    classes: usize,
    constants: &[i64],
    limit: usize,
) -> Result<Vec<OrderType>, TypesFault> {
    assert!(rt; is_rising(constants));
    types(alloc, classes, constants, limit)
}

/// All order types, of which there are not more than the limit.
fn types_of(
    rt: &impl Abort,
    alloc: Global,
    classes: usize,
    constants: &[i64],
    limit: usize,
) -> Vec<OrderType> {
    types_within(rt, alloc, classes, constants, limit)
        .ok()
        .expect(rt, "not more than the limit")
}

/// The most order types that the checker lists.
const LIMIT: usize = 50_000;

/// The number of classes, constants, and the representatives.
type Row = (usize, &'static [i64], &'static [&'static [i64]]);

const REPRESENTATIVES: [Row; 8] = [
    (0, &[], &[&[]]),
    (0, &[3, 5], &[&[]]),
    (2, &[], &[&[0, 0], &[0, 1], &[1, 0]]),
    (1, &[0, 1], &[&[-1], &[0], &[1], &[2]]),
    (1, &[3, 5], &[&[2], &[3], &[4], &[5], &[6]]),
    (1, &[7], &[&[6], &[7], &[8]]),
    (1, &[i64::MAX], &[&[i64::MAX - 1], &[i64::MAX]]),
    (1, &[i64::MIN], &[&[i64::MIN], &[i64::MIN + 1]]),
];

/// Asserts that these are the representatives.
fn expect_types(rt: &impl Abort, found: &[OrderType], expected: &[&[i64]]) {
    assert!(rt; found.len() == expected.len());
    for (one, wanted) in found.iter().zip(expected) {
        assert!(rt; one.representative() == *wanted);
    }
}

fn expect_representatives(rt: &impl Abort, alloc: Global, rows: &[Row]) {
    for (classes, constants, expected) in rows {
        let found = types_of(rt, alloc, *classes, constants, LIMIT);
        expect_types(rt, &found, expected);
    }
}

#[test]
fn lists_representatives(rt: HostRuntime) {
    expect_representatives(&rt, rt.alloc(), &REPRESENTATIVES);
}

/// A number of classes, constants, and a number of order types.
type Count = (usize, &'static [i64], usize);

/// The exact numbers of order types.
const COUNTS: [Count; 12] = [
    (0, &[], 1),
    (1, &[], 1),
    (2, &[], 3),
    (3, &[], 13),
    (4, &[], 75),
    (5, &[], 541),
    (6, &[], 4_683),
    (7, &[], 47_293),
    (2, &[7], 13),
    (2, &[3, 5], 29),
    (2, &[i64::MIN, i64::MAX], 11),
    (3, &[i64::MAX - 1], 51),
];

/// Asserts that there are `number` order types, which are within a limit.
fn expect_count(
    rt: &impl Abort,
    alloc: Global,
    classes: usize,
    constants: &[i64],
    limit: usize,
    number: usize,
) {
    let found = types_of(rt, alloc, classes, constants, limit);
    assert!(rt; found.len() == number, "at {classes} classes");
}

fn expect_counts(rt: &impl Abort, alloc: Global, rows: &[Count]) {
    for (classes, constants, number) in rows {
        expect_count(rt, alloc, *classes, constants, LIMIT, *number);
    }
}

#[test]
fn counts(rt: HostRuntime) {
    expect_counts(&rt, rt.alloc(), &COUNTS);
}

/// Limits that are less than the number of order types.
const TOO_MANY: [Count; 3] = [
    (7, &[], 47_292),
    (8, &[], LIMIT),
    (MAX_CLASSES + 1, &[3, 5], usize::MAX),
];

/// Whether there are more order types than the limit.
fn is_too_many(
    rt: &impl Abort,
    alloc: Global,
    classes: usize,
    constants: &[i64],
    limit: usize,
) -> bool {
    match types_within(rt, alloc, classes, constants, limit) {
        Err(TypesFault::TooManyTypes) => true,
        _ => false,
    }
}

fn expect_too_many(
    rt: &impl Abort,
    alloc: Global,
    classes: usize,
    constants: &[i64],
    limit: usize,
) {
    let is_refused = is_too_many(rt, alloc, classes, constants, limit);
    assert!(rt; is_refused, "at {classes} classes");
}

fn expect_refusals(rt: &impl Abort, alloc: Global, rows: &[Count]) {
    for (classes, constants, limit) in rows {
        expect_too_many(rt, alloc, *classes, constants, *limit);
    }
}

#[test]
fn refuses_more_than_the_limit(rt: HostRuntime) {
    let alloc = rt.alloc();
    expect_refusals(&rt, alloc, &TOO_MANY);
    expect_count(&rt, alloc, 7, &[], 47_293, 47_293);
}
