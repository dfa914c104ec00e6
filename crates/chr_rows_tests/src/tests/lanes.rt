//! The least rows of columns at which tests hold.
ghost use Rattle.std.specs.Prelude.{◌≤◌};

use chr_base::term::Cmp;
use chr_tables::lanes::{Against, Test, first_row};
use std::process::Abort;

/// The least row from `from` on at which the column's value passes.
fn first_value(
    rt: &impl Abort,
    column: &[i64],
    cmp: Cmp,
    value: i64,
    from: usize,
) -> Option<usize> {
    assert!(rt; from <= column.len());
    let columns: [&[i64]; 1] = [column];
    first_row(
        column.len(),
        &columns,
        &[Test {
            column: 0,
            cmp,
            against: Against::Value(value),
        }],
        from,
    )
}

#[test]
fn rows_without_columns_pass_no_test(rt: HostRuntime) {
    assert!(rt; first_row(3, &[], &[], 2) == Some(2));
    assert!(rt; first_row(3, &[], &[], 3) == None);
}

/// The least row at which the first column is greater than the second and isn't 5.
fn first_of_ten(from: usize) -> Option<usize>
    requires { from ≤ 10 }
{
    let rising: [i64; 10] = [0, 1, 2, 3, 4, 5, 6, 7, 8, 9];
    let falling: [i64; 10] = [9, 8, 7, 6, 5, 4, 3, 2, 1, 0];
    let columns: [&[i64]; 2] = [&rising, &falling];
    let tests = [
        Test {
            column: 0,
            cmp: Cmp::Greater,
            against: Against::Column(1),
        },
        Test {
            column: 0,
            cmp: Cmp::NotEqual,
            against: Against::Value(5),
        },
    ];
    first_row(10, &columns, &tests, from)
}

#[test]
fn finds_the_least_row_that_passes_two_tests(rt: HostRuntime) {
    assert!(rt; first_of_ten(0) == Some(6));
    assert!(rt; first_of_ten(7) == Some(7));
    assert!(rt; first_of_ten(10) == None);
}

/// The least row with 1 in a column.
fn first_one(rt: &impl Abort, column: &[i64]) -> Option<usize> {
    first_value(rt, column, Cmp::Equal, 1, 0)
}

const MOST_ROWS: usize = 65;

/// The least row with 1 of `rows` rows, of which only the last has it.
fn first_of_last(rt: &impl Abort, rows: usize) -> Option<usize> {
    assert!(rt; 0 < rows && rows <= MOST_ROWS);
    let mut values = [0; MOST_ROWS];
    values[rows - 1] = 1;
    first_one(rt, &values[..rows])
}

/// Numbers of rows, most of which are no multiple of eight, with the last row of each.
const LAST: [(usize, usize); 6] = [(1, 0), (7, 6), (8, 7), (9, 8), (64, 63), (65, 64)];

fn expect_last(rt: &impl Abort, rows: &[(usize, usize)]) {
    for (count, last) in rows {
        assert!(rt; first_of_last(rt, *count) == Some(*last));
    }
}

#[test]
fn finds_the_last_row(rt: HostRuntime) {
    assert!(rt; first_one(&rt, &[]) == None);
    expect_last(&rt, &LAST);
}

const ENDS: [i64; 2] = [i64::MIN, i64::MAX];

#[test]
fn finds_the_least_value_of_all(rt: HostRuntime) {
    assert!(rt; first_value(&rt, &ENDS, Cmp::Less, i64::MIN + 1, 0) == Some(0));
    assert!(rt; first_value(&rt, &ENDS, Cmp::Less, i64::MIN + 1, 1) == None);
}
