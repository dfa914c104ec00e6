//! The first row that passes tests.
ghost use Rattle.std.specs.Prelude.{◌≡◌, ℕ, ◌+◌, ◌<◌, ◌≤◌, All, length, get_or, pos, false, IfSome, IfNone, IsTrue};
ghost use Rattle.chr_base.specs.Rules.{compares};
ghost use Rattle.chr_tables.specs.LaneRows.{lent_columns, holds, all_hold, NonePasses, NamesColumns, HaveValues};
ghost use Rattle.chr_tables.specs.working.Lanes.{FailsFrom};

use crate::lanes::block::{LANES, block_of, holds_against, holds_somewhere};
use crate::lanes::test::{Against, Test};
use chr_base::term::Cmp;
use std::cmp::Ordering;

fn compares(cmp: Cmp, order: Ordering) -> bool
    ensures { result ≡ compares cmp order }
{
    match cmp {
        Cmp::Less => order.is_lt(),
        Cmp::AtMost => order.is_le(),
        Cmp::Greater => order.is_gt(),
        Cmp::AtLeast => order.is_ge(),
        Cmp::Equal => order.is_eq(),
        Cmp::NotEqual => order.is_ne(),
    }
}

/// The value of a column at a row.
fn value_at(column: &[i64], row: usize) -> i64
    requires { row < length column.now }
    ensures { result ≡ get_or column.now row (pos 0) }
{
    column[row]
}

/// Whether a test holds at a row.
fn holds(columns: &[&[i64]], test: &Test, row: usize) -> bool
    requires columns { All (λ c. row < length c.now) columns.now }
    requires test { NamesColumns (length columns.now) test.now }
    ensures { result ≡ holds (lent_columns columns.now) row test.now }
{
    let value = value_at(columns[test.column], row);
    let against = match test.against {
        Against::Value(value) => value,
        Against::Column(column) => value_at(columns[column], row),
    };
    compares(test.cmp, value.cmp(&against))
}

/// Whether all tests hold at a row.
fn all_hold(columns: &[&[i64]], tests: &[Test], row: usize) -> bool
    requires columns { All (λ c. row < length c.now) columns.now }
    requires tests { All (NamesColumns (length columns.now)) tests.now }
    ensures { result ≡ all_hold (lent_columns columns.now) tests.now row }
{
    tests.iter().all(|test| holds(columns, test, row))
}

/// Whether a test may hold at one of the eight rows from `at` on. False means that it holds at none of them.
fn may_hold(columns: &[&[i64]], test: &Test, at: usize) -> bool
    requires columns { All (λ c. at + LANES ≤ length c.now) columns.now }
    requires test { NamesColumns (length columns.now) test.now }
    ensures { result ≡ false → HaveValues (lent_columns columns.now)
        → FailsFrom (lent_columns columns.now) test.now at (at + LANES) }
{
    let left = block_of(columns[test.column], at);
    match test.against {
        Against::Value(value) => holds_against(left, test.cmp, value),
        Against::Column(column) => holds_somewhere(left, test.cmp, block_of(columns[column], at)),
    }
}

/// Whether some of the eight rows from `at` on may pass all tests. False means that none does.
fn may_pass(columns: &[&[i64]], tests: &[Test], at: usize) -> bool
    requires columns { All (λ c. at + LANES ≤ length c.now) columns.now }
    requires tests { All (NamesColumns (length columns.now)) tests.now }
    ensures { result ≡ false → HaveValues (lent_columns columns.now)
        → NonePasses (lent_columns columns.now) tests.now at (at + LANES) }
{
    for test in tests {
        if !may_hold(columns, test, at) {
            return false;
        }
    }
    true
}

/// The first row from `from` on, and before `to`, that passes all tests.
fn first_among(columns: &[&[i64]], tests: &[Test], from: usize, to: usize) -> Option<usize>
    requires columns { All (λ c. to ≤ length c.now) columns.now }
    requires tests { All (NamesColumns (length columns.now)) tests.now }
    requires from { from ≤ to }
    ensures from_on { IfSome result (λ row. from ≤ row) }
    ensures within { IfSome result (λ row. row < to) }
    ensures passes { IfSome result (λ row. IsTrue (all_hold (lent_columns columns.now) tests.now row)) }
    ensures least { IfSome result (NonePasses (lent_columns columns.now) tests.now from) }
    ensures none { IfNone result (NonePasses (lent_columns columns.now) tests.now from to) }
{
    for row in from..to {
        if all_hold(columns, tests, row) {
            return Some(row);
        }
    }
    None
}

/// The least row from `from` on at which every test holds; None where there is none. All columns have `rows` values
/// each. It takes no memory. Where no value of a block of eight rows passes some test, the block is passed over as a
/// whole.
pub fn first_row(rows: usize, columns: &[&[i64]], tests: &[Test], from: usize) -> Option<usize>
    requires columns { All (λ c. length c.now ≡ rows) columns.now }
    requires tests { All (NamesColumns (length columns.now)) tests.now }
    requires from { from ≤ rows }

    ensures from_on { IfSome result (λ row. from ≤ row) }
    ensures within { IfSome result (λ row. row < rows) }
    ensures passes { IfSome result (λ row. IsTrue (all_hold (lent_columns columns.now) tests.now row)) }
    ensures least { HaveValues (lent_columns columns.now)
        → IfSome result (NonePasses (lent_columns columns.now) tests.now from) }
    ensures none { HaveValues (lent_columns columns.now)
        → IfNone result (NonePasses (lent_columns columns.now) tests.now from rows) }
{
    let mut at = from;
    while rows - at >= LANES {
        if may_pass(columns, tests, at) {
            let found = first_among(columns, tests, at, at + LANES);
            if found.is_some() {
                return found;
            }
        }
        at += LANES;
    }
    first_among(columns, tests, at, rows)
}
