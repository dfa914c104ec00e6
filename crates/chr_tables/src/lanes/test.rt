//! Tests of a row.

use chr_base::term::Cmp;

/// What the value of a column is compared with.
#[derive(Clone, Copy, Debug, PartialEq, Eq)]
pub enum Against {
    /// A value of its own.
    Value(i64),
    /// The value of a column, counted from 0, at the same row.
    Column(usize),
}

/// A comparison of a column, counted from 0, with a value or with another column at the same row.
#[derive(Clone, Copy, Debug, PartialEq, Eq)]
pub struct Test {
    pub column: usize,
    pub cmp: Cmp,
    pub against: Against,
}
