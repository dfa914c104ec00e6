//! Which cases a verdict looks at.

/// Which cases a verdict looks at. By both coverages the verdict decides: rules that lower a weight are confluent where
/// all these cases are joinable, and are not where one of them fails.
#[derive(Clone, Copy, Debug, PartialEq, Eq)]
pub enum Coverage {
    /// The cases of an overlap at the representatives of all order types of its classes.
    Joint,
    /// The sorted cases of an overlap: values of different sorts of positions, which no rule compares, are not compared
    /// either.
    Sorted,
}
