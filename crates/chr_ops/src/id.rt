//! Ids of operations.

/// What tells operations apart: who made one, and its number there. Ids are ordered by origin, and then by number.
#[derive(Clone, Copy, Debug, PartialEq, Eq, PartialOrd, Ord)]
pub struct OpId {
    pub origin: u32,
    pub number: u64,
}
