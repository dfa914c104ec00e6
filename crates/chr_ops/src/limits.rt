//! The limits of operations and of their sets.

/// The most atoms that a set may tell, repeats counted.
pub const MAX_TOLD: u64 = 1_000_000;
