//! How much is told of a bad text.

/// The greatest number of bad clauses that are told of a text.
pub const MAX_TOLD_FAULTS: usize = 20;

/// How many bytes of a line are shown before the caret's, and from it on.
pub const MAX_SHOWN: usize = 60;

/// How many bytes of a word are told.
pub const MAX_TOLD_BYTES: usize = 40;

/// How many declared symbols are told.
pub const MAX_TOLD_SYMBOLS: usize = 8;
