//! How much is told of command lines.

/// The greatest number of refused lines that are told one by one.
pub const MAX_TOLD_LINES: usize = 100;

/// How many bytes of a name are told.
pub const MAX_TOLD_NAME: usize = 40;

/// How many declared symbols are told.
pub const MAX_TOLD_DECLARED: usize = 8;

/// How many brackets may stand in brackets.
pub const MAX_DEPTH: usize = 127;
