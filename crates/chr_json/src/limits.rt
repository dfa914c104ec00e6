//! The limits of a line.

/// The most bytes that a line has, without its end.
pub const MAX_LINE: usize = 1_048_576;

/// The greatest origin of an operation.
pub const MAX_ORIGIN: u64 = 0xffff_ffff;
