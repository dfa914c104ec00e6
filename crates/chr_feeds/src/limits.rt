//! Limits of a feed.

/// The most bytes of a feed, of records and of blanks behind them.
pub const MAX_SIZE: usize = 1 << 60;

/// How many blanks are laid at a time, beyond what is needed.
pub const BLOCK: usize = 65_536;
