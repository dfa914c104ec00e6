//! How much is told of an accepted program.

/// How many pairs of rules are told where not all are asked for.
pub(crate) const MAX_TOLD_PAIRS: usize = 20;
