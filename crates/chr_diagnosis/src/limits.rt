//! How much is shown of a case that fails, and tried for it.

/// How many steps of a derivation are told.
pub const MAX_TOLD_STEPS: usize = 100;

/// How many cases are looked at for one with a smaller store: no further overlap once there were so many.
pub const MAX_LOOKED_AT: usize = 50_000;

/// How many changes of one rule are tried.
pub const MAX_TRIES: usize = 24;

/// How many changes are looked for with which the program is accepted.
pub const MAX_FOUND: usize = 5;

/// How many proposals are told.
pub const MAX_PROPOSALS: usize = 3;

/// The values of small stores are the numbers from 0 on below this one, or 0 and 1 where that were too many atoms.
pub const MOST_VALUES: usize = 3;

/// So many atoms have small stores with `MOST_VALUES` values.
pub const MAX_SMALL_ATOMS: usize = 81;

/// The greatest number of atoms of a small store.
pub const MAX_STORE_ATOMS: usize = 3;

/// How many small stores are looked at.
pub const MAX_SMALL_STORES: usize = 5_000;

/// How many values the arguments of two facts take that are tried beside each other, from 0 on.
pub const BESIDE_VALUES: usize = 2;
