//! The limits of programs, rules and atoms.

/// The greatest number of arguments of a symbol.
pub const MAX_ARITY: usize = 6;

/// The greatest number of heads of a rule.
pub const MAX_HEADS: usize = 4;

/// The greatest number of variables of a rule: each stands in a head.
pub const MAX_VARIABLES: usize = MAX_HEADS * MAX_ARITY;

/// The greatest number of comparisons in a guard.
pub const MAX_COMPARISONS: usize = 8;

/// The greatest number of atoms in a body.
pub const MAX_BODY: usize = 8;

/// The greatest number of bytes of a name.
pub const MAX_NAME: usize = 32;

/// The greatest number of symbols of a program.
pub const MAX_SYMBOLS: usize = 64;

/// The greatest number of rules of a program.
pub const MAX_RULES: usize = 64;

/// The greatest first and the greatest second number of a symbol's weight.
pub const MAX_WEIGHT: u64 = 1_000_000;

/// The greatest number of atoms of an operation.
pub const MAX_OPERATION: usize = 64;

/// The most replicas of a world.
pub const MAX_REPLICAS: u32 = 16;

/// The most workers that rest a store.
pub const MAX_WORKERS: u32 = 16;

/// The most parts that a store is rested in, or a pool is cut into.
pub const MAX_PARTS: u32 = 64;
