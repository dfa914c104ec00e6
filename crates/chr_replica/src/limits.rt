//! The limits of leases.

/// The greatest lease number.
pub const LAST_LEASE: u64 = 1_000_000_000_000;
