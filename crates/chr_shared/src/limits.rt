//! The limit of seats.

/// How many seats a shared book may have.
pub const MAX_SEATS: u32 = 16;
