//! What comes of resting a shared book by workers.
use chr_acts::Entry;
use chr_replica::Refusal;

/// What comes of resting a shared book by workers.
#[derive(Drop)]
pub enum Settled {
    /// The receipt of the show.
    Rest(Entry),
    /// Why the pool did not come to rest or is not shown: `Full` where the lease numbers are used up, `Leased` where
    /// other leases are out, `Memory`. Leases may be out.
    NotRested(Refusal),
}
