//! How the resting of a store is shared out.
ghost use Rattle.std.specs.Prelude.{◌≡◌, ◌≤◌};
ghost use Rattle.chr_base.specs.declared.limits.TheConstants.{MAX_PARTS, MAX_WORKERS};

use chr_base::limits::{MAX_PARTS, MAX_WORKERS};

/// How the resting of a store is shared out. What is answered does not depend on it.
#[derive(Clone, Copy, Debug, PartialEq, Eq)]
pub struct Sharing {
    /// The number of workers.
    pub workers: u32,
    /// The number of parts.
    pub parts: u32,
    pub ghost workers_fit: { (1 ≤ workers) × (workers ≤ MAX_WORKERS) },
    pub ghost parts_fit: { (1 ≤ parts) × (parts ≤ MAX_PARTS) },
}

impl Sharing {
    /// Among 1 to [`MAX_WORKERS`] workers, in 1 to [`MAX_PARTS`] parts.
    pub fn among(workers: u32, parts: u32) -> Sharing
        requires workers { (1 ≤ workers) × (workers ≤ MAX_WORKERS) }
        requires parts { (1 ≤ parts) × (parts ≤ MAX_PARTS) }
        ensures { (result.workers ≡ workers) × (result.parts ≡ parts) }
    {
        Sharing { workers, parts }
    }
}
