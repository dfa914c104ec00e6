//! What workers pass on their way.
use chr_join::Lease;

/// What a worker passes before it rests a part. It has no effect on what comes of the part.
pub trait Gate: Sync {
    /// Called with the number of the part that is rested next, which counts from 1.
    fn pass(&self, part: u32);
}

/// Lets every worker pass.
#[derive(Drop)]
pub struct OpenGate;

impl Gate for OpenGate {
    fn pass(&self, _part: u32) {}
}

/// A lease with which a gate was passed. Only [`Passed::by`] makes one, and what comes of a rested part is made
/// of nothing else: so no worker rests a part before it has passed the gate.
#[derive(Drop)]
pub(crate) struct Passed {
    lease: Lease,
}

impl Passed {
    /// Passes a gate with a lease, whose part has the number `part`.
    pub(crate) fn by<G: Gate>(gate: &G, part: u32, lease: Lease) -> Passed {
        gate.pass(part);
        Passed { lease }
    }

    /// The lease, which may be rested now.
    pub(crate) fn into_lease(self) -> Lease {
        self.lease
    }
}
