//! What a replica answers.
ghost use Rattle.std.specs.Prelude.{◌≡◌, ◌≢◌, IfOk, OnOk};

use crate::lists::{LeaseList, OpList};
use chr_base::bag::Bag;
use chr_join::Lease;
use chr_ops::{Added, Summary};
use chr_replica::Refusal;
use std::alloc::{AllocError, Global};

/// What came of an act.
#[derive(Drop)]
pub enum Reply {
    /// Whether the operation that was told is new.
    Told(Added),
    /// The number of operations that are new.
    Merged(u64),
    /// The step was taken.
    Stepped,
    /// The part, and the number under which it is leased out.
    Leased(Lease),
    /// The parts, and the numbers under which they are leased out.
    LeasedParts(LeaseList),
    /// The result is in the pool.
    WasPut,
    /// The part is back in the pool.
    Recalled,
    /// The pool is at rest, after this many steps.
    Settled(u64),
    /// Memory was refused after this many steps, which stand.
    Stopped(u64),
    /// The pool, which has settled.
    Shown(Bag),
    /// The ids of the operations.
    Summed(Summary),
    /// The operations, in the order of ids.
    Lacked(OpList),
    /// The least lease number that is out, if any is.
    LeastLease(Option<u64>),
    /// The act was refused, and nothing has changed.
    Refused(Refusal),
}

impl Reply {
    ghost use Rattle.chr_acts.specs.Replies.{TakesNoMemory};

    /// The reply of a board that refuses a call for this reason. It takes no memory.
    ///
    /// # Errors
    /// Where memory is what was refused: that is no reply.
    pub fn refused(refusal: Refusal) -> Result<Reply, AllocError>
        ensures ok { IfOk result (λ reply. reply ≡ Reply.Refused refusal) }
        ensures refusal { OnOk result (refusal ≢ Refusal.Memory) }
    {
        match refusal {
            Refusal::Memory => Err(AllocError),
            refusal => Ok(Reply::Refused(refusal)),
        }
    }

    /// An equal reply.
    pub fn copy(&self, alloc: Global) -> Result<Reply, AllocError>
        ensures { IfOk result (λ reply. reply ≡ self.now) }
    {
        Ok(match self {
            Reply::Told(added) => Reply::Told(*added),
            Reply::Merged(count) => Reply::Merged(*count),
            Reply::Stepped => Reply::Stepped,
            Reply::Leased(lease) => Reply::Leased(lease.copy(alloc)?),
            Reply::LeasedParts(leases) => Reply::LeasedParts(leases.copy(alloc)?),
            Reply::WasPut => Reply::WasPut,
            Reply::Recalled => Reply::Recalled,
            Reply::Settled(steps) => Reply::Settled(*steps),
            Reply::Stopped(steps) => Reply::Stopped(*steps),
            Reply::Shown(bag) => Reply::Shown(bag.copy(alloc)?),
            Reply::Summed(summary) => Reply::Summed(summary.copy(alloc)?),
            Reply::Lacked(ops) => Reply::Lacked(ops.copy(alloc)?),
            Reply::LeastLease(number) => Reply::LeastLease(*number),
            Reply::Refused(refusal) => Reply::Refused(*refusal),
        })
    }

    /// An equal reply, of one that takes no memory.
    pub fn again(&self) -> Reply
        requires { TakesNoMemory self.now }
        ensures { result ≡ self.now }
    {
        match self {
            Reply::Told(added) => Reply::Told(*added),
            Reply::Merged(count) => Reply::Merged(*count),
            Reply::Stepped => Reply::Stepped,
            Reply::WasPut => Reply::WasPut,
            Reply::Recalled => Reply::Recalled,
            Reply::Settled(steps) => Reply::Settled(*steps),
            Reply::Stopped(steps) => Reply::Stopped(*steps),
            Reply::LeastLease(number) => Reply::LeastLease(*number),
            Reply::Refused(refusal) => Reply::Refused(*refusal),
            Reply::Leased(_) | Reply::LeasedParts(_) => unreachable!(),
            Reply::Shown(_) | Reply::Summed(_) | Reply::Lacked(_) => unreachable!(),
        }
    }
}
