//! Why a world refuses what is asked of it.
ghost use Rattle.std.specs.Prelude.{◌≡◌, ◌≢◌, IfOk, OnOk};

use chr_replica::Refusal;
use std::alloc::AllocError;

/// Why what a replica was asked is refused. Nothing has changed.
#[derive(Clone, Copy, Debug, PartialEq, Eq)]
pub enum WorldRefusal {
    /// The replica refuses it.
    Replica(Refusal),
    /// There is no such replica, and the program doesn't declare an atom of what it was asked.
    UnknownSymbol,
    /// There is no such replica.
    NoReplica,
}

impl WorldRefusal {
    /// What a replica refuses.
    ///
    /// # Errors
    /// Where memory is what was refused: that is no answer.
    pub(crate) fn by_replica(refusal: Refusal) -> Result<WorldRefusal, AllocError>
        ensures ok { IfOk result (λ refused. refused ≡ WorldRefusal.Replica refusal) }
        ensures refusal { OnOk result (refusal ≢ Refusal.Memory) }
    {
        match refusal {
            Refusal::Memory => Err(AllocError),
            refusal => Ok(WorldRefusal::Replica(refusal)),
        }
    }
}

/// Why a replica has not come to rest.
#[derive(Clone, Copy, Debug, PartialEq, Eq)]
pub enum NotSettled {
    /// Memory was refused after this number of steps, which stand.
    Stopped(u64),
    /// There is no such replica. Nothing has changed.
    NoReplica,
}
