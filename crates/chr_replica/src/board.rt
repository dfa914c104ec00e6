//! Boards.
ghost use Rattle.std.specs.Prelude.{◌≡◌, ◌≤◌, IfOk};
ghost use Rattle.std.specs.Arc.{arc_value};
ghost use Rattle.chr_base.specs.Values.{HasValues};
ghost use Rattle.chr_ops.specs.Operations.{told_store, told_atoms};
ghost use Rattle.chr_replica.specs.Replicas.{first, IsSound};
ghost use Rattle.chr_replica.specs.Boards.{program_on};

use crate::laws::events_keep_replicas_sound;
use crate::leases::Leases;
use chr_join::Accepted;
use chr_ops::{MAX_TOLD, OpSet};
use chr_shards::Shards;
use std::alloc::{AllocError, Global};
use std::marker::Model;
use std::sync::Arc;

mod leasing;
mod reading;
mod resting;
mod telling;

pub use leasing::NotPut;

/// A replica of an accepted program. Its type keeps that what its operations tell reaches its pool together with all
/// leased parts, and that they tell at most [`MAX_TOLD`] atoms.
pub struct Board {
    // Its program, which has passed all checks.
    accepted: Arc<Accepted>,
    // The operations that it was told.
    ops: OpSet,
    // The atoms that are not leased out.
    pool: Shards,
    // The parts that are leased out, by their lease numbers.
    out: Leases,
    // The next lease number.
    next: u64,
}

impl Model for Board {
    ghost use Rattle.std.specs.Arc.{arc_value};
    ghost use Rattle.chr_replica.specs.Boards.{Held};
    ghost use Rattle.chr_replica.specs.working.Codes.{coded_held};
    ghost use Rattle.chr_replica.specs.working.States.{replica, IsBoard};

    ghost Value = { Held };

    ghost coded = { coded_held };

    ghost view = { λ b. record { accepted = arc_value b.accepted; replica = replica b.ops b.pool.store b.out b.next } };

    ghost invariant = { λ b. IsBoard (arc_value b.accepted) b.ops b.pool b.out b.next };
}

/// Written out, since a derived one would be proved again in each crate that drops a board.
impl Drop for Board {
    fn drop(self) {
        let Board {
            accepted: _accepted,
            ops: _ops,
            pool: _pool,
            out: _out,
            next: _next,
        } = self;
    }
}

impl Board {
    /// The replica that was told nothing. Its first lease will have the number 1.
    pub fn open(alloc: Global, accepted: Arc<Accepted>) -> Result<Board, AllocError>
        ensures accepted { IfOk result (λ board. board.accepted ≡ arc_value accepted) }
        ensures replica { IfOk result (λ board. board.replica ≡ first) }
    {
        events_keep_replicas_sound();
        let weighed = accepted.shared().clone()?;
        let pool = Shards::open(alloc, weighed, accepted.seed(), accepted.pools())?;
        Ok(Board {
            accepted,
            ops: OpSet::new(alloc),
            pool,
            out: Leases::new(alloc),
            next: 1,
        })
    }

    /// What the board's type keeps: the atoms of its operations, which are of 64-bit values and at most [`MAX_TOLD`],
    /// reach its pool together with all leased parts. The call computes nothing: its contract says so of the board.
    pub fn is_sound(&self)
        ensures sound { IsSound (program_on self.now) self.now.replica }
        ensures values { HasValues (told_store self.now.replica.operations) }
        ensures within { told_atoms self.now.replica.operations ≤ MAX_TOLD }
    {
        self.ops.told_has_values();
        let _told = self.ops.told();
    }

    /// Its program. It takes no memory.
    pub fn program(&self) -> &Arc<Accepted>
        ensures { arc_value result.now ≡ self.now.accepted }
    {
        &self.accepted
    }

    /// Its operations. It takes no memory.
    pub fn ops(&self) -> &OpSet
        ensures { result.now ≡ self.now.replica.operations }
    {
        &self.ops
    }
}
