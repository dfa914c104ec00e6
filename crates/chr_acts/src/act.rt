//! What is asked of a replica.
ghost use Rattle.std.specs.Prelude.{◌≡◌, ◌↔◌, IfOk, IsTrue};

use crate::lists::OpList;
use chr_base::bag::Bag;
use chr_base::derivation::Step;
use chr_base::limits::MAX_PARTS;
use chr_join::Done;
use chr_ops::{Op, Summary};
use std::alloc::{AllocError, Global};

/// A call on a replica, with its arguments.
#[derive(Drop)]
pub enum Act {
    /// Takes an operation in.
    Tell(Op),
    /// Takes in all of these operations, or none.
    Merge(OpList),
    /// Takes a named step in the pool.
    Step(Step),
    /// Leases these atoms of the pool out.
    Take(Bag),
    /// Leases the whole pool out, in this many parts.
    TakeParts(u32),
    /// Puts back what came of a lease.
    Put(Done),
    /// Takes the part that is leased out under this number back as it is.
    Recall(u64),
    /// Rests the pool.
    Settle,
    /// Shows the pool.
    Show,
    /// Asks which ids the operations have.
    Summary,
    /// Asks for the operations whose ids a summary does not cover.
    Lacks(Summary),
    /// Asks for the least lease number that is out.
    LeastLease,
}

impl Act {
    ghost use Rattle.chr_acts.specs.Acts.{FitsAct};

    /// Whether the number of parts that the act asks for, if any, is 1 to [`MAX_PARTS`]. It takes no memory.
    pub fn fits(&self) -> bool
        ensures { IsTrue result ↔ FitsAct self.now }
    {
        match self {
            Act::TakeParts(parts) => 1 <= *parts && *parts <= MAX_PARTS,
            _ => true,
        }
    }

    /// An equal act.
    pub fn copy(&self, alloc: Global) -> Result<Act, AllocError>
        ensures { IfOk result (λ act. act ≡ self.now) }
    {
        Ok(match self {
            Act::Tell(op) => Act::Tell(op.copy(alloc)?),
            Act::Merge(ops) => Act::Merge(ops.copy(alloc)?),
            Act::Step(step) => Act::Step(step.copy()),
            Act::Take(part) => Act::Take(part.copy(alloc)?),
            Act::TakeParts(parts) => Act::TakeParts(*parts),
            Act::Put(done) => Act::Put(done.copy(alloc)?),
            Act::Recall(number) => Act::Recall(*number),
            Act::Settle => Act::Settle,
            Act::Show => Act::Show,
            Act::Summary => Act::Summary,
            Act::Lacks(summary) => Act::Lacks(summary.copy(alloc)?),
            Act::LeastLease => Act::LeastLease,
        })
    }
}
