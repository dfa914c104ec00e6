//! Why calls on a replica are refused.
ghost use Rattle.std.specs.Prelude.{◌≡◌};
ghost use Rattle.chr_replica.specs.Refusals.{refusal_number};

use chr_ops::{AddFault, OpId};
use std::alloc::{AllocError, AllocFailed};

/// What has been used up.
#[derive(Clone, Copy, Debug, PartialEq, Eq)]
pub enum Limit {
    /// The told atoms.
    Told,
    /// The lease numbers.
    Leases,
}

/// Why a call was refused. Nothing has changed.
#[derive(Clone, Copy, Debug, PartialEq, Eq)]
pub enum Refusal {
    /// The program doesn't declare an atom's symbol with the number of its arguments.
    UnknownSymbol,
    /// The id stands for another bag.
    Clash(OpId),
    /// The limit would be passed.
    Full(Limit),
    /// No lease of this number, with that part, is out.
    NoLease(u64),
    /// A part comes back that was rewritten under another program.
    ForeignProgram,
    /// This many leases are out, at least one.
    Leased(u64),
    /// The atoms are not in the pool, or the step is not one of a rule there.
    NotThere,
    /// A rule has a step in the pool.
    NotAtRest,
    /// There is not enough memory.
    Memory,
}

impl Refusal {
    /// The refusal's number.
    pub fn number(self) -> u8
        ensures { result ≡ refusal_number self }
    {
        match self {
            Refusal::UnknownSymbol => 32,
            Refusal::Clash(_) => 33,
            Refusal::Full(_) => 34,
            Refusal::NoLease(_) => 36,
            Refusal::ForeignProgram => 37,
            Refusal::Leased(_) => 38,
            Refusal::NotThere => 39,
            Refusal::NotAtRest => 40,
            Refusal::Memory => 99,
        }
    }
}

impl From<AllocError> for Refusal {
    ghost use Rattle.chr_replica.specs.declared.refusal.Refusal.TheVariants.{Memory};

    ghost from_gives = { λ _ e. e ≡ Memory };

    fn from(_error: AllocError) -> Refusal {
        Refusal::Memory
    }
}

impl<T: Drop> From<AllocFailed<T>> for Refusal {
    ghost use Rattle.chr_replica.specs.declared.refusal.Refusal.TheVariants.{Memory};

    ghost from_gives = { λ _ e. e ≡ Memory };

    fn from(_error: AllocFailed<T>) -> Refusal {
        Refusal::Memory
    }
}

impl From<AddFault> for Refusal {
    ghost use Rattle.chr_replica.specs.Refusals.{refusal_of};

    ghost from_gives = { λ fault e. e ≡ refusal_of fault };

    fn from(fault: AddFault) -> Refusal {
        match fault {
            AddFault::Clash(id) => Refusal::Clash(id),
            AddFault::Full => Refusal::Full(Limit::Told),
            AddFault::Memory => Refusal::Memory,
        }
    }
}
