//! What adding operations answers.
ghost use Rattle.std.specs.Prelude.{◌≡◌};

use crate::id::OpId;
use std::alloc::{AllocError, AllocFailed};
use thiserror::Error;

/// Whether an operation was held before it was added.
#[derive(Clone, Copy, Debug, PartialEq, Eq)]
pub enum Added {
    /// The operation was not held before, and is now.
    New,
    /// The operation was held before, and nothing has changed.
    Again,
}

/// Why an operation set takes no more operations.
#[derive(Clone, Copy, Debug, PartialEq, Eq, Error)]
pub enum AddFault {
    /// The id stands for two bags.
    #[error("an id stands for two bags")]
    Clash(OpId),
    /// More atoms would be told than the limit.
    #[error("more atoms would be told than the limit")]
    Full,
    /// There is not enough memory.
    #[error("out of memory")]
    Memory,
}

impl From<AllocError> for AddFault {
    ghost use Rattle.chr_ops.specs.declared.fault.AddFault.TheVariants.{Memory};

    ghost from_gives = { λ _ e. e ≡ Memory };

    fn from(_error: AllocError) -> AddFault {
        AddFault::Memory
    }
}

impl<T: Drop> From<AllocFailed<T>> for AddFault {
    ghost use Rattle.chr_ops.specs.declared.fault.AddFault.TheVariants.{Memory};

    ghost from_gives = { λ _ e. e ≡ Memory };

    fn from(_error: AllocFailed<T>) -> AddFault {
        AddFault::Memory
    }
}
