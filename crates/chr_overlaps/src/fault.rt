//! Why an overlap has no list of cases.
ghost use Rattle.std.specs.Prelude.{◌≡◌};

use std::alloc::{AllocError, AllocFailed};
use thiserror::Error;

/// Why an overlap has no list of cases.
#[derive(Debug, Drop, Error)]
pub enum CaseFault {
    /// There are more order types than the limit.
    #[error("there are more order types of {classes} classes than the limit")]
    TooManyTypes {
        /// The number of classes that are bound to no constant.
        classes: usize,
    },
    /// There is not enough memory.
    #[error("out of memory")]
    Memory,
}

impl From<AllocError> for CaseFault {
    ghost use Rattle.chr_overlaps.specs.declared.fault.CaseFault.TheVariants.{Memory};

    ghost from_gives = { λ _ e. e ≡ Memory };

    fn from(_error: AllocError) -> CaseFault {
        CaseFault::Memory
    }
}

impl<T: Drop> From<AllocFailed<T>> for CaseFault {
    ghost use Rattle.chr_overlaps.specs.declared.fault.CaseFault.TheVariants.{Memory};

    ghost from_gives = { λ _ e. e ≡ Memory };

    fn from(_error: AllocFailed<T>) -> CaseFault {
        CaseFault::Memory
    }
}
