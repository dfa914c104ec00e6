//! Why a line was refused.

ghost use Rattle.std.specs.Prelude.{◌≡◌};
ghost use Rattle.chr_json.specs.declared.fault.LineFault.TheVariants.{Memory};

use std::alloc::{AllocError, AllocFailed};
use thiserror::Error;

/// Why a line gave no command.
#[derive(Clone, Copy, Debug, PartialEq, Eq, Error)]
pub enum LineFault {
    /// No memory was left. Nothing is said of the line.
    #[error("out of memory")]
    Memory,
    /// The line is too long, or no JSON value.
    #[error("the line is no JSON value of at most 1048576 bytes")]
    BadLine,
    /// The line is a JSON value, and no command.
    #[error("the JSON value is no command")]
    Shape,
}

impl From<AllocError> for LineFault {
    ghost from_gives = { λ _ e. e ≡ Memory };

    fn from(_e: AllocError) -> LineFault {
        LineFault::Memory
    }
}

impl<T: Drop> From<AllocFailed<T>> for LineFault {
    ghost from_gives = { λ _ e. e ≡ Memory };

    fn from(_e: AllocFailed<T>) -> LineFault {
        LineFault::Memory
    }
}
