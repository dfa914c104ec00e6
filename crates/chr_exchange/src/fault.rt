//! Why a message was refused.

ghost use Rattle.std.specs.Prelude.{◌≡◌};
ghost use Rattle.chr_exchange.specs.Refusals.{fault_number, message_fault};
ghost use Rattle.chr_exchange.specs.declared.fault.MessageFault.TheVariants.{Memory};

use chr_json::LineFault;
use std::alloc::{AllocError, AllocFailed};
use thiserror::Error;

/// Why a message gave no summary or no operations. Where several causes apply, it is the one that stands first here.
#[derive(Clone, Copy, Debug, PartialEq, Eq, Error)]
pub enum MessageFault {
    /// The text is no JSON value.
    #[error("the text is no JSON value")]
    BadJson,
    /// The JSON value is not of the shape of the message that was to be read.
    #[error("the JSON value has another shape")]
    Shape,
    /// The program doesn't declare an atom's name with the number of its arguments.
    #[error("an atom is not declared")]
    UnknownSymbol,
    /// Memory was refused. It says nothing of the message.
    #[error("out of memory")]
    Memory,
}

impl MessageFault {
    /// The number under which the fault is answered.
    pub fn number(self) -> u8
        ensures { result ≡ fault_number self }
    {
        match self {
            MessageFault::BadJson => 30,
            MessageFault::Shape => 31,
            MessageFault::UnknownSymbol => 32,
            MessageFault::Memory => 99,
        }
    }
}

impl From<LineFault> for MessageFault {
    ghost from_gives = { λ fault e. e ≡ message_fault fault };

    fn from(fault: LineFault) -> MessageFault {
        match fault {
            LineFault::Memory => MessageFault::Memory,
            LineFault::BadLine => MessageFault::BadJson,
            LineFault::Shape => MessageFault::Shape,
        }
    }
}

impl From<AllocError> for MessageFault {
    ghost from_gives = { λ _ e. e ≡ Memory };

    fn from(_error: AllocError) -> MessageFault {
        MessageFault::Memory
    }
}

impl<T: Drop> From<AllocFailed<T>> for MessageFault {
    ghost from_gives = { λ _ e. e ≡ Memory };

    fn from(_error: AllocFailed<T>) -> MessageFault {
        MessageFault::Memory
    }
}
