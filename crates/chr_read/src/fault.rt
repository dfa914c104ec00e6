//! What is wrong with a text that is no program.

ghost use Rattle.std.specs.Prelude.{◌≡◌};
ghost use Rattle.chr_read.specs.Numbers.{number_of_fault};
ghost use Rattle.chr_read.specs.declared.fault.ReadFault.TheVariants.{Memory};

use std::alloc::{AllocError, AllocFailed};
use thiserror::Error;

/// What is wrong with a clause. The numbers go by the order in which the faults are looked for: the least counts.
#[derive(Clone, Copy, Debug, PartialEq, Eq)]
pub enum Fault {
    /// A byte that may not stand outside comments.
    BadByte,
    /// The clause has none of the forms.
    Syntax,
    /// A propagation rule.
    Propagation,
    /// A symbol that no earlier clause declares with as many arguments.
    Undeclared,
    /// A symbol that is declared already.
    DeclaredTwice,
    /// A name, a list or the program has grown too large.
    Limit,
    /// A variable of guard or body that no head has.
    Unbound,
    /// A number that 64 bits do not hold.
    NumberRange,
    /// A weight with a number outside 0 to 1,000,000 or of zeros alone, or a second weight for a symbol.
    WeightFault,
    /// A clause without its full stop.
    Unended,
}

impl Fault {
    /// The fault's number.
    pub fn number(self) -> u8
        ensures { result ≡ number_of_fault self }
    {
        match self {
            Fault::BadByte => 1,
            Fault::Syntax => 3,
            Fault::Propagation => 4,
            Fault::Undeclared => 5,
            Fault::DeclaredTwice => 6,
            Fault::Limit => 7,
            Fault::Unbound => 8,
            Fault::NumberRange => 9,
            Fault::WeightFault => 10,
            Fault::Unended => 11,
        }
    }
}

/// Why a text was not read.
#[derive(Debug, Drop, Error)]
pub enum ReadFault {
    /// The text has more than 65,536 bytes.
    #[error("the text has more than 65,536 bytes")]
    TooLong,
    /// The first bad clause, counted from 1, and its least fault.
    #[error("clause {clause} is bad")]
    Bad { fault: Fault, clause: usize },
    /// An allocation was refused.
    #[error("out of memory")]
    Memory,
}

impl From<AllocError> for ReadFault {
    ghost from_gives = { λ _ e. e ≡ Memory };

    fn from(_e: AllocError) -> ReadFault {
        ReadFault::Memory
    }
}

impl<T: Drop> From<AllocFailed<T>> for ReadFault {
    ghost from_gives = { λ _ e. e ≡ Memory };

    fn from(_e: AllocFailed<T>) -> ReadFault {
        ReadFault::Memory
    }
}
