//! Why a node refuses what a line asks.
ghost use Rattle.std.specs.Prelude.{◌≡◌};
ghost use Rattle.chr_node_lines.specs.Refusals.{refusal_of, refusal_number, sentence_of};
ghost use Rattle.chr_node_lines.specs.declared.fault.Refusal.TheVariants.{Memory};

use chr_json::LineFault;
use std::alloc::{AllocError, AllocFailed};
use std::fmt;

/// Why a line was refused. Nothing has changed.
#[derive(Clone, Copy, Debug, PartialEq, Eq)]
pub enum Refusal {
    /// The line is too long, or no JSON value.
    BadLine,
    /// The line is no array that begins with a word of a node.
    NoWord,
    /// The program declares no symbol of this name.
    UnknownSymbol,
    /// The id stands for another bag.
    Clash,
    /// More atoms would be told than the limit.
    Full,
    /// The number is not that of the next operation, and of none that was told.
    NotNext,
    /// The operation's text can't stand in a record.
    NoText,
    /// The word takes other arguments.
    WrongArguments,
    /// The program declares this name, but not with this number of arguments.
    WrongArity,
    /// There is not enough memory.
    Memory,
}

impl Refusal {
    /// The number under which the refusal is answered: that of command lines and of nodes, where these have it.
    pub fn number(self) -> u8
        ensures { result ≡ refusal_number self }
    {
        match self {
            Refusal::BadLine => 30,
            Refusal::NoWord => 31,
            Refusal::UnknownSymbol => 32,
            Refusal::Clash => 33,
            Refusal::Full => 34,
            Refusal::NotNext => 41,
            Refusal::NoText => 42,
            Refusal::WrongArguments => 43,
            Refusal::WrongArity => 44,
            Refusal::Memory => 99,
        }
    }

    /// The refusal in words.
    pub fn sentence(self) -> &'static str
        ensures { result.now ≡ sentence_of self }
    {
        match self {
            Refusal::BadLine => "the line is no JSON value of at most 1048576 bytes",
            Refusal::NoWord => "the line is no array that begins with a word of a node",
            Refusal::UnknownSymbol => "the program declares no symbol of this name",
            Refusal::Clash => "the number stands for other atoms",
            Refusal::Full => "more than 1000000 atoms would be told",
            Refusal::NotNext => "the number is not the next one",
            Refusal::NoText => "the operation has no text that can be kept",
            Refusal::WrongArguments => "the word takes other arguments",
            Refusal::WrongArity =>
                "the program declares this name with another number of arguments",
            Refusal::Memory => "there is not enough memory",
        }
    }
}

impl fmt::Display for Refusal {
    fn fmt<W: fmt::Write>(&self, f: &mut fmt::Formatter<W>) -> fmt::Result {
        f.write_str(self.sentence())
    }
}

impl From<LineFault> for Refusal {
    ghost from_gives = { λ fault e. e ≡ refusal_of fault };

    fn from(fault: LineFault) -> Refusal {
        match fault {
            LineFault::Memory => Refusal::Memory,
            LineFault::BadLine => Refusal::BadLine,
            LineFault::Shape => Refusal::WrongArguments,
        }
    }
}

impl From<AllocError> for Refusal {
    ghost from_gives = { λ _ e. e ≡ Memory };

    fn from(_error: AllocError) -> Refusal {
        Refusal::Memory
    }
}

impl<T: Drop> From<AllocFailed<T>> for Refusal {
    ghost from_gives = { λ _ e. e ≡ Memory };

    fn from(_error: AllocFailed<T>) -> Refusal {
        Refusal::Memory
    }
}
