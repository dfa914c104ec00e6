//! Why a node refuses a tell, and why it gives up.
ghost use Rattle.std.specs.Prelude.{◌≡◌};
ghost use Rattle.chr_node.specs.Refusals.{refusal_number};

use chr_feeds::FeedFault;
use chr_ops::OpId;
use std::alloc::AllocError;

/// Why operations were refused. Nothing has changed.
#[derive(Clone, Copy, Debug, PartialEq, Eq)]
pub enum Refusal {
    /// The program doesn't declare an atom's symbol with the number of its arguments.
    UnknownSymbol,
    /// The id stands for another bag.
    Clash(OpId),
    /// More atoms would be told than the limit.
    Full,
    /// The operation is new, and its id is not the next one of the node's run.
    NotNext,
    /// The operation's text can't stand in a record.
    NoText,
    /// There is not enough memory.
    Memory,
}

impl Refusal {
    /// The refusal's number.
    pub fn number(self) -> u8
        ensures { result ≡ refusal_number self }
    {
        match self {
            Refusal::UnknownSymbol => 32,
            Refusal::Clash(_) => 33,
            Refusal::Full => 34,
            Refusal::NotNext => 41,
            Refusal::NoText => 42,
            Refusal::Memory => 99,
        }
    }
}

impl From<AllocError> for Refusal {
    ghost use Rattle.chr_node.specs.declared.fault.Refusal.TheVariants.{Memory};

    ghost from_gives = { λ _ e. e ≡ Memory };

    fn from(_error: AllocError) -> Refusal {
        Refusal::Memory
    }
}

/// Why a node isn't opened, or takes no file in.
#[derive(Clone, Copy, Debug, PartialEq, Eq)]
pub enum NodeFault {
    /// The feed, or the file, gave up.
    Feed(FeedFault),
    /// The file has an operation of the node's own origin, which a file that the node doesn't write can't have.
    Forked,
    /// What the file tells is refused.
    Refused(Refusal),
}

impl From<FeedFault> for NodeFault {
    ghost use Rattle.chr_node.specs.declared.fault.NodeFault.TheVariants.{Feed};

    ghost from_gives = { λ fault e. e ≡ Feed fault };

    fn from(fault: FeedFault) -> NodeFault {
        NodeFault::Feed(fault)
    }
}

impl From<Refusal> for NodeFault {
    ghost use Rattle.chr_node.specs.declared.fault.NodeFault.TheVariants.{Refused};

    ghost from_gives = { λ refusal e. e ≡ Refused refusal };

    fn from(refusal: Refusal) -> NodeFault {
        NodeFault::Refused(refusal)
    }
}

impl From<AllocError> for NodeFault {
    ghost use Rattle.chr_node.specs.declared.fault.Refusal.TheVariants.{Memory};
    ghost use Rattle.chr_node.specs.declared.fault.NodeFault.TheVariants.{Refused};

    ghost from_gives = { λ _ e. e ≡ Refused Memory };

    fn from(_error: AllocError) -> NodeFault {
        NodeFault::Refused(Refusal::Memory)
    }
}
