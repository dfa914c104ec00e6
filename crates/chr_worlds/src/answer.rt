//! What is answered to an event.
ghost use Rattle.std.specs.Prelude.{◌≡◌};

use crate::refusal::WorldRefusal;
use chr_acts::Reply;
use chr_ops::Added;

/// What came of an event.
#[derive(Drop)]
pub enum Answer {
    /// A replica's reply; to an exchange that of the replica that takes in.
    Replied(Reply),
    /// There is no such replica, and the program doesn't declare an atom of what it was asked. Nothing has changed.
    UnknownSymbol,
    /// There is no such replica. Nothing has changed.
    NoReplica,
}

impl Answer {
    ghost use Rattle.chr_worlds.specs.Answers.{merged_answer, refused_answer, told_answer};

    /// The answer to an event that is refused.
    fn refused(refusal: WorldRefusal) -> Answer
        ensures { result ≡ refused_answer refusal }
    {
        match refusal {
            WorldRefusal::Replica(refusal) => Answer::Replied(Reply::Refused(refusal)),
            WorldRefusal::UnknownSymbol => Answer::UnknownSymbol,
            WorldRefusal::NoReplica => Answer::NoReplica,
        }
    }

    /// The answer to a tell.
    pub(crate) fn told(told: Result<Added, WorldRefusal>) -> Answer
        ensures { result ≡ told_answer told }
    {
        match told {
            Ok(added) => Answer::Replied(Reply::Told(added)),
            Err(refusal) => Answer::refused(refusal),
        }
    }

    /// The answer to a merge, or to an exchange.
    pub(crate) fn merged(merged: Result<u64, WorldRefusal>) -> Answer
        ensures { result ≡ merged_answer merged }
    {
        match merged {
            Ok(count) => Answer::Replied(Reply::Merged(count)),
            Err(refusal) => Answer::refused(refusal),
        }
    }
}
