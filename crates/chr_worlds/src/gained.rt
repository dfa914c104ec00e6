//! What boards gain.
ghost use Rattle.std.specs.Prelude.{◌≡◌, List};
ghost use Rattle.chr_replica.specs.Boards.{Held as HeldBoard};
ghost use Rattle.chr_ops.specs.Operations.{Operation};
ghost use Rattle.chr_worlds.specs.Answers.{merged_answer, told_answer};
ghost use Rattle.chr_worlds.specs.working.Boards.{is_told_new, IsTrueOn, MayTellAt, RepliesAt};

use crate::refusal::WorldRefusal;
use chr_acts::Act;
use chr_ops::{Added, News, Op, OpId};
use chr_replica::{Placed, RestedOps};

/// Whether a told operation was new.
fn is_told_new(told: &Result<Added, WorldRefusal>) -> bool
    ensures { result ≡ is_told_new told.now }
{
    matches!(told, Ok(Added::New))
}

/// Keeps the id of an operation that the board at a place was told, where it was new to it.
pub(crate) fn keep_told(news: &mut News, place: usize, id: OpId, told: &Result<Added, WorldRefusal>)
    ensures { (bs cs : List HeldBoard) (op : Operation) → op.0 ≡ id
        → RepliesAt bs place (Act.Tell op) (told_answer told.now) cs → IsTrueOn news.old bs → IsTrueOn news.new cs }
{
    if is_told_new(told) {
        news.gained_one(place, id);
    }
}

/// Keeps the ids of operations that the board at a place was to merge, where it did.
pub(crate) fn keep_merged(
    news: &mut News,
    place: usize,
    ops: &[Op],
    merged: &Result<u64, WorldRefusal>,
)
    ensures { (bs cs : List HeldBoard) → RepliesAt bs place (Act.Merge ops.now) (merged_answer merged.now) cs
        → IsTrueOn news.old bs → IsTrueOn news.new cs }
{
    if let Ok(_) = merged {
        news.gained(place, ops);
    }
}

/// Keeps the ids of rested operations that the board at a place was to be told, where it was.
pub(crate) fn keep_rested(
    news: &mut News,
    place: usize,
    told: &RestedOps<'_>,
    placed: &Option<Placed>,
)
    ensures { (bs cs : List HeldBoard) → MayTellAt bs place told.now placed.now cs → IsTrueOn news.old bs
        → IsTrueOn news.new cs }
{
    if let Some(_) = placed {
        news.gained(place, told.ops);
    }
}
