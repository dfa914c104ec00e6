//! The laws of replicas. Each is a function that takes nothing and computes nothing: its contract is the law.
ghost use Rattle.chr_replica.specs.Laws.{FirstIsSound, OneAnswer};
ghost use Rattle.chr_replica.specs.Laws.{TellKeeps, MergeKeeps, StepKeeps, TakeKeeps, TakePartsKeeps, PutKeeps};
ghost use Rattle.chr_replica.specs.Laws.{RecallKeeps, SettleKeeps, TellRestedKeeps};

/// The replica that was told nothing is sound, and each event leads from sound replicas to sound ones: what was told
/// reaches the pool together with all leased parts.
pub fn events_keep_replicas_sound()
    ensures first { FirstIsSound }
    ensures tell { TellKeeps }
    ensures merge { MergeKeeps }
    ensures step { StepKeeps }
    ensures take { TakeKeeps }
    ensures take_parts { TakePartsKeeps }
    ensures put { PutKeeps }
    ensures recall { RecallKeeps }
    ensures settle { SettleKeeps }
    ensures tell_rested { TellRestedKeeps }
{}

/// Replicas of one confluent program that hold the same operations and have settled hold the same store: the one normal
/// form of what was told.
pub fn one_answer()
    ensures { OneAnswer }
{}
