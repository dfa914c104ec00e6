//! The laws of worlds. Each is a function that takes nothing and computes nothing: its contract is the law.
ghost use Rattle.chr_worlds.specs.Laws.{RunsKeep, ReplicasAgree, PartsAgree, RestedTellsRun, SyncsUnite, SyncsMeet};
ghost use Rattle.chr_worlds.specs.Laws.{SyncsAreDeclared};

use chr_confluence::laws::parts;
use chr_ops::exchange_laws;
use chr_replica::laws::{events_keep_replicas_sound, one_answer};

/// Along each run of a world its replicas stay sound: what each was told reaches its pool with all parts that are
/// leased out.
pub fn runs_keep_replicas_sound()
    ensures { RunsKeep }
{
    events_keep_replicas_sound();
}

/// What [`World::tell_rested`](crate::World::tell_rested) does some events do, too: a part comes back, operations are
/// told, a settling takes steps, and a part is leased out. So what is said of runs holds of worlds that were told so.
pub fn rested_tells_are_runs()
    ensures { RestedTellsRun }
{}

/// For a confluent program, whatever events led to them from replicas that were told nothing, any two replicas that
/// hold the same operations and have settled hold the same store: the one normal form of what was told. Resting parts
/// of what was told, and resting their sum, gives it too.
pub fn settled_replicas_agree()
    ensures agree { ReplicasAgree }
    ensures parts { PartsAgree }
{
    runs_keep_replicas_sound();
    events_keep_replicas_sound();
    one_answer();
    parts();
}

/// An exchange makes the operations of the replica that takes in the union of both. Where no id stands for two bags, an
/// exchange and then the one in the other direction make both hold the same operations. None is refused for a symbol.
pub fn exchanges_unite()
    ensures union { SyncsUnite }
    ensures meet { SyncsMeet }
    ensures declared { SyncsAreDeclared }
{
    exchange_laws();
}
