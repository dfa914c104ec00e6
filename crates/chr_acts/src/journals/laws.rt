//! The laws of legal journals.
ghost use Rattle.chr_acts.specs.JournalLaws.{AnswersAreShown, AnswersAgree, JournalsHold};

use chr_replica::laws::{events_keep_replicas_sound, one_answer};

/// The operations that a replica holds are those that its journal tells, whatever leases and rests stand in the
/// journal. A store that was shown is the one normal form of what the journal tells before that place. Two stores that
/// were shown, in one journal or in two whose programs are the same, are equal where the same operations were held.
pub fn journals_tell()
    ensures hold { JournalsHold }
    ensures answer { AnswersAreShown }
    ensures agree { AnswersAgree }
{
    events_keep_replicas_sound();
    one_answer();
}
