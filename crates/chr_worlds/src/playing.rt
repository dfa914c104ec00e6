//! Worlds play lists of events.
ghost use Rattle.std.specs.Prelude.{◌≡◌, ◌<◌, All, IfErr, IfOk, OnErr, OnOk, length};
ghost use Rattle.chr_worlds.specs.Events.{FitsEvent, StopsAfter};
ghost use Rattle.chr_worlds.specs.Worlds.{Runs};
ghost use Rattle.chr_worlds.specs.Sharing.{shared_program};
ghost use Rattle.chr_worlds.specs.working.Boards.{GainsAnswer};

use crate::answer::Answer;
use crate::event::Event;
use crate::world::World;
use std::alloc::{AllocError, Global};

/// Memory was refused to an event.
#[derive(Debug, Drop)]
pub struct PlayStopped {
    /// How many events happened before it.
    pub done: usize,
}

impl World {
    /// Lets these events happen, one after the other, and answers each. It goes on after a `settle` that was stopped,
    /// as after each refusal.
    ///
    /// # Errors
    /// Where memory is refused to an event, with the number of events before it. Those have happened, and no other.
    pub fn play(&mut self, alloc: Global, events: &[Event]) -> Result<Vec<Answer>, PlayStopped>
        requires { All FitsEvent events.now }
        ensures program { self.new.accepted ≡ self.old.accepted }
        ensures runs { IfOk result (λ answers.
            Runs (shared_program self.old) self.old.replicas events.now answers.items self.new.replicas) }
        ensures stopped { IfErr result (λ e.
            StopsAfter (shared_program self.old) self.old.replicas events.now e.done self.new.replicas) }
        ensures within { IfErr result (λ e. e.done < length events.now) }
    {
        let mut answers = Vec::new(alloc);
        for (done, event) in events.iter().enumerate() {
            if self.act_next(alloc, event, &mut answers).is_err() {
                return Err(PlayStopped { done });
            }
        }
        Ok(answers)
    }

    /// Lets an event happen, and puts its answer behind the others.
    fn act_next(
        &mut self,
        alloc: Global,
        event: &Event,
        answers: &mut Vec<Answer>,
    ) -> Result<(), AllocError>
        requires { FitsEvent event.now }
        ensures program { self.new.accepted ≡ self.old.accepted }
        ensures ok { OnOk result (GainsAnswer (shared_program self.old) self.old.replicas event.now
            answers.old.items answers.new.items self.new.replicas) }
        ensures err { OnErr result (self.new ≡ self.old) }
        ensures answers { OnErr result (answers.new.items ≡ answers.old.items) }
    {
        answers.reserve(1)?;
        let answer = self.act(alloc, event)?;
        answers.push_reserved(answer);
        Ok(())
    }
}
