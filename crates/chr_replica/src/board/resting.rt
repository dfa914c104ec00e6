//! Boards come to rest.
ghost use Rattle.std.specs.Prelude.{◌≡◌, ◌<◌, ◌≤◌, ℕ, IfOk, IfErr, OnOk};
ghost use Rattle.chr_base.specs.Programs.{rules_of};
ghost use Rattle.chr_base.specs.Rewriting.{IsAtRest};
ghost use Rattle.chr_base.specs.Rules.{Step};
ghost use Rattle.chr_base.specs.Stores.{size};
ghost use Rattle.chr_replica.specs.Replicas.{Settles};
ghost use Rattle.chr_replica.specs.Boards.{program_on};

use crate::board::Board;
use crate::laws::events_keep_replicas_sound;
use chr_rewrite::resting::Stopped;
use std::thread::Threads;

impl Board {
    /// How many atoms of the pool the next settling has to look at; the others are at rest. It takes no memory.
    pub fn waiting(&self) -> usize
        ensures { result ≤ size self.now.replica.pool }
    {
        self.pool.waiting()
    }

    /// Rests the pool, and answers how many steps that took. A pool at rest stays as it is.
    ///
    /// # Errors
    /// Where memory is refused, with the number of steps taken so far, which stand.
    pub fn settle(&mut self) -> Result<u64, Stopped>
        ensures program { self.new.accepted ≡ self.old.accepted }
        ensures ok { IfOk result (λ n. Settles (program_on self.old) self.old.replica n self.new.replica) }
        ensures rests { OnOk result (IsAtRest (Step (rules_of (program_on self.old))) self.new.replica.pool) }
        ensures resting { IsAtRest (Step (rules_of (program_on self.old))) self.old.replica.pool →
            (self.new ≡ self.old) × IfOk result (λ n. n ≡ 0) × IfErr result (λ e. e.steps ≡ 0) }
        ensures stopped { IfErr result (λ e.
            Settles (program_on self.old) self.old.replica e.steps self.new.replica) }
    {
        events_keep_replicas_sound();
        // Few enough atoms are told that all steps are counted in 64 bits.
        let _told = self.ops.told();
        self.pool.rest()
    }

    /// Takes steps in the pool by `threads` threads, where its atoms are kept in several pools, until all of these are
    /// at rest or memory is refused to one of the threads: [`Board::settle`] then does what is left.
    pub fn hasten<R: Threads + Sync>(&mut self, rt: &R, threads: usize)
        requires { 0 < threads }
        ensures program { self.new.accepted ≡ self.old.accepted }
        ensures settles { (n : ℕ) × Settles (program_on self.old) self.old.replica n self.new.replica }
    {
        events_keep_replicas_sound();
        self.pool.hasten(rt, threads);
    }

    /// In how many pools its atoms are kept, each of which a thread can rest by itself. It takes no memory.
    pub fn pools(&self) -> usize {
        self.pool.count()
    }
}
