//! What boards show.
ghost use Rattle.std.specs.Prelude.{◌≡◌, ◌↔◌, ◌++◌, IfErr, IfOk, IsTrue, OnOk, string_bytes};
ghost use Rattle.std.specs.Bool.{OnTrue, OnFalse};
ghost use Rattle.chr_base.specs.Programs.{declarations, rules_of};
ghost use Rattle.chr_base.specs.Rewriting.{IsAtRest};
ghost use Rattle.chr_base.specs.Rules.{Step};
ghost use Rattle.chr_base.specs.Texts.{store_text};
ghost use Rattle.chr_join.specs.Parts.{IsOnlyNormalForm};
ghost use Rattle.chr_ops.specs.Operations.{told_store};
ghost use Rattle.chr_ops.specs.Summaries.{CoversJust, lacking};
ghost use Rattle.chr_replica.specs.Replicas.{IsSettled};
ghost use Rattle.chr_replica.specs.Refusals.{RefusesShow};
ghost use Rattle.chr_replica.specs.Boards.{program_on};

use crate::board::Board;
use crate::laws::one_answer;
use crate::refusal::Refusal;
use chr_base::bag::Bag;
use chr_ops::{Op, Summary};
use std::alloc::{AllocError, Global};
use std::thread::Threads;

impl Board {
    /// Whether the pool may be shown: no lease is out, and it is at rest. Then it is the one normal form of what was
    /// told.
    fn may_show(&self) -> Result<(), Refusal>
        ensures settled { OnOk result (IsSettled (program_on self.now) self.now.replica) }
        ensures only { OnOk result (IsOnlyNormalForm (rules_of (program_on self.now))
            (told_store self.now.replica.operations) self.now.replica.pool) }
        ensures refused { IfErr result (RefusesShow (program_on self.now) self.now.replica) }
    {
        one_answer();
        self.is_sound();
        self.accepted.weighed();
        let leases = self.out.len();
        if leases > 0 {
            return Err(Refusal::Leased(leases as u64));
        }
        if !self.at_rest() {
            return Err(Refusal::NotAtRest);
        }
        Ok(())
    }

    /// The pool, where no lease is out and it is at rest: the one normal form of what was told. Where it was rested and
    /// nothing has come in since, it is not searched again.
    ///
    /// # Errors
    /// `Leased` with the number of leases that are out, `NotAtRest`, `Memory`.
    pub fn show(&self, alloc: Global) -> Result<Bag, Refusal>
        ensures pool { IfOk result (λ bag. bag ≡ self.now.replica.pool) }
        ensures settled { OnOk result (IsSettled (program_on self.now) self.now.replica) }
        ensures only { IfOk result (IsOnlyNormalForm (rules_of (program_on self.now))
            (told_store self.now.replica.operations)) }
        ensures refused { IfErr result (RefusesShow (program_on self.now) self.now.replica) }
    {
        self.may_show()?;
        Ok(self.pool.bag(alloc)?)
    }

    /// Like [`Board::show`], but several threads put the pool in order.
    ///
    /// # Errors
    /// Those of [`Board::show`].
    pub fn show_by<R: Threads + Sync>(&self, rt: &R, alloc: Global) -> Result<Bag, Refusal>
        ensures pool { IfOk result (λ bag. bag ≡ self.now.replica.pool) }
        ensures settled { OnOk result (IsSettled (program_on self.now) self.now.replica) }
        ensures only { IfOk result (IsOnlyNormalForm (rules_of (program_on self.now))
            (told_store self.now.replica.operations)) }
        ensures refused { IfErr result (RefusesShow (program_on self.now) self.now.replica) }
    {
        self.may_show()?;
        Ok(self.pool.bag_by(rt, alloc)?)
    }

    /// Adds the text of the pool that [`Board::show`] gives at the end of a text, without a bag of it, by at most
    /// `threads` threads. False is answered, and nothing is added, where the pool may not be shown or its text can't be
    /// made in this way; [`Board::show`] then tells which.
    ///
    /// # Errors
    /// Where memory is refused.
    pub fn push_shown<R: Threads + Sync>(
        &self,
        rt: &R,
        alloc: Global,
        threads: usize,
        out: &mut String,
    ) -> Result<bool, AllocError>
        ensures text { IfOk result (λ shown. OnTrue shown (string_bytes out.new ≡ string_bytes out.old
            ++ store_text (declarations (program_on self.now)) self.now.replica.pool)) }
        ensures settled { IfOk result (λ shown. OnTrue shown
            (IsSettled (program_on self.now) self.now.replica)) }
        ensures same { IfOk result (λ shown. OnFalse shown (out.new ≡ out.old)) }
    {
        match self.may_show() {
            Ok(()) => self.pool.push_text(rt, alloc, threads, out),
            Err(_) => Ok(false),
        }
    }

    /// A summary that covers just the ids of its operations.
    pub fn summary(&self, alloc: Global) -> Result<Summary, AllocError>
        ensures { IfOk result (λ summary. CoversJust summary self.now.replica.operations) }
    {
        self.ops().summary(alloc)
    }

    /// Copies of its operations whose ids a summary does not cover, in the order of ids.
    pub fn lacks(&self, alloc: Global, summary: &Summary) -> Result<Vec<Op>, AllocError>
        ensures { IfOk result (λ ops. ops.items ≡ lacking self.now.replica.operations summary.now) }
    {
        self.ops().lacks(alloc, summary)
    }

    /// Whether no rule has a step in the pool. It takes no memory.
    pub fn at_rest(&self) -> bool
        ensures { IsTrue result ↔ IsAtRest (Step (rules_of (program_on self.now))) self.now.replica.pool }
    {
        self.pool.at_rest()
    }
}
