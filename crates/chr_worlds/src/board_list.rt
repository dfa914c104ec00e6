//! The boards of a world, with what each gained since others took from it.
ghost use Rattle.std.specs.Prelude.{◌≡◌, ◌+◌, ◌<◌, ◌≤◌, ℕ, All, IfNone, IfOk, IfSome, Ok, OnErr, OnOk, Some, length};
ghost use Rattle.std.specs.Prelude.{replicate, slice_get};
ghost use Rattle.std.specs.Arc.{arc_value};
ghost use Rattle.chr_base.specs.declared.limits.TheConstants.{MAX_PARTS, MAX_WORKERS};
ghost use Rattle.chr_replica.specs.Boards.{program_on, Held as HeldBoard};
ghost use Rattle.chr_replica.specs.Replicas.{first};
ghost use Rattle.chr_replica.specs.RestedOps.{AreRestedBy, IsPlaced, RefusesThem};
ghost use Rattle.chr_acts.specs.Acts.{FitsAct};
ghost use Rattle.chr_acts.specs.Events.{Does};
ghost use Rattle.chr_worlds.specs.Answers.{merged_answer, settled_answer, told_answer};
ghost use Rattle.chr_worlds.specs.Resting.{ComesToRest, KeepsTold};
ghost use Rattle.chr_worlds.specs.Worlds.{Works};
ghost use Rattle.chr_worlds.specs.working.Boards.{AreLackedAt, ChangesAt, ExchangesAt, HoldsAllOf, MayTellAt};
ghost use Rattle.chr_worlds.specs.working.Boards.{RepliesAt, TellsNothing};

use crate::boards::{lacked, lacked_among, opened, place_of, work};
use crate::calls::{merge, settle, tell};
use crate::gained::{keep_merged, keep_rested, keep_told};
use crate::refusal::{NotSettled, WorldRefusal};
use crate::resting::rest;
use chr_acts::{Act, Reply, carry_out};
use chr_base::derivation::Step;
use chr_join::Accepted;
use chr_ops::{Added, News, Op, exchange_laws};
use chr_replica::{Board, Destination, Placed, RestedOps};
use std::alloc::{AllocError, Global};
use std::marker::Model;
use std::sync::{Arc, Wait};
use std::thread::Threads;

/// Boards in a list. An exchange between two of them looks only at what the giver gained since the taker last held all
/// that it did, where that is known.
#[derive(Drop)]
pub(crate) struct BoardList {
    boards: Vec<Board>,
    news: News,
}

impl Model for BoardList {
    ghost use Rattle.std.specs.Prelude.{List};
    ghost use Rattle.std.specs.Coded.{coded_list};
    ghost use Rattle.chr_replica.specs.Boards.{Held};
    ghost use Rattle.chr_replica.specs.working.Codes.{coded_held};
    ghost use Rattle.chr_worlds.specs.working.Boards.{IsTrueOn};

    ghost Value = { List Held };

    ghost coded = { coded_list coded_held };

    ghost view = { λ l. l.boards.items };

    ghost invariant = { λ l. IsTrueOn l.news l.boards.items };
}

impl BoardList {
    /// Opens `count` boards of a program that were told nothing.
    pub(crate) fn open(
        alloc: Global,
        accepted: &Arc<Accepted>,
        count: u32,
    ) -> Result<BoardList, AllocError>
        ensures { IfOk result (λ boards.
            boards ≡ replicate count (record { accepted = arc_value accepted.now; replica = first })) }
    {
        let boards = opened(alloc, accepted, count)?;
        let news = News::new(alloc);
        Ok(BoardList { boards, news })
    }

    /// The place of the board of a number.
    pub(crate) fn place_of(&self, number: u64) -> Option<usize>
        ensures none { IfNone result (¬ ((0 < number) × (number ≤ length self.now))) }
        ensures some { IfSome result (λ place. (number ≡ place + 1) × (place < length self.now)) }
    {
        place_of(&self.boards, number)
    }

    /// The board at a place.
    pub(crate) fn at(&self, place: usize) -> &Board
        requires { place < length self.now }
        ensures { slice_get self.now place ≡ Some result.now }
    {
        &self.boards[place]
    }

    /// Carries an act that tells nothing out on the board at a place.
    pub(crate) fn carry_out(
        &mut self,
        alloc: Global,
        place: usize,
        act: &Act,
    ) -> Result<Reply, AllocError>
        requires place { place < length self.old }
        requires act { FitsAct act.now }
        requires none { TellsNothing act.now }
        ensures ok { IfOk result (λ reply.
            ChangesAt self.old place (λ b t. Does (program_on b) b.replica act.now reply t) self.new) }
        ensures err { OnErr result (self.new ≡ self.old) }
    {
        carry_out(alloc, &mut self.boards[place], act)
    }

    /// Tells the board at a place an operation.
    pub(crate) fn tell(
        &mut self,
        alloc: Global,
        place: usize,
        op: Op,
    ) -> Result<Result<Added, WorldRefusal>, AllocError>
        requires { place < length self.old }
        ensures ok { IfOk result (λ told.
            RepliesAt self.old place (Act.Tell op) (told_answer told) self.new) }
        ensures err { OnErr result (self.new ≡ self.old) }
    {
        let id = op.id();
        let told = tell(alloc, &mut self.boards[place], op)?;
        keep_told(&mut self.news, place, id, &told);
        Ok(told)
    }

    /// Tells the board at a place operations whose atoms were rested.
    pub(crate) fn tell_rested(
        &mut self,
        alloc: Global,
        place: usize,
        told: &RestedOps<'_>,
        into: Destination,
    ) -> Result<Option<Placed>, AllocError>
        requires place { place < length self.old }
        requires rested { All (λ b. AreRestedBy (program_on b) told.now) self.old }
        ensures ok { IfOk result (λ found. MayTellAt self.old place told.now found self.new) }
        ensures placed { IfOk result (λ found. IfSome found (IsPlaced into)) }
        ensures none { IfOk result (λ found. IfNone found ((b : HeldBoard) → slice_get self.old place ≡ Some b
            → RefusesThem b.replica told.now into)) }
        ensures err { OnErr result (self.new ≡ self.old) }
    {
        let placed = self.boards[place].tell_rested(alloc, told, into)?;
        keep_rested(&mut self.news, place, told, &placed);
        Ok(placed)
    }

    /// Merges operations into those of the board at a place.
    pub(crate) fn merge(
        &mut self,
        alloc: Global,
        place: usize,
        ops: &[Op],
    ) -> Result<Result<u64, WorldRefusal>, AllocError>
        requires { place < length self.old }
        ensures ok { IfOk result (λ merged.
            RepliesAt self.old place (Act.Merge ops.now) (merged_answer merged) self.new) }
        ensures err { OnErr result (self.new ≡ self.old) }
    {
        let merged = merge(alloc, &mut self.boards[place], ops)?;
        keep_merged(&mut self.news, place, ops, &merged);
        Ok(merged)
    }

    /// Rests the pool of the board at a place.
    pub(crate) fn settle(&mut self, place: usize) -> Result<u64, NotSettled>
        requires { place < length self.old }
        ensures { RepliesAt self.old place Act.Settle (settled_answer result) self.new }
    {
        settle(&mut self.boards[place])
    }

    /// Takes these steps on the part that the board at a place has out under a number, and puts back what comes of it.
    pub(crate) fn work(
        &mut self,
        alloc: Global,
        place: usize,
        number: u64,
        steps: &[Step],
    ) -> Result<Reply, AllocError>
        requires { place < length self.old }
        ensures ok { IfOk result (λ reply. ChangesAt self.old place
            (λ b t. Works (program_on b) b.replica number steps.now reply t) self.new) }
        ensures err { OnErr result (self.new ≡ self.old) }
    {
        work(alloc, &mut self.boards[place], number, steps)
    }

    /// Rests the pool of the board at a place with all parts of it that are out, by this number of workers.
    pub(crate) fn rest<R: Threads + Wait + Sync>(
        &mut self,
        rt: &R,
        alloc: Global,
        place: usize,
        workers: u32,
        parts: u32,
    ) -> Result<(), AllocError>
        requires place { place < length self.old }
        requires workers { (1 ≤ workers) × (workers ≤ MAX_WORKERS) }
        requires parts { (1 ≤ parts) × (parts ≤ MAX_PARTS) }
        ensures kept { ChangesAt self.old place (λ b t. KeepsTold (program_on b) b.replica t) self.new }
        ensures rested { OnOk result (
            ChangesAt self.old place (λ b t. ComesToRest (program_on b) b.replica t) self.new) }
    {
        rest(rt, alloc, &mut self.boards[place], workers, parts)
    }

    /// What the board at the first place holds and the one at the second lacks.
    fn lacked(&self, alloc: Global, giver: usize, taker: usize) -> Result<Vec<Op>, AllocError>
        requires giver { giver < length self.now }
        requires taker { taker < length self.now }
        ensures { IfOk result (λ ops. AreLackedAt self.now giver taker ops.items) }
    {
        let from = &self.boards[giver];
        let to = &self.boards[taker];
        match self.news.since(giver, taker) {
            Some(ids) => lacked_among(alloc, from, to, ids),
            None => lacked(alloc, from, to),
        }
    }

    /// Keeps that the board at the second place holds all that the one at the first does, where that came of a merge.
    fn keep_met(
        &mut self,
        alloc: Global,
        giver: usize,
        taker: usize,
        merged: &Result<u64, WorldRefusal>,
    )
        requires { (n : ℕ) → merged.now ≡ Ok n → HoldsAllOf self.old giver taker }
        ensures { self.new ≡ self.old }
    {
        if let Ok(_) = merged {
            self.news.met(alloc, giver, taker);
        }
    }

    /// The board at the second place takes in what the one at the first holds and it lacks.
    pub(crate) fn exchange(
        &mut self,
        alloc: Global,
        giver: usize,
        taker: usize,
    ) -> Result<Result<u64, WorldRefusal>, AllocError>
        requires giver { giver < length self.old }
        requires taker { taker < length self.old }
        ensures ok { IfOk result (λ merged. ExchangesAt self.old giver taker (merged_answer merged) self.new) }
        ensures err { OnErr result (self.new ≡ self.old) }
    {
        exchange_laws();
        let ops = self.lacked(alloc, giver, taker)?;
        let merged = self.merge(alloc, taker, &ops)?;
        self.keep_met(alloc, giver, taker, &merged);
        Ok(merged)
    }
}
