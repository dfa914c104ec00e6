//! Worlds as values.
ghost use Rattle.std.specs.Prelude.{◌≡◌, ◌≤◌, ◌↔◌, IfNone, IfOk, IfSome, IsSome, OnErr, OnOk, replicate};
ghost use Rattle.std.specs.Arc.{arc_value};
ghost use Rattle.chr_replica.specs.Replicas.{first, Replica};
ghost use Rattle.chr_replica.specs.RestedOps.{AreRestedBy, IsPlaced, RefusesThem, TellsThem};
ghost use Rattle.chr_acts.specs.Acts.{FitsAct};
ghost use Rattle.chr_worlds.specs.Answers.{lacked_answer, merged_answer, settled_answer, shown_answer, summed_answer};
ghost use Rattle.chr_worlds.specs.Answers.{told_answer};
ghost use Rattle.chr_worlds.specs.Events.{FitsEvent};
ghost use Rattle.chr_worlds.specs.Laws.{AgreeAt};
ghost use Rattle.chr_worlds.specs.Resting.{KeepsTold, RestsAt};
ghost use Rattle.chr_worlds.specs.Worlds.{Changes, Happens, HasReplica, IsAt};
ghost use Rattle.chr_worlds.specs.Sharing.{shared_program};
ghost use Rattle.chr_worlds.specs.working.Boards.{TellsNothing};

use crate::answer::Answer;
use crate::board_list::BoardList;
use crate::calls::show;
use crate::event::Event;
use crate::refusal::{NotSettled, WorldRefusal};
use chr_acts::Act;
use chr_base::bag::Bag;
use chr_base::derivation::Step;
use chr_base::limits::{MAX_PARTS, MAX_REPLICAS, MAX_WORKERS};
use chr_join::Accepted;
use chr_ops::{Added, Op, Summary};
use chr_replica::laws::one_answer;
use chr_replica::{Board, Destination, Placed, RestedOps, declares, declares_all};
use std::alloc::{AllocError, Global};
use std::marker::Model;
use std::sync::{Arc, Wait};
use std::thread::Threads;

/// Replicas of one accepted program, which have the numbers 1, 2 and so on. Its type keeps that each is of that
/// program.
#[derive(Drop)]
pub struct World {
    accepted: Arc<Accepted>,
    boards: BoardList,
}

impl Model for World {
    ghost use Rattle.std.specs.Arc.{arc_value};
    ghost use Rattle.chr_worlds.specs.Sharing.{Shared};
    ghost use Rattle.chr_worlds.specs.working.Boards.{AreOf, replicas_on};
    ghost use Rattle.chr_worlds.specs.working.Codes.{coded_shared};

    ghost Value = { Shared };

    ghost coded = { coded_shared };

    ghost view = { λ w. record { accepted = arc_value w.accepted; replicas = replicas_on w.boards } };

    ghost invariant = { λ w. AreOf (arc_value w.accepted) w.boards };
}

impl World {
    /// Opens 1 to [`MAX_REPLICAS`] replicas that were told nothing.
    pub fn open(alloc: Global, accepted: Arc<Accepted>, replicas: u32) -> Result<World, AllocError>
        requires { (1 ≤ replicas) × (replicas ≤ MAX_REPLICAS) }
        ensures accepted { IfOk result (λ world. world.accepted ≡ arc_value accepted) }
        ensures replicas { IfOk result (λ world. world.replicas ≡ replicate replicas first) }
    {
        let boards = BoardList::open(alloc, &accepted, replicas)?;
        Ok(World { accepted, boards })
    }

    /// The accepted program. It takes no memory.
    pub fn program(&self) -> &Arc<Accepted>
        ensures { arc_value result.now ≡ self.now.accepted }
    {
        &self.accepted
    }

    /// The board of the replica of a number, where there is one. It takes no memory.
    pub fn board(&self, replica: u64) -> Option<&Board>
        ensures there { IsSome result ↔ HasReplica self.now.replicas replica }
        ensures replica { IfSome result (λ board. IsAt self.now.replicas replica board.now.replica) }
        ensures program { IfSome result (λ board. board.now.accepted ≡ self.now.accepted) }
    {
        let place = self.boards.place_of(replica)?;
        Some(self.boards.at(place))
    }

    /// Two of its replicas that hold the same operations and have settled hold the same store: the one normal form of
    /// what was told. It does nothing but look into their boards, for its contract.
    pub fn agree(&self, left: u64, right: u64)
        ensures { AgreeAt (shared_program self.now) self.now.replicas left right }
    {
        one_answer();
        let Some(one) = self.board(left) else {
            return;
        };
        let Some(other) = self.board(right) else {
            return;
        };
        one.is_sound();
        other.is_sound();
        self.program().weighed();
    }

    /// Lets an event happen. What a replica refuses is an answer, and leaves the world as it was; so is a `settle` that
    /// was stopped, whose steps stand. The event is read: what is told is copied once, into the replica.
    ///
    /// # Errors
    /// Where memory is refused to any event but a `settle`. The world is as it was.
    pub fn act(&mut self, alloc: Global, event: &Event) -> Result<Answer, AllocError>
        requires { FitsEvent event.now }
        ensures program { self.new.accepted ≡ self.old.accepted }
        ensures happens { IfOk result (λ answer.
            Happens (shared_program self.old) self.old.replicas event.now answer self.new.replicas) }
        ensures err { OnErr result (self.new ≡ self.old) }
    {
        match event {
            Event::At(replica, act) => self.act_at(alloc, *replica, act),
            Event::Sync(giver, taker) => Ok(Answer::merged(self.sync(alloc, *giver, *taker)?)),
            Event::Work {
                replica,
                lease,
                steps,
            } => self.work(alloc, *replica, *lease, steps),
        }
    }

    /// Tells a replica an operation, which moves into it. It is the event of [`Act::Tell`], without a copy.
    ///
    /// # Errors
    /// Where memory is refused. The world is as it was.
    pub fn tell(
        &mut self,
        alloc: Global,
        replica: u64,
        op: Op,
    ) -> Result<Result<Added, WorldRefusal>, AllocError>
        ensures program { self.new.accepted ≡ self.old.accepted }
        ensures happens { IfOk result (λ told. Happens (shared_program self.old) self.old.replicas
            (Event.At replica (Act.Tell op)) (told_answer told) self.new.replicas) }
        ensures err { OnErr result (self.new ≡ self.old) }
    {
        let Some(place) = self.boards.place_of(replica) else {
            return Ok(Err(if declares(self.accepted.program(), &op) {
                WorldRefusal::NoReplica
            } else {
                WorldRefusal::UnknownSymbol
            }));
        };
        self.boards.tell(alloc, place, op)
    }

    /// Tells a replica operations that are all new, one after the other, where some steps have made `rested` of their
    /// atoms and of the part that is carried to them, if any: that part comes back before, and what was rested goes
    /// into the pool, or is leased out. None, and nothing changes, where there is no such replica and where it refuses
    /// them: where one of them is not new, they tell too many atoms, that part is not out under its number, or a lease
    /// number is wanted and they are used up.
    ///
    /// # Errors
    /// Where memory is refused. The world is as it was.
    pub fn tell_rested(
        &mut self,
        alloc: Global,
        replica: u64,
        told: &RestedOps<'_>,
        into: Destination,
    ) -> Result<Option<Placed>, AllocError>
        requires { AreRestedBy (shared_program self.old) told.now }
        ensures program { self.new.accepted ≡ self.old.accepted }
        ensures told { IfOk result (λ found. IfSome found (λ placed. Changes self.old.replicas replica
            (TellsThem (shared_program self.old) told.now placed) self.new.replicas)) }
        ensures placed { IfOk result (λ found. IfSome found (IsPlaced into)) }
        ensures none { IfOk result (λ found. IfNone found ((s : Replica) → IsAt self.old.replicas replica s
            → RefusesThem s told.now into)) }
        ensures same { IfOk result (λ found. IfNone found (self.new ≡ self.old)) }
        ensures err { OnErr result (self.new ≡ self.old) }
    {
        let Some(place) = self.boards.place_of(replica) else {
            return Ok(None);
        };
        self.boards.tell_rested(alloc, place, told, into)
    }

    /// Merges operations into those of a replica. It is the event of [`Act::Merge`], without a list of their own.
    ///
    /// # Errors
    /// Where memory is refused. The world is as it was.
    pub fn merge(
        &mut self,
        alloc: Global,
        replica: u64,
        ops: &[Op],
    ) -> Result<Result<u64, WorldRefusal>, AllocError>
        ensures program { self.new.accepted ≡ self.old.accepted }
        ensures happens { IfOk result (λ merged. Happens (shared_program self.old) self.old.replicas
            (Event.At replica (Act.Merge ops.now)) (merged_answer merged) self.new.replicas) }
        ensures err { OnErr result (self.new ≡ self.old) }
    {
        let Some(place) = self.boards.place_of(replica) else {
            return Ok(Err(if declares_all(self.accepted.program(), ops) {
                WorldRefusal::NoReplica
            } else {
                WorldRefusal::UnknownSymbol
            }));
        };
        self.boards.merge(alloc, place, ops)
    }

    /// A replica takes in what another holds and it lacks, and the number of operations that are new to it is answered.
    /// It is the event [`Event::Sync`].
    ///
    /// # Errors
    /// Where memory is refused. The world is as it was.
    pub fn sync(
        &mut self,
        alloc: Global,
        giver: u64,
        taker: u64,
    ) -> Result<Result<u64, WorldRefusal>, AllocError>
        ensures program { self.new.accepted ≡ self.old.accepted }
        ensures happens { IfOk result (λ merged. Happens (shared_program self.old) self.old.replicas
            (Event.Sync giver taker) (merged_answer merged) self.new.replicas) }
        ensures err { OnErr result (self.new ≡ self.old) }
    {
        let Some(from) = self.boards.place_of(giver) else {
            return Ok(Err(WorldRefusal::NoReplica));
        };
        let Some(to) = self.boards.place_of(taker) else {
            return Ok(Err(WorldRefusal::NoReplica));
        };
        self.boards.exchange(alloc, from, to)
    }

    /// Rests a replica's pool, and answers how many steps that took. It is the event of [`Act::Settle`].
    ///
    /// # Errors
    /// Where memory is refused, with the number of steps up to there, which stand, and where there is no such replica.
    pub fn settle(&mut self, replica: u64) -> Result<u64, NotSettled>
        ensures program { self.new.accepted ≡ self.old.accepted }
        ensures happens { Happens (shared_program self.old) self.old.replicas (Event.At replica Act.Settle)
            (settled_answer result) self.new.replicas }
    {
        let Some(place) = self.boards.place_of(replica) else {
            return Err(NotSettled::NoReplica);
        };
        self.boards.settle(place)
    }

    /// Rests a replica's pool, with all parts of it that are out, by 1 to [`MAX_WORKERS`] workers and in 1 to
    /// [`MAX_PARTS`] parts, as [`rest_board`](chr_workers::rest_board) does. Where there is no such replica nothing
    /// happens.
    ///
    /// # Errors
    /// Where memory is refused. The replica has what it was told then, but parts of it may be out.
    pub fn rest<R: Threads + Wait + Sync>(
        &mut self,
        rt: &R,
        alloc: Global,
        replica: u64,
        workers: u32,
        parts: u32,
    ) -> Result<(), AllocError>
        requires workers { (1 ≤ workers) × (workers ≤ MAX_WORKERS) }
        requires parts { (1 ≤ parts) × (parts ≤ MAX_PARTS) }
        ensures program { self.new.accepted ≡ self.old.accepted }
        ensures rests { OnOk result (
            RestsAt (shared_program self.old) self.old.replicas replica self.new.replicas) }
        ensures stopped { OnErr result (
            Changes self.old.replicas replica (KeepsTold (shared_program self.old)) self.new.replicas) }
    {
        let Some(place) = self.boards.place_of(replica) else {
            return Ok(());
        };
        self.boards.rest(rt, alloc, place, workers, parts)
    }

    /// Shows a replica's pool, which this number of threads at most put in order. It is the event of [`Act::Show`].
    ///
    /// # Errors
    /// Where memory is refused.
    pub fn show<R: Threads + Sync>(
        &self,
        rt: &R,
        alloc: Global,
        replica: u64,
        threads: usize,
    ) -> Result<Result<Bag, WorldRefusal>, AllocError>
        ensures { IfOk result (λ shown. Happens (shared_program self.now) self.now.replicas
            (Event.At replica Act.Show) (shown_answer shown) self.now.replicas) }
    {
        let Some(board) = self.board(replica) else {
            return Ok(Err(WorldRefusal::NoReplica));
        };
        show(rt, alloc, board, threads)
    }

    /// Tells which ids a replica's operations have, where there is that replica. It is the event of [`Act::Summary`].
    ///
    /// # Errors
    /// Where memory is refused.
    pub fn summary(&self, alloc: Global, replica: u64) -> Result<Option<Summary>, AllocError>
        ensures { IfOk result (λ found. Happens (shared_program self.now) self.now.replicas
            (Event.At replica Act.Summary) (summed_answer found) self.now.replicas) }
    {
        let Some(board) = self.board(replica) else {
            return Ok(None);
        };
        let summary = board.summary(alloc)?;
        Ok(Some(summary))
    }

    /// Tells a replica's operations whose ids a summary does not cover, in the order of ids, where there is that
    /// replica. It is the event of [`Act::Lacks`].
    ///
    /// # Errors
    /// Where memory is refused.
    pub fn lacks(
        &self,
        alloc: Global,
        replica: u64,
        summary: &Summary,
    ) -> Result<Option<Vec<Op>>, AllocError>
        ensures { IfOk result (λ found. Happens (shared_program self.now) self.now.replicas
            (Event.At replica (Act.Lacks summary.now)) (lacked_answer found) self.now.replicas) }
    {
        let Some(board) = self.board(replica) else {
            return Ok(None);
        };
        let ops = board.lacks(alloc, summary)?;
        Ok(Some(ops))
    }

    /// Asks a replica to carry out an act.
    fn act_at(&mut self, alloc: Global, replica: u64, act: &Act) -> Result<Answer, AllocError>
        requires { FitsAct act.now }
        ensures program { self.new.accepted ≡ self.old.accepted }
        ensures happens { IfOk result (λ answer.
            Happens (shared_program self.old) self.old.replicas (Event.At replica act.now) answer self.new.replicas) }
        ensures err { OnErr result (self.new ≡ self.old) }
    {
        match act {
            Act::Tell(op) => Ok(Answer::told(self.tell(alloc, replica, op.copy(alloc)?)?)),
            Act::Merge(ops) => Ok(Answer::merged(self.merge(alloc, replica, ops.as_slice())?)),
            _ => self.ask(alloc, replica, act),
        }
    }

    /// Asks a replica for what tells it nothing.
    fn ask(&mut self, alloc: Global, replica: u64, act: &Act) -> Result<Answer, AllocError>
        requires act { FitsAct act.now }
        requires none { TellsNothing act.now }
        ensures program { self.new.accepted ≡ self.old.accepted }
        ensures happens { IfOk result (λ answer.
            Happens (shared_program self.old) self.old.replicas (Event.At replica act.now) answer self.new.replicas) }
        ensures err { OnErr result (self.new ≡ self.old) }
    {
        let Some(place) = self.boards.place_of(replica) else {
            return Ok(Answer::NoReplica);
        };
        let reply = self.boards.carry_out(alloc, place, act)?;
        Ok(Answer::Replied(reply))
    }

    /// Steps are taken on a part that a replica has leased out, and what comes of it is put back.
    fn work(
        &mut self,
        alloc: Global,
        replica: u64,
        lease: u64,
        steps: &Vec<Step>,
    ) -> Result<Answer, AllocError>
        ensures program { self.new.accepted ≡ self.old.accepted }
        ensures happens { IfOk result (λ answer.
            Happens (shared_program self.old) self.old.replicas (Event.Work replica lease steps.now) answer
            self.new.replicas) }
        ensures err { OnErr result (self.new ≡ self.old) }
    {
        let Some(place) = self.boards.place_of(replica) else {
            return Ok(Answer::NoReplica);
        };
        let reply = self.boards.work(alloc, place, lease, steps)?;
        Ok(Answer::Replied(reply))
    }
}
