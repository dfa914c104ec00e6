//! Replicas that are asked what command lines say.
ghost use Rattle.std.specs.Prelude.{◌≡◌, ◌≤◌, All, IfOk, IsFalse, OnOk, replicate, string_bytes};
ghost use Rattle.std.specs.Bool.{OnTrue, OnFalse};
ghost use Rattle.std.specs.FinMap as finite;
ghost use Rattle.chr_join.specs.AcceptedPrograms.{program_in};
ghost use Rattle.chr_base.specs.Programs.{declarations, rules_of};
ghost use Rattle.chr_json.specs.Reads.{HasIds};
ghost use Rattle.chr_replica.specs.Replicas.{IsDeclared};
ghost use Rattle.chr_base.specs.declared.limits.TheConstants.{MAX_REPLICAS};
ghost use Rattle.chr_answers.specs.Answers.{AnswersBetween, AnswersLacks, AnswersMerge, AnswersShow, AnswersSummary};
ghost use Rattle.chr_answers.specs.Answers.{AnswersTell};
ghost use Rattle.chr_answers.specs.Gathered.{AreRested};
ghost use Rattle.chr_answers.specs.working.Obeying.{HoldsMore, IsAnswered, IsAnsweredAt, IsReadyFor, ShowsFrom};
ghost use Rattle.chr_answers.specs.Requests.{AnswersRequest, FitsProgram};
ghost use Rattle.chr_answers.specs.Services.{held, served};
ghost use Rattle.chr_answers.specs.working.Resting.{was_stopped};
ghost use Rattle.chr_answers.specs.working.Resting.{AreAtRest, AreIdle};
ghost use Rattle.chr_answers.specs.Services.{IsBetweenLines};

use crate::reply::{Refusal, Reply, text_of_delta};
use crate::request::Request;
use crate::resting::tell_replica;
use crate::schedule::{Moment, Rest, Schedule, most_pools, told};
use crate::sharing::Sharing;
use crate::tells::Tells;
use chr_base::program::Program;
use chr_exchange::lacked_ids_differ;
use chr_join::Accepted;
use chr_json::DeltaVersion;
use chr_ops::{IdRange, Op, Summary};
use chr_replica::laws::events_keep_replicas_sound;
use chr_worlds::laws::runs_keep_replicas_sound;
use chr_worlds::{NotSettled, World};
use std::alloc::{AllocError, Global};
use std::sync::{Arc, Wait};
use std::thread::Threads;

/// Replicas that answer command lines.
#[derive(Drop)]
pub struct Service {
    /// The replicas.
    pub world: World,
    /// When they are rested, and by whom.
    pub(crate) schedule: Schedule,
}

/// Whether memory was refused to a pool's rest.
fn was_stopped(settled: &Result<u64, NotSettled>) -> bool
    ensures { result ≡ was_stopped settled.now }
{
    matches!(settled, Err(NotSettled::Stopped(_)))
}

impl Service {
    /// Opens 1 to [`MAX_REPLICAS`](chr_base::limits::MAX_REPLICAS) replicas that were told nothing, whose resting is
    /// shared out like this.
    pub fn open(
        alloc: Global,
        accepted: Accepted,
        replicas: u32,
        sharing: Sharing,
    ) -> Result<Service, AllocError>
        requires { (1 ≤ replicas) × (replicas ≤ MAX_REPLICAS) }
        ensures ready { IfOk result IsBetweenLines }
        ensures program { IfOk result (λ service. served service ≡ program_in accepted) }
        ensures operations { IfOk result (λ service. held service ≡ replicate replicas finite.empty) }
    {
        events_keep_replicas_sound();
        let schedule = Schedule::open(alloc, &accepted, replicas, sharing)?;
        let accepted = Arc::new(alloc, accepted.in_pools(most_pools(sharing)))?;
        Ok(Service {
            world: World::open(alloc, accepted, replicas)?,
            schedule,
        })
    }

    /// Its program.
    pub(crate) fn program(&self) -> &Program
        ensures { result.now ≡ served self.now }
    {
        self.world.program().program()
    }

    /// When its replicas are rested, and by whom.
    pub fn schedule(&self) -> &Schedule {
        &self.schedule
    }

    /// Whether a part of a replica is out.
    fn has_parts_out(&self, replica: u64) -> bool
        ensures { IsFalse result → AreIdle self.now replica }
    {
        let Some(board) = self.world.board(replica) else {
            return false;
        };
        match board.least_lease() {
            Some(_) => true,
            None => false,
        }
    }

    /// Rests a replica's pool by one worker, where there is that replica.
    fn settle_alone(&mut self, replica: u64) -> Result<(), AllocError>
        requires { IsBetweenLines self.old }
        ensures ready { OnOk result (IsBetweenLines self.new) }
        ensures program { self.new.world.accepted ≡ self.old.world.accepted }
        ensures operations { OnOk result (held self.new ≡ held self.old) }
        ensures rests { OnOk result (AreIdle self.old replica → AreAtRest self.new replica) }
    {
        runs_keep_replicas_sound();
        let settled = self.world.settle(replica);
        if was_stopped(&settled) {
            return Err(AllocError);
        }
        self.schedule.note_waiting(&self.world, replica, 0);
        Ok(())
    }

    /// Rests a replica's pool by the workers that are asked for, where there is that replica.
    fn settle_shared<R: Threads + Wait + Sync>(
        &mut self,
        rt: &R,
        alloc: Global,
        replica: u64,
    ) -> Result<(), AllocError>
        requires { IsBetweenLines self.old }
        ensures ready { OnOk result (IsBetweenLines self.new) }
        ensures program { self.new.world.accepted ≡ self.old.world.accepted }
        ensures operations { OnOk result (held self.new ≡ held self.old) }
        ensures rests { OnOk result (AreAtRest self.new replica) }
    {
        let Sharing { workers, parts, .. } = self.schedule.sharing();
        self.world.rest(rt, alloc, replica, workers, parts)?;
        self.schedule.note_waiting(&self.world, replica, 0);
        self.schedule.forget_parts();
        Ok(())
    }

    /// Rests a replica's pool, where there is that replica.
    pub(crate) fn settle<R: Threads + Wait + Sync>(
        &mut self,
        rt: &R,
        alloc: Global,
        replica: u64,
    ) -> Result<(), AllocError>
        requires { IsBetweenLines self.old }
        ensures ready { OnOk result (IsBetweenLines self.new) }
        ensures program { self.new.world.accepted ≡ self.old.world.accepted }
        ensures operations { OnOk result (held self.new ≡ held self.old) }
        ensures rests { OnOk result (AreAtRest self.new replica) }
    {
        if self.has_parts_out(replica) {
            return self.settle_shared(rt, alloc, replica);
        }
        match self.schedule.decide(&self.world, replica, Moment::Shown) {
            Rest::AllWorkers => self.settle_shared(rt, alloc, replica),
            Rest::OneWorker | Rest::Nobody => self.settle_alone(replica),
        }
    }

    /// Has a replica's pool be rested by whoever the schedule says.
    fn rest_by_schedule<R: Threads + Wait + Sync>(
        &mut self,
        rt: &R,
        alloc: Global,
        replica: u64,
        moment: Moment,
    ) -> Result<(), AllocError>
        requires { IsBetweenLines self.old }
        ensures ready { OnOk result (IsBetweenLines self.new) }
        ensures program { self.new.world.accepted ≡ self.old.world.accepted }
        ensures operations { OnOk result (held self.new ≡ held self.old) }
    {
        match self.schedule.decide(&self.world, replica, moment) {
            Rest::Nobody => Ok(()),
            Rest::OneWorker => self.settle_alone(replica),
            Rest::AllWorkers => self.settle_shared(rt, alloc, replica),
        }
    }

    /// The number of its replicas, which are counted from 1 on.
    pub fn replicas(&self) -> u64 {
        self.schedule.replicas()
    }

    /// Whether enough waits in a pool that workers are to rest it before more lines are answered.
    pub fn is_to_rest(&self) -> bool {
        self.schedule.is_to_rest(&self.world)
    }

    /// Whether enough waits in a replica's pool that it is rested by workers between two blocks of lines.
    pub fn is_waiting(&self, replica: u64) -> bool {
        self.schedule.decide(&self.world, replica, Moment::Between) != Rest::Nobody
    }

    /// Rests a replica's pool by workers between two blocks of lines, where enough waits in it.
    pub fn rest_between<R: Threads + Wait + Sync>(
        &mut self,
        rt: &R,
        alloc: Global,
        replica: u64,
    ) -> Result<(), AllocError>
        requires { IsBetweenLines self.old }
        ensures ready { OnOk result (IsBetweenLines self.new) }
        ensures program { self.new.world.accepted ≡ self.old.world.accepted }
        ensures operations { OnOk result (held self.new ≡ held self.old) }
    {
        self.rest_by_schedule(rt, alloc, replica, Moment::Between)
    }

    /// Tells a replica an operation.
    fn tell<R: Threads + Wait + Sync>(
        &mut self,
        rt: &R,
        alloc: Global,
        replica: u64,
        op: Op,
    ) -> Result<Reply, AllocError>
        requires ready { IsBetweenLines self.old }
        requires declared { IsDeclared (served self.old) op }
        ensures ready { OnOk result (IsBetweenLines self.new) }
        ensures answered { IsAnsweredAt self.old self.new replica (AnswersTell op) result }
    {
        runs_keep_replicas_sound();
        let told = self.world.tell(alloc, replica, op)?;
        self.rest_by_schedule(rt, alloc, replica, Moment::Told)?;
        Ok(Reply::told(told))
    }

    /// Tells a replica operations that were rested by the thread that read them, where there is that replica and all of
    /// them may be told. Else the replicas stay as they are, and none is rested so any more.
    pub(crate) fn tell_rested<R: Threads + Wait + Sync>(
        &mut self,
        rt: &R,
        alloc: Global,
        tells: &Tells,
    ) -> Result<bool, AllocError>
        requires ready { IsBetweenLines self.old }
        requires rested { AreRested (served self.old) tells.now }
        ensures ready { OnOk result (IsBetweenLines self.new) }
        ensures program { self.new.world.accepted ≡ self.old.world.accepted }
        ensures told { IfOk result (λ told. OnTrue told
            (HoldsMore (served self.old) (held self.old) tells.now.replica tells.now.ops.items (held self.new))) }
        ensures same { IfOk result (λ told. OnFalse told (held self.new ≡ held self.old)) }
    {
        let replica = tells.replica;
        let before = told(&self.world, replica);
        let waiting = self.schedule.waiting(&self.world, replica);
        let parts = &mut self.schedule.parts;
        let Some(more) = tell_replica(alloc, &mut self.world, parts, tells)? else {
            self.schedule.note_missed();
            return Ok(false);
        };
        let came = told(&self.world, replica).saturating_sub(before);
        self.schedule
            .note_waiting(&self.world, replica, waiting.saturating_add(more));
        self.schedule.note_rested(tells, came, more);
        self.rest_by_schedule(rt, alloc, replica, Moment::Told)?;
        Ok(true)
    }

    /// Merges operations into those of a replica.
    fn merge<R: Threads + Wait + Sync>(
        &mut self,
        rt: &R,
        alloc: Global,
        replica: u64,
        ops: Vec<Op>,
    ) -> Result<Reply, AllocError>
        requires ready { IsBetweenLines self.old }
        requires declared { All (IsDeclared (served self.old)) ops.items }
        ensures ready { OnOk result (IsBetweenLines self.new) }
        ensures answered { IsAnsweredAt self.old self.new replica (AnswersMerge ops.items) result }
    {
        runs_keep_replicas_sound();
        let merged = self.world.merge(alloc, replica, &ops)?;
        self.rest_by_schedule(rt, alloc, replica, Moment::Brought)?;
        Ok(Reply::merged(merged))
    }

    /// Gives a replica what another holds and it lacks.
    fn sync<R: Threads + Wait + Sync>(
        &mut self,
        rt: &R,
        alloc: Global,
        from: u64,
        to: u64,
    ) -> Result<Reply, AllocError>
        requires { IsBetweenLines self.old }
        ensures ready { OnOk result (IsBetweenLines self.new) }
        ensures answered { IsAnswered self.old self.new (λ held. AnswersBetween held from to) result }
    {
        runs_keep_replicas_sound();
        let synced = self.world.sync(alloc, from, to)?;
        self.rest_by_schedule(rt, alloc, to, Moment::Brought)?;
        Ok(Reply::synced(synced))
    }

    /// Shows a replica's pool at rest, which as many threads at most put in order as workers are asked for.
    fn show<R: Threads + Wait + Sync>(
        &self,
        rt: &R,
        alloc: Global,
        replica: u64,
    ) -> Result<Reply, AllocError>
        requires ready { IsBetweenLines self.now }
        requires rests { AreAtRest self.now replica }
        ensures { IsAnsweredAt self.now self.now replica
            (AnswersShow (declarations (served self.now)) (rules_of (served self.now))) result }
    {
        let threads = self.schedule.workers() as usize;
        let shown = self.world.show(rt, alloc, replica, threads)?;
        Ok(Reply::shown(shown))
    }

    /// Adds the text of a replica's pool at rest, where it can be written from its rows, by as many threads as workers
    /// are asked for. Else nothing is added.
    pub(crate) fn push_pool<R: Threads + Wait + Sync>(
        &self,
        rt: &R,
        alloc: Global,
        replica: u64,
        out: &mut String,
    ) -> Result<bool, AllocError>
        requires ready { IsBetweenLines self.now }
        requires rests { AreAtRest self.now replica }
        ensures text { IfOk result (λ shown. OnTrue shown
            (ShowsFrom self.now replica (string_bytes out.old) (string_bytes out.new))) }
        ensures same { IfOk result (λ shown. OnFalse shown (out.new ≡ out.old)) }
    {
        match self.world.board(replica) {
            Some(board) => board.push_shown(rt, alloc, self.schedule.workers() as usize, out),
            None => Ok(false),
        }
    }

    /// Tells which ids a replica's operations have.
    fn summary(&self, alloc: Global, replica: u64) -> Result<Reply, AllocError>
        ensures { IsAnsweredAt self.now self.now replica AnswersSummary result }
    {
        let found = self.world.summary(alloc, replica)?;
        let Some(summary) = found else {
            return Ok(Reply::Refused(Refusal::NoReplica));
        };
        // Its type keeps that the ranges are as long as possible.
        let _ranges = summary.ranges();
        Ok(Reply::Summed(summary))
    }

    /// Tells a replica's operations whose ids the ranges don't cover.
    fn lacks(
        &self,
        alloc: Global,
        replica: u64,
        ranges: Vec<IdRange>,
        version: DeltaVersion,
    ) -> Result<Reply, AllocError>
        requires { All HasIds ranges.items }
        ensures { IsAnsweredAt self.now self.now replica
            (AnswersLacks (declarations (served self.now)) ranges.items version) result }
    {
        lacked_ids_differ();
        let summary = Summary::of(ranges)?;
        let found = self.world.lacks(alloc, replica, &summary)?;
        let Some(ops) = found else {
            return Ok(Reply::Refused(Refusal::NoReplica));
        };
        let text = text_of_delta(alloc, self.program(), version, &ops)?;
        Ok(Reply::Lacked(text))
    }

    /// Does what is asked for. A replica that is to show its pool has been rested.
    pub(crate) fn obey<R: Threads + Wait + Sync>(
        &mut self,
        rt: &R,
        alloc: Global,
        request: Request,
    ) -> Result<Reply, AllocError>
        requires ready { IsBetweenLines self.old }
        requires fits { FitsProgram (served self.old) request }
        requires rests { IsReadyFor self.old request }
        ensures ready { OnOk result (IsBetweenLines self.new) }
        ensures answered { IsAnswered self.old self.new
            (λ held. AnswersRequest (declarations (served self.old)) (rules_of (served self.old)) held request)
            result }
    {
        match request {
            Request::Tell(replica, op) => self.tell(rt, alloc, replica, op),
            Request::Merge(replica, ops) => self.merge(rt, alloc, replica, ops),
            Request::Sync(from, to) => self.sync(rt, alloc, from, to),
            Request::Show(replica) => self.show(rt, alloc, replica),
            Request::Summary(replica) => self.summary(alloc, replica),
            Request::Lacks(replica, ranges, version) => {
                self.lacks(alloc, replica, ranges, version)
            }
            Request::Refused(refusal) => Ok(Reply::Refused(refusal)),
        }
    }
}
