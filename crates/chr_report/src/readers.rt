//! Blocks of command lines that other threads read before their turn.
ghost use Rattle.std.specs.Prelude.{◌≡◌, IfSome, IsTrue};
ghost use Rattle.chr_join.specs.AcceptedPrograms.{program_in};
ghost use Rattle.chr_answers.specs.Ahead.{IsAhead};
ghost use Rattle.chr_report.specs.working.BlockLines.{lines_of};
ghost use Rattle.chr_report.specs.working.Readings.{Agree, IsRead};

use crate::ahead::{first_replica, read_ahead};
use crate::block::Block;
use crate::carriage::Carriage;
use chr_answers::{Ahead, Carried};
use chr_crew::{Desk, Inbox, Known, open};
use chr_join::Accepted;
use crossbeam_channel::{Receiver, Sender};
use std::alloc::{AllocError, Global};
use std::collections::VecDeque;
use std::sync::{Arc, Wait};

/// The least bytes of a block that another thread reads: fewer are no work for it.
const LEAST_READ: usize = 16_384;

/// The most bytes of a block that another thread reads. A longer block has a long line, which is read to something many
/// times as large: it is read in its turn, so that no two threads hold as much at once.
const MOST_READ: usize = 655_360;

/// The least bytes of a block whose tells are rested by the thread that reads them: of a shorter one too many atoms may
/// be left over.
const LEAST_RESTED: usize = 131_072;

/// What other threads do before a line's turn.
#[derive(Clone, Copy, Debug, PartialEq, Eq)]
pub(crate) struct Readers {
    /// Whether they read lines.
    pub(crate) read: bool,
    /// Whether they rest what these tell.
    pub(crate) rest: bool,
}

/// What came of a task.
#[derive(Drop)]
pub(crate) struct Done {
    /// The block that was read.
    pub(crate) block: Arc<Block>,
    /// What was read of it, unless memory was refused.
    pub(crate) ahead: Option<Ahead>,
}

/// A block that another thread is to read.
#[derive(Drop)]
pub(crate) struct Task<K: Known<Done>> {
    /// The block.
    pub(crate) block: Arc<Block>,
    /// The block's number, from 1 on.
    pub(crate) number: u64,
    /// Whether its tells are to be rested.
    pub(crate) rest: bool,
    /// From where what was read is sent.
    pub(crate) desk: Desk<Done, K>,
}

/// Whether a block has the lines of another.
fn has_lines_of(block: &Block, other: &Block) -> bool
    ensures { IsTrue result → lines_of block.now ≡ lines_of other.now }
{
    block.lines() == other.lines()
}

/// Reads a block, and rests its first tells with the carried atoms, if it is to be rested.
fn read_block(
    alloc: Global,
    accepted: &Accepted,
    block: Arc<Block>,
    carried: Option<Carried>,
) -> Done
    ensures { IsRead (program_in accepted.now) result }
{
    let ahead = read_ahead(alloc, accepted, block.lines(), carried).ok();
    Done { block, ahead }
}

/// The atoms that are carried to a block, if it begins with a tell and is to be rested.
fn carried_to<R: Wait>(
    rt: &R,
    alloc: Global,
    accepted: &Accepted,
    carriage: &Carriage,
    number: u64,
    lines: &[u8],
) -> Option<Carried> {
    let replica = first_replica(alloc, accepted.program(), lines)?;
    carriage.take(rt, alloc, number, replica)
}

/// Does a task: reads its block, carries on what is left over, and sends what was read.
pub(crate) fn do_task<K: Known<Done>, R: Wait>(
    rt: &R,
    alloc: Global,
    accepted: &Accepted,
    carriage: &Carriage,
    task: Task<K>,
)
    requires { Agree K.holds (program_in accepted.now) }
{
    let Task {
        block,
        number,
        rest,
        desk,
    } = task;
    let mut desk = desk;
    let carried = if rest {
        carried_to(rt, alloc, accepted, carriage, number, block.lines())
    } else {
        None
    };
    let done = read_block(alloc, accepted, block, carried);
    if let Some(ahead) = &done.ahead {
        if let Some(tells) = ahead.rested() {
            carriage.give(rt, alloc, number, tells);
        }
    }
    let _heard = desk.send(rt, done);
}

/// How the thread that answers lines asks other threads to read blocks. It takes back a task that none of them has
/// begun.
#[derive(Drop)]
pub(crate) struct Asking<'a, K: Known<Done>> {
    /// The program.
    pub(crate) accepted: &'a Accepted,
    /// What is carried from block to block.
    pub(crate) carriage: &'a Carriage,
    /// How many blocks have come.
    pub(crate) asked: u64,
    /// To where tasks are sent.
    pub(crate) tasks: Sender<Task<K>>,
    /// From where they are taken back.
    pub(crate) left: &'a Receiver<Task<K>>,
    /// For each block that waits, in order, where what is read of it will come, if that was asked for.
    pub(crate) readings: VecDeque<Option<Inbox<Done, K>>>,
}

impl<'a, K: Known<Done>> Asking<'a, K> {
    /// Asks for a block to be read, if there is memory for that.
    fn task<R: Wait>(
        &self,
        rt: &R,
        alloc: Global,
        block: &Arc<Block>,
        rest: bool,
    ) -> Option<Inbox<Done, K>> {
        let block = Arc::try_clone(block).ok()?;
        let (desk, inbox) = open(alloc, 1).ok()?;
        let task = Task {
            block,
            number: self.asked,
            rest,
            desk,
        };
        self.tasks.send(rt, task).ok()?;
        Some(inbox)
    }

    /// Has one block more wait. Other threads read it meanwhile if its length is fit for that, and rest its tells if
    /// that is wanted.
    pub(crate) fn ask<R: Wait>(
        &mut self,
        rt: &R,
        alloc: Global,
        block: &Arc<Block>,
        readers: Readers,
    ) -> Result<(), AllocError>
        ensures { self.new.accepted ≡ self.old.accepted }
    {
        let len = block.lines().len();
        self.asked = self.asked.wrapping_add(1);
        let reading = if readers.read && len >= LEAST_READ && len <= MOST_READ {
            self.task(rt, alloc, block, readers.rest && len >= LEAST_RESTED)
        } else {
            None
        };
        self.readings
            .push_back(reading)
            .map_err(|_refused| AllocError)
    }

    /// What came of a task. While nothing has come, blocks that no thread has begun are read here.
    fn done_of<R: Wait>(&self, rt: &R, alloc: Global, inbox: Inbox<Done, K>) -> Option<Done>
        requires { Agree K.holds (program_in self.now.accepted.now) }
        ensures { IfSome result K.holds }
    {
        let mut inbox = inbox;
        for _task in rt.forever() {
            if let Some(done) = inbox.try_recv(rt) {
                return Some(done);
            }
            match self.left.try_recv(rt) {
                Ok(task) => do_task(rt, alloc, self.accepted, self.carriage, task),
                Err(_none) => return inbox.recv(rt),
            }
        }
        None
    }

    /// What was read, if it was read of this block.
    fn known_of(&self, alloc: Global, block: &Block, done: Done) -> Ahead
        requires agree { Agree K.holds (program_in self.now.accepted.now) }
        requires known { K.holds done }
        ensures { IsAhead (program_in self.now.accepted.now) (lines_of block.now) result }
    {
        let Done { block: of, ahead } = done;
        if !has_lines_of(&of, block) {
            return Ahead::none(alloc);
        }
        match ahead {
            Some(ahead) => ahead,
            None => Ahead::none(alloc),
        }
    }

    /// What was read of the first block that waits. That block waits no longer.
    pub(crate) fn hear<R: Wait>(&mut self, rt: &R, alloc: Global, block: &Block) -> Ahead
        requires { Agree K.holds (program_in self.old.accepted.now) }
        ensures ahead { IsAhead (program_in self.old.accepted.now) (lines_of block.now) result }
        ensures accepted { self.new.accepted ≡ self.old.accepted }
    {
        let Some(Some(inbox)) = self.readings.pop_front() else {
            return Ahead::none(alloc);
        };
        match self.done_of(rt, alloc, inbox) {
            Some(done) => self.known_of(alloc, block, done),
            None => Ahead::none(alloc),
        }
    }

    /// Drops the tasks that no thread has begun: where a run ends early these blocks aren't to be read any more.
    pub(crate) fn leave<R: Wait>(&self, rt: &R) {
        for _task in rt.forever() {
            if self.left.try_recv(rt).is_err() {
                return;
            }
        }
    }
}
