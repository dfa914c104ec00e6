//! Command lines that are read block by block, and answered meanwhile.
ghost use Rattle.std.specs.Prelude.{◌≡◌, ◌<◌, ◌≤◌, [], ◌∷◌, ◌++◌, All, map, Some, false, true, IfOk, IfSome, IsErrOf};
ghost use Rattle.std.specs.Prelude.{IsTrue, OnOk};
ghost use Rattle.std.specs.Prelude.{string_bytes, vec_len};
ghost use Rattle.std.specs.Arc.{arc_value};
ghost use Rattle.std.specs.Bool.{OnTrue, OnFalse};
ghost use Rattle.std.specs.Io.KnownBytes.{Appends, IsAtEnd};
ghost use Rattle.chr_base.specs.Programs.{declarations, rules_of};
ghost use Rattle.chr_device.specs.Devices.{ReadsOn, inner_of, has_failed};
ghost use Rattle.chr_device.specs.declared.fault.RunFault.TheVariants.{Device, Memory};
ghost use Rattle.chr_join.specs.AcceptedPrograms.{program_in};
ghost use Rattle.chr_answers.specs.Lines.{lines};
ghost use Rattle.chr_answers.specs.Answered.{AnswersRest};
ghost use Rattle.chr_report.specs.working.Blocks.{AnswersFirst, AreWhole, ReadsBlocks, blocks_of, left_of};
ghost use Rattle.chr_report.specs.working.Readings.{Agree};
ghost use Rattle.chr_answers.specs.Services.{held, served, IsBetweenLines};
ghost use Rattle.chr_report.specs.working.Serving.{AnswersInput};

use crate::between::rest_told;
use crate::block::Block;
use crate::carriage::Carriage;
use crate::readers::{Asking, Done, Readers, Task, do_task};
use chr_answers::{Ahead, Answering, Service, answer_all, answer_lines};
use chr_crew::{Known, beside_crew};
use chr_device::{RunFault, Watched, read_on};
use chr_join::Accepted;
use crossbeam_channel::{Receiver, Sender, bounded};
use std::alloc::{AllocError, Global};
use std::collections::VecDeque;
use std::io::Read;
use std::marker::Brand;
use std::mem::replace;
use std::sync::{Arc, Wait};
use std::thread::Threads;

/// The bytes of the first block. Each later block has twice as many as the one before it, so that little is waited for
/// at first.
const FIRST_BLOCK: usize = 16_384;

/// The most bytes of a block: what was read is to be in a cache still when it is answered.
const MOST_BLOCK: usize = 524_288;

/// The most bytes of a block where the threads that read blocks don't rest what these tell: what was told is to be in a
/// cache when it is rested, too.
const MOST_UNRESTED_BLOCK: usize = 262_144;

/// How many blocks for each worker are read, or are to be read, before the first of them is answered, where the threads
/// that read blocks don't rest what these tell.
const BLOCKS_AHEAD: usize = 2;

/// How many blocks for each worker are read, or are to be read, before the first of them is answered, where the threads
/// that read blocks rest what these tell: with fewer such tasks the last one would be waited for.
const RESTED_AHEAD: usize = 4;

/// The most blocks that are read ahead, for any number of workers.
const MOST_AHEAD: usize = 32;

/// How many bytes wait for each worker when no more are read: what comes of a block takes several times its bytes, and
/// a block of long lines has more of these than others.
const MOST_WAITING: usize = 1_048_576;

/// Reads on from the beginning of a line, in a room that holds nothing else then: more than `size` bytes, or all that
/// there are. Answers whether these are all.
fn read_after<D: Read>(
    reader: &mut Watched<D>,
    begun: &[u8],
    room: &mut Vec<u8>,
    size: usize,
) -> Result<bool, RunFault>
    ensures read { OnOk result (ReadsOn (D.remaining (inner_of reader.old)) (D.remaining (inner_of reader.new))
        begun.now room.new.items) }
    ensures end { IfOk result (λ ended. OnTrue ended (IsAtEnd (D.remaining (inner_of reader.new)))) }
    ensures more { IfOk result (λ ended. OnFalse ended (size < vec_len room.new)) }
    ensures whole { OnOk result (has_failed reader.new ≡ has_failed reader.old) }
    ensures device { IsErrOf result Device → has_failed reader.new ≡ true }
    ensures memory { IsErrOf result Memory → has_failed reader.new ≡ has_failed reader.old }
{
    room.clear();
    room.extend_from_slice(begun)?;
    // At least as much again as has begun is read: so a line that takes many blocks is not copied for each.
    read_on(reader, room, size.max(begun.len().saturating_mul(2)))
}

/// The room of a block that is answered, to be read into again.
fn room_of(alloc: Global, block: Arc<Block>) -> Vec<u8> {
    match Arc::try_unwrap(block) {
        Ok(block) => block.bytes,
        Err(_shared) => Vec::new(alloc),
    }
}

/// A block that several threads may read.
fn shared(alloc: Global, block: Block) -> Result<Arc<Block>, AllocError>
    ensures { IfOk result (λ shared. arc_value shared ≡ block) }
{
    Arc::new(alloc, block).map_err(|_refused| AllocError)
}

/// Adds a block after the others.
fn push_last(blocks: &mut VecDeque<Arc<Block>>, block: Arc<Block>) -> Result<(), AllocError>
    ensures { OnOk result (map (λ b. arc_value b) blocks.new.items
        ≡ map (λ b. arc_value b) blocks.old.items ++ arc_value block ∷ []) }
{
    blocks.push_back(block)?;
    Ok(())
}

/// Blocks of lines that wait to be answered, in order.
#[derive(Drop)]
pub(crate) struct Blocks {
    /// By whom they are answered, and what was answered so far.
    pub(crate) at: Answering,
    /// The blocks that were read from the input and are not answered. Other threads read their lines before their turn.
    pub(crate) blocks: VecDeque<Arc<Block>>,
    /// The beginning of the line after the last block.
    pub(crate) begun: Vec<u8>,
    /// A room for more bytes.
    pub(crate) room: Vec<u8>,
    /// How many bytes are read next.
    pub(crate) size: usize,
    /// Whether all bytes are read.
    pub(crate) ended: bool,
}

impl Blocks {
    /// The first bytes, of which nothing is answered. `ended` says whether these are all.
    fn open(
        alloc: Global,
        service: Service,
        first: &[u8],
        ended: bool,
        out: String,
    ) -> Result<Blocks, AllocError>
        ensures service { IfOk result (λ blocks. blocks.at.service ≡ service) }
        ensures out { IfOk result (λ blocks. blocks.at.out ≡ out) }
        ensures first { IfOk result (λ blocks. left_of blocks ≡ first.now) }
        ensures whole { IfOk result AreWhole }
        ensures ended { IfOk result (λ blocks. blocks.ended ≡ ended) }
    {
        let mut begun = Vec::new(alloc);
        begun.extend_from_slice(first)?;
        Ok(Blocks {
            at: Answering {
                service,
                out,
                left: 0,
            },
            blocks: VecDeque::new(alloc),
            begun,
            room: Vec::new(alloc),
            size: FIRST_BLOCK,
            ended,
        })
    }

    /// The most blocks that wait. They are fewer where the threads that read blocks don't rest what these tell: then
    /// other blocks wait for the thread that answers.
    fn most(&self) -> usize {
        let workers = self.at.service.schedule().workers() as usize;
        if workers == 1 {
            return 1;
        }
        let ahead = if self.at.service.schedule().rests_ahead() {
            RESTED_AHEAD
        } else {
            BLOCKS_AHEAD
        };
        ahead.saturating_mul(workers).min(MOST_AHEAD)
    }

    /// What other threads do with lines before their turn.
    fn readers(&self) -> Readers {
        let schedule = self.at.service.schedule();
        Readers {
            read: schedule.workers() > 1,
            rest: schedule.rests_ahead(),
        }
    }

    /// Whether the blocks that wait have enough bytes: then some are to be answered before more are read.
    fn is_full(&self) -> bool {
        let workers = self.at.service.schedule().workers() as usize;
        let mut waiting = 0usize;
        for block in &self.blocks {
            waiting = waiting.saturating_add(block.bytes.len());
        }
        waiting >= MOST_WAITING.saturating_mul(workers)
    }

    /// How many bytes the next block is to have.
    fn next_size(&self) -> usize {
        let most = if self.at.service.schedule().rests_ahead() {
            MOST_BLOCK
        } else {
            MOST_UNRESTED_BLOCK
        };
        self.size.saturating_mul(2).min(most)
    }

    /// Reads one block more.
    fn read_block<R: Wait, D: Read, K: Known<Done>>(
        &mut self,
        rt: &R,
        alloc: Global,
        asking: &mut Asking<K>,
        reader: &mut Watched<D>,
    ) -> Result<(), RunFault>
        ensures read { OnOk result (ReadsBlocks (D.remaining (inner_of reader.old)) (D.remaining (inner_of reader.new))
            self.old self.new) }
        ensures accepted { asking.new.accepted ≡ asking.old.accepted }
        ensures whole { OnOk result (has_failed reader.new ≡ has_failed reader.old) }
        ensures device { IsErrOf result Device → has_failed reader.new ≡ true }
        ensures memory { IsErrOf result Memory → has_failed reader.new ≡ has_failed reader.old }
    {
        let mut room = replace(&mut self.room, Vec::new(alloc));
        self.ended = read_after(reader, &self.begun, &mut room, self.size)?;
        let block = Block::of(room);
        self.begun.clear();
        self.begun.extend_from_slice(block.begun())?;
        let block = shared(alloc, block)?;
        asking.ask(rt, alloc, &block, self.readers())?;
        push_last(&mut self.blocks, block)?;
        self.size = self.next_size();
        Ok(())
    }

    /// Where no more than half of [`Blocks::most`] blocks wait, reads on until that many wait, enough bytes do, or all
    /// are read.
    fn fill<R: Wait, D: Read, K: Known<Done>>(
        &mut self,
        rt: &R,
        alloc: Global,
        asking: &mut Asking<K>,
        reader: &mut Watched<D>,
    ) -> Result<(), RunFault>
        ensures read { OnOk result (ReadsBlocks (D.remaining (inner_of reader.old)) (D.remaining (inner_of reader.new))
            self.old self.new) }
        ensures accepted { asking.new.accepted ≡ asking.old.accepted }
        ensures whole { OnOk result (has_failed reader.new ≡ has_failed reader.old) }
        ensures device { IsErrOf result Device → has_failed reader.new ≡ true }
        ensures memory { IsErrOf result Memory → has_failed reader.new ≡ has_failed reader.old }
    {
        if self.blocks.len() > self.most() / 2 {
            return Ok(());
        }
        for _block in self.blocks.len()..self.most() {
            if self.ended || self.is_full() {
                break;
            }
            self.read_block(rt, alloc, asking, reader)?;
        }
        Ok(())
    }

    /// Whether all is read, and no block waits.
    fn is_done(&self) -> bool
        ensures ended { IsTrue result → self.now.ended ≡ true }
        ensures blocks { IsTrue result → blocks_of self.now ≡ [] }
    {
        self.ended && self.blocks.is_empty()
    }

    /// Answers the lines of the first block, if there is one.
    fn answer_first<R: Threads + Wait + Sync, K: Known<Done>>(
        self,
        rt: &R,
        alloc: Global,
        asking: &mut Asking<K>,
    ) -> Result<Blocks, AllocError>
        requires ready { IsBetweenLines self.at.service }
        requires program { served self.at.service ≡ program_in asking.old.accepted.now }
        requires whole { AreWhole self }
        requires agree { Agree K.holds (program_in asking.old.accepted.now) }
        ensures answers { IfOk result (AnswersFirst self) }
        ensures accepted { asking.new.accepted ≡ asking.old.accepted }
    {
        let mut left = self;
        let Some(block) = left.blocks.pop_front() else {
            return Ok(left);
        };
        let ahead = asking.hear(rt, alloc, &block);
        let Blocks {
            at,
            blocks,
            begun,
            size,
            ended,
            ..
        } = left;
        let mut at = answer_lines(rt, alloc, block.lines(), at, ahead)?;
        rest_told(rt, alloc, &mut at.service)?;
        let schedule = at.service.schedule();
        asking
            .carriage
            .note(schedule.rests_ahead(), schedule.stretch());
        let room = room_of(alloc, block);
        Ok(Blocks {
            at,
            blocks,
            begun,
            room,
            size,
            ended,
        })
    }

    /// Answers what comes after the last block.
    fn end<R: Threads + Wait + Sync>(self, rt: &R, alloc: Global) -> Result<String, AllocError>
        requires { IsBetweenLines self.at.service }
        ensures { IfOk result (λ out. AnswersRest (declarations (served self.at.service))
            (rules_of (served self.at.service)) (lines self.begun.items) (held self.at.service)
            (string_bytes self.at.out) (string_bytes out)) }
    {
        let Blocks { at, begun, .. } = self;
        answer_all(rt, alloc, &begun, at, Ahead::none(alloc))
    }
}

/// Answers the lines of `first` and of all that comes after it, if the input has not `ended` with that, at the end of a
/// text.
fn answer_blocks<R: Threads + Wait + Sync, D: Read, K: Known<Done>>(
    rt: &R,
    alloc: Global,
    asking: &mut Asking<K>,
    service: Service,
    first: &[u8],
    ended: bool,
    reader: &mut Watched<D>,
    text: String,
) -> Result<String, RunFault>
    requires program { served service ≡ program_in asking.old.accepted.now }
    requires agree { Agree K.holds (program_in asking.old.accepted.now) }
    requires ready { IsBetweenLines service }
    requires end { OnTrue ended (IsAtEnd (D.remaining (inner_of reader.old))) }
    ensures ok { IfOk result (λ out. AnswersInput (declarations (served service)) (rules_of (served service))
        first.now (D.remaining (inner_of reader.old)) (held service)
        (Appends (Some (string_bytes text)) (Some (string_bytes out)))) }
    ensures end { OnOk result (IsAtEnd (D.remaining (inner_of reader.new))) }
    ensures whole { OnOk result (has_failed reader.new ≡ has_failed reader.old) }
    ensures device { IsErrOf result Device → has_failed reader.new ≡ true }
    ensures memory { IsErrOf result Memory → has_failed reader.new ≡ has_failed reader.old }
{
    let mut blocks = Blocks::open(alloc, service, first, ended, text)?;
    for _block in rt.forever() {
        blocks.fill(rt, alloc, asking, reader)?;
        if blocks.is_done() {
            return Ok(blocks.end(rt, alloc)?);
        }
        blocks = blocks.answer_first(rt, alloc, asking)?;
    }
    unreachable!()
}

/// Like [`answer_blocks`], with other threads that take the tasks. At the end it drops the tasks that none has taken.
fn answer_asking<R: Threads + Wait + Sync, D: Read, K: Known<Done>>(
    rt: &R,
    alloc: Global,
    accepted: &Accepted,
    carriage: &Carriage,
    tasks: Sender<Task<K>>,
    left: &Receiver<Task<K>>,
    service: Service,
    first: &[u8],
    ended: bool,
    reader: &mut Watched<D>,
    text: String,
) -> Result<String, RunFault>
    requires agree { Agree K.holds (program_in accepted.now) }
    requires program { served service ≡ program_in accepted.now }
    requires ready { IsBetweenLines service }
    requires end { OnTrue ended (IsAtEnd (D.remaining (inner_of reader.old))) }
    ensures ok { IfOk result (λ out. AnswersInput (declarations (served service)) (rules_of (served service))
        first.now (D.remaining (inner_of reader.old)) (held service)
        (Appends (Some (string_bytes text)) (Some (string_bytes out)))) }
    ensures end { OnOk result (IsAtEnd (D.remaining (inner_of reader.new))) }
    ensures whole { OnOk result (has_failed reader.new ≡ has_failed reader.old) }
    ensures device { IsErrOf result Device → has_failed reader.new ≡ true }
    ensures memory { IsErrOf result Memory → has_failed reader.new ≡ has_failed reader.old }
{
    let mut asking = Asking {
        accepted,
        carriage,
        asked: 0,
        tasks,
        left,
        readings: VecDeque::new(alloc),
    };
    let answered = answer_blocks(rt, alloc, &mut asking, service, first, ended, reader, text);
    asking.leave(rt);
    answered
}

/// Like [`answer_asking`], while other threads do the tasks: they read lines before their turn.
fn answer_beside<R: Threads + Wait + Sync, D: Read, K: Known<Done> + Send>(
    rt: &R,
    alloc: Global,
    accepted: &Accepted,
    service: Service,
    first: &[u8],
    ended: bool,
    reader: &mut Watched<D>,
    text: String,
) -> Result<String, RunFault>
    requires agree { Agree K.holds (program_in accepted.now) }
    requires program { served service ≡ program_in accepted.now }
    requires ready { IsBetweenLines service }
    requires end { OnTrue ended (IsAtEnd (D.remaining (inner_of reader.old))) }
    ensures ok { IfOk result (λ out. AnswersInput (declarations (served service)) (rules_of (served service))
        first.now (D.remaining (inner_of reader.old)) (held service)
        (Appends (Some (string_bytes text)) (Some (string_bytes out)))) }
    ensures end { OnOk result (IsAtEnd (D.remaining (inner_of reader.new))) }
    ensures whole { OnOk result (has_failed reader.new ≡ has_failed reader.old) }
    ensures device { IsErrOf result Device → has_failed reader.new ≡ true }
    ensures memory { IsErrOf result Memory → has_failed reader.new ≡ has_failed reader.old }
{
    let workers = service.schedule().workers() as usize;
    let carriage = Carriage::open(alloc, MOST_AHEAD)?;
    let (tasks, left) = bounded(alloc, MOST_AHEAD)?;
    if workers == 1 || ended {
        return answer_asking(
            rt, alloc, accepted, &carriage, tasks, &left, service, first, ended, reader, text,
        );
    }
    let task = |task: Task<K>|
        requires { Agree K.holds (program_in accepted.now) }
    { do_task(rt, alloc, accepted, &carriage, task) };
    let mut come = Some((service, text, tasks));
    let mut here = || -> Result<String, RunFault>
        requires ready { IfSome come (λ c. IsBetweenLines c.0) }
        requires program { IfSome come (λ c. served c.0 ≡ program_in accepted.now) }
        requires agree { Agree K.holds (program_in accepted.now) }
        ensures ok { IfSome come.entry (λ c. IfOk result (λ out. AnswersInput (declarations (served c.0))
            (rules_of (served c.0)) first.entry.now (D.remaining (inner_of reader.entry.now)) (held c.0)
            (Appends (Some (string_bytes c.1)) (Some (string_bytes out))))) }
        ensures end { OnOk result (IsAtEnd (D.remaining (inner_of reader.exit.now))) }
        ensures whole { OnOk result (has_failed reader.exit.now ≡ has_failed reader.entry.now) }
        ensures device { IsErrOf result Device → has_failed reader.exit.now ≡ true }
        ensures memory { IsErrOf result Memory → has_failed reader.exit.now ≡ has_failed reader.entry.now }
    {
        match come.take() {
            Some((service, text, tasks)) => {
                answer_asking(
                    rt, alloc, accepted, &carriage, tasks, &left, service, first, false, reader,
                    text,
                )
            }
            None => Err(RunFault::Memory),
        }
    };
    beside_crew(
        rt,
        alloc,
        workers.saturating_sub(1),
        &left,
        &task,
        &mut here,
    )
}

/// Answers the lines of `first` and of all that comes after it, if the input has not `ended` with that, at the end of a
/// text. The process is about to end then, and its memory with it, so the replicas are left as they are.
///
/// # Errors
///
/// `Device` where a read fails, and `Memory` where memory was refused: then the reader may have been read in part.
pub(crate) fn answer_input<R: Threads + Wait + Sync, D: Read>(
    rt: &R,
    alloc: Global,
    service: Service,
    first: &[u8],
    ended: bool,
    reader: &mut Watched<D>,
    text: String,
) -> Result<String, RunFault>
    requires ready { IsBetweenLines service }
    requires end { OnTrue ended (IsAtEnd (D.remaining (inner_of reader.old))) }
    ensures ok { IfOk result (λ out. AnswersInput (declarations (served service)) (rules_of (served service))
        first.now (D.remaining (inner_of reader.old)) (held service)
        (Appends (Some (string_bytes text)) (Some (string_bytes out)))) }
    ensures end { OnOk result (IsAtEnd (D.remaining (inner_of reader.new))) }
    ensures whole { OnOk result (has_failed reader.new ≡ has_failed reader.old) }
    ensures device { IsErrOf result Device → has_failed reader.new ≡ true }
    ensures memory { IsErrOf result Memory → has_failed reader.new ≡ has_failed reader.old }
{
    let accepted = service.world.program().clone()?;
    answer_beside::<R, D, Brand>(rt, alloc, &accepted, service, first, ended, reader, text)
}
