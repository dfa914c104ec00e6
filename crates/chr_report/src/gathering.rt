//! Tells that are read together before their turn, and rested by the thread that reads them.
ghost use Rattle.std.specs.Prelude.{◌≡◌, ◌<◌, ◌⊎◌, [], List, ℕ, IfOk, IfSome, IsTrue, OnOk};
ghost use Rattle.std.specs.Bool.{OnTrue};
ghost use Rattle.chr_join.specs.AcceptedPrograms.{program_in};
ghost use Rattle.chr_base.specs.declared.program.Program.{Program as ProgramValue};
ghost use Rattle.chr_answers.specs.declared.request.Request.TheVariants.{Tell};
ghost use Rattle.chr_answers.specs.Requests.{AsksFirst};
ghost use Rattle.chr_answers.specs.Gathered.{AreTells};
ghost use Rattle.chr_report.specs.working.Gathered.{IsGathered};

use crate::ahead::MOST_LINES;
use chr_answers::{Carried, Heard, MOST_WAITING, Request, Tells, read_one};
use chr_base::bag::Bag;
use chr_join::Accepted;
use chr_ops::Op;
use chr_shards::Shards;
use std::alloc::{AllocError, Global};

/// How many atoms have to be told before it shows whether it pays to rest them.
const TRIAL: u64 = 2048;

/// It pays where at least one of this many atoms takes a step.
const PAYING: u64 = 256;

/// The most atoms that are carried from block to block: they are rested again each time.
const MOST_CARRIED: u64 = 4096;

/// Of the atoms that a block tells one of this many may be carried.
const CARRYING: u64 = 4;

/// Lines that tell one replica operations, while they are read.
#[derive(Drop)]
struct Gathering {
    /// How many bytes of the text are left where the lines begin.
    left: usize,
    /// How many bytes of the text are left where the next line begins.
    more: usize,
    /// The number of the replica.
    replica: u64,
    /// The operations so far.
    ops: Vec<Op>,
    /// How many atoms these tell.
    told: u64,
    /// The atoms that were carried to them.
    carried: Carried,
    /// The pool in which all these atoms are rested.
    pool: Shards,
    /// By how many steps they were rested.
    steps: u64,
}

/// Whether the `staying` atoms that are left of `told` atoms are few enough to be carried on.
fn may_go_on(told: u64, staying: u64) -> bool {
    staying <= MOST_CARRIED && staying <= told / CARRYING
}

impl Gathering {
    /// No line yet, where `left` bytes are left.
    fn open(
        alloc: Global,
        accepted: &Accepted,
        left: usize,
        carried: Carried,
    ) -> Result<Gathering, AllocError>
        ensures gathered { (text : List ℕ) → IfOk result (IsGathered (program_in accepted.now) text) }
        ensures left { IfOk result (λ gathering. gathering.more ≡ left) }
    {
        let weighed = accepted.shared().clone()?;
        let mut pool = Shards::open(alloc, weighed, accepted.seed(), 1)?;
        pool.insert(carried.part.atoms())?;
        Ok(Gathering {
            left,
            more: left,
            replica: 0,
            ops: Vec::new(alloc),
            told: 0,
            carried,
            pool,
            steps: 0,
        })
    }

    /// Whether a tell to this replica may come next: all of the lines tell one replica.
    fn goes_to(&self, replica: u64) -> bool
        ensures { IsTrue result → (self.now.ops.items ≡ []) ⊎ (self.now.replica ≡ replica) }
    {
        self.ops.is_empty() || self.replica == replica
    }

    /// Rests the pool.
    fn rest(&mut self) -> Result<(), AllocError>
        ensures gathered { (p : ProgramValue) (text : List ℕ) → IsGathered p text self.old
            → OnOk result (IsGathered p text self.new) }
        ensures ops { self.new.ops ≡ self.old.ops }
        ensures more { self.new.more ≡ self.old.more }
    {
        match self.pool.rest() {
            Ok(steps) => {
                self.steps = self.steps.saturating_add(steps);
                Ok(())
            }
            Err(_stopped) => Err(AllocError),
        }
    }

    /// Rests the pool where many atoms wait in it.
    fn rest_many(&mut self) -> Result<(), AllocError>
        ensures gathered { (p : ProgramValue) (text : List ℕ) → IsGathered p text self.old
            → OnOk result (IsGathered p text self.new) }
        ensures ops { self.new.ops ≡ self.old.ops }
        ensures more { self.new.more ≡ self.old.more }
    {
        if self.pool.waiting() as u64 <= MOST_WAITING {
            return Ok(());
        }
        self.rest()
    }

    /// Adds an operation, whose line ends where `more` bytes are left.
    fn push(&mut self, replica: u64, op: Op, more: usize) -> Result<(), AllocError>
        requires { (self.old.ops.items ≡ []) ⊎ (self.old.replica ≡ replica) }
        ensures gathered { (p : ProgramValue) (text : List ℕ) → IsGathered p text self.old
            → AsksFirst p text self.old.more more (Tell replica op) → OnOk result (IsGathered p text self.new) }
        ensures more { OnOk result (self.new.more ≡ more) }
    {
        self.pool.insert(op.bag().atoms())?;
        self.told = self.told.saturating_add(op.bag().len() as u64);
        self.ops.push(op)?;
        self.replica = replica;
        self.more = more;
        self.rest_many()
    }

    /// Whether it is in vain to rest more atoms: of many hardly any took a step, and none waits.
    fn is_in_vain(&self) -> bool {
        self.told > TRIAL && self.pool.waiting() == 0 && self.steps < self.told / PAYING
    }

    /// Reads the next line, if it tells the same replica an operation. Any other line is left to be read again.
    fn take_line(
        &mut self,
        alloc: Global,
        accepted: &Accepted,
        text: &[u8],
    ) -> Result<bool, AllocError>
        requires { IsGathered (program_in accepted.now) text.now self.old }
        ensures gathered { OnOk result (IsGathered (program_in accepted.now) text.now self.new) }
        ensures shorter { IfOk result (λ taken. OnTrue taken (self.new.more < self.old.more)) }
    {
        let Some(heard) = read_one(alloc, accepted.program(), text, self.more) else {
            return Ok(false);
        };
        let Heard { more, request, .. } = heard;
        match request {
            Some(Request::Tell(replica, op)) if self.goes_to(replica) => {
                self.push(replica, op, more)?;
                Ok(true)
            }
            _ => Ok(false),
        }
    }

    /// All tells that were read, at rest, if there are any.
    fn rested(self, alloc: Global) -> Result<Option<Tells>, AllocError>
        ensures { (p : ProgramValue) (text : List ℕ) → IsGathered p text self
            → IfOk result (λ found. IfSome found (AreTells p text)) }
    {
        let mut gathering = self;
        if gathering.ops.is_empty() {
            return Ok(None);
        }
        gathering.rest()?;
        let Gathering {
            left,
            more,
            replica,
            ops,
            told,
            carried,
            pool,
            ..
        } = gathering;
        let rested = pool.bag(alloc)?;
        let goes_on = may_go_on(told, rested.len() as u64);
        Ok(Some(Tells {
            left,
            more,
            replica,
            ops,
            carried,
            rested,
            goes_on,
        }))
    }
}

/// Reads the tells at the beginning of a text, as far as they go to one replica, and rests them with the carried atoms,
/// as long as that is not in vain.
pub(crate) fn gather(
    alloc: Global,
    accepted: &Accepted,
    text: &[u8],
    carried: Carried,
) -> Result<Option<Tells>, AllocError>
    ensures { IfOk result (λ found. IfSome found (AreTells (program_in accepted.now) text.now)) }
{
    let mut gathering = Gathering::open(alloc, accepted, text.len(), carried)?;
    while gathering.more > 0 && gathering.ops.len() < MOST_LINES {
        if gathering.is_in_vain() || !gathering.take_line(alloc, accepted, text)? {
            break;
        }
    }
    gathering.rested(alloc)
}
