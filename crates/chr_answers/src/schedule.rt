//! When the replicas of a service are rested, and by whom. What is answered does not depend on it: no contract speaks
//! of what is decided here.

use crate::sharing::Sharing;
use crate::tells::Tells;
use chr_join::Accepted;
use chr_worlds::World;
use std::alloc::{AllocError, Global};

/// The most told atoms that wait in a pool before those of one line more come.
pub const MOST_WAITING: u64 = 1024;

/// The pools in which a store is kept for each of several workers, where its program allows it: what lies in a pool is
/// to stay in a cache while it is rested.
const POOLS_OF_WORKER: usize = 4;

/// Several workers may save time where more told atoms than these wait.
const WORTH_SHARING: u64 = 16_384;

/// The most told atoms that wait for several workers while lines are answered. Threads that read others meanwhile would
/// keep the workers from the processors, so most pools are rested between two blocks of lines.
const MOST_SHARED: u64 = 16 * WORTH_SHARING;

/// The most told atoms that wait between two blocks of lines. A pool comes into a cache once for all of its atoms that
/// wait.
const MOST_BETWEEN: u64 = 8 * WORTH_SHARING;

/// A pool that is not kept in several is rested by workers where this part of what its replica was told waits in it, or
/// more: they cut all of it.
const LEAST_SHARE: u64 = 4;

/// Tells are rested by the threads that read them as long as at most one atom in this number stays. What stays is
/// rested once more.
const MOST_STAYING: u64 = 2;

/// Replicas are counted from here.
const FIRST_REPLICA: u64 = 1;

/// What has come to a replica, or is to come.
#[derive(Clone, Copy, Debug, PartialEq, Eq)]
pub(crate) enum Moment {
    /// A line has told it operations. Lines that tell it more may follow.
    Told,
    /// Another replica has brought it operations at once.
    Brought,
    /// It is to be shown.
    Shown,
    /// A block of lines is answered.
    Between,
}

/// Who rests a replica's pool now.
#[derive(Clone, Copy, Debug, PartialEq, Eq)]
pub(crate) enum Rest {
    Nobody,
    OneWorker,
    AllWorkers,
}

/// What is kept to decide when replicas are rested, and by whom.
#[derive(Drop)]
pub struct Schedule {
    /// How resting is shared out among workers.
    sharing: Sharing,
    /// For each replica, how many of the atoms that it was told don't wait to be rested.
    rested: Vec<u64>,
    /// Whether threads that read tells rest them.
    rests_ahead: bool,
    /// The lease numbers of the parts that these threads carry on.
    pub(crate) parts: Vec<u64>,
    /// The number of the stretch of blocks in which parts may be carried on.
    stretch: u64,
}

/// The place of a replica's number in a list, if any list is as long.
fn place_of(replica: u64) -> Option<usize> {
    usize::try_from(replica.checked_sub(1)?).ok()
}

/// A list of `count` noughts.
fn noughts(alloc: Global, count: u32) -> Result<Vec<u64>, AllocError> {
    let mut list = Vec::new(alloc);
    for _place in 0..count {
        list.push(0)?;
    }
    Ok(list)
}

/// The most pools in which a store is kept.
pub(crate) fn most_pools(sharing: Sharing) -> usize {
    if sharing.workers == 1 {
        return 1;
    }
    (sharing.workers as usize).saturating_mul(POOLS_OF_WORKER)
}

/// How many atoms a replica was told, and 0 where there is none.
pub(crate) fn told(world: &World, replica: u64) -> u64 {
    match world.board(replica) {
        Some(board) => board.ops().told(),
        None => 0,
    }
}

/// Whether a replica's pool is kept in several, which workers rest where they lie.
fn is_in_pools(world: &World, replica: u64) -> bool {
    match world.board(replica) {
        Some(board) => board.pools() > 1,
        None => false,
    }
}

impl Schedule {
    /// Of this many replicas of a program, which were told nothing.
    pub(crate) fn open(
        alloc: Global,
        accepted: &Accepted,
        replicas: u32,
        sharing: Sharing,
    ) -> Result<Schedule, AllocError> {
        Ok(Schedule {
            sharing,
            rested: noughts(alloc, replicas)?,
            rests_ahead: sharing.workers > 1 && !accepted.program().rules().is_empty(),
            parts: Vec::new(alloc),
            stretch: 0,
        })
    }

    /// The number of replicas.
    pub(crate) fn replicas(&self) -> u64 {
        self.rested.len() as u64
    }

    /// How resting is shared out among workers.
    pub(crate) fn sharing(&self) -> Sharing {
        self.sharing
    }

    /// The number of workers.
    pub fn workers(&self) -> u32 {
        self.sharing.workers
    }

    /// Whether threads that read tells are to rest them.
    pub fn rests_ahead(&self) -> bool {
        self.rests_ahead
    }

    /// The number of the stretch of blocks in which parts may be carried on.
    pub fn stretch(&self) -> u64 {
        self.stretch
    }

    /// How many of the atoms that a replica was told wait to be rested.
    pub(crate) fn waiting(&self, world: &World, replica: u64) -> u64 {
        let Some(place) = place_of(replica) else {
            return 0;
        };
        match self.rested.get(place) {
            Some(rested) => told(world, replica).saturating_sub(*rested),
            None => 0,
        }
    }

    /// Whether several workers are asked for, and enough waits in a replica's pool that they may save time.
    fn is_worth_sharing(&self, world: &World, replica: u64) -> bool {
        let waiting = self.waiting(world, replica);
        self.sharing.workers > 1
            && waiting > WORTH_SHARING
            && (is_in_pools(world, replica) || waiting >= told(world, replica) / LEAST_SHARE)
    }

    /// Whether enough waits in a pool that workers are to rest it before more lines are answered.
    pub(crate) fn is_to_rest(&self, world: &World) -> bool {
        is_in_pools(world, FIRST_REPLICA)
            && (FIRST_REPLICA..=self.replicas()).any(|replica| self.waiting(world, replica)
                > MOST_BETWEEN)
    }

    /// Who rests a pool that is kept in one piece after operations came to its replica.
    fn after(&self, world: &World, replica: u64, is_left: bool) -> Rest {
        let is_left = is_left && self.is_worth_sharing(world, replica);
        if self.waiting(world, replica) <= MOST_WAITING || is_left {
            return Rest::Nobody;
        }
        Rest::OneWorker
    }

    /// Who rests a replica's pool that is kept in several after operations came to it.
    fn after_in_pools(&self, world: &World, replica: u64) -> Rest {
        if self.waiting(world, replica) > MOST_SHARED {
            Rest::AllWorkers
        } else {
            Rest::Nobody
        }
    }

    /// Who rests a replica's pool now. Where many told atoms wait in it, it is rested as they come: where rules take
    /// them out, they leave memory. Where it is kept in several pools, more are left to wait for the workers; otherwise
    /// what an exchange brings at once is left to them until it is shown.
    pub(crate) fn decide(&self, world: &World, replica: u64, moment: Moment) -> Rest {
        let in_pools = is_in_pools(world, replica);
        match moment {
            Moment::Told | Moment::Brought if in_pools => self.after_in_pools(world, replica),
            Moment::Told => self.after(world, replica, false),
            Moment::Brought => self.after(world, replica, true),
            Moment::Shown if self.is_worth_sharing(world, replica) => Rest::AllWorkers,
            Moment::Shown => Rest::OneWorker,
            Moment::Between if in_pools && self.is_worth_sharing(world, replica) => {
                Rest::AllWorkers
            }
            Moment::Between => Rest::Nobody,
        }
    }

    /// Notes that `waiting` atoms of a replica's pool wait.
    pub(crate) fn note_waiting(&mut self, world: &World, replica: u64, waiting: u64) {
        let rested = told(world, replica).saturating_sub(waiting);
        if let Some(place) = place_of(replica) {
            if let Some(noted) = self.rested.get_mut(place) {
                *noted = rested;
            }
        }
    }

    /// Begins a new stretch of blocks: no part of those before it is carried on.
    fn begin_stretch(&mut self) {
        self.parts.clear();
        self.stretch = self.stretch.wrapping_add(1);
    }

    /// Begins a new stretch if parts are carried on: they have come back.
    pub(crate) fn forget_parts(&mut self) {
        if !self.parts.is_empty() {
            self.begin_stretch();
        }
    }

    /// Notes that tells which had been rested could not be told so: none is rested before its turn any more.
    pub(crate) fn note_missed(&mut self) {
        self.rests_ahead = false;
    }

    /// Records `came` told atoms, which had been rested, and `more` atoms that wait. If the part that was carried to
    /// them was no longer leased out, what comes of it can't be carried on either, so a new stretch begins.
    pub(crate) fn note_rested(&mut self, tells: &Tells, came: u64, more: u64) {
        self.rests_ahead = tells.staying() <= came / MOST_STAYING;
        let is_missed = more > 0 && !tells.carried.part.is_empty();
        if is_missed && tells.carried.stretch == self.stretch {
            self.begin_stretch();
        }
    }
}
