//! Atoms that are carried from block to block by the threads that read them.
ghost use Rattle.std.specs.Prelude.{◌<◌};

use chr_answers::{Carried, Tells};
use chr_base::bag::Bag;
use crossbeam_channel::{Receiver, Sender, bounded};
use std::alloc::{AllocError, Global};
use std::sync::Wait;
use std::sync::atomic::{AtomicBool, AtomicU64, Ordering};

/// Atoms left over from a block, to be rested with the tells of a later block to the same replica.
#[derive(Drop)]
struct Parcel {
    /// The number of the block.
    number: u64,
    /// The number of the replica.
    replica: u64,
    /// The atoms.
    carried: Carried,
}

impl Parcel {
    /// Whether they may be rested with what block `number` of a stretch tells this replica.
    fn goes_to(&self, number: u64, replica: u64, stretch: u64) -> bool {
        self.number < number && self.replica == replica && self.carried.stretch == stretch
    }
}

/// What the threads that read blocks know of each other. A parcel goes from one block to a later one, whichever threads
/// read them.
#[derive(Drop)]
pub(crate) struct Carriage {
    /// Whether it pays that the threads that read tells rest them.
    pays: AtomicBool,
    /// The number of the stretch of blocks in which atoms may be carried on.
    stretch: AtomicU64,
    /// Takes parcels in.
    here: Sender<Parcel>,
    /// Gives parcels out.
    there: Receiver<Parcel>,
}

impl Carriage {
    /// A carriage with no parcels yet, which holds at most `most` of them.
    pub(crate) fn open(alloc: Global, most: usize) -> Result<Carriage, AllocError>
        requires { 0 < most }
    {
        let (here, there) = bounded(alloc, most)?;
        Ok(Carriage {
            pays: AtomicBool::new(true),
            stretch: AtomicU64::new(0),
            here,
            there,
        })
    }

    /// Notes whether it pays to rest tells, and in which stretch of blocks atoms may be carried on.
    pub(crate) fn note(&self, pays: bool, stretch: u64) {
        self.pays.store(pays, Ordering::Relaxed);
        self.stretch.store(stretch, Ordering::Relaxed);
    }

    /// The atoms that are carried to block `number`, which tells this replica operations: those left over from an
    /// earlier block, or none. Nothing is answered where it does not pay to rest tells.
    pub(crate) fn take<R: Wait>(
        &self,
        rt: &R,
        alloc: Global,
        number: u64,
        replica: u64,
    ) -> Option<Carried> {
        if !self.pays.load(Ordering::Relaxed) {
            return None;
        }
        let stretch = self.stretch.load(Ordering::Relaxed);
        match self.there.try_recv(rt) {
            Ok(parcel) if parcel.goes_to(number, replica, stretch) => Some(parcel.carried),
            _ => Some(Carried {
                part: Bag::new(alloc),
                stretch,
            }),
        }
    }

    /// Carries the atoms on that are left over from block `number`, if they may go on. Where memory is refused or there
    /// is no room they are not carried.
    pub(crate) fn give<R: Wait>(&self, rt: &R, alloc: Global, number: u64, tells: &Tells) {
        if !tells.goes_on {
            return;
        }
        if let Ok(part) = tells.rested.copy(alloc) {
            let stretch = tells.carried.stretch;
            let parcel = Parcel {
                number,
                replica: tells.replica,
                carried: Carried { part, stretch },
            };
            let _kept = self.here.try_send(rt, parcel);
        }
    }
}
