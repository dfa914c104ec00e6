//! Boards lease parts of their pools out, and take them back.
ghost use Rattle.std.specs.Prelude.{◌≡◌, ◌≤◌, IfErr, IfNone, IfOk, IfSome, IsSome, OnOk, OnErr, Some};
ghost use Rattle.std.specs.FinMap as map;
ghost use Rattle.chr_base.specs.Sameness.{AreSame};
ghost use Rattle.chr_weights.specs.WeighedPrograms.{program_of};
ghost use Rattle.chr_replica.specs.Leases.{parts_in, AreNumbered};
ghost use Rattle.chr_replica.specs.LeastOut.{AreFrom};
ghost use Rattle.chr_replica.specs.Replicas.{Takes, TakesParts, Puts, Recalls};
ghost use Rattle.chr_replica.specs.Refusals.{RefusesTake, RefusesTakeParts, RefusesPut, RefusesRecall};
ghost use Rattle.chr_replica.specs.Boards.{program_on};

use crate::board::Board;
use crate::cutting::cut;
use crate::laws::events_keep_replicas_sound;
use crate::limits::LAST_LEASE;
use crate::refusal::{Limit, Refusal};
use chr_base::bag::Bag;
use chr_base::laws::same_programs_reach_alike;
use chr_base::limits::MAX_PARTS;
use chr_join::{Done, Lease};
use chr_shards::Shards;
use std::alloc::Global;

/// What came of a lease and was not taken back, and why.
#[derive(Drop)]
pub struct NotPut {
    pub done: Done,
    pub refusal: Refusal,
}

impl Board {
    /// Leases a part of the pool out, under the next number. No number is used again.
    ///
    /// # Errors
    /// `Full` where the lease numbers are used up, `NotThere` where the part is not in the pool, `Memory`. Each of them
    /// leaves the board as it was.
    pub fn take(&mut self, alloc: Global, part: &Bag) -> Result<Lease, Refusal>
        ensures program { self.new.accepted ≡ self.old.accepted }
        ensures part { IfOk result (λ lease. lease.part ≡ part.now) }
        ensures ok { IfOk result (λ lease. Takes self.old.replica part.now lease.number self.new.replica) }
        ensures refused { IfErr result (RefusesTake self.old.replica part.now) }
        ensures err { OnErr result (self.new ≡ self.old) }
    {
        events_keep_replicas_sound();
        let number = self.next;
        if number > LAST_LEASE {
            return Err(Refusal::Full(Limit::Leases));
        }
        if !self.pool.has(part.atoms()) {
            return Err(Refusal::NotThere);
        }
        let kept = part.copy(alloc)?;
        let given = part.copy(alloc)?;
        self.out.insert(number, kept)?;
        self.pool.remove(part.atoms());
        self.next += 1;
        Ok(Lease {
            number,
            part: given,
        })
    }

    /// Leases the whole pool out in `count` parts, 1 to [`MAX_PARTS`], under the next numbers. The sizes of any two
    /// parts differ by at most one; a part may be empty. Where all rules join their heads by one argument, the parts
    /// are cut in the order of that argument, so that atoms which rules can join mostly stand in one part.
    ///
    /// # Errors
    /// `Full` where the lease numbers don't suffice, `Memory`. Each of them leaves the board as it was.
    pub fn take_parts(&mut self, alloc: Global, count: u32) -> Result<Vec<Lease>, Refusal>
        requires { (1 ≤ count) × (count ≤ MAX_PARTS) }
        ensures program { self.new.accepted ≡ self.old.accepted }
        ensures ok { IfOk result (λ leases.
            TakesParts self.old.replica count (parts_in leases.items) self.new.replica) }
        ensures numbered { IfOk result (λ leases. AreNumbered self.old.replica.next leases.items) }
        ensures refused { IfErr result (RefusesTakeParts self.old.replica count) }
        ensures err { OnErr result (self.new ≡ self.old) }
    {
        events_keep_replicas_sound();
        let first = self.next;
        let next = first.saturating_add(u64::from(count));
        if next > LAST_LEASE + 1 {
            return Err(Refusal::Full(Limit::Leases));
        }
        let weighed = self.accepted.shared().clone()?;
        let empty = Shards::open(alloc, weighed, self.accepted.seed(), self.accepted.pools())?;
        let whole = self.pool.arranged(alloc)?;
        let leases = cut(alloc, &whole, count as usize, first)?;
        self.out.insert_all(alloc, first, &leases)?;
        self.pool = empty;
        self.next = next;
        Ok(leases)
    }

    /// Whether what came of a lease may be taken back: its number is out with its part, under this program.
    fn may_put(&self, done: &Done) -> Result<(), Refusal>
        ensures part { OnOk result (map.get self.now.replica.out done.now.number ≡ Some done.now.part) }
        ensures program { OnOk result (AreSame (program_of done.now.weighed) (program_on self.now)) }
        ensures refused { IfErr result (RefusesPut (program_on self.now) self.now.replica
            (program_of done.now.weighed) done.now.number done.now.part) }
    {
        let number = done.number();
        let Some(part) = self.out.get(number) else {
            return Err(Refusal::NoLease(number));
        };
        if !part.is_same(done.part()) {
            return Err(Refusal::NoLease(number));
        }
        if !done.program().is_same(self.accepted.program()) {
            return Err(Refusal::ForeignProgram);
        }
        Ok(())
    }

    /// Takes back what came of a lease that is out: its result goes into the pool. What is refused is handed back.
    ///
    /// # Errors
    /// `NoLease` where no lease of that number with that part is out, `ForeignProgram` where the part was rewritten
    /// under another program, `Memory`. Each of them leaves the board as it was.
    pub fn put(&mut self, done: Done) -> Result<(), NotPut>
        ensures program { self.new.accepted ≡ self.old.accepted }
        ensures ok { OnOk result (
            Puts (program_on self.old) self.old.replica done.number done.part done.result self.new.replica) }
        ensures own { OnOk result (AreSame (program_of done.weighed) (program_on self.old)) }
        ensures refused { IfErr result (λ e. RefusesPut (program_on self.old) self.old.replica
            (program_of done.weighed) done.number done.part e.refusal) }
        ensures handed_back { IfErr result (λ e. e.done ≡ done) }
        ensures err { OnErr result (self.new ≡ self.old) }
    {
        events_keep_replicas_sound();
        same_programs_reach_alike();
        if let Err(refusal) = self.may_put(&done) {
            return Err(NotPut { done, refusal });
        }
        if self.pool.insert(done.result().atoms()).is_err() {
            let refusal = Refusal::Memory;
            return Err(NotPut { done, refusal });
        }
        self.out.remove(done.number());
        Ok(())
    }

    /// Takes the part that is leased out under a number back into the pool as it is. What comes of that lease later is
    /// refused.
    ///
    /// # Errors
    /// `NoLease` where no lease of that number is out, `Memory`. Each of them leaves the board as it was.
    pub fn recall(&mut self, number: u64) -> Result<(), Refusal>
        ensures program { self.new.accepted ≡ self.old.accepted }
        ensures ok { OnOk result (Recalls self.old.replica number self.new.replica) }
        ensures refused { IfErr result (RefusesRecall self.old.replica number) }
        ensures err { OnErr result (self.new ≡ self.old) }
    {
        events_keep_replicas_sound();
        let Some(part) = self.out.get(number) else {
            return Err(Refusal::NoLease(number));
        };
        self.pool.insert(part.atoms())?;
        self.out.remove(number);
        Ok(())
    }

    /// A copy of the lease that is out under a number.
    ///
    /// # Errors
    /// `NoLease` where no lease of that number is out, `Memory`.
    pub fn again(&self, alloc: Global, number: u64) -> Result<Lease, Refusal>
        ensures number { IfOk result (λ lease. lease.number ≡ number) }
        ensures part { IfOk result (λ lease. map.get self.now.replica.out number ≡ Some lease.part) }
        ensures refused { IfErr result (RefusesRecall self.now.replica number) }
    {
        let Some(part) = self.out.get(number) else {
            return Err(Refusal::NoLease(number));
        };
        Ok(Lease {
            number,
            part: part.copy(alloc)?,
        })
    }

    /// How many leases are out. It takes no memory.
    pub fn leases(&self) -> u64
        ensures { result ≡ map.len self.now.replica.out }
    {
        self.out.len() as u64
    }

    /// The least lease number that is out. It takes no memory.
    pub fn least_lease(&self) -> Option<u64>
        ensures some { IfSome result (λ k. IsSome (map.get self.now.replica.out k)) }
        ensures least { IfSome result (AreFrom self.now.replica.out) }
        ensures none { IfNone result (self.now.replica.out ≡ map.empty) }
    {
        self.out.least()
    }
}
