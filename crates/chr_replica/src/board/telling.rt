//! Boards are told operations.
ghost use Rattle.std.specs.Prelude.{◌≡◌, ◌<◌, ◌≤◌, ◌+◌, ◌⊎◌, ◌↔◌, false, All, Ok, Some, IfOk, IfErr, IfNone, IfSome};
ghost use Rattle.std.specs.Prelude.{IsTrue, OnOk, OnErr};
ghost use Rattle.std.specs.Bool.{OnTrue, OnFalse};
ghost use Rattle.std.specs.FinMap as map;
ghost use Rattle.chr_base.specs.FinBag.{◌⊕◌};
ghost use Rattle.chr_base.specs.Stores.{size};
ghost use Rattle.chr_ops.specs.Operations.{told_atoms, IsNew, IsHeld};
ghost use Rattle.chr_replica.specs.Leases.{AreBelow};
ghost use Rattle.chr_replica.specs.Replicas.{IsDeclared, Tells, Merges, Steps};
ghost use Rattle.chr_replica.specs.Refusals.{RefusesTell, RefusesMerge, RefusesStep};
ghost use Rattle.chr_replica.specs.RestedOps.{AreRestedBy, IsOut, IsPlaced, RefusesThem, TellsThem};
ghost use Rattle.chr_replica.specs.working.Joining.{JoinsNew, MayNotJoin};
ghost use Rattle.chr_replica.specs.Boards.{program_on};
ghost use Rattle.chr_ops.specs.declared.fault.AddFault.TheVariants.{Full};

use crate::board::Board;
use crate::declared::{declares, declares_all};
use crate::laws::events_keep_replicas_sound;
use crate::leases::Leases;
use crate::limits::LAST_LEASE;
use crate::refusal::{Limit, Refusal};
use crate::rested::{Destination, Placed, RestedOps};
use chr_base::bag::Bag;
use chr_base::derivation::Step;
use chr_ops::{AddFault, Added, MAX_TOLD, Op, OpSet};
use chr_shards::Shards;
use std::alloc::{AllocError, Global};

/// Adds a new operation to the set, and its atoms to the pool.
fn put_in(ops: &mut OpSet, pool: &mut Shards, op: Op) -> Result<(), AllocError>
    requires new { IsNew ops.old op }
    requires room { told_atoms ops.old + size op.1 ≤ MAX_TOLD }
    ensures ops { OnOk result (ops.new ≡ map.insert ops.old op.0 op.1) }
    ensures weighed { pool.new.weighed ≡ pool.old.weighed }
    ensures pool { OnOk result (pool.new.store ≡ pool.old.store ⊕ op.1) }
    ensures same_ops { OnErr result (ops.new ≡ ops.old) }
    ensures same_pool { OnErr result (pool.new ≡ pool.old) }
{
    pool.insert(op.bag().atoms())?;
    match ops.add_new(op) {
        Ok(()) => Ok(()),
        Err(back) => {
            pool.remove(back.bag().atoms());
            Err(AllocError)
        }
    }
}

/// What is answered where new operations don't join the set: false, where more atoms would be told than the limit.
fn untold(fault: AddFault) -> Result<bool, AllocError>
    ensures told { IfOk result (λ told. told ≡ false) }
    ensures full { OnOk result (fault ≡ Full) }
{
    match fault {
        AddFault::Full => Ok(false),
        _ => Err(AllocError),
    }
}

/// Adds operations to the set, and atoms to the pool. False is answered, and nothing changes, where an operation is not
/// new or too much would be told.
fn join_pooled(
    alloc: Global,
    ops: &mut OpSet,
    pool: &mut Shards,
    told: &[Op],
    rested: &Bag,
) -> Result<bool, AllocError>
    ensures weighed { pool.new.weighed ≡ pool.old.weighed }
    ensures joins { IfOk result (λ joined. OnTrue joined (JoinsNew ops.old told.now ops.new)) }
    ensures pool { IfOk result (λ joined. OnTrue joined (pool.new.store ≡ pool.old.store ⊕ rested.now)) }
    ensures not { IfOk result (λ joined. OnFalse joined (MayNotJoin ops.old told.now)) }
    ensures same_ops { IfOk result (λ joined. OnFalse joined (ops.new ≡ ops.old)) }
    ensures same_pool { IfOk result (λ joined. OnFalse joined (pool.new ≡ pool.old)) }
    ensures err_ops { OnErr result (ops.new ≡ ops.old) }
    ensures err_pool { OnErr result (pool.new ≡ pool.old) }
{
    if !ops.are_new(alloc, told)? {
        return Ok(false);
    }
    pool.insert(rested.atoms())?;
    match ops.join(alloc, told) {
        Ok(_count) => {
            // The set's type keeps the limit.
            let _told = ops.told();
            Ok(true)
        }
        Err(fault) => {
            pool.remove(rested.atoms());
            untold(fault)
        }
    }
}

/// Adds operations to the set, and leases a part out under the next number. False is answered, and nothing changes,
/// where an operation is not new or too much would be told.
fn join_leased(
    alloc: Global,
    ops: &mut OpSet,
    out: &mut Leases,
    next: u64,
    told: &[Op],
    part: Bag,
) -> Result<bool, AllocError>
    requires { AreBelow out.old next }
    ensures joins { IfOk result (λ joined. OnTrue joined (JoinsNew ops.old told.now ops.new)) }
    ensures leased { IfOk result (λ joined. OnTrue joined (out.new ≡ map.insert out.old next part)) }
    ensures not { IfOk result (λ joined. OnFalse joined (MayNotJoin ops.old told.now)) }
    ensures same_ops { IfOk result (λ joined. OnFalse joined (ops.new ≡ ops.old)) }
    ensures same_out { IfOk result (λ joined. OnFalse joined (out.new ≡ out.old)) }
    ensures err_ops { OnErr result (ops.new ≡ ops.old) }
    ensures err_out { OnErr result (out.new ≡ out.old) }
{
    if !ops.are_new(alloc, told)? {
        return Ok(false);
    }
    out.insert(next, part)?;
    match ops.join(alloc, told) {
        Ok(_count) => {
            // The set's type keeps the limit.
            let _told = ops.told();
            Ok(true)
        }
        Err(fault) => {
            out.remove(next);
            untold(fault)
        }
    }
}

impl Board {
    /// Tells an operation. Where it is new its atoms go into the pool; `Again` is answered at the full limit as well.
    ///
    /// # Errors
    /// `UnknownSymbol` where the program doesn't declare an atom, `Clash` where the id stands for another bag, `Full`
    /// where it is new and more than [`MAX_TOLD`](chr_ops::MAX_TOLD) atoms would be told, `Memory`. Each of them leaves
    /// the board as it was.
    pub fn tell(&mut self, _alloc: Global, op: Op) -> Result<Added, Refusal>
        ensures program { self.new.accepted ≡ self.old.accepted }
        ensures new { result ≡ Ok Added.New → Tells (program_on self.old) self.old.replica op self.new.replica }
        ensures again { result ≡ Ok Added.Again →
            IsDeclared (program_on self.old) op × IsHeld self.old.replica.operations op }
        ensures kept { result ≡ Ok Added.Again → self.new ≡ self.old }
        ensures refused { IfErr result (RefusesTell (program_on self.old) self.old.replica op) }
        ensures err { OnErr result (self.new ≡ self.old) }
    {
        events_keep_replicas_sound();
        if !declares(self.accepted.program(), &op) {
            return Err(Refusal::UnknownSymbol);
        }
        if let Some(held) = self.ops.get(op.id()) {
            return if held.is_same(op.bag()) {
                Ok(Added::Again)
            } else {
                Err(Refusal::Clash(op.id()))
            };
        }
        if op.bag().len() as u64 > MAX_TOLD - self.ops.told() {
            return Err(Refusal::Full(Limit::Told));
        }
        put_in(&mut self.ops, &mut self.pool, op)?;
        Ok(Added::New)
    }

    /// Takes in all of these operations, or none, and answers how many of them are new. The list may repeat an equal
    /// operation.
    ///
    /// # Errors
    /// `UnknownSymbol` where the program doesn't declare an atom; `Clash` with the first id that stands for another bag
    /// in the board or earlier in the list; `Full` where more than [`MAX_TOLD`](chr_ops::MAX_TOLD) atoms would be told;
    /// `Memory`. Each of them leaves the board as it was.
    pub fn merge(&mut self, alloc: Global, ops: &[Op]) -> Result<u64, Refusal>
        ensures program { self.new.accepted ≡ self.old.accepted }
        ensures ok { IfOk result (λ n. Merges (program_on self.old) self.old.replica ops.now n self.new.replica) }
        ensures refused { IfErr result (RefusesMerge (program_on self.old) self.old.replica ops.now) }
        ensures err { OnErr result (self.new ≡ self.old) }
    {
        events_keep_replicas_sound();
        if !declares_all(self.accepted.program(), ops) {
            return Err(Refusal::UnknownSymbol);
        }
        let fresh = self.ops.fresh_list(alloc, ops)?;
        self.pool.insert(&fresh)?;
        match self.ops.join(alloc, ops) {
            Ok(count) => {
                // The set's type keeps the limit.
                let _told = self.ops.told();
                Ok(count)
            }
            Err(fault) => {
                self.pool.remove(&fresh);
                Err(Refusal::from(fault))
            }
        }
    }

    /// Tells operations whose carried part, if any, is leased out, and puts what was rested into the pool.
    fn tell_in_pool(
        &mut self,
        alloc: Global,
        told: &RestedOps<'_>,
    ) -> Result<Option<Placed>, AllocError>
        requires out { IsOut self.old.replica.out told.now.carried }
        requires rested { AreRestedBy (program_on self.old) told.now }
        ensures program { self.new.accepted ≡ self.old.accepted }
        ensures told { IfOk result (λ found. IfSome found (λ placed.
            TellsThem (program_on self.old) told.now placed self.old.replica self.new.replica)) }
        ensures placed { IfOk result (λ found. IfSome found (IsPlaced Destination.Pool)) }
        ensures none { IfOk result (λ found. IfNone found (RefusesThem self.old.replica told.now Destination.Pool)) }
        ensures same { IfOk result (λ found. IfNone found (self.new ≡ self.old)) }
        ensures err { OnErr result (self.new ≡ self.old) }
    {
        if !join_pooled(alloc, &mut self.ops, &mut self.pool, told.ops, told.rested)? {
            return Ok(None);
        }
        self.out.leave_out(told.carried);
        Ok(Some(Placed::InPool))
    }

    /// Tells operations whose carried part, if any, is leased out, and leases what was rested out.
    fn tell_on_lease(
        &mut self,
        alloc: Global,
        told: &RestedOps<'_>,
    ) -> Result<Option<Placed>, AllocError>
        requires out { IsOut self.old.replica.out told.now.carried }
        requires rested { AreRestedBy (program_on self.old) told.now }
        ensures program { self.new.accepted ≡ self.old.accepted }
        ensures told { IfOk result (λ found. IfSome found (λ placed.
            TellsThem (program_on self.old) told.now placed self.old.replica self.new.replica)) }
        ensures placed { IfOk result (λ found. IfSome found (IsPlaced Destination.Lease)) }
        ensures none { IfOk result (λ found. IfNone found (RefusesThem self.old.replica told.now Destination.Lease)) }
        ensures same { IfOk result (λ found. IfNone found (self.new ≡ self.old)) }
        ensures err { OnErr result (self.new ≡ self.old) }
    {
        let number = self.next;
        if number > LAST_LEASE {
            return Ok(None);
        }
        let part = told.rested.copy(alloc)?;
        if !join_leased(alloc, &mut self.ops, &mut self.out, number, told.ops, part)? {
            return Ok(None);
        }
        self.out.leave_out(told.carried);
        self.next += 1;
        Ok(Some(Placed::Leased(number)))
    }

    /// Tells operations that are all new, where some steps have made `told.rested` of their atoms and of the carried
    /// part, if any: that part comes back, and what was rested goes into the pool, or is leased out. Nothing is
    /// answered, and nothing changes, where an operation is not new, where more than [`MAX_TOLD`](chr_ops::MAX_TOLD)
    /// atoms would be told, where the carried part is not out under its number, and where what was rested is to be
    /// leased out and the lease numbers are used up. It does not look at the operations' atoms.
    pub fn tell_rested(
        &mut self,
        alloc: Global,
        told: &RestedOps<'_>,
        into: Destination,
    ) -> Result<Option<Placed>, AllocError>
        requires { AreRestedBy (program_on self.old) told.now }
        ensures program { self.new.accepted ≡ self.old.accepted }
        ensures told { IfOk result (λ found. IfSome found (λ placed.
            TellsThem (program_on self.old) told.now placed self.old.replica self.new.replica)) }
        ensures placed { IfOk result (λ found. IfSome found (IsPlaced into)) }
        ensures none { IfOk result (λ found. IfNone found (RefusesThem self.old.replica told.now into)) }
        ensures same { IfOk result (λ found. IfNone found (self.new ≡ self.old)) }
        ensures err { OnErr result (self.new ≡ self.old) }
    {
        if !self.out.have(told.carried) {
            return Ok(None);
        }
        match into {
            Destination::Pool => self.tell_in_pool(alloc, told),
            Destination::Lease => self.tell_on_lease(alloc, told),
        }
    }

    /// Whether this is the part that is leased out under a number. It takes no memory.
    pub fn has_leased(&self, number: u64, part: &Bag) -> bool
        ensures { IsTrue result ↔ (map.get self.now.replica.out number ≡ Some part.now) }
    {
        self.out.has(number, part)
    }

    /// Takes a named step in the pool.
    ///
    /// # Errors
    /// `NotThere` where the step is none of a rule on atoms of the pool, `Memory`. Each of them leaves the board as it
    /// was.
    pub fn step(&mut self, step: &Step) -> Result<(), Refusal>
        ensures program { self.new.accepted ≡ self.old.accepted }
        ensures ok { OnOk result (Steps (program_on self.old) self.old.replica step.now self.new.replica) }
        ensures refused { IfErr result (RefusesStep (program_on self.old) self.old.replica step.now) }
        ensures err { OnErr result (self.new ≡ self.old) }
    {
        events_keep_replicas_sound();
        if !self.pool.take_step(step)? {
            return Err(Refusal::NotThere);
        }
        Ok(())
    }
}
