//! Operation sets.
ghost use Rattle.std.specs.Prelude.{◌≡◌, ◌+◌, ◌<◌, ◌≤◌, ◌↔◌, IfErr, IfOk, IsErrOf, List, OnOk, OnErr, Ok};
ghost use Rattle.std.specs.Prelude.{option_copied};
ghost use Rattle.std.specs.Bool.{OnTrue, OnFalse};
ghost use Rattle.std.specs.FinMap as map;
ghost use Rattle.chr_base.specs.FinBag.{◌⊕◌};
ghost use Rattle.chr_base.specs.Stores.{size, store_of};
ghost use Rattle.chr_base.specs.Values.{HasValues};
ghost use Rattle.chr_ops.specs.declared.id.OpId.{OpId as OpIdValue};
ghost use Rattle.chr_ops.specs.declared.range.IdRange.{IdRange as IdRangeValue};
ghost use Rattle.chr_ops.specs.News.{lacked_among, LacksOnly};
ghost use Rattle.chr_ops.specs.Operations.{told_store, told_atoms, sum_of, IsNew, IsHeld, IsHeldOtherwise};
ghost use Rattle.chr_ops.specs.Joins.{union, fresh, HasNoClash, IsFirstClash, IsOverLimit, AreNew};
ghost use Rattle.chr_ops.specs.Summaries.{CoversJust, lacking};

use crate::covered::Covered;
use crate::entries::Entries;
use crate::fault::{AddFault, Added};
use crate::fresh::{are_new, fresh_list};
use crate::id::OpId;
use crate::joining::{take_in_covered, withdraw};
use crate::lacking::{lacked, lacked_of};
use crate::limits::MAX_TOLD;
use crate::op::Op;
use crate::summary::Summary;
use chr_base::atom::Atom;
use chr_base::bag::Bag;
use std::alloc::{AllocError, Global};
use std::marker::Model;

/// A set of operations that holds one bag for an id and tells at most [`MAX_TOLD`] atoms.
#[derive(Drop)]
pub struct OpSet {
    held: Entries,
    covered: Covered,
    told: u64,
}

impl Model for OpSet {
    ghost use Rattle.std.specs.FinMap as map;
    ghost use Rattle.chr_base.specs.FinBag as bag;
    ghost use Rattle.chr_base.specs.working.Codes as bag_codes;
    ghost use Rattle.chr_base.specs.working.Codes.{coded_atom};
    ghost use Rattle.chr_ops.specs.working.Codes.{coded_id};
    ghost use Rattle.chr_ops.specs.Operations.{Operations};
    ghost use Rattle.chr_ops.specs.working.Kept.{IsKept};

    ghost Value = { Operations };

    ghost coded = { map.code coded_id (bag_codes.code coded_atom) };

    ghost view = { λ s. s.held };

    ghost invariant = { λ s. IsKept s.told s.covered s.held };
}

impl OpSet {
    /// The set of no operation.
    pub fn new(alloc: Global) -> Self
        ensures { result ≡ map.empty }
    {
        OpSet {
            held: Entries::new(alloc),
            covered: Covered::new(alloc),
            told: 0,
        }
    }

    /// The number of told atoms.
    pub fn told(&self) -> u64
        ensures told { result ≡ told_atoms self.now }
        ensures within { result ≤ MAX_TOLD }
    {
        self.told
    }

    /// The arguments of the told atoms are values of 64 bits, as those of each operation are. The call computes
    /// nothing: its contract says so of the set.
    pub fn told_has_values(&self)
        ensures { HasValues (told_store self.now) }
    {
        let _told = self.told;
    }

    /// The bag of an id. It takes no memory.
    pub fn get(&self, id: OpId) -> Option<&Bag>
        ensures { option_copied result ≡ map.get self.now id }
    {
        // Ranges are few where ids follow each other, so that what isn't held is told by a short look-up.
        if !self.covered.has(id) {
            return None;
        }
        self.held.get(id)
    }

    /// Adds an operation. `Again` is answered at the full limit as well.
    ///
    /// # Errors
    /// `Clash` where the id stands for another bag; `Full` where the operation is new, and more than [`MAX_TOLD`] atoms
    /// would be told; `Memory`. Each of them leaves the set as it was.
    pub fn add(&mut self, op: Op) -> Result<Added, AddFault>
        ensures new { result ≡ Ok Added.New
            → IsNew self.old op × (self.new ≡ map.insert self.old op.0 op.1) }
        ensures told { result ≡ Ok Added.New → told_store self.new ≡ told_store self.old ⊕ op.1 }
        ensures again { (result ≡ Ok Added.Again) ↔ IsHeld self.old op }
        ensures kept { result ≡ Ok Added.Again → self.new ≡ self.old }
        ensures clash { (id : OpIdValue) → IsErrOf result (AddFault.Clash id)
            ↔ ((id ≡ op.0) × IsHeldOtherwise self.old op) }
        ensures full { IsErrOf result AddFault.Full
            ↔ (IsNew self.old op × (MAX_TOLD < told_atoms self.old + size op.1)) }
        ensures err { OnErr result (self.new ≡ self.old) }
    {
        if let Some(held) = self.get(op.id()) {
            return if held.is_same(op.bag()) {
                Ok(Added::Again)
            } else {
                Err(AddFault::Clash(op.id()))
            };
        }
        if op.bag().len() as u64 > MAX_TOLD - self.told {
            return Err(AddFault::Full);
        }
        match self.add_new(op) {
            Ok(()) => Ok(Added::New),
            Err(_) => Err(AddFault::Memory),
        }
    }

    /// Adds a new operation, where there is room for its atoms.
    ///
    /// # Errors
    /// Where memory is refused, the operation is handed back, and the set is as it was.
    pub fn add_new(&mut self, op: Op) -> Result<(), Op>
        requires new { IsNew self.old op }
        requires room { told_atoms self.old + size op.1 ≤ MAX_TOLD }
        ensures ok { OnOk result (self.new ≡ map.insert self.old op.0 op.1) }
        ensures handed_back { IfErr result (λ back. back ≡ op) }
        ensures err { OnErr result (self.new ≡ self.old) }
    {
        let atoms = op.bag().len() as u64;
        let (id, bag) = op.into_shared(self.held.allocator())?;
        if let Err(refused) = self.held.insert(id, bag) {
            let (id, bag) = refused.value;
            return Err(Op::from_shared(id, bag));
        }
        if self.covered.cover_one(id).is_err() {
            return match self.held.remove(id) {
                Some(bag) => Err(Op::from_shared(id, bag)),
                None => unreachable!(),
            };
        }
        self.told += atoms;
        Ok(())
    }

    /// Adds all of these operations, or none, and answers how many of them are new. The list may repeat an equal
    /// operation.
    ///
    /// # Errors
    /// `Clash` with the first id that stands for another bag in the set or earlier in the list; else `Full` where more
    /// than [`MAX_TOLD`] atoms would be told; `Memory`. Each of them leaves the set as it was.
    pub fn join(&mut self, alloc: Global, ops: &[Op]) -> Result<u64, AddFault>
        ensures union { OnOk result (self.new ≡ union self.old ops.now) }
        ensures count { IfOk result (λ n. n + map.len self.old ≡ map.len self.new) }
        ensures told { OnOk result (told_store self.new
            ≡ told_store self.old ⊕ sum_of (fresh self.old ops.now)) }
        ensures no_clash { OnOk result (HasNoClash self.old ops.now) }
        ensures clash { (id : OpIdValue) → IsErrOf result (AddFault.Clash id)
            → IsFirstClash self.old ops.now id }
        ensures full { IsErrOf result AddFault.Full
            → HasNoClash self.old ops.now × IsOverLimit self.old ops.now }
        ensures err { OnErr result (self.new ≡ self.old) }
    {
        let mut fresh = Vec::new(alloc);
        match take_in_covered(
            &mut self.held,
            &mut self.covered,
            &mut fresh,
            alloc,
            ops,
            self.told,
        ) {
            Ok(told) => {
                self.told = told;
                Ok(fresh.len() as u64)
            }
            Err(fault) => {
                withdraw(&mut self.held, &fresh);
                Err(fault)
            }
        }
    }

    /// A summary that covers just the ids of the set.
    pub fn summary(&self, alloc: Global) -> Result<Summary, AllocError>
        ensures { IfOk result (λ summary. CoversJust summary self.now) }
    {
        Ok(Summary::of_merged(self.covered.ranges(alloc)?))
    }

    /// The operations whose ids a summary does not cover, in the order of ids. They share their bags with the set.
    pub fn lacks(&self, alloc: Global, summary: &Summary) -> Result<Vec<Op>, AllocError>
        ensures { IfOk result (λ ops. ops.items ≡ lacking self.now summary.now) }
    {
        let ranges = self.covered.ranges(alloc)?;
        lacked(alloc, &self.held, &ranges, summary.ranges())
    }

    /// Copies of the operations whose ids are among `ids` and which another set lacks, in the order of ids. Where the
    /// other set lacks no more than these, the result is that of [`OpSet::lacks`] with the other's summary. It costs
    /// look-ups for these ids, and what is copied, however many ranges are held.
    pub fn lacked_among(
        &self,
        alloc: Global,
        other: &OpSet,
        ids: &[OpId],
    ) -> Result<Vec<Op>, AllocError>
        ensures among { IfOk result (λ ops. ops.items ≡ lacked_among self.now other.now ids.now) }
        ensures all { IfOk result (λ ops. LacksOnly self.now other.now ids.now → (summary : List IdRangeValue)
            → CoversJust summary other.now → ops.items ≡ lacking self.now summary) }
    {
        lacked_of(alloc, &self.held, &other.held, ids)
    }

    /// Whether each of these operations is new to the set and those before it.
    pub fn are_new(&self, alloc: Global, ops: &[Op]) -> Result<bool, AllocError>
        ensures new { IfOk result (λ new. OnTrue new (AreNew self.now ops.now)) }
        ensures not { IfOk result (λ new. OnFalse new (¬ (AreNew self.now ops.now))) }
    {
        are_new(alloc, &self.held, &self.covered, ops)
    }

    /// The atoms of those of a list's operations that are new to the set, each operation once: what a join of the list
    /// adds to what is told.
    pub fn fresh_atoms(&self, alloc: Global, ops: &[Op]) -> Result<Bag, AllocError>
        ensures { IfOk result (λ bag. bag ≡ sum_of (fresh self.now ops.now)) }
    {
        Bag::of(self.fresh_list(alloc, ops)?)
    }

    /// The atoms of those of a list's operations that are new to the set, each operation once, in the order of the
    /// list. Unlike [`OpSet::fresh_atoms`] it sorts nothing.
    pub fn fresh_list(&self, alloc: Global, ops: &[Op]) -> Result<Vec<Atom>, AllocError>
        ensures { IfOk result (λ atoms. store_of atoms.items ≡ sum_of (fresh self.now ops.now)) }
    {
        fresh_list(alloc, &self.held, &self.covered, ops)
    }
}
