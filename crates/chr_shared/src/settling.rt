//! Resting shared books by workers.
ghost use Rattle.std.specs.Prelude.{◌≡◌, ◌≤◌, ◌++◌, List, IfOk, IfErr, OnErr, OnOk, length};
ghost use Rattle.chr_base.specs.declared.limits.TheConstants.{MAX_PARTS, MAX_WORKERS};
ghost use Rattle.chr_acts.specs.declared.entry.Entry.{Entry};
ghost use Rattle.chr_shared.specs.Seats.{GetsAll, GetsOne};
ghost use Rattle.chr_shared.specs.Settling.{AnswersWith, EndsWith, IsEnd, IsReturn, IsShownIn, IsTaken, Returns};
ghost use Rattle.chr_shared.specs.Settling.{StopsTaking, numbers_in};

use crate::naming::Naming;
use crate::seat::Seat;
use crate::settled::Settled;
use crate::shared::Shared;
use chr_base::limits::{MAX_PARTS, MAX_WORKERS};
use chr_join::{Accepted, Lease};
use chr_replica::Refusal;
use chr_workers::{Gate, Parts, Rested, rest_parts};
use std::alloc::{AllocError, Global};
use std::sync::{Arc, Mutex, Wait};
use std::thread::Threads;

/// The numbers of leases.
fn numbers_of(alloc: Global, leases: &[Lease]) -> Result<Vec<u64>, AllocError>
    ensures { IfOk result (λ v. v.items ≡ numbers_in leases.now) }
{
    let mut numbers = Vec::with_capacity(alloc, leases.len())?;
    for lease in leases {
        numbers.push(lease.number)?;
    }
    Ok(numbers)
}

impl<J: Naming> Shared<J> {
    /// The program of the book's board.
    fn program<R: Wait>(&self, rt: &R) -> Result<Arc<Accepted>, AllocError> {
        self.locked.lock(rt).program()
    }

    /// Takes the pool in parts, under the lock.
    fn take_parts<R: Wait>(
        &self,
        rt: &R,
        alloc: Global,
        seat: &mut Seat<J>,
        parts: u32,
    ) -> Result<Vec<Lease>, Refusal>
        requires { (1 ≤ parts) × (parts ≤ MAX_PARTS) }
        ensures number { seat.new.number ≡ seat.old.number }
        ensures ok { IfOk result (λ leases. GetsOne (IsTaken parts leases.items) seat.old seat.new) }
        ensures err { IfErr result (λ refusal. GetsAll (StopsTaking parts refusal) seat.old seat.new) }
    {
        self.locked
            .lock(rt)
            .take_parts(alloc, &self.table, seat, parts)
    }

    /// Puts what came of the part that was leased out under `number`. An error is answered where it came of another
    /// part.
    fn put_back<R: Wait>(
        &self,
        rt: &R,
        alloc: Global,
        seat: &mut Seat<J>,
        number: u64,
        rested: Rested,
    ) -> Result<(), AllocError>
        ensures number { seat.new.number ≡ seat.old.number }
        ensures ok { OnOk result (GetsOne (IsReturn number) seat.old seat.new) }
        ensures err { OnErr result (seat.new.list ≡ seat.old.list) }
    {
        if rested.done.number() != number {
            return Err(AllocError);
        }
        match self.put(rt, alloc, seat, rested.done) {
            Ok(_) => Ok(()),
            Err(_) => Err(AllocError),
        }
    }

    /// Takes the part that is leased out under a number back as it is.
    fn recall_back<R: Wait>(
        &self,
        rt: &R,
        alloc: Global,
        seat: &mut Seat<J>,
        number: u64,
    ) -> Result<(), AllocError>
        ensures number { seat.new.number ≡ seat.old.number }
        ensures ok { OnOk result (GetsOne (IsReturn number) seat.old seat.new) }
        ensures err { OnErr result (seat.new.list ≡ seat.old.list) }
    {
        match self.recall(rt, alloc, seat, number) {
            Ok(_) => Ok(()),
            Err(_) => Err(AllocError),
        }
    }

    /// Puts what came of a part, or takes the part back as it is where nothing came of it.
    fn give_back<R: Wait>(
        &self,
        rt: &R,
        alloc: Global,
        seat: &mut Seat<J>,
        number: u64,
        rested: Option<Rested>,
    ) -> Result<(), AllocError>
        ensures number { seat.new.number ≡ seat.old.number }
        ensures ok { OnOk result (GetsOne (IsReturn number) seat.old seat.new) }
        ensures err { OnErr result (seat.new.list ≡ seat.old.list) }
    {
        let Some(rested) = rested else {
            return self.recall_back(rt, alloc, seat, number);
        };
        match self.put_back(rt, alloc, seat, number, rested) {
            Ok(()) => Ok(()),
            Err(_) => self.recall_back(rt, alloc, seat, number),
        }
    }

    /// Gives all parts back, in their order.
    fn give_all_back<R: Wait>(
        &self,
        rt: &R,
        alloc: Global,
        seat: &mut Seat<J>,
        numbers: &[u64],
        results: &[Mutex<Option<Rested>>],
    ) -> Result<(), AllocError>
        ensures number { seat.new.number ≡ seat.old.number }
        ensures list { GetsAll (λ es. Returns numbers.now es × OnOk result (length es ≡ length numbers.now))
            seat.old seat.new }
    {
        let [number, rest @ ..] = numbers else {
            return Ok(());
        };
        let [cell, more @ ..] = results else {
            return Err(AllocError);
        };
        let rested = cell.lock(rt).take();
        self.give_back(rt, alloc, seat, *number, rested)?;
        self.give_all_back(rt, alloc, seat, rest, more)
    }

    /// Rests the pool and shows it, under one lock.
    fn settle_and_show<R: Wait>(&self, rt: &R, alloc: Global, seat: &mut Seat<J>) -> Settled
        ensures number { seat.new.number ≡ seat.old.number }
        ensures list { GetsAll (EndsWith result) seat.old seat.new }
    {
        self.locked
            .lock(rt)
            .settle_and_show(alloc, &self.table, seat)
    }

    /// Rests the leases by workers, and gives all parts back.
    fn rest_leases<R: Threads + Wait + Sync, G: Gate>(
        &self,
        rt: &R,
        alloc: Global,
        seat: &mut Seat<J>,
        accepted: &Accepted,
        places: Parts,
        leases: Vec<Lease>,
        gate: &G,
    ) -> Result<(), AllocError>
        ensures number { seat.new.number ≡ seat.old.number }
        ensures list { GetsAll (λ es. Returns (numbers_in leases.items) es
            × OnOk result (length es ≡ length (numbers_in leases.items))) seat.old seat.new }
    {
        let numbers = numbers_of(alloc, &leases)?;
        let results = rest_parts(rt, alloc, accepted, places, leases, gate);
        self.give_all_back(rt, alloc, seat, &numbers, &results)
    }

    /// Rests the leases by workers, gives all parts back, rests the pool and shows it.
    fn rest_and_show<R: Threads + Wait + Sync, G: Gate>(
        &self,
        rt: &R,
        alloc: Global,
        seat: &mut Seat<J>,
        accepted: &Accepted,
        places: Parts,
        leases: Vec<Lease>,
        gate: &G,
    ) -> Settled
        ensures number { seat.new.number ≡ seat.old.number }
        ensures list { (returns : List Entry) × (tail : List Entry)
            × (seat.new.list ≡ seat.old.list ++ (returns ++ tail)) × Returns (numbers_in leases.items) returns
            × IsEnd returns (numbers_in leases.items) tail result }
    {
        match self.rest_leases(rt, alloc, seat, accepted, places, leases, gate) {
            Ok(()) => self.settle_and_show(rt, alloc, seat),
            Err(_) => Settled::NotRested(Refusal::Memory),
        }
    }

    /// Rests the pool by workers, in calls of the seat. The pool is taken in `parts` parts, 1 to [`MAX_PARTS`];
    /// `workers` workers, 1 to [`MAX_WORKERS`], rest them with no lock held; what came of each part is put, or the part
    /// is recalled where memory was refused; and then the pool is rested and shown under one lock.
    pub fn settle_with<R: Threads + Wait + Sync, G: Gate>(
        &self,
        rt: &R,
        alloc: Global,
        seat: &mut Seat<J>,
        workers: u32,
        parts: u32,
        gate: &G,
    ) -> Settled
        requires workers { (1 ≤ workers) × (workers ≤ MAX_WORKERS) }
        requires parts { (1 ≤ parts) × (parts ≤ MAX_PARTS) }
        ensures number { seat.new.number ≡ seat.old.number }
        ensures list { GetsAll (AnswersWith parts result) seat.old seat.new }
        ensures shown { IsShownIn seat.new.list result }
    {
        let Ok(places) = Parts::open(alloc, parts, workers) else {
            return Settled::NotRested(Refusal::Memory);
        };
        let Ok(accepted) = self.program(rt) else {
            return Settled::NotRested(Refusal::Memory);
        };
        match self.take_parts(rt, alloc, seat, parts) {
            Ok(leases) => self.rest_and_show(rt, alloc, seat, &accepted, places, leases, gate),
            Err(refusal) => Settled::NotRested(refusal),
        }
    }
}
