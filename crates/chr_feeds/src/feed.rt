//! A feed that is written.
ghost use Rattle.std.specs.Prelude.{◌≡◌, ◌≢◌, ◌⊎◌, ◌+◌, ◌^◌, ◌<◌, ◌≤◌, ◌++◌, ℕ, List, [], length, slice_index};
ghost use Rattle.std.specs.Prelude.{IsTrue, IfOk, OnOk, IfErr, IsErrOf};
ghost use Rattle.sqlite_disk.specs.Disk.{Only, Follows, MoreFaults};
ghost use Rattle.chr_records.specs.Records.{records_of, IsWhole};
ghost use Rattle.chr_feeds.specs.Files.{IsBlank, IsGrown};
ghost use Rattle.chr_feeds.specs.Feeds.{IsAtRest, GoesOn};
ghost use Rattle.chr_feeds.specs.working.Fronts.{KeepsFront};

use crate::FeedFault;
use crate::limits::{BLOCK, MAX_SIZE};
use sqlite_disk::Disk;
use std::alloc::Global;

/// A file of records that is written, and what its writer knows of it: the size of the records, and how many blanks
/// stand behind them.
#[derive(Drop)]
pub struct Feed<D: Disk> {
    pub disk: D,
    pub size: usize,
    pub room: usize,
}

/// A disk on which no feed was made, and why.
#[derive(Drop)]
pub struct NotCreated<D: Disk> {
    pub disk: D,
    pub fault: FeedFault,
}

impl<D: Disk + Drop> Feed<D> {
    /// A new feed, with no record, in a file that is empty.
    ///
    /// # Errors
    ///
    /// `Disk` where a call of the disk has failed, and `NotEmpty` where the disk says that the file is not empty, which
    /// is a lie. The disk is handed back.
    pub fn create(mut disk: D) -> Result<Feed<D>, NotCreated<D>>
        requires empty { D.seen disk ≡ [] }
        requires durable { Only (D.seen disk) (D.may_leave disk) }
        requires usable { IsTrue (D.is_usable disk) }
        ensures at_rest { IfOk result (λ feed. IsAtRest D.seen D.may_leave D.is_usable feed) }
        ensures none { IfOk result (λ feed. records_of (D.seen feed.disk) ≡ []) }
        ensures disk { IfErr result (λ back. back.fault ≡ FeedFault.Disk
            → MoreFaults (D.faults disk) (D.faults back.disk)) }
        ensures not_empty { IfErr result (λ back. back.fault ≡ FeedFault.NotEmpty
            → ¬ (IsTrue (D.is_clean back.disk))) }
        ensures others { IfErr result (λ back.
            (back.fault ≡ FeedFault.Disk) ⊎ (back.fault ≡ FeedFault.NotEmpty)) }
        ensures any_moment { IfErr result (λ back. (c : List ℕ) → D.may_leave back.disk c → records_of c ≡ []) }
    {
        match shut_empty(&mut disk) {
            Ok(()) => Ok(Feed {
                disk,
                size: 0,
                room: 1,
            }),
            Err(fault) => Err(NotCreated { disk, fault }),
        }
    }
}

impl<D: Disk> Feed<D> {
    /// Appends records, and waits until the disk has them. Whenever the machine stops, the old records are left, and a
    /// front of the new ones.
    ///
    /// # Errors
    ///
    /// `Disk` where a call of the disk has failed: then the feed need not be at rest, so it is not appended to again.
    /// `Full` where the feed would pass [`MAX_SIZE`], and `Memory` where no memory was left: then the feed goes on as
    /// it was.
    pub fn append(&mut self, alloc: Global, batch: &[u8]) -> Result<(), FeedFault>
        requires at_rest { IsAtRest D.seen D.may_leave D.is_usable self.old }
        requires whole { IsWhole batch.now }
        ensures there { OnOk result (records_of (D.seen self.new.disk)
            ≡ records_of (D.seen self.old.disk) ++ records_of batch.now) }
        ensures at_rest { OnOk result (IsAtRest D.seen D.may_leave D.is_usable self.new) }
        ensures durable { OnOk result ((c : List ℕ) → D.may_leave self.new.disk c
            → records_of c ≡ records_of (D.seen self.old.disk) ++ records_of batch.now) }
        ensures any_moment { (c : List ℕ) → D.may_leave self.new.disk c
            → IsGrown (records_of (D.seen self.old.disk)) (records_of batch.now) c }
        ensures disk { IsErrOf result FeedFault.Disk
            → MoreFaults (D.faults self.old.disk) (D.faults self.new.disk) }
        ensures calm { OnOk result (D.faults self.new.disk ≡ D.faults self.old.disk) }
        ensures full { IsErrOf result FeedFault.Full
            → MAX_SIZE < self.old.size + self.old.room + length batch.now + BLOCK }
        ensures goes_on { IfErr result (λ e. e ≢ FeedFault.Disk
            → GoesOn D.seen D.may_leave D.is_usable D.faults self.old self.new) }
    {
        self.make_room(alloc, batch.len())?;
        if batch.is_empty() {
            return Ok(());
        }
        if self.disk.mixes() && batch.len() < self.room {
            self.write_over_blanks(batch)
        } else {
            self.write_behind_gate(batch)
        }
    }

    // Lays blanks where that spares a sync, so that more than `wanted` stand there.
    fn make_room(&mut self, alloc: Global, wanted: usize) -> Result<(), FeedFault>
        requires at_rest { IsAtRest D.seen D.may_leave D.is_usable self.old }
        ensures there { OnOk result (records_of (D.seen self.new.disk) ≡ records_of (D.seen self.old.disk)) }
        ensures at_rest { OnOk result (IsAtRest D.seen D.may_leave D.is_usable self.new) }
        ensures any_moment { (c : List ℕ) → D.may_leave self.new.disk c
            → records_of c ≡ records_of (D.seen self.old.disk) }
        ensures size { self.new.size ≡ self.old.size }
        ensures disk { IsErrOf result FeedFault.Disk
            → MoreFaults (D.faults self.old.disk) (D.faults self.new.disk) }
        ensures calm { OnOk result (D.faults self.new.disk ≡ D.faults self.old.disk) }
        ensures full { IsErrOf result FeedFault.Full → MAX_SIZE < self.old.size + self.old.room + wanted + BLOCK }
        ensures same { IfErr result (λ e. e ≢ FeedFault.Disk → self.new ≡ self.old) }
    {
        if !self.disk.mixes() || wanted < self.room {
            return Ok(());
        }
        let end = self.size + self.room;
        if wanted > MAX_SIZE || end + wanted + BLOCK > MAX_SIZE {
            return Err(FeedFault::Full);
        }
        lay_blanks(alloc, &mut self.disk, end, wanted + BLOCK)?;
        self.room += wanted + BLOCK;
        Ok(())
    }

    fn write_over_blanks(&mut self, batch: &[u8]) -> Result<(), FeedFault>
        requires at_rest { IsAtRest D.seen D.may_leave D.is_usable self.old }
        requires whole { IsWhole batch.now }
        requires mixing { IsTrue (D.is_mixing self.old.disk) }
        requires some { 0 < length batch.now }
        requires fits { length batch.now < self.old.room }
        ensures there { OnOk result (records_of (D.seen self.new.disk)
            ≡ records_of (D.seen self.old.disk) ++ records_of batch.now) }
        ensures at_rest { OnOk result (IsAtRest D.seen D.may_leave D.is_usable self.new) }
        ensures any_moment { (c : List ℕ) → D.may_leave self.new.disk c
            → IsGrown (records_of (D.seen self.old.disk)) (records_of batch.now) c }
        ensures disk { IfErr result (λ e. (e ≡ FeedFault.Disk)
            × MoreFaults (D.faults self.old.disk) (D.faults self.new.disk)) }
        ensures calm { OnOk result (D.faults self.new.disk ≡ D.faults self.old.disk) }
    {
        self.disk.write_at(self.size, batch)?;
        self.disk.sync()?;
        self.size += batch.len();
        self.room -= batch.len();
        Ok(())
    }

    fn write_behind_gate(&mut self, batch: &[u8]) -> Result<(), FeedFault>
        requires at_rest { IsAtRest D.seen D.may_leave D.is_usable self.old }
        requires whole { IsWhole batch.now }
        requires some { 0 < length batch.now }
        ensures there { OnOk result (records_of (D.seen self.new.disk)
            ≡ records_of (D.seen self.old.disk) ++ records_of batch.now) }
        ensures at_rest { OnOk result (IsAtRest D.seen D.may_leave D.is_usable self.new) }
        ensures any_moment { (c : List ℕ) → D.may_leave self.new.disk c
            → IsGrown (records_of (D.seen self.old.disk)) (records_of batch.now) c }
        ensures disk { IsErrOf result FeedFault.Disk
            → MoreFaults (D.faults self.old.disk) (D.faults self.new.disk) }
        ensures calm { OnOk result (D.faults self.new.disk ≡ D.faults self.old.disk) }
        ensures full { IsErrOf result FeedFault.Full → MAX_SIZE ≤ self.old.size + length batch.now }
        ensures same { IfErr result (λ e. e ≢ FeedFault.Disk → self.new ≡ self.old) }
    {
        if batch.len() >= MAX_SIZE || self.size + batch.len() >= MAX_SIZE {
            return Err(FeedFault::Full);
        }
        stage(&mut self.disk, self.size, batch)?;
        self.disk.write_at(self.size, b"=")?;
        self.disk.sync()?;
        self.size += batch.len();
        self.room = 1;
        Ok(())
    }
}

// The first gate, which is closed, in a file that says that it is empty.
fn shut_empty<D: Disk>(disk: &mut D) -> Result<(), FeedFault>
    requires empty { D.seen disk.old ≡ [] }
    requires durable { Only (D.seen disk.old) (D.may_leave disk.old) }
    requires usable { IsTrue (D.is_usable disk.old) }
    ensures blank { OnOk result (IsBlank 0 1 (D.seen disk.new)) }
    ensures none { OnOk result (records_of (D.seen disk.new) ≡ []) }
    ensures durable { OnOk result (Only (D.seen disk.new) (D.may_leave disk.new)) }
    ensures usable { OnOk result (IsTrue (D.is_usable disk.new)) }
    ensures any_moment { (c : List ℕ) → D.may_leave disk.new c → records_of c ≡ [] }
    ensures disk { IsErrOf result FeedFault.Disk → MoreFaults (D.faults disk.old) (D.faults disk.new) }
    ensures not_empty { IsErrOf result FeedFault.NotEmpty → ¬ (IsTrue (D.is_clean disk.new)) }
    ensures others { IfErr result (λ e. (e ≡ FeedFault.Disk) ⊎ (e ≡ FeedFault.NotEmpty)) }
{
    if disk.len()? != 0 {
        return Err(FeedFault::NotEmpty);
    }
    shut_first(disk)
}

// The first gate, which is closed.
fn shut_first<D: Disk>(disk: &mut D) -> Result<(), FeedFault>
    requires empty { D.seen disk.old ≡ [] }
    requires durable { Only (D.seen disk.old) (D.may_leave disk.old) }
    requires usable { IsTrue (D.is_usable disk.old) }
    ensures blank { OnOk result (IsBlank 0 1 (D.seen disk.new)) }
    ensures none { OnOk result (records_of (D.seen disk.new) ≡ []) }
    ensures durable { OnOk result (Only (D.seen disk.new) (D.may_leave disk.new)) }
    ensures usable { OnOk result (IsTrue (D.is_usable disk.new)) }
    ensures any_moment { (c : List ℕ) → D.may_leave disk.new c → records_of c ≡ [] }
    ensures disk { IfErr result (λ e. (e ≡ FeedFault.Disk) × MoreFaults (D.faults disk.old) (D.faults disk.new)) }
{
    disk.write_at(0, &[0])?;
    disk.sync()?;
    Ok(())
}

// All of a batch but its first byte, and a closed gate behind it, on the disk.
fn stage<D: Disk>(disk: &mut D, at: usize, batch: &[u8]) -> Result<(), FeedFault>
    requires some { 1 < length batch.now }
    requires small { at + length batch.now < 2 ^ 61 }
    requires usable { IsTrue (D.is_usable disk.old) }
    ensures rest { OnOk result ((i : ℕ) → 0 < i → i < length batch.now
        → slice_index (D.seen disk.new) (at + i) ≡ slice_index batch.now i) }
    ensures blank { OnOk result (IsBlank (at + length batch.now) 1 (D.seen disk.new)) }
    ensures front { KeepsFront (at + 1) (D.seen disk.old) (D.seen disk.new) }
    ensures durable { OnOk result (Only (D.seen disk.new) (D.may_leave disk.new)) }
    ensures usable { OnOk result (IsTrue (D.is_usable disk.new)) }
    ensures crash { Follows (KeepsFront (at + 1)) (D.may_leave disk.old) (D.may_leave disk.new) }
    ensures disk { IfErr result (λ e. (e ≡ FeedFault.Disk) × MoreFaults (D.faults disk.old) (D.faults disk.new)) }
    ensures calm { OnOk result (D.faults disk.new ≡ D.faults disk.old) }
{
    disk.write_at(at + 1, &batch[1..])?;
    disk.write_at(at + batch.len(), &[0])?;
    disk.sync()?;
    Ok(())
}

// Blanks, on the disk.
fn lay_blanks<D: Disk>(
    alloc: Global,
    disk: &mut D,
    end: usize,
    count: usize,
) -> Result<(), FeedFault>
    requires some { 0 < count }
    requires usable { IsTrue (D.is_usable disk.old) }
    ensures blank { OnOk result (IsBlank end count (D.seen disk.new)) }
    ensures front { KeepsFront end (D.seen disk.old) (D.seen disk.new) }
    ensures durable { OnOk result (Only (D.seen disk.new) (D.may_leave disk.new)) }
    ensures usable { OnOk result (IsTrue (D.is_usable disk.new)) }
    ensures crash { Follows (KeepsFront end) (D.may_leave disk.old) (D.may_leave disk.new) }
    ensures disk { IsErrOf result FeedFault.Disk → MoreFaults (D.faults disk.old) (D.faults disk.new) }
    ensures calm { OnOk result (D.faults disk.new ≡ D.faults disk.old) }
    ensures same { IfErr result (λ e. e ≢ FeedFault.Disk → (e ≡ FeedFault.Memory) × (disk.new ≡ disk.old)) }
{
    let mut blanks = Vec::new(alloc);
    blanks.resize(count, 0)?;
    disk.write_at(end, &blanks)?;
    disk.sync()?;
    Ok(())
}
