//! Feeds that are read, and what is found after a crash.
ghost use Rattle.std.specs.Prelude.{◌≡◌, ◌≢◌, ◌++◌, ℕ, List, IsTrue, IfOk, IfErr, IsErrOf};
ghost use Rattle.sqlite_disk.specs.Disk.{MoreFaults};
ghost use Rattle.chr_records.specs.Records.{records_of, texts_in, IsFront, IsWhole};
ghost use Rattle.chr_feeds.specs.Feeds.{IsAtRest};

use crate::{Feed, FeedFault};
use chr_records::{Records, read_records};
use sqlite_disk::{Crash, Disk};
use std::alloc::Global;

/// The bytes of a file. They are right unless the disk has told a lie.
///
/// # Errors
///
/// `Disk` where a call of the disk has failed, and `Memory`.
pub fn read_file<D: Disk>(alloc: Global, disk: &mut D) -> Result<Vec<u8>, FeedFault>
    requires usable { IsTrue (D.is_usable disk.old) }
    ensures bytes { IfOk result (λ bytes. IsTrue (D.is_clean disk.new) → bytes.items ≡ D.seen disk.old) }
    ensures same { D.seen disk.new ≡ D.seen disk.old }
    ensures disk { IsErrOf result FeedFault.Disk → IsTrue (D.is_clean disk.new)
        → MoreFaults (D.faults disk.old) (D.faults disk.new) }
    ensures others { IfErr result (λ e. e ≢ FeedFault.Disk → e ≡ FeedFault.Memory) }
    ensures usable { IsTrue (D.is_usable disk.new) }
{
    let mut bytes = Vec::new(alloc);
    bytes.resize(disk.len()?, 0)?;
    disk.read_at(0, &mut bytes)?;
    Ok(bytes)
}

/// The records of a file, up to a gate that is closed.
///
/// # Errors
///
/// `Disk` where a call of the disk has failed, and `Memory`.
pub fn recover<D: Disk>(alloc: Global, disk: &mut D) -> Result<Records, FeedFault>
    requires usable { IsTrue (D.is_usable disk.old) }
    ensures texts { IfOk result (λ read. IsTrue (D.is_clean disk.new)
        → texts_in read.texts.items ≡ records_of (D.seen disk.old)) }
    ensures same { D.seen disk.new ≡ D.seen disk.old }
    ensures disk { IsErrOf result FeedFault.Disk → IsTrue (D.is_clean disk.new)
        → MoreFaults (D.faults disk.old) (D.faults disk.new) }
    ensures others { IfErr result (λ e. e ≢ FeedFault.Disk → e ≡ FeedFault.Memory) }
    ensures usable { IsTrue (D.is_usable disk.new) }
{
    let bytes = read_file(alloc, disk)?;
    let records = read_records(alloc, &bytes)?;
    Ok(records)
}

/// Appends records, crashes, and recovers. What was there before is found, and then a front of what was appended: all
/// of it, where the first answer says that it was done.
///
/// # Errors
///
/// `Disk`, `Memory`.
pub fn append_and_crash<D: Crash>(
    alloc: Global,
    feed: &mut Feed<D>,
    batch: &[u8],
) -> Result<(bool, Records), FeedFault>
    requires at_rest { IsAtRest D.Disk.seen D.Disk.may_leave D.Disk.is_usable feed.old }
    requires whole { IsWhole batch.now }
    ensures found { IfOk result (λ came. IsTrue (D.Disk.is_clean feed.new.disk)
        → (front : List (List ℕ)) × IsFront front (records_of batch.now)
        × (IsTrue came.0 → front ≡ records_of batch.now)
        × (texts_in came.1.texts.items ≡ records_of (D.Disk.seen feed.old.disk) ++ front)) }
{
    let is_done = feed.append(alloc, batch).is_ok();
    feed.disk.crash();
    let found = recover(alloc, &mut feed.disk)?;
    Ok((is_done, found))
}
