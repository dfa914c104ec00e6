//! Feeds over disks in memory, with a crash at each call.
ghost use Rattle.std.specs.Prelude.{IfOk};
ghost use Rattle.chr_records.specs.Records.{IsWhole};

use crate::lasting::Lasting;
use crate::tests::are;
use crate::tests::caller::Caller;
use chr_feeds::{Feed, FeedFault, append_and_crash, keep_and_tell, read_file, recover};
use chr_records::{is_text, push_record};
use sqlite_disk::{Disk, Fuse, Memory};
use std::alloc::{AllocError, Global};
use std::process::Abort;

/// The records of two texts.
fn batch(alloc: Global, first: &[u8], second: &[u8]) -> Result<Vec<u8>, AllocError>
    ensures { IfOk result (λ batch. IsWhole batch.items) }
{
    let mut batch = Vec::new(alloc);
    if is_text(first) && is_text(second) {
        push_record(&mut batch, first)?;
        push_record(&mut batch, second)?;
    }
    Ok(batch)
}

/// Whether two records that are appended to a new feed are told to be kept, and how many a crash leaves, where the disk
/// stops after `calls` calls. None where the feed isn't made.
fn kept_in_memory(rt: &impl Abort, alloc: Global, calls: u64) -> Option<(bool, usize)> {
    let batch = batch(alloc, b"one", b"two").expect(rt, "memory");
    let mut feed = Feed::create(Fuse::new(Memory::new(alloc), calls)).ok()?;
    let (told, found) = append_and_crash(alloc, &mut feed, &batch).ok()?;
    Some((told, found.texts.len()))
}

/// Like [`kept_in_memory`], where writes tear into old and new bytes, and what was written stays.
fn kept_in_lasting(rt: &impl Abort, alloc: Global, calls: u64) -> Option<(bool, usize)> {
    let batch = batch(alloc, b"one", b"two").expect(rt, "memory");
    let mut feed = Feed::create(Fuse::new(Lasting::new(alloc), calls)).ok()?;
    let (told, found) = append_and_crash(alloc, &mut feed, &batch).ok()?;
    Some((told, found.texts.len()))
}

/// What `calls` calls have to leave: three make a feed, and from the two other numbers on the records are told, and
/// found.
fn expected(calls: u64, told_from: u64, found_from: u64) -> Option<(bool, usize)> {
    if calls < 3 {
        return None;
    }
    let found = if calls >= found_from { 2 } else { 0 };
    Some((calls >= told_from, found))
}

#[test]
fn a_crash_at_each_call_leaves_what_was_told(rt: HostRuntime) {
    let alloc = rt.alloc();
    for calls in 0..12u64 {
        // A write of all but the gate, one of the next gate, a sync, the gate, a sync.
        assert!(rt;
            kept_in_memory(&rt, alloc, calls) == expected(calls, 8, 8),
            "{calls} calls"
        );
        // A write of blanks, a sync, the write over them, a sync.
        assert!(rt;
            kept_in_lasting(&rt, alloc, calls) == expected(calls, 7, 6),
            "{calls} calls"
        );
    }
}

#[test]
fn what_is_appended_is_read(rt: HostRuntime) {
    let alloc = rt.alloc();
    let first = batch(alloc, b"one", b"two").expect(&rt, "memory");
    let second = batch(alloc, b"", b"four").expect(&rt, "memory");
    let mut feed = Feed::create(Lasting::new(alloc)).ok().expect(&rt, "a feed");
    assert!(rt; feed.append(alloc, &first).is_ok());
    assert!(rt; feed.append(alloc, &second).is_ok());
    let bytes = read_file(alloc, &mut feed.disk).expect(&rt, "bytes");
    assert!(rt; bytes.starts_with(b"=one\n=two\n=\n=four\n\0"));
    let records = recover(alloc, &mut feed.disk).expect(&rt, "records");
    assert!(rt; are(&records, &[b"one", b"two", b"", b"four"]));
}

#[test]
fn a_feed_whose_sync_failed_is_over(rt: HostRuntime) {
    let alloc = rt.alloc();
    let batch = batch(alloc, b"one", b"two").expect(&rt, "memory");
    let mut feed = Feed::create(Fuse::new(Memory::new(alloc), 5))
        .ok()
        .expect(&rt, "a feed");
    assert!(rt; feed.append(alloc, &batch) == Err(FeedFault::Disk));
    assert!(rt; !feed.disk.may_be_used());
}

#[test]
fn what_is_told_is_kept(rt: HostRuntime) {
    let alloc = rt.alloc();
    let mut caller = Caller::new(alloc);
    let mut feed = Feed::create(Fuse::new(Memory::new(alloc), 12))
        .ok()
        .expect(&rt, "a feed");
    assert!(rt; keep_and_tell(alloc, &mut feed, &mut caller, b"one").is_ok());
    assert!(rt; keep_and_tell(alloc, &mut feed, &mut caller, b"two") == Err(FeedFault::Disk));
    assert!(rt; caller.told.len() == 1);
    let told = caller.told.first().expect(&rt, "a text");
    assert!(rt; told.as_slice() == b"one".as_slice());
}
