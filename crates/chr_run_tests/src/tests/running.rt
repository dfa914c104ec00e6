//! Runs over readers that give little, and over devices that fail.

use super::lengths::Lengths;
use super::wires::Sips;
use super::{INPUT, OUTPUT, STOPPED, STOPS};
use chr_device::testing::{Drips, FailsAt};
use chr_device::{RunFault, Watched};
use chr_run::answer_at_end;
use std::alloc::Global;
use std::io::Read;
use std::process::Abort;
use std::sync::Wait;

/// What is written for what a reader gives, and the reader afterwards.
fn written<R: Read>(rt: &(impl Abort + Wait), alloc: Global, reader: R) -> (Vec<u8>, R) {
    let mut machine = Lengths::new();
    let mut reader = Watched::of(reader);
    let room = Vec::with_capacity(alloc, 64).expect(rt, "memory");
    let mut writer = Watched::of(room);
    answer_at_end(rt, alloc, &mut machine, &mut reader, &mut writer).expect(rt, "a run");
    (writer.into_inner(), reader.into_inner())
}

/// However little a reader gives, each line has its answer, and so has what comes after the last line feed.
#[test]
fn lines_are_answered_however_they_come(rt: HostRuntime) {
    let alloc = rt.alloc();
    for most in [1, 2, 5, 4_096] {
        let (text, reader) = written(&rt, alloc, Sips { rest: INPUT, most });
        assert!(rt; text.as_slice() == OUTPUT, "{most} a read");
        assert!(rt; reader.rest.is_empty(), "{most} a read");
    }
}

/// Where nothing is answered any more the rest is read all the same.
#[test]
fn a_run_reads_to_the_end(rt: HostRuntime) {
    let alloc = rt.alloc();
    for most in [1, 4_096] {
        let (text, reader) = written(&rt, alloc, Sips { rest: STOPS, most });
        assert!(rt; text.as_slice() == STOPPED, "{most} a read");
        assert!(rt; reader.rest.is_empty(), "{most} a read");
    }
}

/// What is written where one call of the reader and one of the writer fail, if any, and whether these are known to have
/// failed.
fn failed(rt: &(impl Abort + Wait), alloc: Global, read: u64, write: u64) -> (Vec<u8>, bool, bool) {
    let mut machine = Lengths::new();
    let mut reader = Watched::of(FailsAt::of(
        Sips {
            rest: INPUT,
            most: 4,
        },
        read,
    ));
    let room = Vec::with_capacity(alloc, 64).expect(rt, "memory");
    let mut writer = Watched::of(FailsAt::of(Drips::of(room), write));
    let result = answer_at_end(rt, alloc, &mut machine, &mut reader, &mut writer);
    assert!(rt;
        result == Err(RunFault::Device),
        "call {read} of reading, {write} of writing"
    );
    let broken = (reader.failed(), writer.failed());
    (
        writer.into_inner().into_inner().into_inner(),
        broken.0,
        broken.1,
    )
}

/// Four reads, of which the last gives nothing: nothing is written where one of them fails.
#[test]
fn nothing_is_written_where_the_reader_fails(rt: HostRuntime) {
    let alloc = rt.alloc();
    for call in 1..=4 {
        let (text, reader, writer) = failed(&rt, alloc, call, 0);
        assert!(rt; text.is_empty() && reader && !writer, "call {call}");
    }
}

/// Eight writes of a byte and the flush: what was written before is there.
#[test]
fn a_beginning_is_written_where_the_writer_fails(rt: HostRuntime) {
    let alloc = rt.alloc();
    for call in 1..=9 {
        let (text, reader, writer) = failed(&rt, alloc, 0, call);
        let there = text.len() as u64 + 1 == call && OUTPUT.starts_with(&text);
        assert!(rt; there && !reader && writer, "call {call}");
    }
}
