//! The loop itself: what is held at first, sizes, and where blocks are cut.
use super::INPUT;
use super::lengths::Lengths;
use super::wires::{Line, Sips};
use chr_device::Watched;
use chr_run::{Anywhere, Blocks, Cut, HoldsAll, OneRead, SendsPromptly, answer};
use std::alloc::Global;
use std::process::Abort;
use std::sync::Wait;

/// Blocks end with lines, as far as one has ended.
#[derive(Clone, Copy, Debug)]
struct AtFeeds;

impl Cut for AtFeeds {
    ghost AreWhole = { λ _. Unit {0} };

    fn whole_len(&self, bytes: &[u8]) -> usize {
        let mut whole = 0usize;
        let mut place = 0usize;
        for byte in bytes {
            place = place.saturating_add(1);
            if *byte == b'\n' {
                whole = place;
            }
        }
        whole.min(bytes.len())
    }
}

/// What is held after all of the input has been answered, where a line was held before.
fn held_by<C: Cut + Drop>(rt: &(impl Abort + Wait), alloc: Global, cut: C, size: usize) -> String {
    let mut machine = Lengths::new();
    let mut reader = Watched::of(Sips {
        rest: INPUT,
        most: 3,
    });
    let mut source = Blocks::new(alloc, cut, size, 8);
    let mut held = String::from_str(alloc, "here\n").expect(rt, "memory");
    let mut batch = Vec::new(alloc);
    answer(
        rt,
        &mut reader,
        &mut machine,
        &mut source,
        &mut HoldsAll,
        &mut batch,
        &mut held,
    )
    .expect(rt, "all is answered");
    held
}

/// Wherever blocks are cut, and however long they are.
#[test]
fn blocks_may_be_cut(rt: HostRuntime) {
    let alloc = rt.alloc();
    for size in [0, 1, 4, 64] {
        let anywhere = held_by(&rt, alloc, Anywhere, size);
        assert!(rt; anywhere.as_str() == "here\n3\n0\n2\n4\n", "{size} bytes");
        let lines = held_by(&rt, alloc, AtFeeds, size);
        assert!(rt;
            lines.as_str() == "here\n3\n0\n2\n4\n",
            "{size} bytes in lines"
        );
    }
}

/// What was read by others is answered first, and the line that was held is sent before that. Where little may be held
/// each of the four answers is sent by itself. The wire is waited for twice: for the other bytes, and for the end.
#[test]
fn what_is_there_comes_first(rt: HostRuntime) {
    let alloc = rt.alloc();
    let mut machine = Lengths::new();
    let room = Vec::with_capacity(alloc, 64).expect(&rt, "memory");
    let mut wire = Line::new(INPUT.split_at(6).1, 64, 0, room);
    let mut first = Vec::new(alloc);
    first
        .extend_from_slice(INPUT.split_at(6).0)
        .expect(&rt, "memory");
    let mut sink = SendsPromptly { most: 1 };
    let mut held = String::from_str(alloc, "here\n").expect(&rt, "memory");
    answer(
        &rt,
        &mut wire,
        &mut machine,
        &mut OneRead,
        &mut sink,
        &mut first,
        &mut held,
    )
    .expect(&rt, "all is answered");
    assert!(rt; wire.sent.as_slice() == b"here\n3\n0\n2\n4\n".as_slice());
    assert!(rt; wire.calls == 7 && held.is_empty());
}
