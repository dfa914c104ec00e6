//! Services of wires that give little, and that hang up.

use super::lengths::Lengths;
use super::wires::Line;
use super::{INPUT, OUTPUT, STOPPED, STOPS};
use chr_device::RunFault;
use chr_run::answer_promptly;
use std::alloc::Global;
use std::process::Abort;
use std::sync::Wait;

/// The wire after a service that ends well.
fn served<'a>(rt: &(impl Abort + Wait), alloc: Global, input: &'a [u8], most: usize) -> Line<'a> {
    let mut machine = Lengths::new();
    let room = Vec::with_capacity(alloc, 64).expect(rt, "memory");
    let mut wire = Line::new(input, most, 0, room);
    answer_promptly(rt, alloc, &mut machine, &mut wire).expect(rt, "a service");
    wire
}

/// However little a wire gives, each line is answered before it is waited for.
#[test]
fn lines_are_answered_as_they_come(rt: HostRuntime) {
    let alloc = rt.alloc();
    for most in [1, 2, 5, 64] {
        let wire = served(&rt, alloc, INPUT, most);
        assert!(rt; wire.sent.as_slice() == OUTPUT, "{most} a wait");
        assert!(rt; wire.rest.is_empty() && !wire.kept_waiting, "{most} a wait");
    }
}

/// Where nothing is answered any more the wire is left.
#[test]
fn a_service_leaves_what_it_would_not_answer(rt: HostRuntime) {
    let alloc = rt.alloc();
    let wire = served(&rt, alloc, STOPS, 2);
    assert!(rt; wire.sent.as_slice() == STOPPED);
    assert!(rt; wire.rest == b"de\nwxyz".as_slice());
}

/// What a wire was sent that hangs up at a call, as far as it does.
fn cut_off(
    rt: &(impl Abort + Wait),
    alloc: Global,
    call: u64,
) -> (Result<(), RunFault>, Vec<u8>, bool) {
    let mut machine = Lengths::new();
    let room = Vec::with_capacity(alloc, 64).expect(rt, "memory");
    let mut wire = Line::new(INPUT, 4, call, room);
    let result = answer_promptly(rt, alloc, &mut machine, &mut wire);
    (result, wire.sent, wire.failed)
}

/// Four waits give `abc` and its feed, then two lines, then what has not ended, and the end. What is answered is sent
/// after the first, the second and the last of them.
const CALLS: u64 = 7;

/// At each call: of the answers that are cut off the wire has one byte.
#[test]
fn a_wire_may_hang_up(rt: HostRuntime) {
    let alloc = rt.alloc();
    let lengths: [usize; 7] = [0, 1, 2, 3, 6, 6, 7];
    for call in 1..=CALLS {
        let (result, sent, failed) = cut_off(&rt, alloc, call);
        assert!(rt; result == Err(RunFault::Device) && failed, "call {call}");
        assert!(rt; OUTPUT.starts_with(&sent), "call {call}");
        assert!(rt;
            lengths.get(call as usize - 1) == Some(&sent.len()),
            "call {call}"
        );
    }
    let (result, sent, failed) = cut_off(&rt, alloc, CALLS + 1);
    assert!(rt; result == Ok(()) && !failed && sent.as_slice() == OUTPUT);
}
