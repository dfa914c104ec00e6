//! A small log that is cut, or damaged, at each of its bytes.
use chr_records::{Damage, find_damage, push_message, read_records};
use std::alloc::Global;
use std::process::Abort;

const MESSAGES: [&[u8]; 3] = [b"first", b"", b"the third"];

/// The bytes of their records: each a gate, eight digits, a space, the message and a line feed.
const SIZE: usize = 47;

fn log(rt: &impl Abort, alloc: Global) -> Vec<u8> {
    let mut bytes = Vec::new(alloc);
    for message in MESSAGES {
        push_message(&mut bytes, message).expect(rt, "memory");
    }
    assert!(rt; bytes.len() == SIZE);
    bytes
}

/// How many records end at a byte or before it, and where the last of them ends.
fn whole_before(byte: usize) -> (usize, usize) {
    match byte {
        0..16 => (0, 0),
        16..27 => (1, 16),
        27..47 => (2, 27),
        _ => (3, 47),
    }
}

#[test]
fn a_cut_log_has_the_records_before(rt: HostRuntime) {
    let alloc = rt.alloc();
    let bytes = log(&rt, alloc);
    for cut in 0..=SIZE {
        let front = bytes.get(..cut).expect(&rt, "a front");
        let records = read_records(alloc, front).expect(&rt, "memory");
        let read = (records.texts.len(), records.size);
        assert!(rt; read == whole_before(cut), "cut at {cut}");
        assert!(rt; find_damage(front).is_none(), "cut at {cut}");
    }
}

fn ends_line(byte: u8) -> usize {
    if byte == b'\n' { 1 } else { 0 }
}

/// Whether this is told of a byte that became another: the record that has it, its place, and the lines from there on,
/// or nothing where no line is left.
fn is_told(told: Option<Damage>, byte: usize, old: u8, new: u8) -> bool {
    let (records, place) = whole_before(byte);
    let left = 3usize
        .saturating_sub(records)
        .saturating_sub(ends_line(old));
    let lines = left.saturating_add(ends_line(new));
    match told {
        None => lines == 0,
        Some(damage) => {
            damage
                == Damage {
                    records,
                    place,
                    lines,
                }
        }
    }
}

/// What was at a place, where something else is now.
fn put(rt: &impl Abort, bytes: &mut [u8], place: usize, new: u8) -> u8 {
    let byte = bytes.get_mut(place).expect(rt, "a byte");
    let old = *byte;
    *byte = new;
    old
}

#[test]
fn each_damaged_byte_is_told(rt: HostRuntime) {
    let mut bytes = log(&rt, rt.alloc());
    for place in 0..SIZE {
        for change in 1..=u8::MAX {
            let old = put(&rt, &mut bytes, place, 0);
            let new = old ^ change;
            let _zero = put(&rt, &mut bytes, place, new);
            let told = find_damage(&bytes);
            assert!(rt; is_told(told, place, old, new), "{new} at {place}");
            let _new = put(&rt, &mut bytes, place, old);
        }
    }
    assert!(rt; find_damage(&bytes).is_none());
}
