//! How much a reader is asked for.
use chr_device::{Watched, read_on};
use std::alloc::Global;
use std::process::Abort;

/// More than two of the chunks that are read at once, and less than three: three reads give bytes.
const LENGTH: usize = 2 * 16_384 + 1_000;

/// The most bytes that are wanted, how many are then held, and how many are left, by reads of 16,384.
const HELD: [(usize, usize, usize); 4] = [
    (0, 16_384, 17_384),
    (16_383, 16_384, 17_384),
    (16_384, 32_768, 1_000),
    (32_768, 33_768, 0),
];

/// How many bytes are held once more than `most` are, or the text has ended, and how many of the text are left.
fn held_of(rt: &impl Abort, alloc: Global, text: &[u8], most: usize) -> (usize, usize) {
    let mut reader = Watched::of(text);
    let mut held = Vec::new(alloc);
    let read = read_on(&mut reader, &mut held, most);
    assert!(rt; read.is_ok());
    (held.len(), reader.into_inner().len())
}

fn expect_held(rt: &impl Abort, alloc: Global, text: &[u8], rows: &[(usize, usize, usize)]) {
    for (most, held, left) in rows {
        assert!(rt;
            held_of(rt, alloc, text, *most) == (*held, *left),
            "{most} bytes"
        );
    }
}

#[test]
fn no_more_is_read_than_is_wanted(rt: HostRuntime) {
    expect_held(&rt, rt.alloc(), &[b'a'; LENGTH], &HELD);
}
