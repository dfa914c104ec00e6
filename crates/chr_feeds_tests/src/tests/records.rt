//! Records and messages as bytes, which are written out here.
use crate::tests::are;
use chr_records::{
    count_lines, crc_32, is_text, message_in, push_message, push_record, read_on, read_records,
    split_message, split_record,
};
use std::process::Abort;

/// The check values that are published with the polynomial, and the sums of no byte and of one.
const SUMS: [(&[u8], u32); 4] = [
    (b"", 0),
    (b"a", 0xe8b7_be43),
    (b"123456789", 0xcbf4_3926),
    (b"The quick brown fox jumps over the lazy dog", 0x414f_a339),
];

#[test]
fn sums_are_those_of_the_polynomial(rt: HostRuntime) {
    for (message, sum) in SUMS {
        assert!(rt; crc_32(message) == sum, "{sum}");
    }
}

#[test]
fn a_message_stands_behind_its_sum(rt: HostRuntime) {
    let mut bytes = Vec::new(rt.alloc());
    push_message(&mut bytes, b"123456789").expect(&rt, "memory");
    assert!(rt; bytes.as_slice() == b"=cbf43926 123456789\n".as_slice());
    assert!(rt; message_in(b"cbf43926 123456789") == Some(b"123456789".as_slice()));
    assert!(rt; message_in(b"cbf43926 123456780").is_none());
    assert!(rt; message_in(b"CBF43926 123456789").is_none());
    assert!(rt; message_in(b"cbf4392").is_none());
    let split = split_message(&bytes).expect(&rt, "a message");
    assert!(rt; split.0 == b"123456789".as_slice());
    assert!(rt; split.1.is_empty());
}

/// Two records, and a third whose end is missing.
const LOG: &[u8] = b"=one\n=two\n=thr\0\0\0";

#[test]
fn records_are_written_and_read(rt: HostRuntime) {
    let alloc = rt.alloc();
    let mut bytes = Vec::new(alloc);
    push_record(&mut bytes, b"one").expect(&rt, "memory");
    push_record(&mut bytes, b"two").expect(&rt, "memory");
    assert!(rt; bytes.as_slice() == b"=one\n=two\n".as_slice());
    let records = read_records(alloc, LOG).expect(&rt, "memory");
    assert!(rt; are(&records, &[b"one", b"two"]));
    assert!(rt; records.size == 10);
    let split = split_record(LOG).expect(&rt, "a record");
    assert!(rt; split.0 == b"one".as_slice());
    assert!(rt; count_lines(split.1) == 1);
}

#[test]
fn reading_goes_on_behind_what_was_read(rt: HostRuntime) {
    let alloc = rt.alloc();
    let rest = read_on(alloc, LOG, 5).expect(&rt, "memory");
    assert!(rt; are(&rest, &[b"two"]));
    assert!(rt; rest.size == 5);
}

#[test]
fn texts_have_no_line_feed_and_no_zero(rt: HostRuntime) {
    assert!(rt; is_text(b""));
    assert!(rt; is_text(b"=a b"));
    assert!(rt; !is_text(b"a\nb"));
    assert!(rt; !is_text(b"a\0"));
}
