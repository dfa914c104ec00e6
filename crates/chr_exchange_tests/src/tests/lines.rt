//! Tells that are read straight from their bytes: their names are borrowed from the line, and those of lines that are
//! read by their JSON values are not.
use chr_json::{Command, RawAtom, read_line};
use std::alloc::Global;
use std::borrow::CowStr;
use std::process::Abort;

fn is_borrowed(atom: &RawAtom<'_>) -> bool {
    matches!(&atom.name, CowStr::Borrowed(_))
}

fn are_borrowed(atoms: &[RawAtom<'_>]) -> bool {
    for atom in atoms {
        if !is_borrowed(atom) {
            return false;
        }
    }
    true
}

fn has_borrowed_names(command: &Command<'_>) -> bool {
    match command {
        Command::Tell {
            replica: _,
            origin: _,
            number: _,
            atoms,
        } => are_borrowed(atoms),
        _ => false,
    }
}

/// Whether the line's command, which is a tell, is read from its bytes alone.
fn is_compact(alloc: Global, line: &[u8]) -> bool {
    match read_line(alloc, line) {
        Ok(command) => has_borrowed_names(&command),
        Err(_) => false,
    }
}

fn expect_compact(rt: &impl Abort, alloc: Global, lines: &[&str]) {
    for line in lines {
        assert!(rt; is_compact(alloc, line.as_bytes()), "at {line}");
    }
}

const COMPACT: [&str; 4] = [
    "[\"tell\",1,[1,7],[[\"path\",3,-4,5],[\"coin\"]]]",
    "[\"tell\",18446744073709551615,[4294967295,18446744073709551615],[[\"a\",0]]]",
    "[\"tell\",10,[20,30],[[\"a\",9223372036854775807,-9223372036854775807,-1,100]]]",
    "[\"tell\",1,[1,1],[[\"tell\"],[\"a b\",1,2,3,4,5,6,7],[\"[]{},:/'\u{7f}\"]]]",
];

/// Tells of this form cost less than lines that are read by their JSON values.
#[test]
fn compact_tells_are_read_from_their_bytes(rt: HostRuntime) {
    expect_compact(&rt, rt.alloc(), &COMPACT);
}
