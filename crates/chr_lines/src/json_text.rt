//! What is wrong with bytes that are no JSON value, in sentences.

use crate::json::word_at;
use crate::limits::{MAX_DEPTH, MAX_TOLD_NAME};
use crate::mistake::{JsonFault, NoJson};
use chr_faults::{push_number, shown};
use std::alloc::AllocError;

/// What a command line is.
const COMMAND: &str =
    "a command line is a JSON array, as `[\"show\",1]` or `[\"tell\",1,[1,1],[[\"coin\"]]]`";

/// Adds bytes of a line, `MAX_TOLD_NAME` of them at most.
pub(crate) fn push_bytes(out: &mut String, bytes: &[u8]) -> Result<(), AllocError> {
    for byte in bytes.iter().take(MAX_TOLD_NAME) {
        out.push(shown(*byte))?;
    }
    out.push_str(if bytes.len() > MAX_TOLD_NAME {
        ".."
    } else {
        ""
    })
}

/// Tells that brackets are open where the line ends.
fn push_ends(out: &mut String, brackets: usize) -> Result<(), AllocError> {
    out.push_str("the line ends here, and ")?;
    if brackets == 1 {
        return out.push_str("a closing bracket is missing");
    }
    push_number(out, "", brackets as u64, " closing brackets are missing")
}

/// Tells that a word stands where a value belongs.
fn push_word(out: &mut String, line: &[u8], at: usize) -> Result<(), AllocError> {
    if at == 0 {
        return out.push_str(COMMAND);
    }
    out.push_str("a text stands in double quotes: `\"")?;
    push_bytes(out, word_at(line, at))?;
    out.push_str("\"`, and each argument is a whole number")
}

/// What is wrong with a character with which no value begins.
fn sign_text(line: &[u8], at: usize) -> &'static str {
    match line.get(at) {
        Some(b'\'') => "a text stands in double quotes, not in single ones",
        Some(b'%' | b'#' | b'/') if at == 0 => {
            "a comment stands in the program text, before the line `---`"
        }
        _ if at == 0 => COMMAND,
        _ => "no JSON value begins with this character",
    }
}

/// What a fault is that is told in the same words everywhere.
fn plain_text(fault: JsonFault) -> &'static str {
    match fault {
        JsonFault::NoText => "this byte is no UTF-8",
        JsonFault::OpenText => "this text has no double quote at its end",
        JsonFault::Control => "this character is written with a backslash, as `\\t` or `\\n`",
        JsonFault::Escape => {
            "behind a backslash stands one of the characters `\"\\/bfnrt`, or `u` with four hexadecimal digits"
        }
        JsonFault::Half => "this escape is one half of a character, without the other one",
        JsonFault::BadNumber => {
            "this is no JSON number: whole numbers are written as 1 or -5, without `+` and without zeros in front"
        }
        JsonFault::Comma => "a value belongs here: a comma stands between two of them",
        JsonFault::NoComma => "a comma is missing before this",
        JsonFault::NoKey =>
            "a name in double quotes belongs here, as objects have members; commands have none",
        JsonFault::NoColon => "a colon belongs here, as in objects; commands have none",
        JsonFault::Bracket => "this bracket closes none that is open",
        JsonFault::Behind => "the command has ended before this: each stands on a line of its own",
        _ => COMMAND,
    }
}

/// Tells what is wrong with a line that is no JSON value.
pub(crate) fn push_no_json(out: &mut String, line: &[u8], it: NoJson) -> Result<(), AllocError> {
    match it.fault {
        JsonFault::Ends(brackets) => push_ends(out, brackets),
        JsonFault::Word => push_word(out, line, it.at),
        JsonFault::Sign => out.push_str(sign_text(line, it.at)),
        JsonFault::Depth => {
            let behind = " brackets stand in one another";
            push_number(out, "more than ", MAX_DEPTH as u64, behind)
        }
        fault => out.push_str(plain_text(fault)),
    }
}
