//! Parts of sentences: a text, a number or a word of a program's text, with what stands before and behind it.

use crate::limits::MAX_TOLD_BYTES;
use crate::line::shown;
use std::alloc::AllocError;
use std::fmt::Write;

/// Adds a text, between these.
pub fn push_text(
    out: &mut String,
    before: &str,
    text: &str,
    behind: &str,
) -> Result<(), AllocError> {
    out.push_str(before)?;
    out.push_str(text)?;
    out.push_str(behind)
}

fn push_decimal(out: &mut String, number: u64) -> Result<(), AllocError> {
    Ok(write!(out, "{number}")?)
}

/// Adds a number, between these.
pub fn push_number(
    out: &mut String,
    before: &str,
    number: u64,
    behind: &str,
) -> Result<(), AllocError> {
    out.push_str(before)?;
    push_decimal(out, number)?;
    out.push_str(behind)
}

/// Adds bytes of a text, `MAX_TOLD_BYTES` of them at most.
fn push_bytes(out: &mut String, bytes: &[u8]) -> Result<(), AllocError> {
    for byte in bytes.iter().take(MAX_TOLD_BYTES) {
        out.push(shown(*byte))?;
    }
    out.push_str(if MAX_TOLD_BYTES < bytes.len() {
        ".."
    } else {
        ""
    })
}

/// Adds a word of a program's text, between these: `MAX_TOLD_BYTES` bytes of it at most, a question mark for each that
/// is no printable character.
pub fn push_word(
    out: &mut String,
    before: &str,
    word: &[u8],
    behind: &str,
) -> Result<(), AllocError> {
    out.push_str(before)?;
    push_bytes(out, word)?;
    out.push_str(behind)
}
