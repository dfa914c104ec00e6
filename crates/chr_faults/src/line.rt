//! The line of a text in which a byte stands, with a caret under the byte.
ghost use Rattle.std.specs.Prelude.{◌≡◌, ◌≤◌, length};
ghost use Rattle.std.specs.List.{prefix_len};
ghost use Rattle.chr_faults.specs.Lines.{is_within_line, line_end, line_start};

use crate::limits::MAX_SHOWN;
use crate::place::place_of;
use std::alloc::AllocError;

/// Where the line of the byte at `at` begins.
pub fn line_start(text: &[u8], at: usize) -> usize
    requires { at ≤ length text.now }
    ensures value { result ≡ line_start text.now at }
    ensures within { result ≤ at }
{
    let place = place_of(text, at);
    at.saturating_sub(place.column - 1)
}

/// How many bytes stand before the first line feed.
fn feed_place(bytes: &[u8]) -> usize
    ensures value { result ≡ prefix_len is_within_line bytes.now }
    ensures within { result ≤ length bytes.now }
{
    bytes.iter().take_while(|b| **b != b'\n').count()
}

/// Where the line of the byte at `at` ends: before its line feed, or with the text.
pub fn line_end(text: &[u8], at: usize) -> usize
    requires { at ≤ length text.now }
    ensures value { result ≡ line_end text.now at }
    ensures from { at ≤ result }
    ensures within { result ≤ length text.now }
{
    at + feed_place(&text[at..])
}

/// The character that stands for a byte: itself where it is printable, a tab for a tab, else a question mark.
pub fn shown(byte: u8) -> char {
    if byte == b'\t' || (32 <= byte && byte <= 126) {
        char::from(byte)
    } else {
        '?'
    }
}

fn push_bytes(out: &mut String, bytes: &[u8]) -> Result<(), AllocError> {
    for byte in bytes {
        out.push(shown(*byte))?;
    }
    Ok(())
}

/// What stands before the caret: a tab for each tab, else spaces.
fn push_blanks(out: &mut String, bytes: &[u8]) -> Result<(), AllocError> {
    for byte in bytes {
        out.push(if *byte == b'\t' { '\t' } else { ' ' })?;
    }
    Ok(())
}

/// Adds the line of the byte at `at`, and a line with a caret under the byte. Of a long line only what stands near
/// the byte is shown, with `..` for the rest. Bytes that are no printable characters are shown as question marks.
pub fn push_line(out: &mut String, text: &[u8], at: usize) -> Result<(), AllocError>
    requires { at ≤ length text.now }
{
    let start = line_start(text, at);
    let end = line_end(text, at);
    let from = if MAX_SHOWN < at - start {
        at - MAX_SHOWN
    } else {
        start
    };
    let to = if MAX_SHOWN < end - at {
        at + MAX_SHOWN
    } else {
        end
    };
    let before = if from == start { "    " } else { "  .." };
    out.push_str(before)?;
    push_bytes(out, &text[from..to])?;
    out.push_str(if to == end { "\n    " } else { "..\n    " })?;
    push_blanks(out, &text[from..at])?;
    out.push_str("^\n")
}
