//! The pieces of a line that is a JSON value: where they begin, and what they are.

use crate::json::{bytes_from, is_space, word_at};
use crate::mistake::Found;
use chr_json::{LineFault, value_in};
use std::alloc::{AllocError, Global};

/// Where the value of a line begins.
pub(crate) fn value_start(line: &[u8]) -> usize {
    line.iter().take_while(|byte| is_space(**byte)).count()
}

/// A walk along the elements of an array.
#[derive(Clone, Copy)]
struct Walk {
    /// How many brackets are open.
    depth: usize,
    in_text: bool,
    /// Whether a backslash stands before.
    is_escaped: bool,
    /// Whether the next element has not begun.
    expects: bool,
}

impl Walk {
    /// Goes over a byte of a text.
    fn text_byte(&mut self, byte: u8) {
        self.in_text = self.is_escaped || byte != b'"';
        self.is_escaped = !self.is_escaped && byte == b'\\';
    }

    /// Goes over a byte outside texts.
    fn sign(&mut self, byte: u8) {
        match byte {
            b'"' => self.in_text = true,
            b'[' | b'{' => self.depth = self.depth.saturating_add(1),
            b']' | b'}' => self.depth = self.depth.saturating_sub(1),
            b',' if self.depth == 1 => self.expects = true,
            _ => {}
        }
    }

    /// Goes over a byte, and tells whether an element begins with it.
    fn begins(&mut self, byte: u8) -> bool {
        if self.in_text {
            self.text_byte(byte);
            return false;
        }
        let begins = self.expects && !is_space(byte) && byte != b']';
        if begins {
            self.expects = false;
        }
        self.sign(byte);
        begins
    }
}

/// An array's elements by the places where they begin, and the place of its last bracket.
#[derive(Drop)]
pub(crate) struct Elements {
    pub starts: Vec<usize>,
    pub end: usize,
}

impl Elements {
    /// Where the element of this number begins, counted from 0: at the last bracket where there is none.
    pub(crate) fn start(&self, number: usize) -> usize {
        match self.starts.get(number) {
            Some(start) => *start,
            None => self.end,
        }
    }
}

/// The elements of the array that begins at this place. None where a value of another kind does.
pub(crate) fn elements_at(
    alloc: Global,
    line: &[u8],
    from: usize,
) -> Result<Option<Elements>, AllocError> {
    let Some(b'[') = line.get(from) else {
        return Ok(None);
    };
    let mut walk = Walk {
        depth: 1,
        in_text: false,
        is_escaped: false,
        expects: true,
    };
    let mut starts = Vec::new(alloc);
    for at in from.saturating_add(1)..line.len() {
        if walk.begins(line[at]) {
            starts.push(at)?;
        }
        if walk.depth == 0 {
            return Ok(Some(Elements { starts, end: at }));
        }
    }
    Ok(Some(Elements {
        starts,
        end: line.len(),
    }))
}

/// How many bytes the text takes whose first double quote stands at the front.
fn text_len(bytes: &[u8]) -> usize {
    let mut walk = Walk {
        depth: 0,
        in_text: true,
        is_escaped: false,
        expects: false,
    };
    let inner = bytes.iter().skip(1).take_while(|byte| {
        walk.text_byte(**byte);
        walk.in_text
    });
    inner.count().saturating_add(2)
}

/// The bytes of the text at this place, with its double quotes.
pub(crate) fn text_bytes(line: &[u8], at: usize) -> &[u8] {
    let bytes = bytes_from(line, at);
    bytes.get(..text_len(bytes)).unwrap_or(&[])
}

/// The text at this place. None where a value of another kind stands there.
pub(crate) fn text_at(alloc: Global, line: &[u8], at: usize) -> Result<Option<String>, AllocError> {
    if line.get(at) != Some(&b'"') {
        return Ok(None);
    }
    match value_in(alloc, text_bytes(line, at)) {
        Ok(value) => match value.as_str() {
            Some(text) => Ok(Some(String::from_str(alloc, text)?)),
            None => Ok(None),
        },
        Err(LineFault::Memory) => Err(AllocError),
        Err(_) => Ok(None),
    }
}

/// What kind of number a word is.
fn number_kind(word: &[u8]) -> Found {
    let is_whole = word.iter().all(|byte| matches!(byte, b'-' | b'0'..=b'9'));
    if !is_whole || word == b"-0".as_slice() {
        return Found::Fraction;
    }
    let text = str::from_utf8(word).unwrap_or("");
    if text.parse::<u64>().is_ok() {
        Found::Whole
    } else if text.parse::<i64>().is_ok() {
        Found::Negative
    } else {
        Found::Large
    }
}

/// Whether a text holds digits alone.
fn is_digits(quoted: &[u8]) -> bool {
    let inner = quoted.get(1..quoted.len().saturating_sub(1)).unwrap_or(&[]);
    !inner.is_empty() && inner.iter().all(|byte| byte.is_ascii_digit())
}

/// What stands at this place.
pub(crate) fn found_at(line: &[u8], at: usize) -> Found {
    let bytes = bytes_from(line, at);
    match bytes {
        [b'"', ..] if is_digits(text_bytes(line, at)) => Found::Digits,
        [b'"', ..] => Found::Text,
        [b'[', ..] => Found::Array,
        [b'{', ..] => Found::Object,
        [b't' | b'f', ..] => Found::Truth,
        [b'n', ..] => Found::Null,
        [b'-' | b'0'..=b'9', ..] => number_kind(word_at(line, at)),
        _ => Found::Nothing,
    }
}

/// The whole number at this place, if it has none below 0 and 64 bits hold it.
pub(crate) fn natural_at(line: &[u8], at: usize) -> Option<u64> {
    match found_at(line, at) {
        Found::Whole => str::from_utf8(word_at(line, at)).ok()?.parse().ok(),
        _ => None,
    }
}

/// Whether a whole number of 64 bits with a sign stands at this place.
pub(crate) fn is_argument(line: &[u8], at: usize) -> bool {
    match found_at(line, at) {
        Found::Negative => true,
        Found::Whole => natural_at(line, at).is_some_and(|number| i64::try_from(number).is_ok()),
        _ => false,
    }
}
