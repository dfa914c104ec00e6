//! Where bytes stop being a JSON value.

use crate::limits::MAX_DEPTH;
use crate::mistake::{JsonFault, NoJson};
use chr_json::{LineFault, value_in};
use std::alloc::{AllocError, Global};

/// What may come next.
#[derive(Clone, Copy)]
enum Next {
    Value,
    ValueOrEnd,
    Key,
    KeyOrEnd,
    Colon,
    CommaOrEnd,
    Nothing,
}

/// A walk along bytes: where it is, what may come next, and which brackets are open.
#[derive(Drop)]
struct Walk<'a> {
    text: &'a [u8],
    at: usize,
    next: Next,
    open: Vec<u8>,
}

/// How a walk goes on.
enum Step {
    On,
    Done,
    Wrong(NoJson),
}

fn wrong(at: usize, fault: JsonFault) -> Step {
    Step::Wrong(NoJson { at, fault })
}

/// Whether this is white space of JSON.
pub(crate) fn is_space(byte: u8) -> bool {
    matches!(byte, b' ' | b'\t' | b'\r' | b'\n')
}

/// Whether this byte may stand in a number or in a word.
pub(crate) fn is_wordly(byte: u8) -> bool {
    byte.is_ascii_alphanumeric() || matches!(byte, b'+' | b'-' | b'.' | b'_') || byte >= 128
}

/// The bytes from this place on.
pub(crate) fn bytes_from(text: &[u8], at: usize) -> &[u8] {
    text.get(at..).unwrap_or(&[])
}

/// The number or the word at this place.
pub(crate) fn word_at(text: &[u8], at: usize) -> &[u8] {
    let rest = bytes_from(text, at);
    let len = rest.iter().take_while(|byte| is_wordly(**byte)).count();
    rest.get(..len).unwrap_or(&[])
}

/// What is wrong with a word that is no value.
fn word_fault(word: &[u8]) -> JsonFault {
    match word {
        [b'+' | b'-' | b'.' | b'0'..=b'9', ..] => JsonFault::BadNumber,
        [] => JsonFault::Sign,
        _ => JsonFault::Word,
    }
}

/// The four digits of a `\u` as a number.
fn unit_at(text: &[u8], at: usize) -> Option<u32> {
    let digits = text.get(at..at.saturating_add(4))?;
    if !digits.iter().all(|byte| byte.is_ascii_hexdigit()) {
        return None;
    }
    u32::from_str_radix(str::from_utf8(digits).ok()?, 16).ok()
}

/// How many bytes an escape takes whose backslash stands at this place, or what is wrong with it.
fn escape_len(text: &[u8], at: usize) -> Result<usize, JsonFault> {
    match text.get(at.saturating_add(1)) {
        Some(b'"' | b'\\' | b'/' | b'b' | b'f' | b'n' | b'r' | b't') => Ok(2),
        Some(b'u') => unit_len(text, at),
        _ => Err(JsonFault::Escape),
    }
}

/// How many bytes an escape `\u` takes: twice as many where it is one half of a character.
fn unit_len(text: &[u8], at: usize) -> Result<usize, JsonFault> {
    match unit_at(text, at.saturating_add(2)) {
        None => Err(JsonFault::Escape),
        Some(0xd800..=0xdbff) => {
            let second = text.get(at.saturating_add(6)..at.saturating_add(8));
            match unit_at(text, at.saturating_add(8)) {
                Some(0xdc00..=0xdfff) if second == Some(b"\\u".as_slice()) => Ok(12),
                _ => Err(JsonFault::Half),
            }
        }
        Some(0xdc00..=0xdfff) => Err(JsonFault::Half),
        Some(_) => Ok(6),
    }
}

/// Where a text ends whose first double quote stands at this place, or what is wrong with it.
fn text_end(text: &[u8], from: usize) -> Result<usize, NoJson> {
    let mut at = from.saturating_add(1);
    for _ in 0..text.len() {
        match text.get(at) {
            Some(b'"') => return Ok(at.saturating_add(1)),
            Some(b'\\') => match escape_len(text, at) {
                Ok(len) => at = at.saturating_add(len),
                Err(fault) => return Err(NoJson { at, fault }),
            },
            Some(0..32) => {
                let fault = JsonFault::Control;
                return Err(NoJson { at, fault });
            }
            Some(_) => at = at.saturating_add(1),
            None => {}
        }
    }
    Err(NoJson {
        at: from,
        fault: JsonFault::OpenText,
    })
}

impl Walk<'_> {
    /// What may come behind a value.
    fn end_value(&mut self, at: usize) -> Step {
        self.at = at;
        self.next = if self.open.is_empty() {
            Next::Nothing
        } else {
            Next::CommaOrEnd
        };
        Step::On
    }

    /// Opens a bracket.
    fn open(&mut self, bracket: u8) -> Result<Step, AllocError> {
        if self.open.len() >= MAX_DEPTH {
            return Ok(wrong(self.at, JsonFault::Depth));
        }
        self.open.push(bracket)?;
        self.at = self.at.saturating_add(1);
        self.next = if bracket == b'[' {
            Next::ValueOrEnd
        } else {
            Next::KeyOrEnd
        };
        Ok(Step::On)
    }

    /// Closes a bracket.
    fn close(&mut self, bracket: u8) -> Step {
        let wanted = if bracket == b']' { b'[' } else { b'{' };
        if self.open.last() != Some(&wanted) {
            return wrong(self.at, JsonFault::Bracket);
        }
        let _open = self.open.pop();
        self.end_value(self.at.saturating_add(1))
    }

    /// Takes a text, behind which this may come.
    fn take_text(&mut self, is_key: bool) -> Step {
        match text_end(self.text, self.at) {
            Err(fault) => Step::Wrong(fault),
            Ok(end) if is_key => {
                self.at = end;
                self.next = Next::Colon;
                Step::On
            }
            Ok(end) => self.end_value(end),
        }
    }

    /// Takes a number or a word.
    fn take_word(&mut self, alloc: Global) -> Result<Step, AllocError> {
        let word = word_at(self.text, self.at);
        match value_in(alloc, word) {
            Ok(_) => Ok(self.end_value(self.at.saturating_add(word.len()))),
            Err(LineFault::Memory) => Err(AllocError),
            Err(_) => Ok(wrong(self.at, word_fault(word))),
        }
    }

    /// Takes a bracket that closes where a value may stand.
    fn take_end(&mut self, byte: u8) -> Step {
        match self.next {
            Next::ValueOrEnd => self.close(byte),
            _ if self.open.is_empty() => wrong(self.at, JsonFault::Bracket),
            _ => wrong(self.at, JsonFault::Comma),
        }
    }

    /// Takes what begins with this byte as a value.
    fn take_value(&mut self, alloc: Global, byte: u8) -> Result<Step, AllocError> {
        match byte {
            b'[' | b'{' => self.open(byte),
            b'"' => Ok(self.take_text(false)),
            b',' => Ok(wrong(self.at, JsonFault::Comma)),
            b']' | b'}' => Ok(self.take_end(byte)),
            _ => self.take_word(alloc),
        }
    }

    /// Takes what begins with this byte as the name of a member.
    fn take_key(&mut self, byte: u8) -> Step {
        match (byte, self.next) {
            (b'"', _) => self.take_text(true),
            (b'}', Next::KeyOrEnd) => self.close(byte),
            _ => wrong(self.at, JsonFault::NoKey),
        }
    }

    /// Takes what stands behind the name of a member.
    fn take_colon(&mut self, byte: u8) -> Step {
        if byte != b':' {
            return wrong(self.at, JsonFault::NoColon);
        }
        self.at = self.at.saturating_add(1);
        self.next = Next::Value;
        Step::On
    }

    /// Takes what stands behind a value in brackets.
    fn take_comma(&mut self, byte: u8) -> Step {
        match byte {
            b',' => {
                self.at = self.at.saturating_add(1);
                self.next = if self.open.last() == Some(&b'{') {
                    Next::Key
                } else {
                    Next::Value
                };
                Step::On
            }
            b']' | b'}' => self.close(byte),
            _ => wrong(self.at, JsonFault::NoComma),
        }
    }

    /// Goes on by one piece.
    fn step(&mut self, alloc: Global) -> Result<Step, AllocError> {
        let rest = bytes_from(self.text, self.at);
        let spaces = rest.iter().take_while(|byte| is_space(**byte)).count();
        self.at = self.at.saturating_add(spaces);
        let Some(byte) = self.text.get(self.at) else {
            return Ok(match self.next {
                Next::Nothing => Step::Done,
                _ => wrong(self.text.len(), JsonFault::Ends(self.open.len())),
            });
        };
        match self.next {
            Next::Value | Next::ValueOrEnd => self.take_value(alloc, *byte),
            Next::Key | Next::KeyOrEnd => Ok(self.take_key(*byte)),
            Next::Colon => Ok(self.take_colon(*byte)),
            Next::CommaOrEnd => Ok(self.take_comma(*byte)),
            Next::Nothing => Ok(wrong(self.at, JsonFault::Behind)),
        }
    }
}

/// What is wrong with the brackets, texts, numbers and words of bytes.
fn form_fault(alloc: Global, text: &[u8]) -> Result<NoJson, AllocError> {
    let mut walk = Walk {
        text,
        at: 0,
        next: Next::Value,
        open: Vec::new(alloc),
    };
    for _ in 0..=text.len() {
        match walk.step(alloc)? {
            Step::On => {}
            Step::Wrong(fault) => return Ok(fault),
            Step::Done => break,
        }
    }
    Ok(NoJson {
        at: 0,
        fault: JsonFault::Sign,
    })
}

/// Whether other bytes behind could mend it.
fn is_at_end(fault: JsonFault) -> bool {
    matches!(fault, JsonFault::Ends(_) | JsonFault::OpenText)
}

/// What is wrong with bytes of which so many are UTF-8, and the next ones are not.
fn foreign_fault(alloc: Global, text: &[u8], valid: usize) -> Result<NoJson, AllocError> {
    let before = form_fault(alloc, text.get(..valid).unwrap_or(&[]))?;
    if !is_at_end(before.fault) {
        return Ok(before);
    }
    Ok(NoJson {
        at: valid,
        fault: JsonFault::NoText,
    })
}

/// What is wrong with bytes that are no JSON value.
pub(crate) fn json_fault(alloc: Global, text: &[u8]) -> Result<NoJson, AllocError> {
    match str::from_utf8(text) {
        Ok(_) => form_fault(alloc, text),
        Err(error) => foreign_fault(alloc, text, error.valid_up_to()),
    }
}
