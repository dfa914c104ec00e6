//! Comments that name columns, as a text has them.

use crate::span::Span;
use chr_base::limits::MAX_NAME;
use std::alloc::{AllocError, Global};

/// The word with which such a comment begins.
const NAMING: &[u8] = b"chr_columns";

/// What a comment says of the columns of one symbol.
#[derive(Drop)]
pub(crate) struct Naming<'t> {
    /// The symbol's name, which is empty where the comment has no form from here on.
    pub symbol: &'t [u8],
    /// The words between its brackets, by their places in the text.
    pub words: Vec<Span>,
    /// How many bytes of the text stand before it.
    pub at: usize,
}

/// A line of a text, and how many bytes stand before it.
#[derive(Clone, Copy)]
struct Line<'t> {
    bytes: &'t [u8],
    start: usize,
}

/// A symbol's name and what stands between its brackets, by their places in a line, and the place behind these.
#[derive(Clone, Copy)]
struct Item {
    name: Span,
    inside: Span,
    next: usize,
}

/// Whether the byte may stand between the words of a comment.
fn is_layout(byte: u8) -> bool {
    matches!(byte, b' ' | b'\t' | b'\r' | 11 | 12)
}

fn is_word_byte(byte: u8) -> bool {
    byte == b'_' || byte.is_ascii_alphanumeric()
}

/// Whether this may be the name of a column: a word with a small first letter, no longer than other names.
pub(crate) fn is_column_name(word: &[u8]) -> bool {
    let is_small = matches!(word, [b'a'..=b'z', ..]);
    is_small && word.len() <= MAX_NAME && word.iter().all(|byte| is_word_byte(*byte))
}

/// The bytes from this place on.
fn bytes_from(bytes: &[u8], at: usize) -> &[u8] {
    bytes.get(at..).unwrap_or(&[])
}

/// The bytes at a place.
pub(crate) fn bytes_at(bytes: &[u8], place: Span) -> &[u8] {
    bytes.get(place.from..place.to).unwrap_or(&[])
}

/// The place behind the layout that stands here.
fn after_layout(line: &[u8], at: usize) -> usize {
    let rest = bytes_from(line, at);
    at.saturating_add(rest.iter().take_while(|byte| is_layout(**byte)).count())
}

/// The place behind the word that stands here.
fn after_word(line: &[u8], at: usize) -> usize {
    let rest = bytes_from(line, at);
    at.saturating_add(rest.iter().take_while(|byte| is_word_byte(**byte)).count())
}

/// The place of the next bracket.
fn next_bracket(line: &[u8], at: usize) -> usize {
    let rest = bytes_from(line, at);
    let len = rest
        .iter()
        .take_while(|byte| **byte != b'(' && **byte != b')')
        .count();
    at.saturating_add(len)
}

/// The place behind this sign, where it stands here.
fn after_sign(line: &[u8], at: usize, sign: u8) -> Option<usize> {
    if line.get(at) == Some(&sign) {
        Some(at.saturating_add(1))
    } else {
        None
    }
}

/// The place behind the word `chr_columns`, where the line's comment begins with that.
fn naming_place(line: &[u8]) -> Option<usize> {
    let before = line.iter().take_while(|byte| **byte != b'%').count();
    let comment = bytes_from(line, before);
    let signs = comment.iter().take_while(|byte| **byte == b'%').count();
    let at = after_layout(line, before.saturating_add(signs));
    let end = after_word(line, at);
    let is_naming = signs != 0 && bytes_at(line, Span { from: at, to: end }) == NAMING;
    is_naming.then_some(end)
}

/// The symbol with its brackets from this place on.
fn item_at(line: &[u8], from: usize) -> Option<Item> {
    let from = after_layout(line, from);
    let to = after_word(line, from);
    let inside = after_sign(line, after_layout(line, to), b'(')?;
    let close = next_bracket(line, inside);
    let next = after_layout(line, after_sign(line, close, b')')?);
    if !matches!(line.get(from), Some(b'a'..=b'z')) {
        return None;
    }
    Some(Item {
        name: Span { from, to },
        inside: Span {
            from: inside,
            to: close,
        },
        next,
    })
}

/// Whether the comment ends here, behind a full stop or without one.
fn is_end(line: &[u8], at: usize) -> bool {
    let at = after_sign(line, at, b'.').unwrap_or(at);
    line.len() <= after_layout(line, at)
}

/// A place without the layout round what stands there.
fn trimmed(line: &[u8], place: Span) -> Span {
    let from = after_layout(line, place.from).min(place.to);
    let inner = bytes_at(line, Span { from, to: place.to });
    let behind = inner
        .iter()
        .rev()
        .take_while(|byte| is_layout(**byte))
        .count();
    Span {
        from,
        to: place.to.saturating_sub(behind),
    }
}

/// The words between brackets, by their places in the text.
fn words_of(alloc: Global, line: Line<'_>, inside: Span) -> Result<Vec<Span>, AllocError> {
    let mut words = Vec::new(alloc);
    let mut from = inside.from;
    for word in bytes_at(line.bytes, inside).split(|byte| *byte == b',') {
        let to = from.saturating_add(word.len());
        let place = trimmed(line.bytes, Span { from, to });
        words.push(Span {
            from: line.start.saturating_add(place.from),
            to: line.start.saturating_add(place.to),
        })?;
        from = to.saturating_add(1);
    }
    Ok(words)
}

/// What has no form, from this place of a line on.
fn formless(alloc: Global, line: Line<'_>, from: usize) -> Naming<'static> {
    Naming {
        symbol: &[],
        words: Vec::new(alloc),
        at: line.start.saturating_add(after_layout(line.bytes, from)),
    }
}

/// Adds what the line says of columns behind this place.
fn push_namings<'t>(
    alloc: Global,
    found: &mut Vec<Naming<'t>>,
    line: Line<'t>,
    from: usize,
) -> Result<(), AllocError> {
    let mut at = from;
    for _ in 0..line.bytes.len() {
        let Some(item) = item_at(line.bytes, at) else {
            found.push(formless(alloc, line, at))?;
            return Ok(());
        };
        let more = after_sign(line.bytes, item.next, b',');
        if more.is_none() && !is_end(line.bytes, item.next) {
            found.push(formless(alloc, line, at))?;
            return Ok(());
        }
        found.push(Naming {
            symbol: bytes_at(line.bytes, item.name),
            words: words_of(alloc, line, item.inside)?,
            at: line.start.saturating_add(item.name.from),
        })?;
        let Some(next) = more else {
            return Ok(());
        };
        at = next;
    }
    Ok(())
}

/// What all comments of a text say of columns, in order.
pub(crate) fn namings_in<'t>(alloc: Global, text: &'t [u8]) -> Result<Vec<Naming<'t>>, AllocError> {
    let mut found = Vec::new(alloc);
    let mut start: usize = 0;
    for bytes in text.split(|byte| *byte == b'\n') {
        if let Some(from) = naming_place(bytes) {
            push_namings(alloc, &mut found, Line { bytes, start }, from)?;
        }
        start = start.saturating_add(bytes.len()).saturating_add(1);
    }
    Ok(found)
}
