//! What a changed text has that the one before had not.

use chr_faults::Span;
use std::alloc::{AllocError, Global};

/// What kind of character a byte is: bytes of one kind, but for others, make one word.
#[derive(Clone, Copy, Debug, PartialEq, Eq)]
enum Kind {
    Space,
    Word,
    Sign,
    Other,
}

fn kind_of(byte: u8) -> Kind {
    match byte {
        b' ' | b'\t' | b'\r' | b'\n' => Kind::Space,
        b'_' | b'a'..=b'z' | b'A'..=b'Z' | b'0'..=b'9' => Kind::Word,
        b'<' | b'>' | b'=' | b'\\' | b':' | b'-' => Kind::Sign,
        _ => Kind::Other,
    }
}

/// The words of a text, by their places.
fn words_in(alloc: Global, text: &[u8]) -> Result<Vec<Span>, AllocError> {
    let mut words: Vec<Span> = Vec::new(alloc);
    let mut before = Kind::Space;
    for (at, byte) in text.iter().enumerate() {
        let kind = kind_of(*byte);
        let to = at.saturating_add(1);
        if kind == before && kind != Kind::Other {
            if let Some(word) = words.last_mut() {
                word.to = if kind == Kind::Space { word.to } else { to };
            }
        } else if kind != Kind::Space {
            words.push(Span { from: at, to })?;
        }
        before = kind;
    }
    Ok(words)
}

/// A text and the places of its words.
#[derive(Drop)]
struct Words<'t> {
    text: &'t [u8],
    places: Vec<Span>,
}

impl Words<'_> {
    /// The bytes of the word of this number.
    fn word(&self, number: usize) -> Option<&[u8]> {
        let place = self.places.get(number)?;
        self.text.get(place.from..place.to)
    }

    /// The bytes of the word of this number, counted from the last one.
    fn last(&self, number: usize) -> Option<&[u8]> {
        let places = self.places.len();
        self.word(places.checked_sub(number)?.checked_sub(1)?)
    }
}

/// With how many words both texts begin.
fn same_front(old: &Words<'_>, new: &Words<'_>, most: usize) -> usize {
    for number in 0..most {
        if old.word(number) != new.word(number) {
            return number;
        }
    }
    most
}

/// With how many words both texts end.
fn same_back(old: &Words<'_>, new: &Words<'_>, most: usize) -> usize {
    for number in 0..most {
        if old.last(number) != new.last(number) {
            return number;
        }
    }
    most
}

/// A text with the places of its words.
fn words_of<'t>(alloc: Global, text: &'t [u8]) -> Result<Words<'t>, AllocError> {
    let places = words_in(alloc, text)?;
    Ok(Words { text, places })
}

/// What a text has behind the words with which it begins as the one before, and before those with which it ends as
/// that. None where it has no others.
pub(crate) fn changed_part(
    alloc: Global,
    before: &[u8],
    text: &[u8],
) -> Result<Option<Span>, AllocError> {
    let old = words_of(alloc, before)?;
    let new = words_of(alloc, text)?;
    let least = old.places.len().min(new.places.len());
    let front = same_front(&old, &new, least);
    let back = same_back(&old, &new, least.saturating_sub(front));
    let end = new.places.len().saturating_sub(back);
    let (Some(first), Some(last)) = (new.places.get(front), new.places.get(end.saturating_sub(1)))
    else {
        return Ok(None);
    };
    if front >= end {
        return Ok(None);
    }
    Ok(Some(Span {
        from: first.from,
        to: last.to,
    }))
}
