//! What keeps a JSON value from being a command.

use crate::mistake::{ArgumentPlace, Found, NoCommand, Wanted, Word};
use crate::pieces::{
    Elements, elements_at, found_at, is_argument, natural_at, text_at, value_start,
};
use chr_json::{MAX_OPERATION, MAX_ORIGIN};
use std::alloc::{AllocError, Global};

/// What is wrong with a part of a line, if anything is.
type Checked = Result<Option<NoCommand>, AllocError>;

/// What stands at a place where something else belongs.
fn wrong(line: &[u8], at: usize, wanted: Wanted) -> NoCommand {
    NoCommand {
        at,
        wanted,
        found: found_at(line, at),
    }
}

/// The same, as what is wrong with a part.
fn is_wrong(line: &[u8], at: usize, wanted: Wanted) -> Checked {
    Ok(Some(wrong(line, at, wanted)))
}

/// The elements of an array of so many. Else what is wrong with it.
fn parts_at(
    alloc: Global,
    line: &[u8],
    at: usize,
    count: usize,
    wanted: Wanted,
) -> Result<Result<Elements, NoCommand>, AllocError> {
    let Some(parts) = elements_at(alloc, line, at)? else {
        return Ok(Err(wrong(line, at, wanted)));
    };
    let found = match parts.starts.len() {
        many if many == count => return Ok(Ok(parts)),
        many if many > count => Found::More,
        _ => Found::Less,
    };
    Ok(Err(NoCommand {
        at: parts.start(count),
        wanted,
        found,
    }))
}

/// A whole number without a sign belongs here.
fn natural_fault(line: &[u8], at: usize, most: u64, wanted: Wanted) -> Option<NoCommand> {
    match natural_at(line, at) {
        Some(number) if number <= most => None,
        Some(_) => Some(NoCommand {
            at,
            wanted,
            found: Found::Large,
        }),
        None => Some(wrong(line, at, wanted)),
    }
}

fn number_fault(line: &[u8], at: usize) -> Option<NoCommand> {
    natural_fault(line, at, u64::MAX, Wanted::Number)
}

fn origin_fault(line: &[u8], at: usize) -> Option<NoCommand> {
    natural_fault(line, at, MAX_ORIGIN, Wanted::Origin)
}

fn replica_fault(line: &[u8], at: usize) -> Option<NoCommand> {
    natural_fault(line, at, u64::MAX, Wanted::Replica)
}

/// An operation's id belongs here.
fn id_fault(alloc: Global, line: &[u8], at: usize) -> Checked {
    match parts_at(alloc, line, at, 2, Wanted::Id)? {
        Ok(parts) => Ok(origin_fault(line, parts.start(0)).or_else(|| number_fault(
            line,
            parts.start(1),
        ))),
        Err(fault) => Ok(Some(fault)),
    }
}

/// A whole number of 64 bits with a sign belongs here, and something else stands here.
fn argument_fault(line: &[u8], at: usize, place: ArgumentPlace) -> NoCommand {
    let found = match found_at(line, at) {
        Found::Whole => Found::Large,
        other => other,
    };
    NoCommand {
        at,
        wanted: Wanted::Argument(place),
        found,
    }
}

/// The arguments of the atom whose name stands at this place belong here.
fn arguments_fault(line: &[u8], name_at: usize, starts: &[usize]) -> Option<NoCommand> {
    for (number, at) in starts.iter().enumerate() {
        if !is_argument(line, *at) {
            let place = ArgumentPlace {
                name_at,
                arity: starts.len(),
                number,
            };
            return Some(argument_fault(line, *at, place));
        }
    }
    None
}

/// An atom belongs here.
fn atom_fault(alloc: Global, line: &[u8], at: usize) -> Checked {
    let Some(parts) = elements_at(alloc, line, at)? else {
        return is_wrong(line, at, Wanted::Atom);
    };
    let name = parts.start(0);
    if !matches!(found_at(line, name), Found::Text | Found::Digits) {
        return is_wrong(line, name, Wanted::Name);
    }
    let arguments = parts.starts.get(1..).unwrap_or(&[]);
    Ok(arguments_fault(line, name, arguments))
}

/// The atoms of an operation belong here.
fn atoms_fault(alloc: Global, line: &[u8], at: usize) -> Checked {
    let Some(parts) = elements_at(alloc, line, at)? else {
        return is_wrong(line, at, Wanted::Atoms);
    };
    if parts.starts.is_empty() {
        return is_wrong(line, parts.end, Wanted::Atoms);
    }
    if parts.starts.len() > MAX_OPERATION {
        return Ok(Some(NoCommand {
            at: parts.start(MAX_OPERATION),
            wanted: Wanted::Atoms,
            found: Found::More,
        }));
    }
    for at in &parts.starts {
        if let Some(fault) = atom_fault(alloc, line, *at)? {
            return Ok(Some(fault));
        }
    }
    Ok(None)
}

/// A range of numbers belongs here.
fn range_fault(alloc: Global, line: &[u8], at: usize) -> Checked {
    let parts = match parts_at(alloc, line, at, 2, Wanted::Range)? {
        Ok(parts) => parts,
        Err(fault) => return Ok(Some(fault)),
    };
    let (first, last) = (parts.start(0), parts.start(1));
    if let Some(fault) = number_fault(line, first).or_else(|| number_fault(line, last)) {
        return Ok(Some(fault));
    }
    if natural_at(line, first) <= natural_at(line, last) {
        return Ok(None);
    }
    is_wrong(line, last, Wanted::RangeEnd)
}

/// An origin and its ranges belong here.
fn origin_ranges_fault(alloc: Global, line: &[u8], at: usize) -> Checked {
    let parts = match parts_at(alloc, line, at, 2, Wanted::OriginRanges)? {
        Ok(parts) => parts,
        Err(fault) => return Ok(Some(fault)),
    };
    if let Some(fault) = origin_fault(line, parts.start(0)) {
        return Ok(Some(fault));
    }
    let Some(ranges) = elements_at(alloc, line, parts.start(1))? else {
        return is_wrong(line, parts.start(1), Wanted::OriginRanges);
    };
    for at in &ranges.starts {
        if let Some(fault) = range_fault(alloc, line, *at)? {
            return Ok(Some(fault));
        }
    }
    Ok(None)
}

/// A summary belongs here.
fn summary_fault(alloc: Global, line: &[u8], at: usize) -> Checked {
    let Some(parts) = elements_at(alloc, line, at)? else {
        return is_wrong(line, at, Wanted::Summary);
    };
    for at in &parts.starts {
        if let Some(fault) = origin_ranges_fault(alloc, line, *at)? {
            return Ok(Some(fault));
        }
    }
    Ok(None)
}

/// An operation's number, or its id, and its atoms belong here.
fn operation_fault(alloc: Global, line: &[u8], at: usize, wanted: Wanted) -> Checked {
    let parts = match parts_at(alloc, line, at, 2, wanted)? {
        Ok(parts) => parts,
        Err(fault) => return Ok(Some(fault)),
    };
    let first = match wanted {
        Wanted::Numbered => number_fault(line, parts.start(0)),
        _ => id_fault(alloc, line, parts.start(0))?,
    };
    match first {
        Some(fault) => Ok(Some(fault)),
        None => atoms_fault(alloc, line, parts.start(1)),
    }
}

/// Operations belong at these places.
fn operations_fault(alloc: Global, line: &[u8], starts: &[usize], wanted: Wanted) -> Checked {
    for at in starts {
        if let Some(fault) = operation_fault(alloc, line, *at, wanted)? {
            return Ok(Some(fault));
        }
    }
    Ok(None)
}

/// An origin and its operations belong here.
fn group_fault(alloc: Global, line: &[u8], at: usize) -> Checked {
    let parts = match parts_at(alloc, line, at, 2, Wanted::Group)? {
        Ok(parts) => parts,
        Err(fault) => return Ok(Some(fault)),
    };
    if let Some(fault) = origin_fault(line, parts.start(0)) {
        return Ok(Some(fault));
    }
    match elements_at(alloc, line, parts.start(1))? {
        Some(operations) => { operations_fault(alloc, line, &operations.starts, Wanted::Numbered) }
        None => is_wrong(line, parts.start(1), Wanted::Group),
    }
}

/// What belongs into a delta of groups.
fn groups_fault(alloc: Global, line: &[u8], at: usize) -> Checked {
    let parts = match parts_at(alloc, line, at, 2, Wanted::Delta)? {
        Ok(parts) => parts,
        Err(fault) => return Ok(Some(fault)),
    };
    if natural_at(line, parts.start(0)) != Some(2) {
        return is_wrong(line, parts.start(0), Wanted::DeltaVersion);
    }
    let Some(groups) = elements_at(alloc, line, parts.start(1))? else {
        return is_wrong(line, parts.start(1), Wanted::Delta);
    };
    for at in &groups.starts {
        if let Some(fault) = group_fault(alloc, line, *at)? {
            return Ok(Some(fault));
        }
    }
    Ok(None)
}

/// Whether a number of any kind stands here.
fn is_number(line: &[u8], at: usize) -> bool {
    matches!(
        found_at(line, at),
        Found::Whole | Found::Negative | Found::Large | Found::Fraction
    )
}

/// A delta belongs here.
fn delta_fault(alloc: Global, line: &[u8], at: usize) -> Checked {
    let Some(parts) = elements_at(alloc, line, at)? else {
        return is_wrong(line, at, Wanted::Delta);
    };
    if is_number(line, parts.start(0)) {
        return groups_fault(alloc, line, at);
    }
    operations_fault(alloc, line, &parts.starts, Wanted::Operation)
}

/// The number 1 or 2 belongs here.
fn version_fault(line: &[u8], at: usize) -> Option<NoCommand> {
    match natural_at(line, at) {
        Some(1 | 2) => None,
        _ => Some(wrong(line, at, Wanted::Version)),
    }
}

/// A word as a line spells it.
pub(crate) fn word_of(text: &str) -> Option<Word> {
    match text {
        "tell" => Some(Word::Tell),
        "show" => Some(Word::Show),
        "sync" => Some(Word::Sync),
        "summary" => Some(Word::Summary),
        "lacks" => Some(Word::Lacks),
        "merge" => Some(Word::Merge),
        _ => None,
    }
}

/// How many things stand behind a word at least, and at most.
fn counts_of(word: Word) -> (usize, usize) {
    match word {
        Word::Show | Word::Summary => (1, 1),
        Word::Sync | Word::Merge => (2, 2),
        Word::Lacks => (2, 3),
        Word::Tell => (3, 3),
    }
}

/// What stands behind a word and its first replica.
fn rest_fault(alloc: Global, line: &[u8], word: Word, parts: &Elements) -> Checked {
    let second = parts.start(2);
    match word {
        Word::Show | Word::Summary => Ok(None),
        Word::Sync => Ok(replica_fault(line, second)),
        Word::Merge => delta_fault(alloc, line, second),
        Word::Tell => match id_fault(alloc, line, second)? {
            Some(fault) => Ok(Some(fault)),
            None => atoms_fault(alloc, line, parts.start(3)),
        },
        Word::Lacks => match summary_fault(alloc, line, second)? {
            None if parts.starts.len() == 4 => Ok(version_fault(line, parts.start(3))),
            found => Ok(found),
        },
    }
}

/// What stands behind a word.
fn parts_fault(alloc: Global, line: &[u8], word: Word, parts: &Elements) -> Checked {
    let (least, most) = counts_of(word);
    let count = parts.starts.len().saturating_sub(1);
    let found = if count < least {
        Found::Less
    } else if count > most {
        Found::More
    } else {
        return match replica_fault(line, parts.start(1)) {
            Some(fault) => Ok(Some(fault)),
            None => rest_fault(alloc, line, word, parts),
        };
    };
    Ok(Some(NoCommand {
        at: parts.start(most.saturating_add(1)),
        wanted: Wanted::Parts(word),
        found,
    }))
}

/// What keeps this array from being a command.
fn array_fault(alloc: Global, line: &[u8], parts: &Elements) -> Checked {
    let first = parts.start(0);
    let Some(text) = text_at(alloc, line, first)? else {
        return is_wrong(line, first, Wanted::Word);
    };
    match word_of(text.as_str()) {
        Some(word) => parts_fault(alloc, line, word, parts),
        None => is_wrong(line, first, Wanted::Word),
    }
}

/// What keeps the JSON value of a line from being a command.
pub(crate) fn command_fault(alloc: Global, line: &[u8]) -> Result<NoCommand, AllocError> {
    let start = value_start(line);
    let whole = wrong(line, start, Wanted::Command);
    let Some(parts) = elements_at(alloc, line, start)? else {
        return Ok(whole);
    };
    Ok(array_fault(alloc, line, &parts)?.unwrap_or(whole))
}
