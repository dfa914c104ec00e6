//! What keeps a JSON value from being a command, in sentences.

use crate::json_text::push_bytes;
use crate::lines_text::Source;
use crate::mistake::{ArgumentPlace, Found, NoCommand, Wanted, Word};
use crate::pieces::text_bytes;
use chr_faults::{columns_of, push_number, push_text, push_word};
use std::alloc::AllocError;

/// What a word takes, with an example.
fn parts_text(word: Word) -> &'static str {
    match word {
        Word::Tell => {
            "`tell` takes a replica, an id and atoms, as `[\"tell\",1,[1,1],[[\"coin\"],[\"path\",1,2,7]]]`"
        }
        Word::Show => "`show` takes a replica, as `[\"show\",1]`",
        Word::Sync => {
            "`sync` takes the replica that gives and the one that takes, as `[\"sync\",1,2]`"
        }
        Word::Summary => "`summary` takes a replica, as `[\"summary\",1]`",
        Word::Lacks => {
            "`lacks` takes a replica, a summary and at most a version, as `[\"lacks\",1,[[1,[[1,5]]]]]`"
        }
        Word::Merge => {
            "`merge` takes a replica and a delta, as `[\"merge\",1,[2,[[1,[[1,[[\"coin\"]]]]]]]]`"
        }
    }
}

/// What belongs into a message between replicas.
fn message_text(wanted: Wanted) -> &'static str {
    match wanted {
        Wanted::Summary => {
            "a summary is an array of origins with ranges of numbers, as `[[1,[[1,5],[7,7]]]]`"
        }
        Wanted::OriginRanges => {
            "an origin and its ranges are an array of the two, as `[1,[[1,5],[7,7]]]`"
        }
        Wanted::Range => "a range is an array of its first and its last number, as `[1,5]`",
        Wanted::RangeEnd => "the last number of a range is no less than its first, as in `[1,5]`",
        Wanted::Version => "a version is 1 or 2",
        Wanted::Delta => "a delta is an array, as `[2,[[1,[[1,[[\"coin\"]]]]]]]`",
        Wanted::DeltaVersion => "a delta that begins with a number begins with 2",
        Wanted::Group => {
            "an origin and its operations are an array of the two, as `[1,[[1,[[\"coin\"]]]]]`"
        }
        Wanted::Numbered => {
            "an operation is an array of its number and its atoms, as `[1,[[\"coin\"]]]`"
        }
        _ => "an operation is an array of its id and its atoms, as `[[1,1],[[\"coin\"]]]`",
    }
}

/// What belongs at a place.
fn wanted_text(wanted: Wanted) -> &'static str {
    match wanted {
        Wanted::Command => "a command is an array, as `[\"show\",1]`",
        Wanted::Word => {
            "a command begins with its word: `\"tell\"`, `\"show\"`, `\"sync\"`, `\"summary\"`, `\"lacks\"` or `\"merge\"`"
        }
        Wanted::Parts(word) => parts_text(word),
        Wanted::Replica => "a replica is a whole number: 1 is the first one",
        Wanted::Id => {
            "an id is an array of two whole numbers, the origin and the number there, as `[1,1]`"
        }
        Wanted::Origin => "an origin is a whole number from 0 to 4294967295",
        Wanted::Number => "a number of an operation is a whole one from 0 to 18446744073709551615",
        Wanted::Atoms =>
            "an operation has 1 to 64 atoms in an array, as `[[\"coin\"],[\"path\",1,2,7]]`",
        Wanted::Atom => "an atom is an array of its name and its arguments, as `[\"path\",1,2,7]`",
        Wanted::Name => "an atom begins with its name in double quotes, as `[\"coin\"]`",
        Wanted::Argument(_) => " is a whole number of 64 bits",
        wanted => message_text(wanted),
    }
}

/// What stands at a place.
fn found_text(found: Found) -> &'static str {
    match found {
        Found::Nothing => "here is none",
        Found::Less => "one of them is missing",
        Found::More => "this is too much",
        Found::Null => "this is `null`",
        Found::Truth => "this is `true` or `false`",
        Found::Text => "this is a text",
        Found::Digits => "this is a text of digits",
        Found::Whole => "this is a number",
        Found::Negative => "this is below 0",
        Found::Large => "this is too large",
        Found::Fraction => "this has a fraction or an exponent",
        Found::Array => "this is an array",
        Found::Object => "this is an object",
    }
}

/// What would be right, where that is known.
fn advice(it: NoCommand) -> Option<&'static str> {
    match (it.wanted, it.found) {
        (Wanted::Atom, Found::Text | Found::Digits) => {
            Some("a pair of brackets is missing: write `[[\"coin\"]]` for `[\"coin\"]`")
        }
        (Wanted::Argument(_), Found::Text) => {
            Some("give each name a number of its own, and write that")
        }
        (Wanted::Argument(_), Found::Fraction) => {
            Some("count in a smaller unit, as 250 hundredths for 2.5")
        }
        (_, Found::Digits) => Some("write the number without double quotes"),
        _ => None,
    }
}

/// The name of the column of an argument, where the program's text gives it one.
fn column_of<'a>(source: Source<'a>, name: &[u8], place: ArgumentPlace) -> Option<&'a str> {
    let symbol = source
        .program
        .symbol(str::from_utf8(name).ok()?, place.arity)?;
    columns_of(source.columns, symbol)?.name(place.number)
}

/// Adds the name of a column, where there is one.
fn push_column(out: &mut String, column: Option<&str>) -> Result<(), AllocError> {
    match column {
        Some(column) => push_text(out, " (", column, ")"),
        None => Ok(()),
    }
}

/// Adds which argument of which atom it is.
fn push_argument(
    out: &mut String,
    source: Source<'_>,
    line: &[u8],
    place: ArgumentPlace,
) -> Result<(), AllocError> {
    let quoted = text_bytes(line, place.name_at);
    let name = quoted.get(1..quoted.len().saturating_sub(1)).unwrap_or(&[]);
    push_number(out, "argument ", place.number.saturating_add(1) as u64, "")?;
    push_column(out, column_of(source, name, place))?;
    push_word(out, " of `", name, "`")
}

/// Tells what keeps a JSON value from being a command.
pub(crate) fn push_no_command(
    out: &mut String,
    source: Source<'_>,
    line: &[u8],
    it: NoCommand,
) -> Result<(), AllocError> {
    if let Wanted::Argument(place) = it.wanted {
        push_argument(out, source, line, place)?;
    }
    out.push_str(wanted_text(it.wanted))?;
    if matches!((it.wanted, it.found), (Wanted::Word, Found::Text)) {
        out.push_str("; `")?;
        push_bytes(out, text_bytes(line, it.at))?;
        return out.push_str("` is none of them");
    }
    out.push_str("; ")?;
    out.push_str(found_text(it.found))
}

/// Adds a line with what would be right, where that is known.
pub(crate) fn push_advice(out: &mut String, it: NoCommand) -> Result<(), AllocError> {
    let Some(advice) = advice(it) else {
        return Ok(());
    };
    out.push_str("    ")?;
    out.push_str(advice)?;
    out.push_str("\n")
}
