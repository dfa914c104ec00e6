//! What is told of words that were refused.

use crate::words::parse;
use clap::Error;
use clap::error::ErrorKind;
use std::alloc::{AllocError, Global};

/// The most characters of a word that are shown.
const SHOWN: usize = 60;

/// The names of the commands.
const COMMANDS: [&str; 5] = ["check", "explain", "run", "serve", "help"];

/// The options that have a value.
const WITH_VALUE: [&str; 3] = ["--replicas", "--workers", "--parts"];

/// The commands that have the options of [`WITH_VALUE`].
const ANSWERING: [&str; 2] = ["run", "serve"];

/// The options of `explain` alone.
const OF_EXPLAIN: [&str; 3] = ["--dot", "--html", "--all"];

/// The option of all commands.
const WIDE: &str = "--wide";

/// What the words show of why they were refused.
#[derive(Clone, Copy)]
enum Cause<'a> {
    /// `-` stands for the input.
    Dash,
    /// This looks like the input's name.
    File(&'a str),
    /// This option stands before the command.
    Before(&'a str),
    /// This option is one of other commands.
    OptionOf(&'a str, &'static str),
}

/// Whether a character is shown as it stands.
fn is_plain(c: char) -> bool {
    c == ' ' || c.is_ascii_graphic() || c.is_alphanumeric()
}

/// Whether a word is shown as it stands.
fn is_plain_word(word: &str) -> bool {
    word.chars().count() <= SHOWN && word.chars().all(is_plain)
}

/// A word as it is shown: cut where it is long, with the number of each character that may not be printable.
fn shown(alloc: Global, word: &str) -> Result<String, AllocError> {
    let mut text = String::new(alloc);
    for c in word.chars().take(SHOWN) {
        if is_plain(c) {
            text.push(c)?;
        } else {
            write!(text, "{}", c.escape_unicode())?;
        }
    }
    if word.chars().count() > SHOWN {
        text.push_str("...")?;
    }
    Ok(text)
}

/// All words as they are shown.
fn shown_words(alloc: Global, words: &[String]) -> Result<Vec<String>, AllocError> {
    let mut list = Vec::new(alloc);
    for word in words {
        list.push(shown(alloc, word)?)?;
    }
    Ok(list)
}

/// What `clap` says of the words, as if they had been written as they are shown.
fn clap_text(alloc: Global, words: &[String], error: &Error) -> Result<String, AllocError> {
    if words.iter().all(|word| is_plain_word(word)) {
        return format!(in alloc; "{error}");
    }
    let list = shown_words(alloc, words)?;
    match parse(alloc, &list) {
        Ok(_) => String::from_str(alloc, "error: a word is too long, or not printable\n"),
        Err(error) => format!(in alloc; "{error}"),
    }
}

/// Whether a word is neither a command nor an option.
fn is_stray(word: &str) -> bool {
    word == "-" || (!word.starts_with('-') && !COMMANDS.contains(&word))
}

/// Whether a word looks like a file's name, whatever stands before it.
fn looks_like_file(word: &str) -> bool {
    is_stray(word) && (word == "-" || word.contains('.') || word.contains('/'))
}

/// Whether a word is no number.
fn has_letter(word: &str) -> bool {
    !word.chars().all(|c| c.is_ascii_digit())
}

/// An option without the value behind its `=`.
fn name_of(option: &str) -> &str {
    match option.split_once('=') {
        Some((name, _)) => name,
        None => option,
    }
}

/// The commands that have this option, as they are told. None where there is no such option.
fn commands_with(option: &str) -> Option<&'static str> {
    if WITH_VALUE.contains(&option) {
        Some("'run' and 'serve'")
    } else if OF_EXPLAIN.contains(&option) {
        Some("'explain'")
    } else if option == WIDE {
        Some("each command")
    } else {
        None
    }
}

/// Whether this command has this option, which is one of some command.
fn has_option(command: &str, option: &str) -> bool {
    if WITH_VALUE.contains(&option) {
        ANSWERING.contains(&command)
    } else {
        option == WIDE || command == "explain"
    }
}

/// The input, as this word names it.
fn input_in(word: &str) -> Cause<'_> {
    if word == "-" {
        Cause::Dash
    } else {
        Cause::File(word)
    }
}

/// The first of these words that looks like a file's name.
fn file_in(words: &[String]) -> Option<Cause<'_>> {
    for word in words {
        if looks_like_file(word) {
            return Some(input_in(word));
        }
    }
    None
}

/// What this option, which stands behind a command, shows of the cause. An unknown option may have what stands behind
/// it as its value.
fn cause_in_option<'a>(option: &'a str, behind: &'a [String]) -> Option<Cause<'a>> {
    let name = name_of(option);
    match commands_with(name) {
        Some(commands) => Some(Cause::OptionOf(name, commands)),
        None => file_in(behind),
    }
}

/// What the words behind a command show: the first that is no option of the command, nor an option's value.
fn cause_behind<'a>(command: &str, words: &'a [String]) -> Option<Cause<'a>> {
    let mut is_value = false;
    for (place, word) in words.iter().enumerate() {
        let word = word.as_str();
        let name = name_of(word);
        if word.starts_with("--") && !(commands_with(name).is_some() && has_option(command, name)) {
            return cause_in_option(word, &words[place + 1..]);
        }
        if !is_value && is_stray(word) && has_letter(word) {
            return Some(input_in(word));
        }
        is_value = WITH_VALUE.contains(&word);
    }
    None
}

/// What the words show of why they were refused.
fn cause_in(words: &[String]) -> Option<Cause<'_>> {
    let first = words.get(1)?.as_str();
    if COMMANDS.contains(&first) {
        cause_behind(first, &words[2..])
    } else if commands_with(name_of(first)).is_some() {
        Some(Cause::Before(first))
    } else if looks_like_file(first) {
        Some(input_in(first))
    } else {
        None
    }
}

/// The first command among the words, and `run` where they name none.
fn named_command(words: &[String]) -> &str {
    for word in words {
        if COMMANDS.contains(&word.as_str()) {
            return word;
        }
    }
    "run"
}

/// Adds a line with this cause.
fn push_told(
    alloc: Global,
    command: &str,
    cause: Cause<'_>,
    text: &mut String,
) -> Result<(), AllocError> {
    match cause {
        Cause::Dash => write!(
            text,
            "\nThe input comes from standard input, without '-': chrrep {command}\n"
        )?,
        Cause::File(word) => {
            let name = shown(alloc, word)?;
            write!(
                text,
                "\nThe input comes from standard input: chrrep {command} < {name}\n"
            )?
        }
        Cause::Before(option) => {
            let option = shown(alloc, option)?;
            write!(
                text,
                "\nOptions stand behind the command: chrrep {command} {option}\n"
            )?
        }
        Cause::OptionOf(option, commands) => write!(
            text,
            "\n'{option}' is an option of {commands}\n"
        )?,
    }
    Ok(())
}

/// Adds a line with the likely cause, where the words show one.
fn push_cause(
    alloc: Global,
    words: &[String],
    kind: ErrorKind,
    text: &mut String,
) -> Result<(), AllocError> {
    if !matches!(
        kind,
        ErrorKind::UnknownArgument | ErrorKind::InvalidSubcommand
    ) {
        return Ok(());
    }
    match cause_in(words) {
        Some(cause) => push_told(alloc, named_command(words), cause, text),
        None => Ok(()),
    }
}

/// What is told the user of words that `clap` refused with this error: its text, in which each word is cut where it is
/// long and escaped where it can't be printed, and a line with the likely cause where the words show one.
pub fn refusal_text(alloc: Global, words: &[String], error: &Error) -> Result<String, AllocError> {
    let mut text = clap_text(alloc, words, error)?;
    push_cause(alloc, words, error.kind(), &mut text)?;
    Ok(text)
}
