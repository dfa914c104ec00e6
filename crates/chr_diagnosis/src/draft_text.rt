//! Changed rules as they are told.

use crate::draft::{Draft, Pair};
use crate::fact_text::push_value;
use crate::rule_text::{ToldRule, variable_in};
use chr_base::program::Program;
use chr_base::rule::Rule;
use chr_base::term::{Cmp, Comparison, Pattern, Term};
use chr_faults::{push_number, push_text};
use chr_read::push_pattern;
use std::alloc::{AllocError, Global};

/// The sign of a comparison.
pub fn sign(cmp: Cmp) -> &'static str {
    match cmp {
        Cmp::Less => "<",
        Cmp::AtMost => "=<",
        Cmp::Greater => ">",
        Cmp::AtLeast => ">=",
        Cmp::Equal => "=:=",
        Cmp::NotEqual => "=\\=",
    }
}

/// Adds a term as a canonical text has it.
fn push_term(out: &mut String, term: Term) -> Result<(), AllocError> {
    match term {
        Term::Variable(variable) => push_number(out, "V", u64::from(variable), ""),
        Term::Constant(value) => push_value(out, value),
    }
}

/// Adds the guard, with the bar behind it, where there is one.
fn push_guard(out: &mut String, guard: &[Comparison]) -> Result<(), AllocError> {
    for (i, comparison) in guard.iter().enumerate() {
        out.push_str(if i == 0 { "" } else { ", " })?;
        push_term(out, comparison.left)?;
        push_text(out, " ", sign(comparison.cmp), " ")?;
        push_term(out, comparison.right)?;
    }
    out.push_str(if guard.is_empty() { "" } else { " | " })
}

/// Adds an atom, behind a comma where something stands before it since this place.
fn push_atom(
    out: &mut String,
    program: &Program,
    pattern: &Pattern,
    since: usize,
) -> Result<(), AllocError> {
    if since < out.len() {
        out.push_str(", ")?;
    }
    push_pattern(out, program, pattern)
}

/// Adds the heads that are kept, with a backslash behind them, where there are some.
fn push_kept(
    out: &mut String,
    program: &Program,
    rule: &Rule,
    draft: &Draft,
) -> Result<(), AllocError> {
    let since = out.len();
    for pattern in rule.kept.as_slice() {
        push_atom(out, program, pattern, since)?;
    }
    if let Some(pattern) = draft.kept.and_then(|place| rule.removed.get(place)) {
        push_atom(out, program, pattern, since)?;
    }
    out.push_str(if since < out.len() { " \\ " } else { "" })
}

/// Adds the heads that are removed.
fn push_removed(
    out: &mut String,
    program: &Program,
    rule: &Rule,
    draft: &Draft,
) -> Result<(), AllocError> {
    let since = out.len();
    for (place, pattern) in rule.removed.iter().enumerate() {
        if draft.kept != Some(place) {
            push_atom(out, program, pattern, since)?;
        }
    }
    Ok(())
}

/// Adds the body.
fn push_body(out: &mut String, program: &Program, rule: &Rule) -> Result<(), AllocError> {
    let since = out.len();
    for pattern in rule.body.as_slice() {
        push_atom(out, program, pattern, since)?;
    }
    out.push_str(if since < out.len() { "" } else { "true" })
}

/// The number of the variable that this one is told as, where variables are made one, the last pair first.
fn told_as(equal: &[Pair], variable: usize) -> usize {
    let mut told = variable;
    for pair in equal.iter().rev() {
        if usize::from(pair.second) == told {
            told = usize::from(pair.first);
        }
    }
    told
}

/// Adds a word of a canonical text, where variables are made one.
fn push_word(out: &mut String, equal: &[Pair], word: &str) -> Result<(), AllocError> {
    match variable_in(word) {
        Some(variable) => push_number(out, "V", told_as(equal, variable) as u64, ""),
        None => out.push_str(word),
    }
}

/// A canonical text in which variables are made one.
fn made_one(alloc: Global, equal: &[Pair], text: &str) -> Result<String, AllocError> {
    let mut out = String::new(alloc);
    let mut word = String::new(alloc);
    for c in text.chars() {
        if c == '_' || c.is_ascii_alphanumeric() {
            word.push(c)?;
        } else {
            push_word(&mut out, equal, word.as_str())?;
            out.push(c)?;
            word = String::new(alloc);
        }
    }
    push_word(&mut out, equal, word.as_str())?;
    Ok(out)
}

/// Names for variables without one that a changed rule compares, or has twice.
const LETTERS: [&str; 12] = ["X", "Y", "Z", "A", "B", "C", "D", "E", "F", "G", "H", "K"];

/// Whether the changed rule has the variable in a guard, or has others made one with it.
fn uses(draft: &Draft, variable: u8) -> bool {
    let term = Term::Variable(variable);
    for comparison in &draft.guard {
        if comparison.left == term || comparison.right == term {
            return true;
        }
    }
    for pair in &draft.equal {
        if pair.first == variable {
            return true;
        }
    }
    false
}

/// Whether the changed rule needs a name for the variable, which has none.
fn wants_name(told: ToldRule<'_>, draft: &Draft, variable: usize) -> bool {
    match u8::try_from(variable) {
        Ok(number) => told.is_anonymous(variable) && uses(draft, number),
        Err(_) => false,
    }
}

/// How many variables before this one need a name.
fn named_before(told: ToldRule<'_>, draft: &Draft, variable: usize) -> usize {
    let mut count: usize = 0;
    for other in 1..variable {
        if wants_name(told, draft, other) {
            count = count.saturating_add(1);
        }
    }
    count
}

/// A new name for a variable without one: the first letters that are no names go to the first such variables.
fn new_name(told: ToldRule<'_>, draft: &Draft, variable: usize) -> Option<&'static str> {
    let mut left = named_before(told, draft, variable);
    for letter in LETTERS {
        if !told.has_name(letter) {
            if left == 0 {
                return Some(letter);
            }
            left = left.saturating_sub(1);
        }
    }
    None
}

/// Adds a word of a canonical text, where variables without a name get one where they need it.
fn push_called(
    out: &mut String,
    told: ToldRule<'_>,
    draft: &Draft,
    word: &str,
) -> Result<(), AllocError> {
    let Some(variable) = variable_in(word) else {
        return out.push_str(word);
    };
    if !wants_name(told, draft, variable) {
        return out.push_str(word);
    }
    match new_name(told, draft, variable) {
        Some(name) => out.push_str(name),
        None => out.push_str(word),
    }
}

/// A canonical text in which variables without a name have one where they need it.
fn called(
    alloc: Global,
    told: ToldRule<'_>,
    draft: &Draft,
    text: &str,
) -> Result<String, AllocError> {
    let mut out = String::new(alloc);
    let mut word = String::new(alloc);
    for c in text.chars() {
        if c == '_' || c.is_ascii_alphanumeric() {
            word.push(c)?;
        } else {
            push_called(&mut out, told, draft, word.as_str())?;
            out.push(c)?;
            word = String::new(alloc);
        }
    }
    push_called(&mut out, told, draft, word.as_str())?;
    Ok(out)
}

/// Adds a changed rule as a clause.
fn push_draft(
    alloc: Global,
    out: &mut String,
    told: ToldRule<'_>,
    draft: &Draft,
) -> Result<(), AllocError> {
    let mut text = String::new(alloc);
    push_kept(&mut text, told.program, told.rule, draft)?;
    push_removed(&mut text, told.program, told.rule, draft)?;
    text.push_str(" <=> ")?;
    push_guard(&mut text, &draft.guard)?;
    push_body(&mut text, told.program, told.rule)?;
    text.push_str(".")?;
    let text = made_one(alloc, &draft.equal, text.as_str())?;
    let text = called(alloc, told, draft, text.as_str())?;
    told.push_named(alloc, out, text.as_str())
}

/// Changed rules as clauses, each in its line; the first has the rule's label.
pub(crate) fn drafts_text(
    alloc: Global,
    told: ToldRule<'_>,
    drafts: &[Draft],
) -> Result<String, AllocError> {
    let mut out = String::new(alloc);
    if let Some(name) = &told.rule.name {
        push_text(&mut out, "", name.as_str(), " @ ")?;
    }
    for (i, draft) in drafts.iter().enumerate() {
        out.push_str(if i == 0 { "" } else { "\n" })?;
        push_draft(alloc, &mut out, told, draft)?;
    }
    Ok(out)
}
