//! Sentences that are written part by part.

use chr_base::atom::Atom;
use chr_base::bag::Bag;
use chr_base::program::Program;
use chr_base::term::Pattern;
use chr_base::text::push_store;
use chr_base::weight::Weight;
use chr_diagnosis::{NamedProgram, ToldRule};
use chr_faults::{push_number, push_text};
use std::alloc::{AllocError, Global};

/// A text that is written part by part. Where there is no memory for a part, that shows when the text is finished, so
/// that no part has to be asked.
pub(crate) struct Prose {
    text: String,
    /// Whether no part is missing.
    is_whole: bool,
}

/// What is derived would be proved again at each end of a function that lets a text go.
impl Drop for Prose {
    fn drop(self) {
        let Prose {
            text: _text,
            is_whole: _is_whole,
        } = self;
    }
}

impl Prose {
    /// A text without parts.
    pub(crate) fn new(alloc: Global) -> Prose {
        Prose {
            text: String::new(alloc),
            is_whole: true,
        }
    }

    /// The text, where no part is missing.
    pub(crate) fn finish(self) -> Result<String, AllocError> {
        let Prose { text, is_whole } = self;
        if is_whole { Ok(text) } else { Err(AllocError) }
    }

    /// Whether nothing is written.
    pub(crate) fn is_empty(&self) -> bool {
        self.text.is_empty()
    }

    /// Notes whether a part was added.
    fn note(&mut self, added: Result<(), AllocError>) {
        self.is_whole = self.is_whole && added.is_ok();
    }

    /// Notes that there is no memory for a part.
    pub(crate) fn lose(&mut self) {
        self.is_whole = false;
    }

    /// Adds a text.
    pub(crate) fn push_str(&mut self, text: &str) {
        let added = self.text.push_str(text);
        self.note(added)
    }

    /// Adds a character.
    pub(crate) fn push(&mut self, c: char) {
        let added = self.text.push(c);
        self.note(added)
    }

    /// Adds a text, between these.
    pub(crate) fn push_text(&mut self, before: &str, text: &str, behind: &str) {
        let added = push_text(&mut self.text, before, text, behind);
        self.note(added)
    }

    /// Adds a number, between these.
    pub(crate) fn push_number(&mut self, before: &str, number: u64, behind: &str) {
        let added = push_number(&mut self.text, before, number, behind);
        self.note(added)
    }

    /// Adds a weight, both of its numbers where `paired`.
    pub(crate) fn push_weight(&mut self, weight: Weight, paired: bool) {
        let added = weight.push_text(&mut self.text, paired);
        self.note(added)
    }

    /// Adds a rule as a clause.
    pub(crate) fn push_clause(&mut self, alloc: Global, rule: ToldRule<'_>) {
        let added = rule.push_clause(alloc, &mut self.text);
        self.note(added)
    }

    /// Adds an atom of a rule.
    pub(crate) fn push_atom(&mut self, alloc: Global, rule: ToldRule<'_>, pattern: &Pattern) {
        let added = rule.push_atom(alloc, &mut self.text, pattern);
        self.note(added)
    }

    /// Adds a rule's head at a place, counted from 1, with that number.
    pub(crate) fn push_head(&mut self, alloc: Global, rule: ToldRule<'_>, place: usize) {
        let added = rule.push_head(alloc, &mut self.text, place);
        self.note(added)
    }

    /// Adds what a step of a rule does with these heads.
    pub(crate) fn push_step(&mut self, rule: ToldRule<'_>, heads: &[Atom]) {
        let added = rule.push_step(&mut self.text, heads);
        self.note(added)
    }

    /// Adds the values of all of a rule's variables with names at an instance with these heads, each after a comma.
    pub(crate) fn push_values(&mut self, rule: ToldRule<'_>, heads: &[Atom]) {
        let added = rule.push_values(&mut self.text, heads);
        self.note(added)
    }

    /// Adds a store, with the names of columns.
    pub(crate) fn push_store(&mut self, alloc: Global, source: NamedProgram<'_>, store: &Bag) {
        let added = source.push_store(alloc, &mut self.text, store);
        self.note(added)
    }

    /// Adds a store as a check writes it.
    pub(crate) fn push_plain_store(&mut self, alloc: Global, program: &Program, store: &Bag) {
        let added = push_store(alloc, &mut self.text, program, store);
        self.note(added)
    }
}
