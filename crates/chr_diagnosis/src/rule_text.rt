//! Rules of a program as they are told.

use crate::fact_text::push_value;
use chr_base::atom::Atom;
use chr_base::program::Program;
use chr_base::rule::Rule;
use chr_base::term::{Pattern, Term};
use chr_faults::{ANONYMOUS, Names, RuleNames, push_number, push_text};
use chr_read::{push_pattern, push_rule};
use std::alloc::{AllocError, Global};

/// A program, with the names that its text gives variables and columns.
#[derive(Clone, Copy)]
pub struct NamedProgram<'a> {
    pub program: &'a Program,
    pub names: &'a Names,
}

/// A rule of a program, with the names of its variables.
#[derive(Clone, Copy)]
pub struct ToldRule<'a> {
    /// The program that it is a rule of.
    pub program: &'a Program,
    pub rule: &'a Rule,
    /// Its number there, counted from 1.
    pub number: usize,
    /// The program with all names in its text.
    source: NamedProgram<'a>,
    /// The names of the rule's own variables.
    names: Option<&'a RuleNames>,
    /// The names of the rule that is told before it: the same names get a prime here.
    primed: Option<&'a RuleNames>,
}

/// The rule of this number, counted from 1.
pub fn told_rule<'a>(source: NamedProgram<'a>, number: usize) -> Option<ToldRule<'a>> {
    let rule = source.program.rules().get(number.saturating_sub(1))?;
    Some(ToldRule {
        program: source.program,
        rule,
        number,
        source,
        names: source.names.of_rule(number),
        primed: None,
    })
}

/// The number of the variable that this word of a canonical text is. Names of symbols begin with small letters.
pub(crate) fn variable_in(word: &str) -> Option<usize> {
    let digits = word.strip_prefix("V")?;
    digits.parse::<usize>().ok()
}

impl<'a> ToldRule<'a> {
    /// The rule as it is told behind another one, whose names get a prime here.
    pub fn behind(self, other: ToldRule<'a>) -> ToldRule<'a> {
        ToldRule {
            primed: other.names,
            ..self
        }
    }

    /// The name of the variable of this number.
    fn name_of(&self, variable: usize) -> Option<&'a str> {
        self.names?.name_of(variable)
    }

    /// Whether the variable of this number has no name.
    pub(crate) fn is_anonymous(&self, variable: usize) -> bool {
        self.name_of(variable) == Some(ANONYMOUS)
    }

    /// Whether a variable of the rule has this name.
    pub(crate) fn has_name(&self, name: &str) -> bool {
        match self.names {
            Some(names) => names.has(name),
            None => false,
        }
    }

    /// What stands behind this name of a variable.
    fn prime_of(&self, name: &str) -> &'static str {
        match self.primed {
            Some(names) if name != ANONYMOUS && names.has(name) => "'",
            _ => "",
        }
    }
}

impl ToldRule<'_> {
    /// Adds the name of the variable of this number.
    fn push_variable(&self, out: &mut String, variable: usize) -> Result<(), AllocError> {
        let Some(name) = self.name_of(variable) else {
            return push_number(out, "V", variable as u64, "");
        };
        out.push_str(name)?;
        out.push_str(self.prime_of(name))
    }

    /// Adds a word of a canonical text: of a variable its name.
    fn push_word(&self, out: &mut String, word: &str) -> Result<(), AllocError> {
        match variable_in(word) {
            Some(variable) => self.push_variable(out, variable),
            None => out.push_str(word),
        }
    }

    /// Adds a canonical text of the rule with the names of its variables.
    pub fn push_named(
        &self,
        alloc: Global,
        out: &mut String,
        text: &str,
    ) -> Result<(), AllocError> {
        let mut word = String::new(alloc);
        for c in text.chars() {
            if c == '_' || c.is_ascii_alphanumeric() {
                word.push(c)?;
            } else {
                self.push_word(out, word.as_str())?;
                out.push(c)?;
                word = String::new(alloc);
            }
        }
        self.push_word(out, word.as_str())
    }

    /// Adds the rule as a clause.
    pub fn push_clause(&self, alloc: Global, out: &mut String) -> Result<(), AllocError> {
        let mut text = String::new(alloc);
        push_rule(&mut text, self.program, self.rule)?;
        text.push_str(".")?;
        self.push_named(alloc, out, text.as_str())
    }

    /// Adds an atom of the rule.
    pub fn push_atom(
        &self,
        alloc: Global,
        out: &mut String,
        pattern: &Pattern,
    ) -> Result<(), AllocError> {
        let mut text = String::new(alloc);
        push_pattern(&mut text, self.program, pattern)?;
        self.push_named(alloc, out, text.as_str())
    }

    /// Adds the head at a place, counted from 1, with that number.
    pub fn push_head(
        &self,
        alloc: Global,
        out: &mut String,
        place: usize,
    ) -> Result<(), AllocError> {
        push_number(out, "head ", place as u64, "")?;
        let place = place.saturating_sub(1);
        if place < self.rule.places() {
            out.push_str(", `")?;
            self.push_atom(alloc, out, self.rule.head_at(place))?;
            out.push_str("`,")?;
        }
        Ok(())
    }

    /// Adds the value of the variable of this number, where it has a name.
    fn push_value(&self, out: &mut String, variable: u8, value: i64) -> Result<(), AllocError> {
        let variable = usize::from(variable);
        if self.name_of(variable) == Some(ANONYMOUS) {
            return Ok(());
        }
        out.push_str(", ")?;
        self.push_variable(out, variable)?;
        out.push_str(" = ")?;
        push_value(out, value)
    }

    /// Adds the values of the variables of one head. They are numbered by first occurrence, so that the next number is
    /// a variable's that stands here first.
    fn push_head_values(
        &self,
        out: &mut String,
        pattern: &Pattern,
        atom: &Atom,
        next: &mut u8,
    ) -> Result<(), AllocError> {
        for (term, value) in pattern.args.iter().zip(atom.args.iter()) {
            if *term == Term::Variable(*next) {
                self.push_value(out, *next, *value)?;
                *next = u8::saturating_add(*next, 1);
            }
        }
        Ok(())
    }

    /// Adds the values of all variables with names at an instance with these heads, each after a comma.
    pub fn push_values(&self, out: &mut String, heads: &[Atom]) -> Result<(), AllocError> {
        let mut next = 1;
        for (place, atom) in heads.iter().enumerate() {
            if place < self.rule.places() {
                self.push_head_values(out, self.rule.head_at(place), atom, &mut next)?;
            }
        }
        Ok(())
    }

    /// Adds the number and the name of the rule.
    fn push_label(&self, out: &mut String) -> Result<(), AllocError> {
        push_number(out, "rule ", self.number as u64, "")?;
        match &self.rule.name {
            Some(name) => push_text(out, " (", name.as_str(), ")"),
            None => Ok(()),
        }
    }

    /// Adds the heads that a step keeps.
    fn push_kept(&self, out: &mut String, kept: &[Atom]) -> Result<(), AllocError> {
        if kept.is_empty() {
            return Ok(());
        }
        out.push_str(" keeps ")?;
        self.source.push_facts(out, kept)?;
        out.push_str(" and")
    }

    /// Adds what a step of the rule does with these heads.
    pub fn push_step(&self, out: &mut String, heads: &[Atom]) -> Result<(), AllocError> {
        let kept = self.rule.kept.len().min(heads.len());
        let (kept, removed) = heads.split_at(kept);
        self.push_label(out)?;
        self.push_kept(out, kept)?;
        out.push_str(" takes ")?;
        self.source.push_facts(out, removed)
    }
}
