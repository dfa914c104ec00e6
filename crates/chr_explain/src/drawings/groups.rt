//! Rules that are copies of one another: but for the names of their symbols, their numbers and their own names they
//! are one.

use crate::prose::Prose;
use chr_base::atom::SymbolId;
use chr_base::program::Program;
use chr_base::rule::Rule;
use chr_base::term::{Comparison, Pattern, Term};
use chr_diagnosis::sign;
use chr_faults::push_number;
use std::alloc::{AllocError, Global};

/// Rules that are copies of one another.
#[derive(Drop)]
pub(crate) struct Group {
    /// What they have in common, as text.
    shape: String,
    /// Their numbers, counted from 1, in order.
    pub rules: Vec<u32>,
}

impl Group {
    /// Whether the rule of this number is one of them.
    fn has(&self, number: u32) -> bool {
        self.rules.iter().any(|rule| *rule == number)
    }

    /// The number of the first of them.
    pub(crate) fn first(&self) -> u32 {
        match self.rules.first() {
            Some(first) => *first,
            None => 0,
        }
    }
}

/// The number of a symbol among those that were met, where it is put if it is not there.
fn number_of(met: &mut Vec<SymbolId>, symbol: SymbolId) -> Result<usize, AllocError> {
    for (i, other) in met.iter().enumerate() {
        if *other == symbol {
            return Ok(i);
        }
    }
    let number = met.len();
    met.push(symbol)?;
    Ok(number)
}

/// Adds a term: of a constant only that it is one.
fn push_term(out: &mut Prose, term: Term) {
    match term {
        Term::Variable(variable) => out.push_number(" V", u64::from(variable), ""),
        Term::Constant(_) => out.push_str(" #"),
    }
}

/// Adds atoms: of a symbol its number by first occurrence.
fn push_patterns(
    out: &mut Prose,
    met: &mut Vec<SymbolId>,
    patterns: &[Pattern],
) -> Result<(), AllocError> {
    for pattern in patterns {
        let number = number_of(met, pattern.symbol)?;
        out.push_number(" s", number as u64, "");
        for term in pattern.args.iter() {
            push_term(out, *term);
        }
    }
    out.push_str(";");
    Ok(())
}

/// Adds comparisons.
fn push_comparisons(out: &mut Prose, guard: &[Comparison]) {
    for comparison in guard {
        push_term(out, comparison.left);
        out.push_str(" ");
        out.push_str(sign(comparison.cmp));
        push_term(out, comparison.right);
    }
    out.push_str(";")
}

/// What the rule has in common with its copies.
fn shape_of(alloc: Global, rule: &Rule) -> Result<String, AllocError> {
    let mut shape = Prose::new(alloc);
    let mut met = Vec::new(alloc);
    push_patterns(&mut shape, &mut met, &rule.kept)?;
    push_patterns(&mut shape, &mut met, &rule.removed)?;
    push_comparisons(&mut shape, &rule.guard);
    push_patterns(&mut shape, &mut met, &rule.body)?;
    shape.finish()
}

/// Adds a rule of this shape to its group, which may be a new one.
fn add_rule(
    alloc: Global,
    groups: &mut Vec<Group>,
    shape: String,
    number: u32,
) -> Result<(), AllocError> {
    let place = groups
        .iter()
        .take_while(|group| group.shape.as_str() != shape.as_str())
        .count();
    if let Some(group) = groups.get_mut(place) {
        group.rules.push(number)?;
        return Ok(());
    }
    let mut rules = Vec::new(alloc);
    rules.push(number)?;
    groups.push(Group { shape, rules })?;
    Ok(())
}

/// The groups of a program's rules, in the order of their first ones.
pub(crate) fn groups_of(alloc: Global, program: &Program) -> Result<Vec<Group>, AllocError> {
    let mut groups = Vec::new(alloc);
    let mut number: u32 = 0;
    for rule in program.rules() {
        number = u32::saturating_add(number, 1);
        let shape = shape_of(alloc, rule)?;
        add_rule(alloc, &mut groups, shape, number)?;
    }
    Ok(groups)
}

/// The place of the group of the rule of this number, counted from 0: the number of groups where there is none.
pub(crate) fn place_of_rule(groups: &[Group], number: u32) -> usize {
    groups.iter().take_while(|group| !group.has(number)).count()
}
