//! Programs, stores and steps as texts.
use crate::atoms::{atom, step};
use arrayvec::ArrayVec;
use chr_base::atom::Atom;
use chr_base::bag::Bag;
use chr_base::derivation::Step;
use chr_base::limits::MAX_ARITY;
use chr_base::program::Program;
use chr_base::rule::Rule;
use chr_base::term::{Pattern, Term};
use chr_base::text::store_text;
use chr_read::read;
use chr_weights::{Weighed, weigh};
use std::alloc::{AllocError, Global};

/// `min/1`, of which the least stays.
pub const MINIMUM: &str = ":- chr_constraint min/1. min(X) \\ min(Y) <=> X =< Y | true.";

/// `coin/0` and `note/0`, and two coins for a note.
pub const COINS: &str = ":- chr_constraint coin/0, note/0. coin, coin <=> note.";

/// The program of a text, where it is one.
pub fn program_of(alloc: Global, text: &str) -> Option<Program> {
    read(alloc, text.as_bytes()).ok()
}

/// The program of a text, where it is one and lowers.
pub fn weighed_of(alloc: Global, text: &str) -> Option<Weighed> {
    weigh(program_of(alloc, text)?).ok()
}

/// The last rule of a text, where there is one.
pub fn rule_of(alloc: Global, text: &str) -> Option<Rule> {
    let program = program_of(alloc, text)?;
    Some(program.rules().last()?.copy())
}

/// The values of the constants among these terms.
fn constants(terms: &[Term]) -> ArrayVec<i64, MAX_ARITY> {
    let mut values = ArrayVec::new();
    for term in terms {
        if let Term::Constant(value) = term {
            let _ = values.try_push(*value);
        }
    }
    values
}

/// The atoms of patterns of constants, in this order.
fn atoms_of_patterns(alloc: Global, patterns: &[Pattern]) -> Result<Vec<Atom>, AllocError> {
    let mut atoms = Vec::new(alloc);
    for pattern in patterns {
        atoms.push(atom(pattern.symbol.0, &constants(&pattern.args)))?;
    }
    Ok(atoms)
}

/// The text of a program with one more rule, which has these atoms as its body.
fn with_body(alloc: Global, program: &str, atoms: &str) -> Result<String, AllocError> {
    format!(in alloc; "{program} :- chr_constraint told/0. told <=> {atoms}.")
}

/// Up to eight atoms that the program of the first text declares, in this order. They are read as the body of a rule.
pub fn atoms_of(alloc: Global, program: &str, atoms: &str) -> Option<Vec<Atom>> {
    let text = with_body(alloc, program, atoms).ok()?;
    let rule = rule_of(alloc, &text)?;
    atoms_of_patterns(alloc, &rule.body).ok()
}

/// The store of up to eight atoms that the program of the first text declares.
pub fn store_of(alloc: Global, program: &str, atoms: &str) -> Option<Bag> {
    Bag::of(atoms_of(alloc, program, atoms)?).ok()
}

/// The step of the rule with this number on these heads, in place order.
pub fn step_of(alloc: Global, program: &str, rule: u32, heads: &str) -> Option<Step> {
    Some(step(rule, &atoms_of(alloc, program, heads)?))
}

/// The text of a store.
pub fn told(alloc: Global, program: &Program, store: &Bag) -> Result<String, AllocError> {
    store_text(alloc, program, store)
}

/// The text of one atom.
fn atom_text(alloc: Global, program: &Program, atom: &Atom) -> Result<String, AllocError> {
    let mut store = Bag::new(alloc);
    store.add(atom.copy())?;
    store_text(alloc, program, &store)
}

/// The text of atoms in this order.
pub fn atoms_text(alloc: Global, program: &Program, atoms: &[Atom]) -> Result<String, AllocError> {
    let mut text = String::new(alloc);
    for (place, atom) in atoms.iter().enumerate() {
        text.push_str(if place > 0 { ", " } else { "" })?;
        text.push_str(&atom_text(alloc, program, atom)?)?;
    }
    Ok(text)
}
