//! The columns in which rules compare facts of one symbol by equality.

use chr_base::atom::SymbolId;
use chr_base::program::Program;
use chr_base::rule::Rule;
use chr_base::term::{Cmp, Comparison, Pattern, Term};
use std::alloc::{AllocError, Global};

/// The columns in which all heads of a symbol that stand in one rule agree.
#[derive(Drop)]
pub(crate) struct Key {
    /// Whether a rule has two heads of the symbol.
    pub is_compared: bool,
    /// For each column whether it is one of them.
    pub columns: Vec<bool>,
}

/// Whether a comparison says that the two terms are equal.
fn says_equal(comparison: &Comparison, left: Term, right: Term) -> bool {
    let one_way = comparison.left == left && comparison.right == right;
    let other_way = comparison.left == right && comparison.right == left;
    comparison.cmp == Cmp::Equal && (one_way || other_way)
}

/// Whether the rule fires only where the two terms are equal.
fn are_equal(rule: &Rule, left: Option<&Term>, right: Option<&Term>) -> bool {
    match (left, right) {
        (Some(left), Some(right)) => {
            *left == *right
                || rule
                    .guard
                    .iter()
                    .any(|comparison| says_equal(comparison, *left, *right))
        }
        _ => false,
    }
}

impl Key {
    /// Takes out the columns in which two heads of a rule need not agree.
    fn narrow(&mut self, rule: &Rule, left: &Pattern, right: &Pattern) {
        self.is_compared = true;
        for column in 0..self.columns.len() {
            let same = are_equal(rule, left.args.get(column), right.args.get(column));
            if let Some(is_key) = self.columns.get_mut(column) {
                *is_key = *is_key && same;
            }
        }
    }

    /// Takes out the columns in which a head of a rule and the others need not agree.
    fn narrow_by_head(&mut self, rule: &Rule, head: &Pattern, place: usize) {
        for before in 0..rule.places() {
            let other = rule.head_at(before);
            if before < place && other.symbol == head.symbol {
                self.narrow(rule, head, other);
            }
        }
    }

    /// Takes out the columns in which heads of the symbol in a rule need not agree.
    fn narrow_by_rule(&mut self, rule: &Rule, symbol: SymbolId) {
        for place in 0..rule.places() {
            let head = rule.head_at(place);
            if head.symbol == symbol {
                self.narrow_by_head(rule, head, place);
            }
        }
    }
}

/// The columns of a symbol in which the heads of each rule agree.
pub(crate) fn key_of(
    alloc: Global,
    program: &Program,
    symbol: SymbolId,
) -> Result<Key, AllocError> {
    let mut key = Key {
        is_compared: false,
        columns: Vec::new(alloc),
    };
    if usize::from(symbol.0) < program.symbols() {
        for _ in 0..program.arity_of(symbol) {
            key.columns.push(true)?;
        }
    }
    for rule in program.rules() {
        key.narrow_by_rule(rule, symbol);
    }
    Ok(key)
}
