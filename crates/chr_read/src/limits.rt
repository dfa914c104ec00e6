//! The limits of a program, and the range of its numbers, as tests of a clause.

ghost use Rattle.std.specs.Prelude.{◌≡◌, ◌+◌, ◌≤◌, nat_lt, option_map, map, length};
ghost use Rattle.std.specs.List.{list_any};
ghost use Rattle.chr_syntax.specs.Views.{term_view, atom_view, comparison_view, symbol_view, rule_view};
ghost use Rattle.chr_read.specs.Faults.{present, symbol_over, atom_over, is_long_variable, is_outside};
ghost use Rattle.chr_read.specs.working.RuleParts.{parts_of_atom_over, comparison_over, label_over, has_long_lists};
ghost use Rattle.chr_read.specs.working.RuleParts.{parts_over, some_part_over, atom_outside, comparison_outside};
ghost use Rattle.chr_read.specs.working.RuleParts.{rule_outside};

use crate::number::{arity_of, number_of};
use crate::symbols::is_long;
use chr_base::limits::{MAX_ARITY, MAX_BODY, MAX_COMPARISONS, MAX_HEADS};
use chr_syntax::{RawAtom, RawComparison, RawRule, RawSymbol, RawTerm};

fn symbol_over(symbol: &RawSymbol<'_>) -> bool
    ensures { result ≡ symbol_over (symbol_view symbol.now) }
{
    is_long(symbol.name) || arity_of(symbol.arity).is_none()
}

/// Whether a name is too long, or an arity too large.
pub fn symbols_over(symbols: &[RawSymbol<'_>]) -> bool
    ensures { result ≡ list_any symbol_over (map symbol_view symbols.now) }
{
    for symbol in symbols {
        if symbol_over(symbol) {
            return true;
        }
    }
    false
}

fn is_long_variable(term: &RawTerm<'_>) -> bool
    ensures { result ≡ is_long_variable (term_view term.now) }
{
    match term {
        RawTerm::Variable(name) => is_long(name),
        RawTerm::Number(_) => false,
    }
}

fn terms_over(terms: &[RawTerm<'_>]) -> bool
    ensures { result ≡ list_any is_long_variable (map term_view terms.now) }
{
    for term in terms {
        if is_long_variable(term) {
            return true;
        }
    }
    false
}

fn atom_over(atom: &RawAtom<'_>) -> bool
    ensures { result ≡ atom_over (atom_view atom.now) }
{
    is_long(atom.name) || MAX_ARITY < atom.args.len()
}

fn parts_of_atom_over(atom: &RawAtom<'_>) -> bool
    ensures { result ≡ parts_of_atom_over (atom_view atom.now) }
{
    atom_over(atom) || terms_over(&atom.args)
}

fn comparison_over(comparison: &RawComparison<'_>) -> bool
    ensures { result ≡ comparison_over (comparison_view comparison.now) }
{
    is_long_variable(&comparison.left) || is_long_variable(&comparison.right)
}

fn heads_over(atoms: &[RawAtom<'_>]) -> bool
    ensures { result ≡ list_any parts_of_atom_over (map atom_view atoms.now) }
{
    for atom in atoms {
        if parts_of_atom_over(atom) {
            return true;
        }
    }
    false
}

fn guard_over(items: &[Option<RawComparison<'_>>]) -> bool
    ensures { result ≡ list_any comparison_over (present (map (option_map comparison_view) items.now)) }
{
    for item in items {
        if let Some(comparison) = item {
            if comparison_over(comparison) {
                return true;
            }
        }
    }
    false
}

fn body_over(items: &[Option<RawAtom<'_>>]) -> bool
    ensures { result ≡ list_any parts_of_atom_over (present (map (option_map atom_view) items.now)) }
{
    for item in items {
        if let Some(atom) = item {
            if parts_of_atom_over(atom) {
                return true;
            }
        }
    }
    false
}

fn label_over(label: Option<&[u8]>) -> bool
    ensures { result ≡ label_over (option_map (λ l. l.now) label.entry) }
{
    match label {
        Some(name) => is_long(name),
        None => false,
    }
}

fn comparisons(items: &[Option<RawComparison<'_>>]) -> usize
    ensures value { result ≡ length (present (map (option_map comparison_view) items.now)) }
    ensures within { result ≤ length items.now }
{
    let mut count = 0;
    for item in items {
        if item.is_some() {
            count += 1;
        }
    }
    count
}

fn atoms(items: &[Option<RawAtom<'_>>]) -> usize
    ensures value { result ≡ length (present (map (option_map atom_view) items.now)) }
    ensures within { result ≤ length items.now }
{
    let mut count = 0;
    for item in items {
        if item.is_some() {
            count += 1;
        }
    }
    count
}

fn heads_too_many(rule: &RawRule<'_>) -> bool
    ensures { result ≡ nat_lt MAX_HEADS (length (map atom_view rule.now.kept.items)
        + length (map atom_view rule.now.removed.items)) }
{
    MAX_HEADS < rule.kept.len()
        || MAX_HEADS < rule.removed.len()
        || MAX_HEADS < rule.kept.len() + rule.removed.len()
}

fn has_long_lists(rule: &RawRule<'_>) -> bool
    ensures { result ≡ has_long_lists (rule_view rule.now) }
{
    heads_too_many(rule)
        || MAX_COMPARISONS < comparisons(&rule.guard)
        || MAX_BODY < atoms(&rule.body)
}

fn parts_over(rule: &RawRule<'_>) -> bool
    ensures { result ≡ parts_over (rule_view rule.now) }
{
    heads_over(&rule.kept)
        || heads_over(&rule.removed)
        || guard_over(&rule.guard)
        || body_over(&rule.body)
}

/// Whether a name or a variable is too long, or there are too many arguments, heads, comparisons or atoms in
/// the body.
pub fn some_part_over(rule: &RawRule<'_>) -> bool
    ensures { result ≡ some_part_over (rule_view rule.now) }
{
    has_long_lists(rule) || label_over(rule.label) || parts_over(rule)
}

fn is_outside(term: &RawTerm<'_>) -> bool
    ensures { result ≡ is_outside (term_view term.now) }
{
    match term {
        RawTerm::Variable(_) => false,
        RawTerm::Number(digits) => number_of(digits).is_none(),
    }
}

fn atom_outside(atom: &RawAtom<'_>) -> bool
    ensures { result ≡ atom_outside (atom_view atom.now) }
{
    for term in &atom.args {
        if is_outside(term) {
            return true;
        }
    }
    false
}

fn comparison_outside(comparison: &RawComparison<'_>) -> bool
    ensures { result ≡ comparison_outside (comparison_view comparison.now) }
{
    is_outside(&comparison.left) || is_outside(&comparison.right)
}

fn heads_outside(atoms: &[RawAtom<'_>]) -> bool
    ensures { result ≡ list_any atom_outside (map atom_view atoms.now) }
{
    for atom in atoms {
        if atom_outside(atom) {
            return true;
        }
    }
    false
}

fn guard_outside(items: &[Option<RawComparison<'_>>]) -> bool
    ensures { result ≡ list_any comparison_outside (present (map (option_map comparison_view) items.now)) }
{
    for item in items {
        if let Some(comparison) = item {
            if comparison_outside(comparison) {
                return true;
            }
        }
    }
    false
}

fn body_outside(items: &[Option<RawAtom<'_>>]) -> bool
    ensures { result ≡ list_any atom_outside (present (map (option_map atom_view) items.now)) }
{
    for item in items {
        if let Some(atom) = item {
            if atom_outside(atom) {
                return true;
            }
        }
    }
    false
}

/// Whether some number of the rule is one that 64 bits do not hold.
pub fn rule_outside(rule: &RawRule<'_>) -> bool
    ensures { result ≡ rule_outside (rule_view rule.now) }
{
    heads_outside(&rule.kept)
        || heads_outside(&rule.removed)
        || guard_outside(&rule.guard)
        || body_outside(&rule.body)
}
