//! Variables of guard and body that the heads do not have.

ghost use Rattle.std.specs.Prelude.{◌≡◌, option_map, map};
ghost use Rattle.std.specs.List.{list_any};
ghost use Rattle.chr_syntax.specs.Views.{term_view, atom_view, comparison_view, rule_view};
ghost use Rattle.chr_read.specs.Faults.{present, is_anonymous, is_named};
ghost use Rattle.chr_read.specs.working.RuleParts.{stands_in, is_bound, term_unbound, atom_unbound, comparison_unbound};
ghost use Rattle.chr_read.specs.working.RuleParts.{rule_unbound};

use chr_syntax::{RawAtom, RawComparison, RawRule, RawTerm};

/// Whether this is `_` alone, which is a new variable at each place.
pub fn is_anonymous(name: &[u8]) -> bool
    ensures { result ≡ is_anonymous name.now }
{
    name == b"_".as_slice()
}

fn is_named(name: &[u8], term: &RawTerm<'_>) -> bool
    ensures { result ≡ is_named name.now (term_view term.now) }
{
    match term {
        RawTerm::Variable(other) => name == *other,
        RawTerm::Number(_) => false,
    }
}

fn stands_among(name: &[u8], terms: &[RawTerm<'_>]) -> bool
    ensures { result ≡ list_any (is_named name.now) (map term_view terms.now) }
{
    for term in terms {
        if is_named(name, term) {
            return true;
        }
    }
    false
}

fn stands_in(name: &[u8], atoms: &[RawAtom<'_>]) -> bool
    ensures { result ≡ stands_in name.now (map atom_view atoms.now) }
{
    for atom in atoms {
        if stands_among(name, &atom.args) {
            return true;
        }
    }
    false
}

fn is_bound(rule: &RawRule<'_>, name: &[u8]) -> bool
    ensures { result ≡ is_bound (rule_view rule.now) name.now }
{
    !is_anonymous(name) && (stands_in(name, &rule.kept) || stands_in(name, &rule.removed))
}

fn term_unbound(rule: &RawRule<'_>, term: &RawTerm<'_>) -> bool
    ensures { result ≡ term_unbound (rule_view rule.now) (term_view term.now) }
{
    match term {
        RawTerm::Variable(name) => !is_bound(rule, name),
        RawTerm::Number(_) => false,
    }
}

fn comparison_unbound(rule: &RawRule<'_>, comparison: &RawComparison<'_>) -> bool
    ensures { result ≡ comparison_unbound (rule_view rule.now) (comparison_view comparison.now) }
{
    term_unbound(rule, &comparison.left) || term_unbound(rule, &comparison.right)
}

fn atom_unbound(rule: &RawRule<'_>, atom: &RawAtom<'_>) -> bool
    ensures { result ≡ atom_unbound (rule_view rule.now) (atom_view atom.now) }
{
    for term in &atom.args {
        if term_unbound(rule, term) {
            return true;
        }
    }
    false
}

fn guard_unbound(rule: &RawRule<'_>) -> bool
    ensures { result ≡ list_any (comparison_unbound (rule_view rule.now))
        (present (map (option_map comparison_view) rule.now.guard.items)) }
{
    for item in &rule.guard {
        if let Some(comparison) = item {
            if comparison_unbound(rule, comparison) {
                return true;
            }
        }
    }
    false
}

fn body_unbound(rule: &RawRule<'_>) -> bool
    ensures { result ≡ list_any (atom_unbound (rule_view rule.now))
        (present (map (option_map atom_view) rule.now.body.items)) }
{
    for item in &rule.body {
        if let Some(atom) = item {
            if atom_unbound(rule, atom) {
                return true;
            }
        }
    }
    false
}

/// Whether guard or body have a variable that no head has, or `_`.
pub fn rule_unbound(rule: &RawRule<'_>) -> bool
    ensures { result ≡ rule_unbound (rule_view rule.now) }
{
    guard_unbound(rule) || body_unbound(rule)
}
