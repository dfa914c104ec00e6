//! Patterns matched with atoms, place by place.
ghost use Rattle.std.specs.Prelude.{◌≡◌, ◌<◌, ◌≤◌, ◌+◌, ◌*◌, [], ◌∷◌, ◌++◌, IsTrue, is_some, length, map, vec_len};
ghost use Rattle.std.specs.Prelude.{vec_capacity};
ghost use Rattle.std.specs.Bool.{OnTrue, OnFalse};
ghost use Rattle.chr_base.specs.RuleTests.{numbered, terms_of};
ghost use Rattle.chr_base.specs.Rules.{atom_at, atoms_at, comparison_holds, term_value, valued};
ghost use Rattle.chr_base.specs.working.Bindings.{Binds, Refuses, is_new};

use crate::atom::Atom;
use crate::limits::{MAX_ARITY, MAX_VARIABLES};
use crate::rule::Values;
use crate::term::{Cmp, Comparison, Pattern, Term};

/// The value of a term, 0 for a variable that has none.
fn value_of(values: &[i64], term: &Term) -> i64
    ensures { result ≡ term_value (valued values.now) term.now }
{
    match term {
        Term::Variable(variable) => values
            .get(usize::from(*variable).saturating_sub(1))
            .copied()
            .unwrap_or(0),
        Term::Constant(value) => *value,
    }
}

/// The atom becomes what a pattern is under these values.
fn set_instance(atom: &mut Atom, values: &[i64], pattern: &Pattern)
    ensures { atom.new ≡ atom_at (valued values.now) pattern.now }
{
    atom.symbol = pattern.symbol;
    atom.args.clear();
    for term in pattern.args.as_slice() {
        atom.args.push(value_of(values, term));
    }
}

/// The atom that a pattern is under these values.
pub(crate) fn instance_of(values: &[i64], pattern: &Pattern) -> Atom
    ensures { result ≡ atom_at (valued values.now) pattern.now }
{
    let mut atom = Atom::default();
    set_instance(&mut atom, values, pattern);
    atom
}

/// Puts the atom that a pattern is under these values at the end, where there is room for it. It is made in its place.
fn push_instance(items: &mut Vec<Atom>, values: &[i64], pattern: &Pattern)
    requires { vec_len items.old < vec_capacity items.old }
    ensures items { items.new.items ≡ items.old.items ++ atom_at (valued values.now) pattern.now ∷ [] }
    ensures capacity { vec_capacity items.new ≡ vec_capacity items.old }
{
    let last = items.len();
    items.push_reserved(Atom::default());
    set_instance(&mut items[last], values, pattern);
}

/// Puts the atoms that patterns are under these values at the end, where there is room for them.
pub(crate) fn push_instances(items: &mut Vec<Atom>, values: &[i64], patterns: &[Pattern])
    requires { vec_len items.old + length patterns.now ≤ vec_capacity items.old }
    ensures items { items.new.items ≡ items.old.items ++ atoms_at (valued values.now) patterns.now }
    ensures capacity { vec_capacity items.new ≡ vec_capacity items.old }
{
    for pattern in patterns {
        push_instance(items, values, pattern);
    }
}

/// Whether a comparison holds under these values.
pub(crate) fn holds(values: &[i64], comparison: &Comparison) -> bool
    ensures { result ≡ comparison_holds (valued values.now) comparison.now }
{
    let order = value_of(values, &comparison.left).cmp(&value_of(values, &comparison.right));
    match comparison.cmp {
        Cmp::Less => order.is_lt(),
        Cmp::AtMost => order.is_le(),
        Cmp::Greater => order.is_gt(),
        Cmp::AtLeast => order.is_ge(),
        Cmp::Equal => order.is_eq(),
        Cmp::NotEqual => order.is_ne(),
    }
}

/// Whether the term is a variable that has no value.
fn is_new(values: &[i64], term: &Term) -> bool
    ensures { result ≡ is_new (length values.now) term.now }
{
    match term {
        Term::Variable(variable) => values.len() < usize::from(*variable),
        Term::Constant(_) => false,
    }
}

/// Whether the term comes out as this value, which a variable gets that has none.
fn bind_term(values: &mut Values, term: &Term, value: &i64) -> bool
    requires numbered { IsTrue (is_some (numbered (length values.old.items) (term.now ∷ []))) }
    requires room { length values.old.items < MAX_VARIABLES }
    ensures bound { OnTrue result
        (Binds values.old.items values.new.items (term.now ∷ []) (λ w. term_value w term.now ≡ value.now)) }
    ensures refused { OnFalse result (Refuses values.old.items (λ w. term_value w term.now ≡ value.now)) }
    ensures most { length values.new.items ≤ length values.old.items + 1 }
{
    if is_new(values, term) {
        values.push(*value);
        return true;
    }
    value_of(values, term) == *value
}

/// Whether the terms come out as these values, which the variables get that have none.
fn bind_terms(values: &mut Values, terms: &[Term], arguments: &[i64]) -> bool
    requires numbered { IsTrue (is_some (numbered (length values.old.items) terms.now)) }
    requires room { length values.old.items + length terms.now ≤ MAX_VARIABLES }
    ensures bound { OnTrue result
        (Binds values.old.items values.new.items terms.now (λ w. map (term_value w) terms.now ≡ arguments.now)) }
    ensures refused { OnFalse result
        (Refuses values.old.items (λ w. map (term_value w) terms.now ≡ arguments.now)) }
    ensures most { length values.new.items ≤ length values.old.items + length terms.now }
{
    let [term, terms @ ..] = terms else {
        return arguments.is_empty();
    };
    let [argument, arguments @ ..] = arguments else {
        return false;
    };
    if !bind_term(values, term, argument) {
        return false;
    }
    bind_terms(values, terms, arguments)
}

/// Whether the pattern comes out as this atom, whose arguments the variables get that have no value.
fn bind_pattern(values: &mut Values, pattern: &Pattern, atom: &Atom) -> bool
    requires numbered { IsTrue (is_some (numbered (length values.old.items) pattern.now.args.items)) }
    requires room { length values.old.items + MAX_ARITY ≤ MAX_VARIABLES }
    ensures bound { OnTrue result
        (Binds values.old.items values.new.items pattern.now.args.items (λ w. atom_at w pattern.now ≡ atom.now)) }
    ensures refused { OnFalse result (Refuses values.old.items (λ w. atom_at w pattern.now ≡ atom.now)) }
    ensures most { length values.new.items ≤ length values.old.items + MAX_ARITY }
{
    if pattern.symbol.0 != atom.symbol.0 {
        return false;
    }
    bind_terms(values, pattern.args.as_slice(), atom.args.as_slice())
}

/// Whether the patterns come out as these atoms, whose arguments the variables get that have no value.
pub(crate) fn bind(values: &mut Values, patterns: &[Pattern], atoms: &[Atom]) -> bool
    requires numbered { IsTrue (is_some (numbered (length values.old.items) (terms_of patterns.now))) }
    requires room { length values.old.items + MAX_ARITY * length patterns.now ≤ MAX_VARIABLES }
    ensures bound { OnTrue result
        (Binds values.old.items values.new.items (terms_of patterns.now) (λ w. atoms_at w patterns.now ≡ atoms.now)) }
    ensures refused { OnFalse result (Refuses values.old.items (λ w. atoms_at w patterns.now ≡ atoms.now)) }
    ensures most { length values.new.items ≤ length values.old.items + MAX_ARITY * length patterns.now }
{
    let [pattern, patterns @ ..] = patterns else {
        return atoms.is_empty();
    };
    let [atom, atoms @ ..] = atoms else {
        return false;
    };
    if !bind_pattern(values, pattern, atom) {
        return false;
    }
    bind(values, patterns, atoms)
}
