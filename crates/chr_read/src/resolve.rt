//! The rule that a rule as written is: symbols by their places, variables by their numbers, digits by their values.

ghost use Rattle.std.specs.Prelude.{◌≡◌, ◌+◌, ◌≤◌, ◌<◌, ◌++◌, map, option_map, length, true, false, IfOk, OnOk, IfSome};
ghost use Rattle.std.specs.Prelude.{IsTrue};
ghost use Rattle.std.specs.List.{list_any};
ghost use Rattle.chr_base.specs.declared.limits.TheConstants.{MAX_VARIABLES};
ghost use Rattle.chr_base.specs.Names.{is_label};
ghost use Rattle.chr_base.specs.Programs.{declarations};
ghost use Rattle.chr_syntax.specs.Views.{term_view, atom_view, comparison_view, rule_view};
ghost use Rattle.chr_read.specs.Faults.{present};
ghost use Rattle.chr_read.specs.working.RuleParts.{parts_of_atom_over, label_over, symbol_of};
ghost use Rattle.chr_read.specs.Resolving.{met_at, variable_of, resolved_term, after_term, head_terms, after_terms};
ghost use Rattle.chr_read.specs.Resolving.{pattern, heads, after_heads, body_atom, cmp_of, resolved_comparison};
ghost use Rattle.chr_read.specs.working.Views.{names_view};

use crate::binding::is_anonymous;
use crate::number::number_of;
use crate::symbols::{name_in, place_of_atom};
use arrayvec::{ArrayString, ArrayVec};
use chr_base::atom::SymbolId;
use chr_base::limits::{MAX_ARITY, MAX_BODY, MAX_COMPARISONS, MAX_HEADS, MAX_NAME};
use chr_base::program::Program;
use chr_base::term::{Cmp, Comparison, Pattern, Term};
use chr_syntax::{Comparator, RawAtom, RawComparison, RawTerm};
use std::alloc::AllocError;

/// Where the variable was met before. Each `_` is a new one.
fn met_at(names: &[&[u8]], name: &[u8]) -> Option<usize>
    ensures value { result ≡ met_at (names_view names.now) name.now }
    ensures within { IfSome result (λ i. i < length names.now) }
{
    if is_anonymous(name) {
        return None;
    }
    for (i, other) in names.iter().enumerate() {
        if name == *other {
            return Some(i);
        }
    }
    None
}

/// The number of a variable, after those that were met before.
fn variable_of(names: &[&[u8]], name: &[u8]) -> u8
    requires { length names.now ≤ 200 }
    ensures { result ≡ variable_of (names_view names.now) name.now }
{
    match met_at(names, name) {
        Some(place) => (place + 1) as u8,
        None => (names.len() + 1) as u8,
    }
}

fn resolved_term(names: &[&[u8]], term: &RawTerm<'_>) -> Term
    requires { length names.now ≤ 200 }
    ensures { result ≡ resolved_term (names_view names.now) (term_view term.now) }
{
    match term {
        RawTerm::Variable(name) => Term::Variable(variable_of(names, name)),
        RawTerm::Number(digits) => Term::Constant(number_of(digits).unwrap_or(0)),
    }
}

/// Notes the variable of a term, where it is met for the first time.
fn meet<'a>(names: &mut Vec<&'a [u8]>, term: &RawTerm<'a>) -> Result<(), AllocError>
    ensures names { OnOk result (names_view names.new.items
        ≡ after_term (names_view names.old.items) (term_view term.now)) }
    ensures one { OnOk result (length names.new.items ≤ length names.old.items + 1) }
{
    if let RawTerm::Variable(name) = term {
        if met_at(names, name).is_none() {
            names.push(*name)?;
        }
    }
    Ok(())
}

/// The terms of a head, and its new variables noted.
pub fn head_terms<'a>(
    names: &mut Vec<&'a [u8]>,
    terms: &[RawTerm<'a>],
) -> Result<ArrayVec<Term, MAX_ARITY>, AllocError>
    requires few { length terms.now ≤ MAX_ARITY }
    requires room { length names.old.items ≤ 100 }
    ensures terms { IfOk result (λ ts. ts.items ≡ head_terms (names_view names.old.items) (map term_view terms.now)) }
    ensures names { OnOk result (names_view names.new.items
        ≡ after_terms (names_view names.old.items) (map term_view terms.now)) }
    ensures bound { OnOk result (length names.new.items ≤ length names.old.items + MAX_ARITY) }
{
    let mut found = ArrayVec::new();
    for term in terms {
        found.push(resolved_term(names, term));
        meet(names, term)?;
    }
    Ok(found)
}

/// The terms of an atom of the body.
fn body_terms(names: &[&[u8]], terms: &[RawTerm<'_>]) -> ArrayVec<Term, MAX_ARITY>
    requires few { length terms.now ≤ MAX_ARITY }
    requires room { length names.now ≤ 200 }
    ensures { result.items ≡ map (resolved_term (names_view names.now)) (map term_view terms.now) }
{
    let mut found = ArrayVec::new();
    for term in terms {
        found.push(resolved_term(names, term));
    }
    found
}

fn symbol_of(program: &Program, atom: &RawAtom<'_>) -> SymbolId
    ensures { result.0 ≡ symbol_of (declarations program.now) (atom_view atom.now) }
{
    place_of_atom(program, atom).unwrap_or(SymbolId(0))
}

fn pattern(program: &Program, atom: &RawAtom<'_>, args: ArrayVec<Term, MAX_ARITY>) -> Pattern
    ensures { result ≡ pattern (declarations program.now) (atom_view atom.now) args.items }
{
    Pattern {
        symbol: symbol_of(program, atom),
        args,
    }
}

/// The heads, and their variables noted.
pub fn heads<'a>(
    program: &Program,
    names: &mut Vec<&'a [u8]>,
    atoms: &[RawAtom<'a>],
) -> Result<ArrayVec<Pattern, MAX_HEADS>, AllocError>
    requires few { length atoms.now ≤ MAX_HEADS }
    requires sound { list_any parts_of_atom_over (map atom_view atoms.now) ≡ false }
    requires room { length names.old.items ≤ 50 }
    ensures heads { IfOk result (λ ps. ps.items
        ≡ heads (declarations program.now) (names_view names.old.items) (map atom_view atoms.now)) }
    ensures names { OnOk result (names_view names.new.items
        ≡ after_heads (names_view names.old.items) (map atom_view atoms.now)) }
    ensures bound { OnOk result (length names.new.items ≤ length names.old.items + MAX_VARIABLES) }
{
    let mut found = ArrayVec::new();
    for atom in atoms {
        let args = head_terms(names, &atom.args)?;
        found.push(pattern(program, atom, args));
    }
    Ok(found)
}

fn cmp_of(comparator: Comparator) -> Cmp
    ensures { result ≡ cmp_of comparator }
{
    match comparator {
        Comparator::Less => Cmp::Less,
        Comparator::AtMost => Cmp::AtMost,
        Comparator::Greater => Cmp::Greater,
        Comparator::AtLeast => Cmp::AtLeast,
        Comparator::Equal => Cmp::Equal,
        Comparator::NotEqual => Cmp::NotEqual,
    }
}

fn resolved_comparison(names: &[&[u8]], comparison: &RawComparison<'_>) -> Comparison
    requires { length names.now ≤ 200 }
    ensures { result ≡ resolved_comparison (names_view names.now) (comparison_view comparison.now) }
{
    Comparison {
        left: resolved_term(names, &comparison.left),
        cmp: cmp_of(comparison.comparator),
        right: resolved_term(names, &comparison.right),
    }
}

/// The comparisons of a guard.
pub fn guard(
    names: &[&[u8]],
    items: &[Option<RawComparison<'_>>],
) -> ArrayVec<Comparison, MAX_COMPARISONS>
    requires few { length (present (map (option_map comparison_view) items.now)) ≤ MAX_COMPARISONS }
    requires room { length names.now ≤ 200 }
    ensures { result.items ≡ map (resolved_comparison (names_view names.now))
        (present (map (option_map comparison_view) items.now)) }
{
    let mut found = ArrayVec::new();
    for item in items {
        if let Some(comparison) = item {
            found.push(resolved_comparison(names, comparison));
        }
    }
    found
}

fn body_atom(program: &Program, names: &[&[u8]], atom: &RawAtom<'_>) -> Pattern
    requires sound { parts_of_atom_over (atom_view atom.now) ≡ false }
    requires room { length names.now ≤ 200 }
    ensures { result ≡ body_atom (declarations program.now) (names_view names.now) (atom_view atom.now) }
{
    let args = body_terms(names, &atom.args);
    pattern(program, atom, args)
}

/// The atoms of a body.
pub fn body(
    program: &Program,
    names: &[&[u8]],
    items: &[Option<RawAtom<'_>>],
) -> ArrayVec<Pattern, MAX_BODY>
    requires few { length (present (map (option_map atom_view) items.now)) ≤ MAX_BODY }
    requires sound { list_any parts_of_atom_over (present (map (option_map atom_view) items.now)) ≡ false }
    requires room { length names.now ≤ 200 }
    ensures { result.items ≡ map (body_atom (declarations program.now) (names_view names.now))
        (present (map (option_map atom_view) items.now)) }
{
    let mut found = ArrayVec::new();
    for item in items {
        if let Some(atom) = item {
            found.push(body_atom(program, names, atom));
        }
    }
    found
}

/// A rule's name.
#[tactic(auto, using(crate::proofs::Names::name_is_text))]
pub fn label(name: Option<&[u8]>) -> Option<ArrayString<MAX_NAME>>
    requires { is_label (option_map (λ l. l.now) name) ≡ true }
    ensures { option_map (λ n. n.bytes) result ≡ option_map (λ l. l.now) name.entry }
{
    let name = name_in(name?)?;
    ArrayString::from(name).ok()
}
