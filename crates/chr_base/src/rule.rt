//! Rules.
ghost use Rattle.std.specs.Prelude.{◌≡◌, ◌++◌, IsTrue, option_map};
ghost use Rattle.std.specs.Bool.{Decides};
ghost use Rattle.chr_base.specs.RuleTests.{is_in_bounds, is_rule};

use crate::atom::Atom;
use crate::limits::{MAX_BODY, MAX_COMPARISONS, MAX_HEADS, MAX_NAME, MAX_VARIABLES};
use crate::matching::{bind, holds, instance_of, push_instances};
use crate::term::{Comparison, Pattern, Term};
use arrayvec::{ArrayString, ArrayVec};

/// A rule. Where `kept` is empty it is a simplification `removed <=> guard | body`, else a simpagation
/// `kept \ removed <=> guard | body` (Frühwirth 2009).
///
/// It has 1 to `MAX_HEADS` heads, at least one of them removed; its variables are numbered from 1 by first occurrence
/// in the heads, kept ones first; each variable of guard and body stands in a head. Its constants are values, and its
/// name is a name of the grammar: a lower-case letter, then letters, digits and underscores, and no reserved word.
#[derive(Debug, PartialEq, Eq, Drop)]
pub struct Rule {
    /// Its name, where it has one.
    pub name: Option<ArrayString<MAX_NAME>>,
    /// The heads that stay.
    pub kept: ArrayVec<Pattern, MAX_HEADS>,
    /// The heads that leave, at least one.
    pub removed: ArrayVec<Pattern, MAX_HEADS>,
    /// The comparisons that have to hold, joined by 'and'.
    pub guard: ArrayVec<Comparison, MAX_COMPARISONS>,
    /// What comes in for the removed heads.
    pub body: ArrayVec<Pattern, MAX_BODY>,
    /// It has removed heads, and variables numbered by first occurrence in the heads.
    pub ghost well_formed: { IsTrue (is_rule kept.items removed.items guard.items body.items) },
    /// The name is one, the lists keep to their limits, and the constants are values.
    pub ghost bounded: { IsTrue (is_in_bounds
        (option_map (λ n. n.bytes) name) (kept.items ++ removed.items) guard.items body.items) },
}

/// The values of a rule's variables 1, 2 and so on.
pub type Values = ArrayVec<i64, MAX_VARIABLES>;

/// Copies of these patterns.
fn copies_of<const CAP: usize>(patterns: &ArrayVec<Pattern, CAP>) -> ArrayVec<Pattern, CAP>
    ensures { result.items ≡ patterns.now.items }
{
    let mut copies = ArrayVec::new();
    for pattern in patterns.as_slice() {
        copies.push(pattern.copy());
    }
    copies
}

/// Whether the two lists of terms are one.
fn same_terms(left: &[Term], right: &[Term]) -> bool
    ensures { Decides result (left.now ≡ right.now) }
{
    let [first, left @ ..] = left else {
        return right.is_empty();
    };
    let [second, right @ ..] = right else {
        return false;
    };
    if first != second {
        return false;
    }
    same_terms(left, right)
}

/// Whether the two lists of patterns are one.
fn same_patterns(left: &[Pattern], right: &[Pattern]) -> bool
    ensures { Decides result (left.now ≡ right.now) }
{
    let [first, left @ ..] = left else {
        return right.is_empty();
    };
    let [second, right @ ..] = right else {
        return false;
    };
    if first.symbol.0 != second.symbol.0 {
        return false;
    }
    if !same_terms(&first.args, &second.args) {
        return false;
    }
    same_patterns(left, right)
}

/// Whether the two lists of comparisons are one.
fn same_comparisons(left: &[Comparison], right: &[Comparison]) -> bool
    ensures { Decides result (left.now ≡ right.now) }
{
    let [first, left @ ..] = left else {
        return right.is_empty();
    };
    let [second, right @ ..] = right else {
        return false;
    };
    if first != second {
        return false;
    }
    same_comparisons(left, right)
}

impl Rule {
    ghost use Rattle.std.specs.Prelude.{◌≡◌, ◌<◌, ◌≤◌, ◌+◌, ◌↔◌, IsTrue, length, get_or, List, [], ◌∷◌, ◌++◌, vec_len};
    ghost use Rattle.std.specs.Prelude.{vec_capacity};
    ghost use Rattle.chr_base.specs.Rules.{heads_of, no_pattern, heads_at, atoms_at, guard_holds, HasInstance};
    ghost use Rattle.chr_base.specs.Rules.{Valuation, valued};
    ghost use Rattle.std.specs.Bool.{OnTrue, OnFalse};
    ghost use Rattle.chr_base.specs.Sameness.{parts_of};

    /// The number of head places, from 1 to `MAX_HEADS`. Kept heads come before removed ones.
    pub fn places(&self) -> usize
        ensures places { result ≡ length (heads_of self.now) }
        ensures some { 0 < result }
        ensures most { result ≤ MAX_HEADS }
    {
        self.kept.len() + self.removed.len()
    }

    /// The head at a place, counted from 0. Kept heads come before removed ones.
    pub fn head_at(&self, place: usize) -> &Pattern
        requires { place < length (heads_of self.now) }
        ensures { result.now ≡ get_or (heads_of self.now) place no_pattern }
    {
        if place < self.kept.len() {
            &self.kept[place]
        } else {
            &self.removed[place - self.kept.len()]
        }
    }

    /// Whether the heads come out as these atoms, whose arguments their variables then get.
    fn bind(&self, heads: &[Atom], values: &mut Values) -> bool
        requires none { values.old.items ≡ [] }
        requires places { length heads.now ≡ length (heads_of self.now) }
        ensures bound { OnTrue result (heads_at (valued values.new.items) self.now ≡ heads.now) }
        ensures refused { OnFalse result ((w : Valuation) → ¬ (heads_at w self.now ≡ heads.now)) }
    {
        let (kept, removed) = heads.split_at(self.kept.len());
        if !bind(values, self.kept.as_slice(), kept) {
            return false;
        }
        bind(values, self.removed.as_slice(), removed)
    }

    /// Whether the guard holds under these values.
    fn guard_holds(&self, values: &[i64]) -> bool
        ensures { result ≡ guard_holds (valued values.now) self.now.guard.items }
    {
        self.guard
            .iter()
            .all(|comparison| holds(values, comparison))
    }

    /// Whether the rule has an instance with these heads, in place order: some valuation of its variables makes its
    /// heads these atoms and its guard true. False where there isn't one atom for each head place.
    pub fn fires(&self, heads: &[Atom]) -> bool
        ensures { IsTrue result ↔ HasInstance self.now heads.now }
    {
        self.fires_by(heads, &mut Values::new())
    }

    /// Like [`Rule::fires`], and where there is such an instance, `values` become the values of its variables.
    pub fn fires_by(&self, heads: &[Atom], values: &mut Values) -> bool
        ensures fires { IsTrue result ↔ HasInstance self.now heads.now }
        ensures values { OnTrue result (heads_at (valued values.new.items) self.now ≡ heads.now) }
    {
        if heads.len() != self.places() {
            return false;
        }
        values.clear();
        if !self.bind(heads, values) {
            return false;
        }
        self.guard_holds(values.as_slice())
    }

    /// The body of the instance with these heads. Each valuation that makes these heads makes this body.
    pub fn body_of(&self, heads: &[Atom]) -> ArrayVec<Atom, MAX_BODY>
        requires { HasInstance self.now heads.now }
        ensures { (v : Valuation) → heads_at v self.now ≡ heads.now → result.items ≡ atoms_at v self.now.body.items }
    {
        let mut values = Values::new();
        let mut body = ArrayVec::new();
        // The heads are an instance's, so they bind.
        if self.bind(heads, &mut values) {
            for pattern in self.body.as_slice() {
                body.push(instance_of(values.as_slice(), pattern));
            }
        }
        body
    }

    /// Puts the body under these values of the variables at the end, where there is room for it.
    pub fn push_body(&self, values: &[i64], items: &mut Vec<Atom>)
        requires { vec_len items.old + MAX_BODY ≤ vec_capacity items.old }
        ensures items { items.new.items ≡ items.old.items ++ atoms_at (valued values.now) self.now.body.items }
        ensures room { vec_len items.new ≤ vec_len items.old + MAX_BODY }
        ensures capacity { vec_capacity items.new ≡ vec_capacity items.old }
    {
        push_instances(items, values, self.body.as_slice());
    }

    /// An equal rule. It takes no memory.
    pub fn copy(&self) -> Rule
        ensures { result ≡ self.now }
    {
        let mut guard = ArrayVec::new();
        for comparison in self.guard.as_slice() {
            guard.push(*comparison);
        }
        Rule {
            name: self.name,
            kept: copies_of(&self.kept),
            removed: copies_of(&self.removed),
            guard,
            body: copies_of(&self.body),
        }
    }

    /// Whether the two have the same name, heads, guard and body.
    pub fn is_same(&self, other: &Rule) -> bool
        ensures { IsTrue result ↔ (parts_of self.now ≡ parts_of other.now) }
    {
        // Most rules that are compared are the same, so nothing is gained by an early end.
        let kept = same_patterns(&self.kept, &other.kept);
        let removed = same_patterns(&self.removed, &other.removed);
        let guard = same_comparisons(&self.guard, &other.guard);
        let body = same_patterns(&self.body, &other.body);
        let name = self.name == other.name;
        name & (kept & (removed & (guard & body)))
    }
}
