//! Plans are made: the partner of which most arguments are known is looked for next.
ghost use Rattle.std.specs.Prelude.{◌≡◌, ◌<◌, ◌≤◌, ◌+◌, ◌++◌, ◌∷◌, [], length};
ghost use Rattle.std.specs.Bool.{OnTrue, OnFalse};
ghost use Rattle.chr_base.specs.Rules.{heads_of};
ghost use Rattle.chr_base.specs.RuleTests.{is_variable};
ghost use Rattle.chr_plans.specs.Plans.{IsPlan};
ghost use Rattle.chr_plans.specs.Planning.{is_in, column_of, variable_source, direct_source, equal_to, equal_source};
ghost use Rattle.chr_plans.specs.Planning.{term_source, keys_from, key_at, test_of, tests_from, tests_at, is_equal};
ghost use Rattle.chr_plans.specs.Planning.{turned, own_column, limit_by, limit_of, limits_from, MayLimit, AreLongest};
ghost use Rattle.chr_plans.specs.Planning.{fixed_test, never_holds, never_fires};
ghost use Rattle.chr_plans.specs.working.Choosing.{ArePlaces, IsChoice, IsLonger};

use crate::key::{Key, Limit, Source, Test, is_order, order_of, passes};
use crate::plan::Partner;
use arrayvec::ArrayVec;
use chr_base::limits::{MAX_ARITY, MAX_COMPARISONS, MAX_HEADS};
use chr_base::rule::Rule;
use chr_base::term::{Cmp, Comparison, Pattern, Term};

/// Whether a place is one of the known ones.
fn is_in(place: usize, known: &[usize]) -> bool
    ensures { result ≡ is_in place known.now }
{
    known.contains(&place)
}

/// The first column at which the terms, which begin at this column, have the variable.
fn column_of(terms: &[Term], variable: u8, column: usize) -> Option<usize>
    requires { column + length terms.now ≤ MAX_ARITY }
    ensures { result ≡ column_of terms.now variable column }
{
    let [term, terms @ ..] = terms else {
        return None;
    };
    match term {
        Term::Variable(x) if variable == *x => Some(column),
        _ => column_of(terms, variable, column + 1),
    }
}

/// Where the variable first stands in the heads at these places.
fn variable_source(rule: &Rule, known: &[usize], variable: u8) -> Option<Source>
    requires { ArePlaces rule.now known.now }
    ensures { result ≡ variable_source rule.now known.now variable }
{
    let [place, known @ ..] = known else {
        return None;
    };
    match column_of(&rule.head_at(*place).args, variable, 0) {
        Some(column) => Some(Source::Argument {
            place: *place,
            column,
        }),
        None => variable_source(rule, known, variable),
    }
}

/// Where the value of a term stands, when the heads at these places are known.
fn direct_source(rule: &Rule, known: &[usize], term: Term) -> Option<Source>
    requires { ArePlaces rule.now known.now }
    ensures { result ≡ direct_source rule.now known.now term }
{
    match term {
        Term::Variable(variable) => variable_source(rule, known, variable),
        Term::Constant(value) => Some(Source::Constant(value)),
    }
}

/// Whether the term is this variable.
fn is_variable(variable: u8, term: Term) -> bool
    ensures { result ≡ is_variable variable term }
{
    match term {
        Term::Variable(x) => variable == x,
        Term::Constant(_) => false,
    }
}

/// The term that the comparison says the variable equals.
fn equal_to(variable: u8, comparison: &Comparison) -> Option<Term>
    ensures { result ≡ equal_to variable comparison.now }
{
    match comparison.cmp {
        Cmp::Equal if is_variable(variable, comparison.left) => Some(comparison.right),
        Cmp::Equal if is_variable(variable, comparison.right) => Some(comparison.left),
        _ => None,
    }
}

/// Where a term stands that one of the comparisons says the variable equals.
fn equal_source(rule: &Rule, known: &[usize], variable: u8, guard: &[Comparison]) -> Option<Source>
    requires { ArePlaces rule.now known.now }
    ensures { result ≡ equal_source rule.now known.now variable guard.now }
{
    let [comparison, guard @ ..] = guard else {
        return None;
    };
    if let Some(term) = equal_to(variable, comparison) {
        if let Some(source) = direct_source(rule, known, term) {
            return Some(source);
        }
    }
    equal_source(rule, known, variable, guard)
}

/// Where the value of a term comes from, when the heads at these places are known: one of them has it, or has a term
/// that the guard says it equals.
fn term_source(rule: &Rule, known: &[usize], term: Term) -> Option<Source>
    requires { ArePlaces rule.now known.now }
    ensures { result ≡ term_source rule.now known.now term }
{
    let Term::Variable(variable) = term else {
        return direct_source(rule, known, term);
    };
    match variable_source(rule, known, variable) {
        Some(source) => Some(source),
        None => equal_source(rule, known, variable, &rule.guard),
    }
}

/// Adds a key for each of these terms, which begin at this column, whose value is known.
fn push_keys(
    rule: &Rule,
    known: &[usize],
    terms: &[Term],
    column: usize,
    key: &mut ArrayVec<Key, MAX_ARITY>,
)
    requires places { ArePlaces rule.now known.now }
    requires column { column + length terms.now ≤ MAX_ARITY }
    requires room { length key.old.items ≤ column }
    ensures { key.new.items ≡ key.old.items ++ keys_from rule.now known.now column terms.now }
{
    let [term, terms @ ..] = terms else {
        return;
    };
    if let Some(source) = term_source(rule, known, *term) {
        key.push(Key { column, source });
    }
    push_keys(rule, known, terms, column + 1, key);
}

/// The key of the head at a place: each argument whose value is known, in order.
fn key_at(rule: &Rule, known: &[usize], place: usize) -> ArrayVec<Key, MAX_ARITY>
    requires places { ArePlaces rule.now known.now }
    requires place { place < length (heads_of rule.now) }
    ensures { result.items ≡ key_at rule.now known.now place }
{
    let mut key = ArrayVec::new();
    push_keys(rule, known, &rule.head_at(place).args, 0, &mut key);
    key
}

/// A comparison as a test, where the heads at these places have both its terms.
fn test_of(rule: &Rule, known: &[usize], comparison: &Comparison) -> Option<Test>
    requires { ArePlaces rule.now known.now }
    ensures { result ≡ test_of rule.now known.now comparison.now }
{
    let left = direct_source(rule, known, comparison.left)?;
    let right = direct_source(rule, known, comparison.right)?;
    Some(Test {
        left,
        cmp: comparison.cmp,
        right,
    })
}

/// Adds a test for each of these comparisons that the heads at the known places allow, and those at the places before
/// do not.
fn push_tests(
    rule: &Rule,
    before: &[usize],
    known: &[usize],
    guard: &[Comparison],
    tests: &mut ArrayVec<Test, MAX_COMPARISONS>,
)
    requires before { ArePlaces rule.now before.now }
    requires places { ArePlaces rule.now known.now }
    requires room { length tests.old.items + length guard.now ≤ MAX_COMPARISONS }
    ensures { tests.new.items ≡ tests.old.items ++ tests_from rule.now before.now known.now guard.now }
{
    let [comparison, guard @ ..] = guard else {
        return;
    };
    if test_of(rule, before, comparison).is_none() {
        if let Some(test) = test_of(rule, known, comparison) {
            tests.push(test);
        }
    }
    push_tests(rule, before, known, guard, tests);
}

/// A comparison whose outcome hangs on no values, as a test of constants.
fn fixed_test(comparison: &Comparison) -> Option<Test>
    ensures { result ≡ fixed_test comparison.now }
{
    let (left, right) = match comparison.left {
        Term::Constant(left) => match comparison.right {
            Term::Constant(right) => (left, right),
            Term::Variable(_) => return None,
        },
        Term::Variable(left) => match comparison.right {
            Term::Variable(right) if left == right => (0, 0),
            _ => return None,
        },
    };
    Some(Test {
        left: Source::Constant(left),
        cmp: comparison.cmp,
        right: Source::Constant(right),
    })
}

/// Whether the comparison holds under no values.
fn never_holds(comparison: &Comparison) -> bool
    ensures { result ≡ never_holds comparison.now }
{
    match fixed_test(comparison) {
        Some(test) => !passes(&[], &test),
        None => false,
    }
}

/// Whether a comparison of the guard holds under no values, so that the rule has no instance.
fn never_fires(rule: &Rule) -> bool
    ensures { result ≡ never_fires rule.now }
{
    rule.guard.iter().any(|comparison| never_holds(comparison))
}

/// The tests of the guard that the last known head allows. Where the rule has no instance it is one that nothing
/// passes, so that no partner is looked for.
fn tests_at(rule: &Rule, known: &[usize]) -> ArrayVec<Test, MAX_COMPARISONS>
    requires { ArePlaces rule.now known.now }
    ensures { result.items ≡ tests_at rule.now known.now }
{
    let mut tests = ArrayVec::new();
    if never_fires(rule) {
        tests.push(Test {
            left: Source::Constant(0),
            cmp: Cmp::NotEqual,
            right: Source::Constant(0),
        });
        return tests;
    }
    let before = &known[..known.len().saturating_sub(1)];
    push_tests(rule, before, known, &rule.guard, &mut tests);
    tests
}

/// Whether the sign is that for equal values.
fn is_equal(cmp: Cmp) -> bool
    ensures { result ≡ is_equal cmp }
{
    match cmp {
        Cmp::Equal => true,
        Cmp::Less | Cmp::AtMost | Cmp::Greater | Cmp::AtLeast | Cmp::NotEqual => false,
    }
}

/// The sign for the sides in the other order.
fn turned(cmp: Cmp) -> Cmp
    ensures { result ≡ turned cmp }
{
    match cmp {
        Cmp::Less => Cmp::Greater,
        Cmp::AtMost => Cmp::AtLeast,
        Cmp::Greater => Cmp::Less,
        Cmp::AtLeast => Cmp::AtMost,
        Cmp::Equal => Cmp::Equal,
        Cmp::NotEqual => Cmp::NotEqual,
    }
}

/// The first column at which the head at a place has the term, where it is a variable.
fn own_column(rule: &Rule, place: usize, term: Term) -> Option<usize>
    requires { place < length (heads_of rule.now) }
    ensures { result ≡ own_column rule.now place term }
{
    match term {
        Term::Variable(variable) => column_of(&rule.head_at(place).args, variable, 0),
        Term::Constant(_) => None,
    }
}

/// A limit of the column, by a value that is known.
fn limit_by(cmp: Cmp, column: Option<usize>, source: Option<Source>) -> Option<Limit>
    ensures { result ≡ limit_by cmp column source }
{
    let column = column?;
    let source = source?;
    if is_equal(cmp) {
        None
    } else {
        Some(Limit {
            column,
            cmp,
            source,
        })
    }
}

/// A comparison as a limit of the head at a place, where one side stands in it and the other is known.
fn limit_of(rule: &Rule, known: &[usize], place: usize, comparison: &Comparison) -> Option<Limit>
    requires places { ArePlaces rule.now known.now }
    requires place { place < length (heads_of rule.now) }
    ensures { result ≡ limit_of rule.now known.now place comparison.now }
{
    let column = own_column(rule, place, comparison.left);
    let source = direct_source(rule, known, comparison.right);
    if let Some(limit) = limit_by(comparison.cmp, column, source) {
        return Some(limit);
    }
    let column = own_column(rule, place, comparison.right);
    let source = direct_source(rule, known, comparison.left);
    limit_by(turned(comparison.cmp), column, source)
}

/// Adds a limit of the head at a place for each of these comparisons that is one, and no test of what is known.
fn push_limits(
    rule: &Rule,
    known: &[usize],
    place: usize,
    guard: &[Comparison],
    limits: &mut ArrayVec<Limit, MAX_COMPARISONS>,
)
    requires places { ArePlaces rule.now known.now }
    requires place { place < length (heads_of rule.now) }
    requires room { length limits.old.items + length guard.now ≤ MAX_COMPARISONS }
    ensures { limits.new.items ≡ limits.old.items ++ limits_from rule.now known.now place guard.now }
{
    let [comparison, guard @ ..] = guard else {
        return;
    };
    if test_of(rule, known, comparison).is_none() {
        if let Some(limit) = limit_of(rule, known, place, comparison) {
            limits.push(limit);
        }
    }
    push_limits(rule, known, place, guard, limits);
}

/// Whether the source is an argument in this column.
fn is_in_column(source: Source, column: usize) -> bool {
    matches!(source, Source::Argument { column: other, .. } if other == column)
}

/// Whether at most one of all atoms with one key rests. That is seen where the rule has two heads for the same atoms,
/// and its whole guard is a `=<` or `>=` of the arguments in one column: of two such atoms one can be the first head,
/// and the other the second.
///
/// In other cases more can rest: under `<` and `>` those that are equal in the column; under any sign atoms of two
/// symbols, those of three heads, and those that a further comparison keeps apart.
fn leaves_one(
    rule: &Rule,
    known: &[usize],
    partner: &Pattern,
    key: &[Key],
    limits: &[Limit],
) -> bool
    requires { ArePlaces rule.now known.now }
{
    let ([active], [limit]) = (known, limits) else {
        return false;
    };
    let active = rule.head_at(*active);
    rule.places() == 2
        && rule.guard.len() == 1
        && active.symbol.0 == partner.symbol.0
        && active.args.len() == partner.args.len()
        && matches!(limit.cmp, Cmp::AtMost | Cmp::AtLeast)
        && is_in_column(limit.source, limit.column)
        && key
            .iter()
            .all(|part| is_in_column(part.source, part.column))
}

/// The limits of the head at a place with this key; none, where the key alone finds few rows at rest, or the rule never
/// fires.
fn limits_at(
    rule: &Rule,
    known: &[usize],
    place: usize,
    key: &[Key],
) -> ArrayVec<Limit, MAX_COMPARISONS>
    requires places { ArePlaces rule.now known.now }
    requires place { place < length (heads_of rule.now) }
    ensures { MayLimit rule.now known.now place result.items }
{
    let mut limits = ArrayVec::new();
    push_limits(rule, known, place, &rule.guard, &mut limits);
    if never_fires(rule) || leaves_one(rule, known, rule.head_at(place), key, &limits) {
        return ArrayVec::new();
    }
    limits
}

/// The number of limits by an order.
fn orders_in(limits: &[Limit]) -> usize {
    limits.iter().filter(|limit| is_order(limit.cmp)).count()
}

/// Whether the limits by an order are more than those others, or are as many where all limits are more.
fn limit_more(limits: &[Limit], others: &[Limit]) -> bool {
    let orders = orders_in(limits);
    let other_orders = orders_in(others);
    other_orders < orders || other_orders == orders && others.len() < limits.len()
}

/// Whether a partner comes sooner than the best so far: its key is longer, or is as long where its limits are more.
fn is_sooner(next: &Partner, best: &Partner) -> bool
    ensures sooner { OnTrue result (length best.now.key.items ≤ length next.now.key.items) }
    ensures later { OnFalse result (length next.now.key.items ≤ length best.now.key.items) }
{
    if next.key.len() == best.key.len() {
        return limit_more(&next.limits, &best.limits);
    }
    best.key.len() < next.key.len()
}

/// The partner with the longer key; where both are as long that with more limits, and else `best`.
fn longer(best: Option<Partner>, next: Partner) -> Partner
    ensures { IsLonger best next result }
{
    match best {
        Some(partner) => {
            if is_sooner(&next, &partner) {
                next
            } else {
                partner
            }
        }
        None => next,
    }
}

/// The first partner with the longest key among the places that are not known; None where all are.
// Not put into its caller, whose frame would hold the room that this one takes.
#[inline(never)]
fn next_partner(rule: &Rule, known: &[usize]) -> Option<Partner>
    requires { ArePlaces rule.now known.now }
    ensures { IsChoice rule.now known.now (length (heads_of rule.now)) result }
{
    let mut best: Option<Partner> = None;
    for place in 0..rule.places() {
        if !is_in(place, known) {
            let key = key_at(rule, known, place);
            let limits = limits_at(rule, known, place, &key);
            let order = order_of(&limits);
            best = Some(longer(
                best,
                Partner {
                    place,
                    key,
                    tests: tests_at(rule, known),
                    limits,
                    order,
                },
            ));
        }
    }
    best
}

/// The plan of an occurrence: the partners in the order in which they are looked for, with their keys. The next partner
/// is always one of which most arguments are known: constants, variables that stand in the active atom or in a partner
/// before, and what the guard says is equal to one of these. Other comparisons limit the partner further, where its key
/// alone may find many atoms at rest.
// Not put into its caller, whose frame would hold the room that this one takes.
#[inline(never)]
pub fn plan_of(rule: &Rule, place: usize) -> ArrayVec<Partner, MAX_HEADS>
    requires { place < length (heads_of rule.now) }
    ensures plan { IsPlan rule.now place result.items }
    ensures longest { AreLongest rule.now place result.items }
{
    let mut known = ArrayVec::<usize, MAX_HEADS>::new();
    known.push(place);
    let mut partners = ArrayVec::new();
    while let Some(partner) = next_partner(rule, &known) {
        known.push(partner.place);
        partners.push(partner);
    }
    partners
}
