//! Heads and guards at the values of their classes.
ghost use Rattle.std.specs.Prelude.{◌≡◌, ◌≤◌, if◌then◌else◌, length, None, Some};
ghost use Rattle.std.specs.Ordering.{int_cmp};
ghost use Rattle.chr_base.specs.Rules.{term_value, atom_at, atoms_at, compares, comparison_holds, guard_holds};
ghost use Rattle.chr_confluence.specs.Representatives.{assignment};
ghost use Rattle.chr_overlaps.specs.working.Beginnings.{has_place, is_known, may_hold, all_may_hold};

use arrayvec::ArrayVec;
use chr_base::atom::Atom;
use chr_base::limits::MAX_HEADS;
use chr_base::term::{Cmp, Comparison, Pattern, Term};

/// The value at a variable's place among the classes, 0 where it is none of them.
fn assignment(classes: &[u8], values: &[i64], variable: u8) -> i64
    ensures { result ≡ assignment classes.now values.now variable }
{
    let [class, classes @ ..] = classes else {
        return 0;
    };
    let [value, values @ ..] = values else {
        return 0;
    };
    if variable == *class {
        *value
    } else {
        assignment(classes, values, variable)
    }
}

/// The value of a term, where each class has its value.
fn value_of(classes: &[u8], values: &[i64], term: &Term) -> i64
    ensures { result ≡ term_value (assignment classes.now values.now) term.now }
{
    match term {
        Term::Variable(variable) => assignment(classes, values, *variable),
        Term::Constant(value) => *value,
    }
}

/// The atom that a pattern is, where each class has its value.
fn instance(classes: &[u8], values: &[i64], pattern: &Pattern) -> Atom
    ensures { result ≡ atom_at (assignment classes.now values.now) pattern.now }
{
    let mut args = ArrayVec::new();
    for term in pattern.args.as_slice() {
        args.push(value_of(classes, values, term));
    }
    Atom {
        symbol: pattern.symbol,
        args,
    }
}

/// The atoms that heads are, where each class has its value.
pub(crate) fn instances(
    classes: &[u8],
    values: &[i64],
    heads: &ArrayVec<Pattern, MAX_HEADS>,
) -> ArrayVec<Atom, MAX_HEADS>
    ensures { result.items ≡ atoms_at (assignment classes.now values.now) heads.now.items }
{
    let mut atoms = ArrayVec::new();
    for head in heads.as_slice() {
        atoms.push(instance(classes, values, head));
    }
    atoms
}

/// Whether two values compare as the sign says.
fn compares(left: i64, cmp: Cmp, right: i64) -> bool
    ensures { result ≡ compares cmp (int_cmp left right) }
{
    let order = left.cmp(&right);
    match cmp {
        Cmp::Less => order.is_lt(),
        Cmp::AtMost => order.is_le(),
        Cmp::Greater => order.is_gt(),
        Cmp::AtLeast => order.is_ge(),
        Cmp::Equal => order.is_eq(),
        Cmp::NotEqual => order.is_ne(),
    }
}

/// Whether a comparison holds, where each class has its value.
fn holds(classes: &[u8], values: &[i64], comparison: &Comparison) -> bool
    ensures { result ≡ comparison_holds (assignment classes.now values.now) comparison.now }
{
    let left = value_of(classes, values, &comparison.left);
    let right = value_of(classes, values, &comparison.right);
    compares(left, comparison.cmp, right)
}

/// Whether all comparisons hold, where each class has its value.
pub(crate) fn all_hold(classes: &[u8], values: &[i64], comparisons: &[Comparison]) -> bool
    ensures { result ≡ guard_holds (assignment classes.now values.now) comparisons.now }
{
    comparisons
        .iter()
        .all(|comparison| holds(classes, values, comparison))
}

/// The value of a variable, if it is one of the first classes, those that have values.
fn known_at(classes: &[u8], values: &[i64], variable: u8) -> Option<i64>
    ensures { result ≡ (if has_place classes.now values.now variable
        then Some (assignment classes.now values.now variable) else None) }
{
    let [class, classes @ ..] = classes else {
        return None;
    };
    let [value, values @ ..] = values else {
        return None;
    };
    if variable == *class {
        Some(*value)
    } else {
        known_at(classes, values, variable)
    }
}

/// The value of a term, if it is known, where the first classes have values.
fn known_value(classes: &[u8], values: &[i64], term: &Term) -> Option<i64>
    ensures { result ≡ (if is_known classes.now values.now term.now
        then Some (term_value (assignment classes.now values.now) term.now) else None) }
{
    match term {
        Term::Variable(variable) => known_at(classes, values, *variable),
        Term::Constant(value) => Some(*value),
    }
}

/// Whether a comparison holds, where the first classes have values, or a value of it is not known yet.
fn may_hold(classes: &[u8], values: &[i64], comparison: &Comparison) -> bool
    ensures { result ≡ may_hold classes.now values.now comparison.now }
{
    let Some(left) = known_value(classes, values, &comparison.left) else {
        return true;
    };
    match known_value(classes, values, &comparison.right) {
        Some(right) => compares(left, comparison.cmp, right),
        None => true,
    }
}

/// Whether no comparison fails whose values are known, where the first classes have values.
pub(crate) fn all_may_hold(classes: &[u8], values: &[i64], comparisons: &[Comparison]) -> bool
    ensures { result ≡ all_may_hold classes.now comparisons.now values.now }
{
    comparisons
        .iter()
        .all(|comparison| may_hold(classes, values, comparison))
}
