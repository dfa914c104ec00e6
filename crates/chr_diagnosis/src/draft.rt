//! Changes of a rule that leads to two ends, to be tried.

use chr_base::rule::Rule;
use chr_base::term::{Cmp, Comparison, Pattern, Term};
use std::alloc::{AllocError, Global};

/// Two variables, of which the second is told as the first.
#[derive(Clone, Copy, Debug, PartialEq, Eq)]
pub(crate) struct Pair {
    pub first: u8,
    pub second: u8,
}

/// A rule with changes.
#[derive(Drop)]
pub(crate) struct Draft {
    /// The place of a head that is kept and no more removed, counted from 0 among the removed ones.
    pub kept: Option<usize>,
    pub guard: Vec<Comparison>,
    /// Variables that are made one.
    pub equal: Vec<Pair>,
    /// Whether it fires only where two columns are equal, of which the rule compared none.
    pub is_narrow: bool,
}

/// The sign that holds where this one does, but not of equal values.
fn strict(cmp: Cmp) -> Option<Cmp> {
    match cmp {
        Cmp::AtMost => Some(Cmp::Less),
        Cmp::AtLeast => Some(Cmp::Greater),
        _ => None,
    }
}

/// The variables that a comparison compares, where they are two.
fn compared(comparison: &Comparison) -> Option<Pair> {
    match (comparison.left, comparison.right) {
        (Term::Variable(first), Term::Variable(second)) => Some(Pair { first, second }),
        _ => None,
    }
}

/// Whether the guard compares the two variables.
fn is_compared(guard: &[Comparison], pair: Pair) -> bool {
    let turned = Pair {
        first: pair.second,
        second: pair.first,
    };
    guard.iter().any(|one| compared(one) == Some(pair) || compared(one) == Some(turned))
}

/// The first of these atoms that has the symbol of this one.
fn rival_of<'a>(pattern: &Pattern, among: &'a [Pattern]) -> Option<&'a Pattern> {
    for other in among {
        if other.symbol == pattern.symbol {
            return Some(other);
        }
    }
    None
}

/// A kept head of the rule and a removed one of the same symbol, or else two removed ones.
fn rivals(rule: &Rule) -> Option<(&Pattern, &Pattern)> {
    for kept in rule.kept.as_slice() {
        if let Some(removed) = rival_of(kept, rule.removed.as_slice()) {
            return Some((kept, removed));
        }
    }
    match rule.removed.as_slice() {
        [first, rest @ ..] => Some((first, rival_of(first, rest)?)),
        [] => None,
    }
}

/// The variables in the columns in which two heads of one symbol differ, but those that the guard compares.
fn columns(alloc: Global, rule: &Rule) -> Result<Vec<Pair>, AllocError> {
    let mut pairs = Vec::new(alloc);
    let Some((kept, removed)) = rivals(rule) else {
        return Ok(pairs);
    };
    for (left, right) in kept.args.iter().zip(removed.args.iter()) {
        if let (Term::Variable(first), Term::Variable(second)) = (*left, *right) {
            let pair = Pair { first, second };
            if first != second && !is_compared(rule.guard.as_slice(), pair) {
                pairs.push(pair)?;
            }
        }
    }
    Ok(pairs)
}

/// The rule's guard.
fn guard_of(alloc: Global, rule: &Rule) -> Result<Vec<Comparison>, AllocError> {
    Vec::from_slice(alloc, rule.guard.as_slice())
}

/// The rule's guard without the comparison at this place.
fn guard_without(alloc: Global, rule: &Rule, place: usize) -> Result<Vec<Comparison>, AllocError> {
    let mut guard = Vec::new(alloc);
    for (i, comparison) in rule.guard.iter().enumerate() {
        if i != place {
            guard.push(*comparison)?;
        }
    }
    Ok(guard)
}

/// The rule with another guard.
fn guarded(alloc: Global, guard: Vec<Comparison>) -> Draft {
    Draft {
        kept: None,
        guard,
        equal: Vec::new(alloc),
        is_narrow: false,
    }
}

/// The rule whose comparison at this place holds no more of equal values. None where it does not now.
fn stricter(alloc: Global, rule: &Rule, place: usize) -> Result<Option<Draft>, AllocError> {
    let Some(comparison) = rule.guard.get(place) else {
        return Ok(None);
    };
    let Some(cmp) = strict(comparison.cmp) else {
        return Ok(None);
    };
    let mut guard = guard_of(alloc, rule)?;
    if let Some(at) = guard.get_mut(place) {
        *at = Comparison {
            left: comparison.left,
            cmp,
            right: comparison.right,
        };
    }
    Ok(Some(guarded(alloc, guard)))
}

/// The rule that compares these two variables too.
fn comparing(
    alloc: Global,
    guard: &[Comparison],
    equal: &[Pair],
    pair: Pair,
    cmp: Cmp,
) -> Result<Draft, AllocError> {
    let mut guard = Vec::from_slice(alloc, guard)?;
    guard.push(Comparison {
        left: Term::Variable(pair.first),
        cmp,
        right: Term::Variable(pair.second),
    })?;
    Ok(Draft {
        kept: None,
        guard,
        equal: Vec::from_slice(alloc, equal)?,
        is_narrow: cmp == Cmp::Equal,
    })
}

/// Adds rules that decide by these columns, one after the other: each where those before it are equal.
fn push_orders(
    alloc: Global,
    drafts: &mut Vec<Draft>,
    guard: &[Comparison],
    mut equal: Vec<Pair>,
    columns: &[Pair],
) -> Result<(), AllocError> {
    for (i, pair) in columns.iter().enumerate() {
        let is_last = i + 1 == columns.len();
        let cmp = if is_last { Cmp::AtMost } else { Cmp::Less };
        drafts.push(comparing(alloc, guard, &equal, *pair, cmp)?)?;
        equal.push(*pair)?;
    }
    Ok(())
}

/// The rule whose comparison at this place holds no more of equal values, and rules that decide these by the columns
/// that it does not compare. None where there is no such comparison or no such column.
fn with_ties(alloc: Global, rule: &Rule, place: usize) -> Result<Vec<Draft>, AllocError> {
    let mut drafts = Vec::new(alloc);
    let Some(pair) = rule.guard.get(place).and_then(compared) else {
        return Ok(drafts);
    };
    let Some(first) = stricter(alloc, rule, place)? else {
        return Ok(drafts);
    };
    let guard = guard_without(alloc, rule, place)?;
    let columns = columns(alloc, rule)?;
    if columns.is_empty() || is_compared(&guard, pair) {
        return Ok(drafts);
    }
    let mut equal = Vec::new(alloc);
    equal.push(pair)?;
    drafts.push(first)?;
    push_orders(alloc, &mut drafts, &guard, equal, &columns)?;
    Ok(drafts)
}

/// Rules that decide by the columns that the rule does not compare.
fn by_columns(alloc: Global, rule: &Rule) -> Result<Vec<Draft>, AllocError> {
    let mut drafts = Vec::new(alloc);
    let columns = columns(alloc, rule)?;
    push_orders(
        alloc,
        &mut drafts,
        rule.guard.as_slice(),
        Vec::new(alloc),
        &columns,
    )?;
    Ok(drafts)
}

/// One rule in place of the other.
fn alone(alloc: Global, draft: Draft) -> Result<Vec<Draft>, AllocError> {
    let mut drafts = Vec::new(alloc);
    drafts.push(draft)?;
    Ok(drafts)
}

/// Adds what may stand in place of the rule, where its comparisons hold no more of equal values.
fn push_stricter(
    alloc: Global,
    candidates: &mut Vec<Vec<Draft>>,
    rule: &Rule,
) -> Result<(), AllocError> {
    for place in 0..rule.guard.len() {
        if let Some(draft) = stricter(alloc, rule, place)? {
            candidates.push(alone(alloc, draft)?)?;
        }
        candidates.push(with_ties(alloc, rule, place)?)?;
    }
    Ok(())
}

/// Adds the rule that compares a column too, for each column that it does not compare.
fn push_comparing(
    alloc: Global,
    candidates: &mut Vec<Vec<Draft>>,
    rule: &Rule,
    cmp: Cmp,
) -> Result<(), AllocError> {
    for pair in &columns(alloc, rule)? {
        let draft = comparing(alloc, rule.guard.as_slice(), &[], *pair, cmp)?;
        candidates.push(alone(alloc, draft)?)?;
    }
    Ok(())
}

/// Adds the rule that keeps one of its removed heads, for each of them where there are several.
fn push_keeping(
    alloc: Global,
    candidates: &mut Vec<Vec<Draft>>,
    rule: &Rule,
) -> Result<(), AllocError> {
    if rule.removed.len() < 2 {
        return Ok(());
    }
    for place in 0..rule.removed.len() {
        let mut draft = guarded(alloc, guard_of(alloc, rule)?);
        draft.kept = Some(place);
        candidates.push(alone(alloc, draft)?)?;
    }
    Ok(())
}

/// What may stand in place of the rule: rules, of which some lists are empty.
pub(crate) fn candidates(alloc: Global, rule: &Rule) -> Result<Vec<Vec<Draft>>, AllocError> {
    let mut candidates = Vec::new(alloc);
    push_stricter(alloc, &mut candidates, rule)?;
    candidates.push(by_columns(alloc, rule)?)?;
    push_comparing(alloc, &mut candidates, rule, Cmp::AtMost)?;
    push_comparing(alloc, &mut candidates, rule, Cmp::AtLeast)?;
    push_keeping(alloc, &mut candidates, rule)?;
    push_comparing(alloc, &mut candidates, rule, Cmp::Equal)?;
    Ok(candidates)
}
