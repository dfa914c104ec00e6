//! The case of an overlap with the smallest store that comes to two ends.
ghost use Rattle.std.specs.Prelude.{◌≤◌, ℕ, IfOk, IfSome};
ghost use Rattle.std.specs.Bool.{OnTrue};
ghost use Rattle.chr_base.specs.Stores.{size};
ghost use Rattle.chr_weights.specs.WeighedPrograms.{rules_in};
ghost use Rattle.chr_overlaps.specs.CaseLists.{AreCases};
ghost use Rattle.chr_join.specs.Explanations.{ReplaysToRest};
ghost use Rattle.chr_diagnosis.specs.Diagnoses.{IsFailureAt, IsSmallerFailureAt, IsSmallerFailureOf};
ghost use Rattle.chr_diagnosis.specs.working.Sides.{IsSideFrom};

use chr_base::bag::Bag;
use chr_base::derivation::{Derivation, Step};
use chr_join::Failure;
use chr_overlaps::Overlap;
use chr_overlaps::cases::Case;
use chr_rewrite::list::ListPool;
use chr_rewrite::plain::plain_rest;
use chr_rewrite::pool::Pool;
use chr_rewrite::replay::{ReplayFault, replay, take_steps};
use chr_rewrite::resting::at_rest;
use chr_weights::Weighed;
use std::alloc::{AllocError, Global};

/// A derivation that ends at rest, and its end.
#[derive(Drop)]
pub(crate) struct Side {
    pub(crate) derivation: Derivation,
    pub(crate) end: Bag,
}

/// The number of different values in a store.
fn values_in(alloc: Global, store: &Bag) -> Result<usize, AllocError> {
    let mut values = Vec::new(alloc);
    for atom in store.atoms() {
        for value in atom.args.as_slice() {
            if !values.contains(value) {
                values.push(*value)?;
            }
        }
    }
    Ok(values.len())
}

/// Whether the atoms of a store come before those of another one.
fn comes_before(store: &Bag, other: &Bag) -> bool {
    for (atom, other) in store.atoms().iter().zip(other.atoms().iter()) {
        let order = atom.order(other);
        if !order.is_eq() {
            return order.is_lt();
        }
    }
    store.len() < other.len()
}

/// Whether a store has fewer different values than another one, or as many and comes before it.
fn has_less(alloc: Global, store: &Bag, other: &Bag) -> Result<bool, AllocError> {
    let values = values_in(alloc, store)?;
    let others = values_in(alloc, other)?;
    Ok(values < others || (values == others && comes_before(store, other)))
}

/// Whether a store has fewer atoms than another one; or as many, and fewer different values; or as many of these too,
/// and comes before it.
fn is_smaller(alloc: Global, store: &Bag, other: &Bag) -> Result<bool, AllocError>
    ensures { IfOk result (λ smaller. OnTrue smaller (size store.now ≤ size other.now)) }
{
    if store.len() == other.len() {
        has_less(alloc, store, other)
    } else {
        Ok(store.len() < other.len())
    }
}

/// The end of a derivation, where it can be replayed and ends at rest.
fn replayed(
    alloc: Global,
    weighed: &Weighed,
    derivation: &Derivation,
) -> Result<Option<Bag>, AllocError>
    ensures { IfOk result (λ end. IfSome end (ReplaysToRest (rules_in weighed.now) derivation.now)) }
{
    let mut pool = ListPool::new(alloc);
    pool.insert(derivation.start.atoms())?;
    match take_steps(weighed, &mut pool, &derivation.steps) {
        Ok(()) => {}
        Err(ReplayFault::NotThere(_)) => return Ok(None),
        Err(ReplayFault::Memory) => return Err(AllocError),
    }
    if !at_rest(weighed, &pool) {
        return Ok(None);
    }
    Ok(Some(pool.bag(alloc)?))
}

/// The steps of the plain derivation after a step, where it is one.
fn steps_after(
    alloc: Global,
    weighed: &Weighed,
    store: &Bag,
    step: &Step,
) -> Result<Vec<Step>, AllocError> {
    let mut steps = Vec::new(alloc);
    steps.push(step.copy())?;
    let start = store.copy(alloc)?;
    match replay(alloc, weighed, &Derivation { start, steps }) {
        Ok(after) => Ok(plain_rest(alloc, weighed, &after)?.steps),
        Err(ReplayFault::NotThere(_)) => Ok(Vec::new(alloc)),
        Err(ReplayFault::Memory) => Err(AllocError),
    }
}

/// The derivation that begins with a step at a store and goes on plainly, where it is one.
fn side_from(
    alloc: Global,
    weighed: &Weighed,
    store: &Bag,
    step: &Step,
) -> Result<Option<Side>, AllocError>
    ensures { IfOk result (λ found. IfSome found (IsSideFrom (rules_in weighed.now) store.now step.now)) }
{
    let mut steps = steps_after(alloc, weighed, store, step)?;
    steps.insert(0, step.copy())?;
    let start = store.copy(alloc)?;
    let derivation = Derivation { start, steps };
    match replayed(alloc, weighed, &derivation)? {
        Some(end) => Ok(Some(Side { derivation, end })),
        None => Ok(None),
    }
}

/// How a case fails, where its sides end in different stores.
fn failing(
    alloc: Global,
    weighed: &Weighed,
    overlap: &Overlap,
    case: &Case,
) -> Result<Option<Failure>, AllocError>
    ensures { IfOk result (λ found. IfSome found (IsFailureAt (rules_in weighed.now) overlap.now case.now)) }
{
    let Some(left) = side_from(alloc, weighed, &case.store, &case.left)? else {
        return Ok(None);
    };
    let Some(right) = side_from(alloc, weighed, &case.store, &case.right)? else {
        return Ok(None);
    };
    if left.end.is_same(&right.end) {
        return Ok(None);
    }
    Ok(Some(Failure {
        overlap: overlap.copy(),
        left: left.derivation,
        left_end: left.end,
        right: right.derivation,
        right_end: right.end,
    }))
}

/// How a case fails, where its store is smaller than the least one so far.
fn smaller_at(
    alloc: Global,
    weighed: &Weighed,
    overlap: &Overlap,
    case: &Case,
    least: &Bag,
) -> Result<Option<Failure>, AllocError>
    ensures { IfOk result (λ found. IfSome found
        (IsSmallerFailureAt (rules_in weighed.now) overlap.now case.now (size least.now))) }
{
    if is_smaller(alloc, &case.store, least)? {
        failing(alloc, weighed, overlap, case)
    } else {
        Ok(None)
    }
}

/// The store of the case that was found, or else this one.
pub(crate) fn least_of<'a>(found: &'a Option<Failure>, store: &'a Bag) -> &'a Bag
    ensures { (n : ℕ) → size store.now ≤ n → IfSome found.now (λ f. size f.left.start ≤ n) → size result.now ≤ n }
{
    match found {
        Some(failure) => &failure.left.start,
        None => store,
    }
}

/// Of the cases that fail the one with the smallest store, where that is smaller than this.
pub(crate) fn smallest_among(
    alloc: Global,
    weighed: &Weighed,
    overlap: &Overlap,
    cases: &[Case],
    store: &Bag,
) -> Result<Option<Failure>, AllocError>
    requires { AreCases (rules_in weighed.now) overlap.now cases.now }
    ensures { IfOk result (λ found. IfSome found
        (IsSmallerFailureOf (rules_in weighed.now) overlap.now (size store.now))) }
{
    let mut smallest: Option<Failure> = None;
    for case in cases {
        let least = least_of(&smallest, store);
        if let Some(failure) = smaller_at(alloc, weighed, overlap, case, least)? {
            smallest = Some(failure);
        }
    }
    Ok(smallest)
}
