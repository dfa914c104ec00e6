//! The two sides of a case.
ghost use Rattle.std.specs.Prelude.{◌≡◌, IfOk, IfSome, IfNone};
ghost use Rattle.chr_base.specs.Stores.{Store};
ghost use Rattle.chr_rewrite.specs.Derivations.{IsApplicable, LeadsTo};
ghost use Rattle.chr_weights.specs.WeighedPrograms.{rules_in};
ghost use Rattle.chr_join.specs.Sides.{IsJoinable};
ghost use Rattle.chr_join.specs.Explanations.{IsSideOf, Explains};
ghost use Rattle.chr_join.specs.working.Checking.{EndApart};
ghost use Rattle.chr_join.specs.working.Ends.{AreEnds};

use crate::ends::Ends;
use crate::refused::Failure;
use chr_base::bag::Bag;
use chr_base::derivation::{Derivation, Step};
use chr_overlaps::Overlap;
use chr_overlaps::cases::Case;
use chr_rewrite::plain::{fired, plain_rest};
use chr_weights::Weighed;
use std::alloc::{AllocError, Global};

/// The store after a step.
fn after(alloc: Global, weighed: &Weighed, store: &Bag, step: &Step) -> Result<Bag, AllocError>
    requires { IsApplicable (rules_in weighed.now) store.now step.now }
    ensures { IfOk result (λ t. LeadsTo (rules_in weighed.now) step.now store.now t) }
{
    let rule = &weighed.program().rules()[step.rule as usize - 1];
    fired(alloc, rule, &step.heads, store)
}

/// The step, and the plain derivation after it.
fn side(
    alloc: Global,
    weighed: &Weighed,
    store: &Bag,
    step: &Step,
) -> Result<Derivation, AllocError>
    requires { IsApplicable (rules_in weighed.now) store.now step.now }
    ensures { IfOk result (λ d. (end : Store) × IsSideOf (rules_in weighed.now) store.now step.now d end) }
{
    let after = after(alloc, weighed, store, step)?;
    let start = store.copy(alloc)?;
    let mut steps = plain_rest(alloc, weighed, &after)?.steps;
    steps.insert(0, step.copy())?;
    Ok(Derivation { start, steps })
}

/// The ends of both sides of a case, where they differ. Sides that are equal have one end, so they are not rested.
pub(crate) fn different_ends(
    alloc: Global,
    weighed: &Weighed,
    ends: &mut Ends,
    case: &Case,
) -> Result<Option<(Bag, Bag)>, AllocError>
    requires left { IsApplicable (rules_in weighed.now) case.now.store case.now.left }
    requires right { IsApplicable (rules_in weighed.now) case.now.store case.now.right }
    requires known { AreEnds (rules_in weighed.now) ends.old.entries.items }
    ensures known { IfOk result (λ _. AreEnds (rules_in weighed.now) ends.new.entries.items) }
    ensures joinable { IfOk result (λ apart. IfNone apart (IsJoinable (rules_in weighed.now) case.now)) }
    ensures differ { IfOk result (λ apart. IfSome apart (EndApart (rules_in weighed.now) case.now)) }
{
    let left = after(alloc, weighed, &case.store, &case.left)?;
    let right = after(alloc, weighed, &case.store, &case.right)?;
    if left.is_same(&right) {
        return Ok(None);
    }
    if ends.have_one_end(&left, &right) {
        return Ok(None);
    }
    let left_end = ends.end_of(alloc, weighed, left)?;
    let right_end = ends.end_of(alloc, weighed, right)?;
    if left_end.is_same(&right_end) {
        Ok(None)
    } else {
        Ok(Some((left_end, right_end)))
    }
}

/// The derivations of a case that fails.
pub(crate) fn explained(
    alloc: Global,
    weighed: &Weighed,
    overlap: &Overlap,
    case: &Case,
    ends: (Bag, Bag),
) -> Result<Failure, AllocError>
    requires { EndApart (rules_in weighed.now) case.now ends }
    ensures overlap { IfOk result (λ f. f.overlap ≡ overlap.now) }
    ensures explains { IfOk result (λ f. Explains (rules_in weighed.now) case.now f) }
{
    let left = side(alloc, weighed, &case.store, &case.left)?;
    let right = side(alloc, weighed, &case.store, &case.right)?;
    let (left_end, right_end) = ends;
    Ok(Failure {
        overlap: overlap.copy(),
        left,
        left_end,
        right,
        right_end,
    })
}
