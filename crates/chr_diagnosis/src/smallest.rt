//! Of all overlaps the case with the smallest store that comes to two ends.
ghost use Rattle.std.specs.Prelude.{IfOk, IfSome, List};
ghost use Rattle.chr_overlaps.specs.declared.overlap.Overlap.{Overlap as OverlapValue};
ghost use Rattle.chr_base.specs.Stores.{size};
ghost use Rattle.chr_types.specs.OrderTypes.{In};
ghost use Rattle.chr_weights.specs.WeighedPrograms.{rules_in};
ghost use Rattle.chr_overlaps.specs.OverlapLists.{IsOverlapOf};
ghost use Rattle.chr_diagnosis.specs.Diagnoses.{AreSmallerWays, IsSmallerFailure};

use crate::limits::MAX_LOOKED_AT;
use crate::renaming::is_renamed;
use crate::smaller::{least_of, smallest_among};
use crate::ways::{Ways, ways_of};
use chr_base::bag::Bag;
use chr_join::Failure;
use chr_overlaps::cases::cases;
use chr_overlaps::constants::constants;
use chr_overlaps::{CaseFault, Overlap, overlaps};
use chr_weights::Weighed;
use std::alloc::{AllocError, Global};

/// The number of heads of a rule, 0 where there is no such rule.
fn places_of(weighed: &Weighed, number: u32) -> usize {
    match weighed
        .program()
        .rules()
        .get((number as usize).saturating_sub(1))
    {
        Some(rule) => rule.places(),
        None => 0,
    }
}

/// The number of atoms in the stores of an overlap's cases: the heads of both rules, the matched ones once.
fn atoms_of(weighed: &Weighed, overlap: &Overlap) -> usize {
    let first = places_of(weighed, overlap.first);
    let mut atoms = first.saturating_add(places_of(weighed, overlap.second));
    for entry in &overlap.matching {
        if *entry != 0 {
            atoms = atoms.saturating_sub(1);
        }
    }
    atoms
}

/// Whether all heads of a rule are matched each with itself, so that both steps are one.
fn is_one_step(overlap: &Overlap) -> bool {
    for (place, entry) in overlap.matching.iter().enumerate() {
        if usize::from(*entry) != usize::saturating_add(place, 1) {
            return false;
        }
    }
    overlap.first == overlap.second
}

/// Of the overlap's cases that fail the one with the smallest store, where that is smaller than this. None where the
/// overlap has too many order types for a list of its cases.
fn smallest_in(
    alloc: Global,
    weighed: &Weighed,
    overlap: &Overlap,
    store: &Bag,
    looked_at: &mut usize,
) -> Result<Option<Failure>, AllocError>
    requires { IsOverlapOf (rules_in weighed.now) overlap.now }
    ensures { IfOk result (λ found. IfSome found (IsSmallerFailure (rules_in weighed.now) (size store.now))) }
{
    match cases(alloc, weighed, overlap) {
        Ok(cases) => {
            *looked_at = looked_at.saturating_add(cases.len());
            smallest_among(alloc, weighed, overlap, &cases, store)
        }
        Err(CaseFault::TooManyTypes { .. }) => Ok(None),
        Err(CaseFault::Memory) => Err(AllocError),
    }
}

/// The same, where the overlap's cases have so many atoms, and fewer than `MAX_LOOKED_AT` cases were looked at before.
fn smallest_at(
    alloc: Global,
    weighed: &Weighed,
    overlap: &Overlap,
    atoms: usize,
    store: &Bag,
    looked_at: &mut usize,
) -> Result<Option<Failure>, AllocError>
    requires { IsOverlapOf (rules_in weighed.now) overlap.now }
    ensures { IfOk result (λ found. IfSome found (IsSmallerFailure (rules_in weighed.now) (size store.now))) }
{
    if atoms_of(weighed, overlap) != atoms || is_one_step(overlap) || MAX_LOOKED_AT <= *looked_at {
        return Ok(None);
    }
    smallest_in(alloc, weighed, overlap, store, looked_at)
}

/// Of the cases with so many atoms that fail the one with the smallest store, where that is smaller than this.
fn smallest_with(
    alloc: Global,
    weighed: &Weighed,
    overlaps: &[Overlap],
    atoms: usize,
    store: &Bag,
    looked_at: &mut usize,
) -> Result<Option<Failure>, AllocError>
    requires { (o : OverlapValue) → In o overlaps.now → IsOverlapOf (rules_in weighed.now) o }
    ensures { IfOk result (λ found. IfSome found (IsSmallerFailure (rules_in weighed.now) (size store.now))) }
{
    let mut smallest: Option<Failure> = None;
    for overlap in overlaps {
        let least = least_of(&smallest, store);
        if let Some(failure) = smallest_at(alloc, weighed, overlap, atoms, least, looked_at)? {
            smallest = Some(failure);
        }
    }
    Ok(smallest)
}

/// Of the cases of these overlaps that fail the one with the smallest store, where that is smaller than this.
fn smallest_of(
    alloc: Global,
    weighed: &Weighed,
    overlaps: &[Overlap],
    store: &Bag,
) -> Result<Option<Failure>, AllocError>
    requires { (o : OverlapValue) → In o overlaps.now → IsOverlapOf (rules_in weighed.now) o }
    ensures { IfOk result (λ found. IfSome found (IsSmallerFailure (rules_in weighed.now) (size store.now))) }
{
    let mut looked_at = 0;
    for atoms in 1..=store.len() {
        let found = smallest_with(alloc, weighed, overlaps, atoms, store, &mut looked_at)?;
        if found.is_some() {
            return Ok(found);
        }
    }
    Ok(None)
}

/// Of the cases that fail the one with the smallest store, where that is smaller than this.
fn smallest(alloc: Global, weighed: &Weighed, store: &Bag) -> Result<Option<Failure>, AllocError>
    ensures { IfOk result (λ found. IfSome found (IsSmallerFailure (rules_in weighed.now) (size store.now))) }
{
    let overlaps = overlaps(alloc, weighed)?;
    smallest_of(alloc, weighed, &overlaps, store)
}

/// Both ways of the case that fails with the smallest store, where that is smaller than this one's, and not the same in
/// other numbers.
fn smaller_ways(
    alloc: Global,
    weighed: &Weighed,
    first: &Failure,
) -> Result<Option<Ways>, AllocError>
    ensures { IfOk result (λ found. IfSome found (AreSmallerWays (rules_in weighed.now) first.now)) }
{
    let Some(failure) = smallest(alloc, weighed, &first.left.start)? else {
        return Ok(None);
    };
    let constants = constants(alloc, weighed.program().rules())?;
    if is_renamed(&first.left.start, &failure.left.start, &constants) {
        return Ok(None);
    }
    Ok(Some(ways_of(alloc, weighed, failure)?))
}

/// The same; none where memory is refused.
pub(crate) fn smaller_where_told(alloc: Global, weighed: &Weighed, first: &Failure) -> Option<Ways>
    ensures { IfSome result (AreSmallerWays (rules_in weighed.now) first.now) }
{
    match smaller_ways(alloc, weighed, first) {
        Ok(found) => found,
        Err(_) => None,
    }
}
