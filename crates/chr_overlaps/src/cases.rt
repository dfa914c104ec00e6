//! The cases of an overlap.
ghost use Rattle.std.specs.Prelude.{◌≡◌, if◌then◌else◌, ◌+◌, ◌-◌, ◌<◌, ◌≤◌, ◌++◌, ℕ, [], Some, None, IfSome, IfNone};
ghost use Rattle.std.specs.Prelude.{IfOk, IfErr, IsOkAnd, OnOk, length, map, nat_eq, slice_get};
ghost use Rattle.std.specs.List.{filter};
ghost use Rattle.chr_base.specs.declared.rule.Rule.{Rule as RuleValue};
ghost use Rattle.chr_base.specs.Programs.{rules_of};
ghost use Rattle.chr_base.specs.Stores.{store_of};
ghost use Rattle.chr_weights.specs.WeighedPrograms.{program_of, rules_in};
ghost use Rattle.chr_confluence.specs.Matchings.{names, left_over, case_atoms};
ghost use Rattle.chr_confluence.specs.Unifiers.{HasNoUnifier};
ghost use Rattle.chr_confluence.specs.Overlaps.{equations_of};
ghost use Rattle.chr_confluence.specs.Constants.{AreConstants};
ghost use Rattle.chr_confluence.specs.Representatives.{guards_hold};
ghost use Rattle.chr_overlaps.specs.CaseLists.{case_at, AreCases, IsTooMany};
ghost use Rattle.chr_overlaps.specs.OverlapLists.{IsOverlapOf};
ghost use Rattle.chr_overlaps.specs.Refusals.{IfTooManyTypes};
ghost use Rattle.chr_overlaps.specs.UnifiedOverlaps.{AreRulesOf, IsUnifiedAt, IsSortedUnifiedAt, HasNoSortedUnifier};
ghost use Rattle.chr_overlaps.specs.UnifiedOverlaps.{HasUnified};
ghost use Rattle.chr_overlaps.specs.working.Unifiers.{classes_of, IsUnified};

use crate::constants::constants;
use crate::fault::CaseFault;
use crate::instances::{all_hold, instances};
use crate::overlap::Overlap;
use crate::sorted::sorted_unify;
use crate::unify::{Unified, unify};
use chr_base::atom::Atom;
use chr_base::bag::Bag;
use chr_base::derivation::Step;
use chr_base::rule::Rule;
use chr_types::{OrderType, TypesFault, types};
use chr_weights::Weighed;
use std::alloc::{AllocError, Global};

/// The greatest number of order types of an overlap that has a list of cases.
pub const MAX_TYPES: usize = 50_000;

/// A case of an overlap: a store in which both rules fire on the atoms that the matched heads share. The two steps lead
/// from it to a critical pair.
#[derive(Drop)]
pub struct Case {
    /// Both head instances, the matched atoms once.
    pub store: Bag,
    /// The first rule's step.
    pub left: Step,
    /// The second rule's step.
    pub right: Step,
}

/// Whether an entry of a matching names the place, counted from 0.
fn is_at(entry: u8, place: usize) -> bool
    ensures { result ≡ nat_eq (place + 1) entry }
{
    entry > 0 && usize::from(entry) - 1 == place
}

/// Whether the matching names the place, counted from 0, of the second rule.
fn is_matched(matching: &[u8], place: usize) -> bool
    ensures { result ≡ names matching.now (place + 1) }
{
    for entry in matching {
        if is_at(*entry, place) {
            return true;
        }
    }
    false
}

/// Adds the atoms at places that are not matched.
fn push_unmatched(atoms: &mut Vec<Atom>, heads: &[Atom], matching: &[u8]) -> Result<(), AllocError>
    ensures { OnOk result (atoms.new.items ≡ atoms.old.items ++ left_over matching.now 0 heads.now) }
{
    for (place, atom) in heads.iter().enumerate() {
        if !is_matched(matching, place) {
            atoms.push(atom.copy())?;
        }
    }
    Ok(())
}

/// Both rules' heads, the matched ones once.
fn case_store(
    alloc: Global,
    left: &[Atom],
    right: &[Atom],
    matching: &[u8],
) -> Result<Bag, AllocError>
    ensures { IfOk result (λ store. store ≡ store_of (case_atoms left.now right.now matching.now)) }
{
    let mut atoms = Vec::with_capacity(alloc, left.len() + right.len())?;
    for atom in left {
        atoms.push(atom.copy())?;
    }
    push_unmatched(&mut atoms, right, matching)?;
    Bag::of(atoms)
}

/// The case at a representative. None where some guard doesn't hold there.
fn case_at(
    alloc: Global,
    overlap: &Overlap,
    first: &Rule,
    second: &Rule,
    unified: &Unified,
    values: &[i64],
) -> Result<Option<Case>, AllocError>
    requires { IsUnified first.now second.now unified.now }
    ensures { IfOk result (λ found. found ≡
        (if guards_hold (classes_of unified.now) first.now second.now values.now
        then Some (case_at overlap.now first.now second.now (classes_of unified.now) values.now)
        else None)) }
{
    if !all_hold(&unified.free, values, &unified.guards) {
        return Ok(None);
    }
    let left = instances(&unified.free, values, &unified.first);
    let right = instances(&unified.free, values, &unified.second);
    let store = case_store(alloc, &left, &right, &overlap.matching)?;
    Ok(Some(Case {
        store,
        left: Step {
            rule: overlap.first,
            heads: left,
        },
        right: Step {
            rule: overlap.second,
            heads: right,
        },
    }))
}

/// The cases at these representatives, in their order.
fn cases_at(
    alloc: Global,
    overlap: &Overlap,
    first: &Rule,
    second: &Rule,
    unified: &Unified,
    representatives: &[OrderType],
) -> Result<Vec<Case>, AllocError>
    requires { IsUnified first.now second.now unified.now }
    ensures { IfOk result (λ cases. cases.items ≡
        map (case_at overlap.now first.now second.now (classes_of unified.now))
        (filter (guards_hold (classes_of unified.now) first.now second.now) representatives.now)) }
{
    let mut cases = Vec::new(alloc);
    for one in representatives {
        let values = one.representative();
        if let Some(case) = case_at(alloc, overlap, first, second, unified, values)? {
            cases.push(case)?;
        }
    }
    Ok(cases)
}

/// The rule of a number, as overlaps and steps name it, from 1.
pub fn rule_of(weighed: &Weighed, number: u32) -> &Rule
    requires some { 0 < number }
    requires within { number ≤ length (rules_of (program_of weighed.now)) }
    ensures { slice_get (rules_of (program_of weighed.now)) (number - 1) ≡ Some result.now }
{
    &weighed.program().rules()[number as usize - 1]
}

/// The overlap with its matched heads made one. None where two constants would have to be one: then it has no cases.
/// It takes no memory.
pub fn unified(weighed: &Weighed, overlap: &Overlap) -> Option<Unified>
    requires { IsOverlapOf (rules_in weighed.now) overlap.now }
    ensures none { IfNone result (AreCases (rules_in weighed.now) overlap.now []) }
    ensures unified { IfSome result (IsUnifiedAt (rules_in weighed.now) overlap.now) }
{
    let first = rule_of(weighed, overlap.first);
    let second = rule_of(weighed, overlap.second);
    unify(first, second, &overlap.matching)
}

/// The overlap with its matched heads made one, and with what the `=:=` of both guards make equal. None where two
/// constants would have to be one. It takes no memory.
pub fn sorted_unified(weighed: &Weighed, overlap: &Overlap) -> Option<Unified>
    requires { IsOverlapOf (rules_in weighed.now) overlap.now }
    ensures none { IfNone result (HasNoSortedUnifier (rules_in weighed.now) overlap.now) }
    ensures unified { IfSome result (IsSortedUnifiedAt (rules_in weighed.now) overlap.now) }
{
    let first = rule_of(weighed, overlap.first);
    let second = rule_of(weighed, overlap.second);
    sorted_unify(first, second, &overlap.matching)
}

/// The case of an overlap at these values of its free classes, in their order, where both guards hold under them.
///
/// # Errors
/// Where memory is refused.
pub fn case_among(
    alloc: Global,
    weighed: &Weighed,
    overlap: &Overlap,
    unified: &Unified,
    values: &[i64],
) -> Result<Option<Case>, AllocError>
    requires overlap { IsOverlapOf (rules_in weighed.now) overlap.now }
    requires unified { HasUnified (rules_in weighed.now) overlap.now unified.now }
    ensures { (r1 r2 : RuleValue) → AreRulesOf (rules_in weighed.now) overlap.now r1 r2 →
        IfOk result (λ found. found ≡
        (if guards_hold (classes_of unified.now) r1 r2 values.now
        then Some (case_at overlap.now r1 r2 (classes_of unified.now) values.now)
        else None)) }
{
    let first = rule_of(weighed, overlap.first);
    let second = rule_of(weighed, overlap.second);
    case_at(alloc, overlap, first, second, unified, values)
}

/// The cases of an overlap, among these constants of the program's rules: for each representative of an order type
/// under which both guards hold, in order, the store of both head instances and both steps.
///
/// An overlap in which two constants would have to be one has no cases. This is told without memory.
///
/// # Errors
/// `TooManyTypes` exactly where there are more than `MAX_TYPES` order types, whether the guards hold or not; `Memory`
/// where there is no memory left.
pub fn cases_among(
    alloc: Global,
    weighed: &Weighed,
    overlap: &Overlap,
    constants: &[i64],
) -> Result<Vec<Case>, CaseFault>
    requires overlap { IsOverlapOf (rules_of (program_of weighed.now)) overlap.now }
    requires constants { AreConstants (rules_of (program_of weighed.now)) constants.now }
    ensures cases { IfOk result (λ cases.
        AreCases (rules_of (program_of weighed.now)) overlap.now cases.items) }
    ensures no_more { IfOk result (λ _.
        (n : ℕ) → ¬ IsTooMany (rules_of (program_of weighed.now)) overlap.now n) }
    ensures many { IfErr result (λ e.
        IfTooManyTypes e (IsTooMany (rules_of (program_of weighed.now)) overlap.now)) }
    ensures none { (r1 r2 : RuleValue) →
        slice_get (rules_of (program_of weighed.now)) (overlap.now.first - 1) ≡ Some r1 →
        slice_get (rules_of (program_of weighed.now)) (overlap.now.second - 1) ≡ Some r2 →
        HasNoUnifier (equations_of r1 r2 overlap.now.matching.items) →
        IsOkAnd result (λ cases. cases.items ≡ []) }
{
    let first = rule_of(weighed, overlap.first);
    let second = rule_of(weighed, overlap.second);
    let Some(unified) = unify(first, second, &overlap.matching) else {
        return Ok(Vec::new(alloc));
    };
    let classes = unified.free.len();
    match types(alloc, classes, constants, MAX_TYPES) {
        Ok(types) => Ok(cases_at(alloc, overlap, first, second, &unified, &types)?),
        Err(TypesFault::TooManyTypes) => Err(CaseFault::TooManyTypes { classes }),
        Err(TypesFault::Memory) => Err(CaseFault::Memory),
    }
}

/// The cases of an overlap: for each representative of an order type under which both guards hold, in order, the store
/// of both head instances and both steps.
///
/// # Errors
/// `TooManyTypes` exactly where there are more than `MAX_TYPES` order types, whether the guards hold or not; `Memory`
/// where there is no memory left.
pub fn cases(alloc: Global, weighed: &Weighed, overlap: &Overlap) -> Result<Vec<Case>, CaseFault>
    requires { IsOverlapOf (rules_of (program_of weighed.now)) overlap.now }
    ensures cases { IfOk result (λ cases.
        AreCases (rules_of (program_of weighed.now)) overlap.now cases.items) }
    ensures no_more { IfOk result (λ _.
        (n : ℕ) → ¬ IsTooMany (rules_of (program_of weighed.now)) overlap.now n) }
    ensures many { IfErr result (λ e.
        IfTooManyTypes e (IsTooMany (rules_of (program_of weighed.now)) overlap.now)) }
{
    let constants = constants(alloc, weighed.program().rules())?;
    cases_among(alloc, weighed, overlap, &constants)
}
