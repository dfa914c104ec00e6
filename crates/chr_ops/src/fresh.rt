//! Operations that are new to a set, and their atoms.
ghost use Rattle.std.specs.Prelude.{◌≡◌, ◌||◌, not, IfOk, OnOk};
ghost use Rattle.std.specs.Bool.{OnTrue, OnFalse};
ghost use Rattle.std.specs.Ordering.{eq_by_cmp};
ghost use Rattle.chr_base.specs.Stores.{store_of};
ghost use Rattle.chr_ops.specs.declared.id.OpId.{OpId as OpIdValue};
ghost use Rattle.chr_ops.specs.Ids.{id_cmp};
ghost use Rattle.chr_ops.specs.Operations.{Operations, sum_of};
ghost use Rattle.chr_ops.specs.Joins.{fresh, AreNew};
ghost use Rattle.chr_ops.specs.Summaries.{CoversJust};
ghost use Rattle.chr_ops.specs.working.Entries.{Rise};
ghost use Rattle.chr_ops.specs.working.Joining.{is_held_or_seen};

use crate::covered::Covered;
use crate::entries::Entries;
use crate::id::OpId;
use crate::op::Op;
use crate::rising::ids_rise;
use chr_base::atom::Atom;
use chr_base::lists::push_copies;
use std::alloc::{AllocError, Global};
use std::collections::BTreeSet;

/// Whether an id is new to a set and to some ids. From then on it is in one of them.
fn take_note(held: &Entries, seen: &mut BTreeSet<OpId>, id: OpId) -> Result<bool, AllocError>
    ensures fresh { IfOk result (λ new. new ≡ not (is_held_or_seen held.now seen.old id)) }
    ensures known { OnOk result ((q : OpIdValue) → is_held_or_seen held.now seen.new q
        ≡ (is_held_or_seen held.now seen.old q || eq_by_cmp id_cmp q id)) }
{
    if held.get(id).is_some() {
        return Ok(false);
    }
    Ok(seen.insert(id)?)
}

/// Copies of the atoms of those of these operations that are new to a set, each operation once, by a note of each id.
fn noted_atoms(alloc: Global, held: &Entries, ops: &[Op]) -> Result<Vec<Atom>, AllocError>
    ensures { IfOk result (λ atoms. store_of atoms.items ≡ sum_of (fresh held.now ops.now)) }
{
    let mut seen = BTreeSet::new(alloc);
    let mut atoms = Vec::new(alloc);
    for op in ops {
        if take_note(held, &mut seen, op.id())? {
            push_copies(&mut atoms, op.bag().atoms())?;
        }
    }
    Ok(atoms)
}

/// Copies of the atoms of those of these operations that are new to a set, each operation once, by the ranges that
/// cover the set's ids. No note is needed, since the operations come in the order of their ids.
fn uncovered_atoms(alloc: Global, covered: &Covered, ops: &[Op]) -> Result<Vec<Atom>, AllocError>
    requires { Rise ops.now }
    ensures { IfOk result (λ atoms. (m : Operations) → CoversJust covered.now m
        → store_of atoms.items ≡ sum_of (fresh m ops.now)) }
{
    let mut atoms = Vec::with_capacity(alloc, ops.len())?;
    for op in ops {
        if !covered.has(op.id()) {
            push_copies(&mut atoms, op.bag().atoms())?;
        }
    }
    Ok(atoms)
}

/// Copies of the atoms of those of these operations that are new to a set, each operation once.
pub(crate) fn fresh_list(
    alloc: Global,
    held: &Entries,
    covered: &Covered,
    ops: &[Op],
) -> Result<Vec<Atom>, AllocError>
    requires { CoversJust covered.now held.now }
    ensures { IfOk result (λ atoms. store_of atoms.items ≡ sum_of (fresh held.now ops.now)) }
{
    if ids_rise(ops) {
        uncovered_atoms(alloc, covered, ops)
    } else {
        noted_atoms(alloc, held, ops)
    }
}

/// Whether each of these operations is new to a set and those before it, by a note of each id.
fn are_new_by_notes(alloc: Global, held: &Entries, ops: &[Op]) -> Result<bool, AllocError>
    ensures new { IfOk result (λ new. OnTrue new (AreNew held.now ops.now)) }
    ensures not { IfOk result (λ new. OnFalse new (¬ (AreNew held.now ops.now))) }
{
    let mut seen = BTreeSet::new(alloc);
    for op in ops {
        if !take_note(held, &mut seen, op.id())? {
            return Ok(false);
        }
    }
    Ok(true)
}

/// Whether each of these operations is new to a set and those before it, by the ranges that cover the set's ids. The
/// operations come in the order of their ids, so that no two have one id.
fn are_uncovered(covered: &Covered, ops: &[Op]) -> bool
    requires { Rise ops.now }
    ensures new { (m : Operations) → CoversJust covered.now m → OnTrue result (AreNew m ops.now) }
    ensures not { (m : Operations) → CoversJust covered.now m → OnFalse result (¬ (AreNew m ops.now)) }
{
    for op in ops {
        if covered.has(op.id()) {
            return false;
        }
    }
    true
}

/// Whether each of these operations is new to a set and those before it.
pub(crate) fn are_new(
    alloc: Global,
    held: &Entries,
    covered: &Covered,
    ops: &[Op],
) -> Result<bool, AllocError>
    requires { CoversJust covered.now held.now }
    ensures new { IfOk result (λ new. OnTrue new (AreNew held.now ops.now)) }
    ensures not { IfOk result (λ new. OnFalse new (¬ (AreNew held.now ops.now))) }
{
    if ids_rise(ops) {
        Ok(are_uncovered(covered, ops))
    } else {
        are_new_by_notes(alloc, held, ops)
    }
}
