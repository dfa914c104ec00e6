//! Taking operations into a set, and out of it again.
ghost use Rattle.std.specs.Prelude.{◌≡◌, ℕ, ◌+◌, ◌-◌, ◌^◌, ◌≤◌, ◌↔◌, min, length, [], ◌∷◌, IfOk, IfErr, OnOk, OnErr};
ghost use Rattle.std.specs.Prelude.{IsErrOf, IsTrue, None, option_copied, vec_len};
ghost use Rattle.std.specs.FinMap as map;
ghost use Rattle.chr_ops.specs.declared.id.OpId.{OpId as OpIdValue};
ghost use Rattle.chr_ops.specs.Operations.{Operations, told_atoms, IsNew, IsHeldOtherwise};
ghost use Rattle.chr_ops.specs.working.Kept.{AreOperationBags};
ghost use Rattle.chr_ops.specs.Joins.{union, IsFirstClash, HasNoClash, IsOverLimit};
ghost use Rattle.chr_ops.specs.working.Joining.{AddsIds, IsWithout};
ghost use Rattle.chr_ops.specs.Summaries.{CoversJust, IsApart};

use crate::covered::Covered;
use crate::entries::Entries;
use crate::fault::AddFault;
use crate::id::OpId;
use crate::limits::MAX_TOLD;
use crate::op::Op;
use crate::rising::ids_rise;
use chr_base::bag::Bag;
use std::alloc::Global;

/// The bag of an id, which costs no look-up where it is known to be new.
fn held_under(held: &Entries, id: OpId, new: bool) -> Option<&Bag>
    requires { IsTrue new → map.get held.now id ≡ None }
    ensures { option_copied result ≡ map.get held.now id }
{
    if new {
        return None;
    }
    held.get(id)
}

/// Takes an operation in, unless it is there, and answers how many atoms came. A new one's id goes into the list.
fn take_in(
    held: &mut Entries,
    fresh: &mut Vec<OpId>,
    alloc: Global,
    op: &Op,
    new: bool,
) -> Result<usize, AddFault>
    requires { IsTrue new → IsNew held.old op.now }
    ensures ok { OnOk result (held.new
        ≡ union held.old (op.now ∷ [])) }
    ensures atoms { IfOk result (λ n. told_atoms held.new
        ≡ told_atoms held.old + n) }
    ensures count { OnOk result (map.len held.new + vec_len fresh.old
        ≡ map.len held.old + vec_len fresh.new) }
    ensures clash { (id : OpIdValue) → IsErrOf result (AddFault.Clash id)
        ↔ ((id ≡ op.now.0) × IsHeldOtherwise held.old op.now) }
    ensures not_full { ¬ (IsErrOf result AddFault.Full) }
    ensures sized { AreOperationBags held.old → AreOperationBags held.new }
    // What was there before the ids in the list came can be had back.
    ensures back { (m : Operations) → IsWithout m fresh.old.items held.old
        → IsWithout m fresh.new.items held.new }
    ensures ids { OnOk result ((m : Operations) → AddsIds m fresh.old.items held.old
        → AddsIds m fresh.new.items held.new) }
{
    let id = op.id();
    if let Some(bag) = held_under(held, id, new) {
        return if bag.is_same(op.bag()) {
            Ok(0)
        } else {
            Err(AddFault::Clash(id))
        };
    }
    let bag = op.share(alloc)?;
    let atoms = bag.bag().len();
    fresh.push(id)?;
    held.insert(id, bag)?;
    Ok(atoms)
}

/// Takes all of these operations in, and answers how many atoms are then told, or the greatest `u64` where there are
/// more. Where it fails, some may be in.
fn take_all_in(
    held: &mut Entries,
    covered: &Covered,
    fresh: &mut Vec<OpId>,
    alloc: Global,
    ops: &[Op],
    told: u64,
) -> Result<u64, AddFault>
    requires told { told ≡ told_atoms held.old }
    requires covers { CoversJust covered.now held.old }
    ensures ok { OnOk result (held.new
        ≡ union held.old ops.now) }
    ensures told { IfOk result (λ n. n ≡ min (told_atoms held.new) (2 ^ 64 - 1)) }
    ensures count { OnOk result (map.len held.new + vec_len fresh.old
        ≡ map.len held.old + vec_len fresh.new) }
    ensures no_clash { OnOk result (HasNoClash held.old ops.now) }
    ensures clash { (id : OpIdValue) → IsErrOf result (AddFault.Clash id)
        → IsFirstClash held.old ops.now id }
    ensures not_full { ¬ (IsErrOf result AddFault.Full) }
    ensures sized { AreOperationBags held.old → AreOperationBags held.new }
    ensures back { (m : Operations) → IsWithout m fresh.old.items held.old
        → IsWithout m fresh.new.items held.new }
    ensures ids { OnOk result ((m : Operations) → AddsIds m fresh.old.items held.old
        → AddsIds m fresh.new.items held.new) }
{
    let apart = ids_rise(ops);
    let mut told = told;
    for op in ops {
        // An id that stands once in the list is held only where it was held before.
        let new = apart && !covered.has(op.id());
        let atoms = take_in(held, fresh, alloc, op, new)?;
        told = told.saturating_add(atoms as u64);
    }
    Ok(told)
}

/// Takes all of these operations in, where the limit of told atoms allows it, and answers how many are then told. Where
/// it fails, some may be in.
pub(crate) fn take_in_room(
    held: &mut Entries,
    covered: &Covered,
    fresh: &mut Vec<OpId>,
    alloc: Global,
    ops: &[Op],
    told: u64,
) -> Result<u64, AddFault>
    requires told { told ≡ told_atoms held.old }
    requires none_yet { fresh.old.items ≡ [] }
    requires covers { CoversJust covered.now held.old }
    ensures ok { OnOk result (held.new
        ≡ union held.old ops.now) }
    ensures told { IfOk result (λ n. n ≡ told_atoms held.new) }
    ensures within { IfOk result (λ n. n ≤ MAX_TOLD) }
    ensures count { OnOk result (vec_len fresh.new + map.len held.old
        ≡ map.len held.new) }
    ensures no_clash { OnOk result (HasNoClash held.old ops.now) }
    ensures clash { (id : OpIdValue) → IsErrOf result (AddFault.Clash id)
        → IsFirstClash held.old ops.now id }
    ensures full { IsErrOf result AddFault.Full
        → HasNoClash held.old ops.now × IsOverLimit held.old ops.now }
    ensures sized { AreOperationBags held.old → AreOperationBags held.new }
    ensures back { IsWithout held.old fresh.new.items held.new }
    ensures ids { OnOk result (AddsIds held.old fresh.new.items held.new) }
{
    let told = take_all_in(held, covered, fresh, alloc, ops, told)?;
    if told > MAX_TOLD {
        return Err(AddFault::Full);
    }
    Ok(told)
}

/// Takes all of these operations in, where the limit of told atoms allows it, covers their ids, and answers how many
/// atoms are then told. Where it fails, some may be in, and no more ids are covered.
pub(crate) fn take_in_covered(
    held: &mut Entries,
    covered: &mut Covered,
    fresh: &mut Vec<OpId>,
    alloc: Global,
    ops: &[Op],
    told: u64,
) -> Result<u64, AddFault>
    requires told { told ≡ told_atoms held.old }
    requires none_yet { fresh.old.items ≡ [] }
    requires covers { CoversJust covered.old held.old }
    ensures ok { OnOk result (held.new
        ≡ union held.old ops.now) }
    ensures told { IfOk result (λ n. n ≡ told_atoms held.new) }
    ensures within { IfOk result (λ n. n ≤ MAX_TOLD) }
    ensures count { OnOk result (vec_len fresh.new + map.len held.old
        ≡ map.len held.new) }
    ensures no_clash { OnOk result (HasNoClash held.old ops.now) }
    ensures clash { (id : OpIdValue) → IsErrOf result (AddFault.Clash id)
        → IsFirstClash held.old ops.now id }
    ensures full { IsErrOf result AddFault.Full
        → HasNoClash held.old ops.now × IsOverLimit held.old ops.now }
    ensures sized { AreOperationBags held.old → AreOperationBags held.new }
    ensures back { IsWithout held.old fresh.new.items held.new }
    ensures covers { OnOk result (CoversJust covered.new held.new) }
    ensures apart { OnOk result (IsApart covered.new) }
    ensures uncovered { OnErr result (covered.new ≡ covered.old) }
{
    let told = take_in_room(held, covered, fresh, alloc, ops, told)?;
    covered.cover(alloc, fresh)?;
    Ok(told)
}

/// Takes the operations of these ids out, the last first: what was appended then goes from the end.
#[tactic(auto, using(crate::proofs::Unions::without_earlier))]
pub(crate) fn withdraw(held: &mut Entries, ids: &[OpId])
    ensures { IsWithout held.new ids.now held.old }
{
    for place in (0..ids.len()).rev() {
        held.remove(ids[place]);
    }
}
