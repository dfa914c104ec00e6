//! The search for representatives, one class after the other.
//!
//! Each value is counted from its base, and a list has all numbers between a value and its base. Those that a prefix
//! lacks are its holes. A value is tried only where the holes that are then left fit into the classes that are left, so
//! each prefix can be completed, and the lists come in lexicographic order.
ghost use Rattle.std.specs.Prelude.{◌≡◌, ◌≢◌, ◌||◌, ℕ, ℤ, List, ◌+◌, ◌<◌, ◌≤◌, ◌++◌, [], ◌∷◌, cond, OnOk, OnErr, IfOk};
ghost use Rattle.std.specs.Prelude.{IfErr, IsSome, IfSome, IsTrue, ◌↔◌, length, map, vec_len};
ghost use Rattle.chr_types.specs.working.Search.{toward, way, others, has, holes_by, lists_over};
ghost use Rattle.chr_types.specs.Refusals.{WhereTooMany};

use crate::fault::TypesFault;
use crate::order_type::OrderType;
use std::alloc::{AllocError, Global};

/// A value that a class may take, and the number that it is counted from.
#[derive(Clone, Copy, Debug)]
pub(crate) struct Candidate {
    pub(crate) value: i64,
    pub(crate) base: i64,
}

/// Whether the value is among these.
fn is_among(values: &[i64], value: i64) -> bool
    ensures { result ≡ has value values.now }
{
    values.contains(&value)
}

/// The next number on the way to the base.
fn step_to(base: i64, value: i64) -> i64
    requires { value ≢ base }
    ensures { result ≡ toward base value }
{
    if value < base { value + 1 } else { value - 1 }
}

/// All but this value.
fn all_others(alloc: Global, values: &[i64], value: i64) -> Result<Vec<i64>, AllocError>
    ensures { IfOk result (λ rest. rest.items ≡ others value values.now) }
{
    values
        .iter()
        .copied()
        .filter(|x| *x != value)
        .collect(alloc)
}

/// Whether the number stands among the values of a prefix, the value that is to follow it, or the holes.
fn is_met(prefix: &[i64], value: i64, holes: &[i64], number: i64) -> bool
    ensures { result ≡ (has number (prefix.now ++ value ∷ []) || has number holes.now) }
{
    is_among(prefix, number) || value == number || is_among(holes, number)
}

/// Adds the numbers between the candidate and its base to the holes, up to the first that is met already. Tells whether
/// the holes are then no more than `room`.
fn add_way(
    holes: &mut Vec<i64>,
    prefix: &[i64],
    candidate: Candidate,
    room: usize,
) -> Result<bool, AllocError>
    requires aside { candidate.value ≢ candidate.base }
    requires few { vec_len holes.old ≤ room }
    ensures fits { IfOk result (λ fits. IsTrue fits ↔ length (way candidate.base
        (prefix.now ++ candidate.value ∷ []) holes.old.items (toward candidate.base candidate.value)) ≤ room) }
    ensures holes { IfOk result (λ fits. IsTrue fits → holes.new.items ≡ way candidate.base
        (prefix.now ++ candidate.value ∷ []) holes.old.items (toward candidate.base candidate.value)) }
{
    let mut next = step_to(candidate.base, candidate.value);
    while next != candidate.base {
        if is_met(prefix, candidate.value, holes, next) {
            return Ok(true);
        }
        if holes.len() >= room {
            return Ok(false);
        }
        holes.push(next)?;
        next = step_to(candidate.base, next);
    }
    Ok(true)
}

/// The holes of the prefix with this candidate behind it, unless they are more than there is room for.
pub(crate) fn holes_after(
    alloc: Global,
    prefix: &[i64],
    holes: &[i64],
    candidate: Candidate,
    room: usize,
) -> Result<Option<Vec<i64>>, AllocError>
    requires { length holes.now ≤ room + 1 }
    ensures fits { IfOk result (λ found. IsSome found ↔ length (holes_by candidate prefix.now holes.now) ≤ room) }
    ensures holes { IfOk result (λ found. IfSome found (λ after.
        after.items ≡ holes_by candidate prefix.now holes.now)) }
{
    if is_among(holes, candidate.value) {
        return Ok(Some(all_others(alloc, holes, candidate.value)?));
    }
    if holes.len() > room {
        return Ok(None);
    }
    let mut after = Vec::from_slice(alloc, holes)?;
    if candidate.value == candidate.base || add_way(&mut after, prefix, candidate, room)? {
        return Ok(Some(after));
    }
    Ok(None)
}

/// Adds the lists that begin with the prefix and go on with `left` more values, in lexicographic order.
///
/// # Errors
/// `TooManyTypes` where there would be more than the limit, and some may be added then.
pub(crate) fn add_lists(
    alloc: Global,
    candidates: &[Candidate],
    left: usize,
    prefix: &[i64],
    holes: &[i64],
    limit: usize,
    found: &mut Vec<OrderType>,
) -> Result<(), TypesFault>
    requires few { length holes.now ≤ left }
    ensures lists { OnOk result (found.new.items
        ≡ found.old.items ++ lists_over candidates.now left prefix.now holes.now) }
    ensures within { OnOk result (vec_len found.old ≤ limit → vec_len found.new ≤ limit) }
    ensures many { IfErr result (λ e. WhereTooMany e
        (limit < vec_len found.old + length (lists_over candidates.now left prefix.now holes.now))) }
{
    if left == 0 {
        if found.len() >= limit {
            return Err(TypesFault::TooManyTypes);
        }
        let values = Vec::from_slice(alloc, prefix)?;
        found.push(OrderType { values })?;
        return Ok(());
    }
    for candidate in candidates {
        if let Some(after) = holes_after(alloc, prefix, holes, *candidate, left - 1)? {
            let mut longer = Vec::from_slice(alloc, prefix)?;
            longer.push(candidate.value)?;
            add_lists(alloc, candidates, left - 1, &longer, &after, limit, found)?;
        }
    }
    Ok(())
}
