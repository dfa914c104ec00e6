//! The lists of values at one sort.
ghost use Rattle.std.specs.Prelude.{◌≡◌, ◌+◌, ◌≤◌, ◌<◌, ◌^◌, ◌++◌, ◌∷◌, [], IfOk, IfSome, IfNone, IsTrue, IsFalse};
ghost use Rattle.std.specs.Prelude.{length, map};
ghost use Rattle.chr_types.specs.OrderTypes.{Rises, AreValues};
ghost use Rattle.chr_confluence.specs.Sorts.{ordered, equal, free};
ghost use Rattle.chr_sorting.specs.FinestSorts.{kind_of};
ghost use Rattle.chr_sorting.specs.SortedCaseLists.{AreFirstNumbers, AreListsAt, MoreListsThan};
ghost use Rattle.chr_sorting.specs.working.Blocks.{inserted, lists_behind};

use crate::kind::Kind;
use chr_overlaps::constants::add_constant;
use chr_types::{MAX_CLASSES, OrderType, TypesFault, types};
use std::alloc::{AllocError, Global};

/// Numbers in memory are 64-bit values. Nothing is computed here.
pub(crate) fn are_values(numbers: &[i64])
    ensures { AreValues numbers.now }
{
    for number in numbers {
        let _value = *number;
    }
}

/// The first numbers from 0 that are no constants.
fn first_numbers(alloc: Global, constants: &[i64], count: usize) -> Result<Vec<i64>, AllocError>
    requires rise { Rises constants.now }
    requires few { length constants.now + count ≤ 2 ^ 62 }
    ensures count { IfOk result (λ us. length us.items ≡ count) }
    ensures first { IfOk result (λ us. AreFirstNumbers constants.now us.items) }
{
    let mut numbers = Vec::new(alloc);
    let mut number: i64 = 0;
    let mut passed = 0;
    while numbers.len() < count {
        if passed < constants.len() && constants[passed] <= number {
            if constants[passed] == number {
                number += 1;
            }
            passed += 1;
        } else {
            numbers.push(number)?;
            number += 1;
        }
    }
    Ok(numbers)
}

/// The one list of values at a free sort.
fn free_lists(
    alloc: Global,
    constants: &[i64],
    count: usize,
    limit: usize,
) -> Result<Option<Vec<Vec<i64>>>, AllocError>
    requires rise { Rises constants.now }
    requires few { length constants.now + count ≤ 2 ^ 62 }
    ensures lists { IfOk result (λ found. IfSome found (λ ls.
        AreListsAt free constants.now count (map (λ l. l.items) ls.items))) }
    ensures within { IfOk result (λ found. IfSome found (λ ls. length ls.items ≤ limit)) }
    ensures more { IfOk result (λ found. IfNone found (MoreListsThan limit free constants.now count)) }
{
    let numbers = first_numbers(alloc, constants, count)?;
    if limit == 0 {
        return Ok(None);
    }
    let mut lists = Vec::new(alloc);
    lists.push(numbers)?;
    Ok(Some(lists))
}

/// The representatives of order types.
fn representatives(alloc: Global, types: &[OrderType]) -> Result<Vec<Vec<i64>>, AllocError>
    ensures { IfOk result (λ ls. map (λ l. l.items) ls.items ≡ types.now) }
{
    let mut lists = Vec::new(alloc);
    for one in types {
        lists.push(Vec::from_slice(alloc, one.representative())?)?;
    }
    Ok(lists)
}

/// The lists of values at an ordered sort.
fn ordered_lists(
    alloc: Global,
    constants: &[i64],
    count: usize,
    limit: usize,
) -> Result<Option<Vec<Vec<i64>>>, AllocError>
    requires rise { Rises constants.now }
    requires few { length constants.now + count ≤ 2 ^ 62 }
    ensures lists { IfOk result (λ found. IfSome found (λ ls.
        AreListsAt ordered constants.now count (map (λ l. l.items) ls.items))) }
    ensures within { IfOk result (λ found. IfSome found (λ ls. length ls.items ≤ limit)) }
    ensures more { IfOk result (λ found. IfNone found (MoreListsThan limit ordered constants.now count)) }
{
    are_values(constants);
    match types(alloc, count, constants, limit) {
        Ok(found) => Ok(Some(representatives(alloc, &found)?)),
        Err(TypesFault::TooManyTypes) => Ok(None),
        Err(TypesFault::Memory) => Err(AllocError),
    }
}

/// The rising values with this one among them.
fn with_value(alloc: Global, values: &[i64], value: i64) -> Result<Vec<i64>, AllocError>
    requires { Rises values.now }
    ensures { IfOk result (λ more. more.items ≡ inserted value values.now) }
{
    are_values(values);
    let mut more = Vec::from_slice(alloc, values)?;
    add_constant(&mut more, value)?;
    Ok(more)
}

/// The list with this value at its end.
fn longer(alloc: Global, begun: &[i64], value: i64) -> Result<Vec<i64>, AllocError>
    ensures { IfOk result (λ more. more.items ≡ begun.now ++ value ∷ []) }
{
    let mut more = Vec::from_slice(alloc, begun)?;
    more.push(value)?;
    Ok(more)
}

/// Adds the lists that begin with `begun` and go on with `left` more values, each one of the choices or the next of the
/// numbers, which is a choice from then on. The lists rise. Tells whether there would be more lists than the limit;
/// some may be added then.
fn add_lists(
    alloc: Global,
    choices: &[i64],
    numbers: &[i64],
    begun: &[i64],
    left: usize,
    limit: usize,
    found: &mut Vec<Vec<i64>>,
) -> Result<bool, AllocError>
    requires rise { Rises choices.now }
    requires enough { left ≤ length numbers.now }
    ensures lists { IfOk result (λ more. IsFalse more → map (λ l. l.items) found.new.items
        ≡ map (λ l. l.items) found.old.items ++ lists_behind left choices.now numbers.now begun.now) }
    ensures within { IfOk result (λ more. IsFalse more
        → length found.old.items ≤ limit → length found.new.items ≤ limit) }
    ensures many { IfOk result (λ more. IsTrue more
        → limit < length found.old.items + length (lists_behind left choices.now numbers.now begun.now)) }
{
    if left == 0 {
        if found.len() >= limit {
            return Ok(true);
        }
        found.push(Vec::from_slice(alloc, begun)?)?;
        return Ok(false);
    }
    let more = with_value(alloc, choices, numbers[0])?;
    for value in &more {
        let next = longer(alloc, begun, *value)?;
        let stops = if *value == numbers[0] {
            add_lists(alloc, &more, &numbers[1..], &next, left - 1, limit, found)?
        } else {
            add_lists(alloc, choices, numbers, &next, left - 1, limit, found)?
        };
        if stops {
            return Ok(true);
        }
    }
    Ok(false)
}

/// The lists of values at an equal sort.
fn equal_lists(
    alloc: Global,
    constants: &[i64],
    count: usize,
    limit: usize,
) -> Result<Option<Vec<Vec<i64>>>, AllocError>
    requires rise { Rises constants.now }
    requires few { length constants.now + count ≤ 2 ^ 62 }
    ensures lists { IfOk result (λ found. IfSome found (λ ls.
        AreListsAt equal constants.now count (map (λ l. l.items) ls.items))) }
    ensures within { IfOk result (λ found. IfSome found (λ ls. length ls.items ≤ limit)) }
    ensures more { IfOk result (λ found. IfNone found (MoreListsThan limit equal constants.now count)) }
{
    // of more than MAX_CLASSES values there are more lists than any limit, so no search for the first is begun
    if count > MAX_CLASSES {
        return Ok(None);
    }
    let numbers = first_numbers(alloc, constants, count)?;
    let mut lists = Vec::new(alloc);
    if add_lists(alloc, constants, &numbers, &[], count, limit, &mut lists)? {
        return Ok(None);
    }
    Ok(Some(lists))
}

/// The lists of `count` values at a sort of this kind with these constants, rising; None where there are more than
/// `limit`.
///
/// The constants rise, each greater than the one before. The search stops once the limit is passed.
///
/// # Errors
///
/// Where there is not enough memory.
pub fn lists_at(
    alloc: Global,
    kind: Kind,
    constants: &[i64],
    count: usize,
    limit: usize,
) -> Result<Option<Vec<Vec<i64>>>, AllocError>
    requires rise { Rises constants.now }
    requires few { length constants.now + count ≤ 2 ^ 62 }
    ensures lists { IfOk result (λ found. IfSome found (λ ls.
        AreListsAt (kind_of kind) constants.now count (map (λ l. l.items) ls.items))) }
    ensures within { IfOk result (λ found. IfSome found (λ ls. length ls.items ≤ limit)) }
    ensures more { IfOk result (λ found. IfNone found
        (MoreListsThan limit (kind_of kind) constants.now count)) }
{
    match kind {
        Kind::Free => free_lists(alloc, constants, count, limit),
        Kind::Equal => equal_lists(alloc, constants, count, limit),
        Kind::Ordered => ordered_lists(alloc, constants, count, limit),
    }
}
