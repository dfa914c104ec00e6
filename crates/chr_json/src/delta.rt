//! Deltas as a message spells them: operations, one by one or in groups.

ghost use Rattle.std.specs.Prelude.{◌≡◌, All, IfOk, OnOk, map};
ghost use Rattle.serde_json.specs.View.{view as data_of};
ghost use Rattle.chr_base.specs.Traversals.{each};
ghost use Rattle.chr_json.specs.Deltas.{all_numbered_of, begins_with_number, delta_of, group_of, groups_of, is_natural};
ghost use Rattle.chr_json.specs.Deltas.{operation_of};
ghost use Rattle.chr_json.specs.Parts.{AddsParts, GivesPart};
ghost use Rattle.chr_json.specs.Reads.{raw_op_view, IsSizedOperation};

use crate::fault::LineFault;
use crate::operation::{RawOp, numbered_operation, operation};
use crate::value::{elements, origin};
use serde_json::Value;
use std::alloc::Global;

/// Whether the first of the values is a number.
fn begins_with_number(values: &[Value]) -> bool
    ensures { result ≡ begins_with_number (map data_of values.now) }
{
    match values {
        [first, ..] => first.is_number(),
        [] => false,
    }
}

/// Whether the value is this whole number.
pub(crate) fn is_natural(number: u64, value: &Value) -> bool
    ensures { result ≡ is_natural number (data_of value.now) }
{
    match value.as_u64() {
        Some(found) => found == number,
        None => false,
    }
}

/// The operations of these values, each with its id, one after another.
fn operation_list(alloc: Global, values: &[Value]) -> Result<Vec<RawOp<'static>>, LineFault>
    ensures read { GivesPart (λ v. map raw_op_view v.items) result (each operation_of (map data_of values.now)) }
    ensures sized { IfOk result (λ v. All IsSizedOperation v.items) }
{
    let mut found = Vec::new(alloc);
    for value in values {
        found.push(operation(alloc, value)?)?;
    }
    Ok(found)
}

/// Adds the operations of an origin that an array has.
fn add_numbered(
    alloc: Global,
    found: &mut Vec<RawOp<'static>>,
    origin: u32,
    value: &Value,
) -> Result<(), LineFault>
    ensures read { AddsParts result (map raw_op_view found.old.items) (map raw_op_view found.new.items)
        (all_numbered_of origin (data_of value.now)) }
    ensures sized { OnOk result (All IsSizedOperation found.old.items → All IsSizedOperation found.new.items) }
{
    let Some(values) = elements(value) else {
        return Err(LineFault::Shape);
    };
    for value in values {
        found.push(numbered_operation(alloc, origin, value)?)?;
    }
    Ok(())
}

/// Adds the operations of an array of an origin and an array of operations.
fn add_group(alloc: Global, found: &mut Vec<RawOp<'static>>, value: &Value) -> Result<(), LineFault>
    ensures read { AddsParts result (map raw_op_view found.old.items) (map raw_op_view found.new.items)
        (group_of (data_of value.now)) }
    ensures sized { OnOk result (All IsSizedOperation found.old.items → All IsSizedOperation found.new.items) }
{
    let Some([first, values]) = elements(value) else {
        return Err(LineFault::Shape);
    };
    let Some(origin) = origin(first) else {
        return Err(LineFault::Shape);
    };
    add_numbered(alloc, found, origin, values)
}

/// The operations of an array of groups, one group after another.
fn grouped(alloc: Global, value: &Value) -> Result<Vec<RawOp<'static>>, LineFault>
    ensures read { GivesPart (λ v. map raw_op_view v.items) result (groups_of (data_of value.now)) }
    ensures sized { IfOk result (λ v. All IsSizedOperation v.items) }
{
    let Some(values) = elements(value) else {
        return Err(LineFault::Shape);
    };
    let mut found = Vec::new(alloc);
    for value in values {
        add_group(alloc, &mut found, value)?;
    }
    Ok(found)
}

/// The operations of a delta of either version, in the order in which they stand there. What begins with a number is of
/// version 2, where that number is 2; all else is of version 1.
///
/// # Errors
///
/// `Shape` where the value is no delta, and `Memory` where no memory was left.
pub fn operations_in(alloc: Global, value: &Value) -> Result<Vec<RawOp<'static>>, LineFault>
    ensures read { GivesPart (λ v. map raw_op_view v.items) result (delta_of (data_of value.now)) }
    ensures sized { IfOk result (λ v. All IsSizedOperation v.items) }
{
    let Some(values) = elements(value) else {
        return Err(LineFault::Shape);
    };
    if !begins_with_number(values) {
        return operation_list(alloc, values);
    }
    let [version, groups] = values else {
        return Err(LineFault::Shape);
    };
    if !is_natural(2, version) {
        return Err(LineFault::Shape);
    }
    grouped(alloc, groups)
}
