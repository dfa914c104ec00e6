//! What is written: the texts of summaries and deltas.

ghost use Rattle.std.specs.Prelude.{◌≡◌, ◌∷◌, ◌++◌, IfOk, OnOk, flat_map, map, string_bytes};
ghost use Rattle.serde_json.specs.Written.{compact_text};
ghost use Rattle.chr_base.specs.Programs.{declarations};
ghost use Rattle.chr_json.specs.Messages.{delta_1_data, grouped_data, numbered_data, operation_data, range_data};
ghost use Rattle.chr_json.specs.Printed.{atoms_data};
ghost use Rattle.chr_exchange.specs.Texts.{delta_text, delta_text_1, spelt, summary_text, HaveDifferentIds};
ghost use Rattle.chr_ops.specs.Operations.{operations_of};

use crate::groups::{push_closing, push_opening};
use crate::order::in_id_order;
use crate::pieces::{push_atoms, push_natural};
use chr_base::program::Program;
use chr_base::text::in_print_order;
use chr_ops::{IdRange, Op, Summary};
use std::alloc::{AllocError, Global};

/// Adds a range as an array of its two ends.
fn push_range(out: &mut String, range: &IdRange) -> Result<(), AllocError>
    ensures { OnOk result (string_bytes out.new ≡ string_bytes out.old ++ compact_text (range_data range.now)) }
{
    out.push_str("[")?;
    push_natural(out, range.lo)?;
    out.push_str(",")?;
    push_natural(out, range.hi)?;
    out.push_str("]")
}

/// Adds ranges in groups of one origin.
fn push_ranges(out: &mut String, ranges: &[IdRange]) -> Result<(), AllocError>
    ensures { OnOk result (string_bytes out.new ≡ string_bytes out.old ++ summary_text ranges.now) }
{
    let mut last = None;
    for range in ranges {
        push_opening(out, last, range.origin)?;
        push_range(out, range)?;
        last = Some(range.origin);
    }
    push_closing(out, last)?;
    Ok(())
}

/// The text of a summary: `[[origin,[[lo,hi],..]],..]`, without white space, origins and ranges rising.
pub fn summary_text(alloc: Global, summary: &Summary) -> Result<String, AllocError>
    ensures { IfOk result (λ text. string_bytes text ≡ summary_text summary.now) }
{
    let mut out = String::new(alloc);
    push_ranges(&mut out, summary.ranges())?;
    Ok(out)
}

/// Adds an operation's atoms, in the order in which texts of stores have them.
fn push_bag(alloc: Global, out: &mut String, program: &Program, op: &Op) -> Result<(), AllocError>
    ensures { OnOk result (string_bytes out.new ≡ string_bytes out.old
        ++ compact_text (atoms_data (spelt (declarations program.now) op.now).atoms)) }
{
    let atoms = in_print_order(alloc, program, op.bag())?;
    push_atoms(out, program, &atoms)
}

/// Adds an operation as an array of its number and its atoms.
fn push_numbered(
    alloc: Global,
    out: &mut String,
    program: &Program,
    op: &Op,
) -> Result<(), AllocError>
    ensures { OnOk result (string_bytes out.new ≡ string_bytes out.old
        ++ compact_text (numbered_data (spelt (declarations program.now) op.now))) }
{
    out.push_str("[")?;
    push_natural(out, op.id().number)?;
    out.push_str(",")?;
    push_bag(alloc, out, program, op)?;
    out.push_str("]")?;
    Ok(())
}

/// Adds operations in groups of one origin.
fn push_groups(
    alloc: Global,
    out: &mut String,
    program: &Program,
    ops: &[&Op],
) -> Result<(), AllocError>
    ensures { OnOk result (string_bytes out.new ≡ string_bytes out.old
        ++ compact_text (grouped_data (λ o. o.id.origin) numbered_data
        (map (λ o. spelt (declarations program.now) o.now) ops.now))) }
{
    let mut last = None;
    for op in ops {
        let origin = op.id().origin;
        push_opening(out, last, origin)?;
        push_numbered(alloc, out, program, op)?;
        last = Some(origin);
    }
    push_closing(out, last)?;
    Ok(())
}

/// Adds an operation as an array of its id and its atoms.
fn push_operation(
    alloc: Global,
    out: &mut String,
    program: &Program,
    op: &Op,
) -> Result<(), AllocError>
    ensures { OnOk result (string_bytes out.new ≡ string_bytes out.old
        ++ compact_text (operation_data (spelt (declarations program.now) op.now))) }
{
    let id = op.id();
    out.push_str("[[")?;
    push_natural(out, u64::from(id.origin))?;
    out.push_str(",")?;
    push_natural(out, id.number)?;
    out.push_str("],")?;
    push_bag(alloc, out, program, op)?;
    out.push_str("]")?;
    Ok(())
}

/// Adds operations, each behind a comma.
fn push_more_operations(
    alloc: Global,
    out: &mut String,
    program: &Program,
    ops: &[&Op],
) -> Result<(), AllocError>
    ensures { OnOk result (string_bytes out.new ≡ string_bytes out.old
        ++ flat_map (λ o. 44 ∷ compact_text (operation_data (spelt (declarations program.now) o.now))) ops.now) }
{
    for op in ops {
        out.push_str(",")?;
        push_operation(alloc, out, program, op)?;
    }
    Ok(())
}

/// Adds an array of operations.
fn push_operations(
    alloc: Global,
    out: &mut String,
    program: &Program,
    ops: &[&Op],
) -> Result<(), AllocError>
    ensures { OnOk result (string_bytes out.new ≡ string_bytes out.old
        ++ compact_text (delta_1_data (map (λ o. spelt (declarations program.now) o.now) ops.now))) }
{
    match ops.split_first() {
        None => out.push_str("[]"),
        Some((first, rest)) => {
            out.push_str("[")?;
            push_operation(alloc, out, program, first)?;
            push_more_operations(alloc, out, program, rest)?;
            out.push_str("]")?;
            Ok(())
        }
    }
}

/// The text of a delta of version 2: `[2,[[origin,[[number,[atom,..]],..]],..]]`, without white space, origins and
/// numbers rising, each operation's atoms in the order in which texts of stores have them.
pub fn delta_text(alloc: Global, program: &Program, ops: &[Op]) -> Result<String, AllocError>
    requires { HaveDifferentIds ops.now }
    ensures { IfOk result (λ text. string_bytes text
        ≡ delta_text (declarations program.now) (operations_of ops.now)) }
{
    let sorted = in_id_order(alloc, ops)?;
    let mut out = String::new(alloc);
    out.push_str("[2,")?;
    push_groups(alloc, &mut out, program, &sorted)?;
    out.push_str("]")?;
    Ok(out)
}

/// The text of a delta of version 1: `[[[origin,number],[atom,..]],..]`, without white space, ids rising, each
/// operation's atoms in the order in which texts of stores have them.
pub fn delta_text_1(alloc: Global, program: &Program, ops: &[Op]) -> Result<String, AllocError>
    requires { HaveDifferentIds ops.now }
    ensures { IfOk result (λ text. string_bytes text
        ≡ delta_text_1 (declarations program.now) (operations_of ops.now)) }
{
    let sorted = in_id_order(alloc, ops)?;
    let mut out = String::new(alloc);
    push_operations(alloc, &mut out, program, &sorted)?;
    Ok(out)
}
