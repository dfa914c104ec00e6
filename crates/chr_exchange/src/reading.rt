//! What is read: messages in JSON values and in texts.

ghost use Rattle.serde_json.specs.View.{view as data_of};
ghost use Rattle.chr_base.specs.Programs.{declarations};
ghost use Rattle.chr_json.specs.Deltas.{operation_with};
ghost use Rattle.chr_exchange.specs.Meant.{delta_in, delta_meant, operation_meant, summary_in, summary_meant, Gives};
ghost use Rattle.chr_exchange.specs.Meant.{GivesCover};

use crate::fault::MessageFault;
use crate::named::{declared_operation, declared_operations};
use chr_base::program::Program;
use chr_json::{operation_in, operations_in, ranges_in, value_in};
use chr_ops::{Op, Summary};
use serde_json::Value;
use std::alloc::Global;

/// The summary that a JSON value is: an array of `[origin,[[lo,hi],..]]`. Origins and ranges may come in any order,
/// repeat, overlap or touch. An origin is 0 to 4294967295, and the numbers are 0 to 18446744073709551615, `lo` no
/// greater than `hi`.
///
/// # Errors
///
/// `Shape` where the value is no summary, and `Memory`.
pub fn summary_of(alloc: Global, value: &Value) -> Result<Summary, MessageFault>
    ensures { GivesCover result (summary_meant (data_of value.now)) }
{
    let ranges = ranges_in(alloc, value)?;
    Ok(Summary::of(ranges)?)
}

/// The operation of an id, `[origin,number]`, and atoms, `[[name,argument,..],..]`, of which there are 1 to 64.
///
/// # Errors
///
/// `Shape` where the values are not of these shapes, `UnknownSymbol` where the program doesn't declare one of the
/// atoms, and `Memory`.
pub fn op_of(
    alloc: Global,
    program: &Program,
    id: &Value,
    atoms: &Value,
) -> Result<Op, MessageFault>
    ensures { Gives (λ op. op) result
        (operation_meant (declarations program.now) (operation_with (data_of id.now) (data_of atoms.now))) }
{
    let raw = operation_in(alloc, id, atoms)?;
    declared_operation(alloc, program, &raw)?.ok_or(MessageFault::UnknownSymbol)
}

/// The operations of a delta, in its order, as often as they stand there: of version 2,
/// `[2,[[origin,[[number,[atom,..]],..]],..]]`, or of version 1, `[[[origin,number],[atom,..]],..]`. An array whose
/// first element is a number is read as version 2, and every other as version 1.
///
/// # Errors
///
/// `Shape` where the value is no delta, `UnknownSymbol` where the program doesn't declare one of the atoms, and
/// `Memory`.
pub fn delta_of(alloc: Global, program: &Program, value: &Value) -> Result<Vec<Op>, MessageFault>
    ensures { Gives (λ ops. ops.items) result (delta_meant (declarations program.now) (data_of value.now)) }
{
    let raws = operations_in(alloc, value)?;
    declared_operations(alloc, program, &raws)?.ok_or(MessageFault::UnknownSymbol)
}

/// The summary that a text is.
///
/// # Errors
///
/// `BadJson` where the text is no JSON value, and those of [`summary_of`].
pub fn read_summary(alloc: Global, text: &[u8]) -> Result<Summary, MessageFault>
    ensures { GivesCover result (summary_in text.now) }
{
    let value = value_in(alloc, text)?;
    summary_of(alloc, &value)
}

/// The operations of the delta that a text is.
///
/// # Errors
///
/// `BadJson` where the text is no JSON value, and those of [`delta_of`].
pub fn read_delta(alloc: Global, program: &Program, text: &[u8]) -> Result<Vec<Op>, MessageFault>
    ensures { Gives (λ ops. ops.items) result (delta_in (declarations program.now) text.now) }
{
    let value = value_in(alloc, text)?;
    delta_of(alloc, program, &value)
}
