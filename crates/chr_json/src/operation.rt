//! Operations as a message spells them.

ghost use Rattle.std.specs.Prelude.{◌≡◌, IfOk, option_map};
ghost use Rattle.serde_json.specs.View.{view as data_of};
ghost use Rattle.chr_json.specs.NamedAtoms.{id_of};
ghost use Rattle.chr_json.specs.Deltas.{numbered_of, operation_of, operation_with};
ghost use Rattle.chr_json.specs.Parts.{GivesPart};
ghost use Rattle.chr_json.specs.Reads.{raw_op_view, IsSizedOperation};

use crate::atom::{RawAtom, atoms};
use crate::fault::LineFault;
use crate::value::{elements, origin};
use chr_ops::OpId;
use serde_json::Value;
use std::alloc::Global;

/// An operation, as a message spells it.
#[derive(Debug, PartialEq, Drop)]
pub struct RawOp<'a> {
    /// Who made it, and its number among the operations of its maker.
    pub id: OpId,
    /// 1 to [`MAX_OPERATION`](crate::MAX_OPERATION) atoms, in the message's order.
    pub atoms: Vec<RawAtom<'a>>,
}

/// The id of an array of an origin and a number.
fn id(value: &Value) -> Option<OpId>
    ensures { option_map (λ id. (id.origin, id.number)) result ≡ id_of (data_of value.now) }
{
    let [first, second] = elements(value)? else {
        return None;
    };
    Some(OpId {
        origin: origin(first)?,
        number: second.as_u64()?,
    })
}

/// The operation of an id and an array of atoms.
///
/// # Errors
///
/// `Shape` where the values have another shape, and `Memory` where no memory was left.
pub fn operation_in(
    alloc: Global,
    name: &Value,
    values: &Value,
) -> Result<RawOp<'static>, LineFault>
    ensures read { GivesPart raw_op_view result (operation_with (data_of name.now) (data_of values.now)) }
    ensures sized { IfOk result IsSizedOperation }
{
    let Some(id) = id(name) else {
        return Err(LineFault::Shape);
    };
    let atoms = atoms(alloc, values)?;
    Ok(RawOp { id, atoms })
}

/// The operation of an array of an id and atoms.
pub fn operation(alloc: Global, value: &Value) -> Result<RawOp<'static>, LineFault>
    ensures read { GivesPart raw_op_view result (operation_of (data_of value.now)) }
    ensures sized { IfOk result IsSizedOperation }
{
    let Some([id, atoms]) = elements(value) else {
        return Err(LineFault::Shape);
    };
    operation_in(alloc, id, atoms)
}

/// The operation of an origin that is an array of its number there and atoms.
pub fn numbered_operation(
    alloc: Global,
    origin: u32,
    value: &Value,
) -> Result<RawOp<'static>, LineFault>
    ensures read { GivesPart raw_op_view result (numbered_of origin (data_of value.now)) }
    ensures sized { IfOk result IsSizedOperation }
{
    let Some([first, values]) = elements(value) else {
        return Err(LineFault::Shape);
    };
    let Some(number) = first.as_u64() else {
        return Err(LineFault::Shape);
    };
    let atoms = atoms(alloc, values)?;
    let id = OpId { origin, number };
    Ok(RawOp { id, atoms })
}
