//! Atoms as a line spells them.

ghost use Rattle.std.specs.Prelude.{◌≡◌, IfOk, length, map, vec_len};
ghost use Rattle.serde_json.specs.View.{view as data_of};
ghost use Rattle.chr_base.specs.Traversals.{each};
ghost use Rattle.chr_json.specs.Values.{integer_of};
ghost use Rattle.chr_json.specs.NamedAtoms.{IsOperationLength, named_atom_of, named_atoms_of};
ghost use Rattle.chr_json.specs.Reads.{raw_atom_view};
ghost use Rattle.chr_json.specs.Parts.{GivesPart};

use crate::fault::LineFault;
use crate::value::elements;
use chr_base::limits::{MAX_ARITY, MAX_OPERATION};
use serde_json::Value;
use smallvec::SmallVec;
use std::alloc::Global;
use std::borrow::CowStr;

/// The arguments of an atom. As many as a symbol may have need no allocation.
pub type Arguments = SmallVec<i64, MAX_ARITY>;

/// A name and its arguments, as a line spells them.
#[derive(Debug, PartialEq, Drop)]
pub struct RawAtom<'a> {
    /// Any text, in UTF-8. It is borrowed from the line where it stands there without escapes.
    pub name: CowStr<'a, Global>,
    /// Any number of arguments.
    pub args: Arguments,
}

/// An array's whole numbers of 64 bits with a sign.
fn integers(alloc: Global, values: &[Value]) -> Result<Arguments, LineFault>
    ensures { GivesPart (λ v. v.items) result (each integer_of (map data_of values.now)) }
{
    let mut found = Arguments::new(alloc);
    for value in values {
        let Some(number) = value.as_i64() else {
            return Err(LineFault::Shape);
        };
        found.push(number)?;
    }
    Ok(found)
}

/// The atom of an array of a name and arguments.
fn atom(alloc: Global, value: &Value) -> Result<RawAtom<'static>, LineFault>
    ensures { GivesPart raw_atom_view result (named_atom_of (data_of value.now)) }
{
    let Some([first, rest @ ..]) = elements(value) else {
        return Err(LineFault::Shape);
    };
    let Some(name) = first.as_str() else {
        return Err(LineFault::Shape);
    };
    let name = CowStr::Owned(String::from_str(alloc, name)?);
    let args = integers(alloc, rest)?;
    Ok(RawAtom { name, args })
}

/// The atoms of these values, one after another.
fn atom_list(alloc: Global, values: &[Value]) -> Result<Vec<RawAtom<'static>>, LineFault>
    ensures read { GivesPart (λ v. map raw_atom_view v.items) result (each named_atom_of (map data_of values.now)) }
    ensures length { IfOk result (λ v. vec_len v ≡ length values.now) }
{
    let mut found = Vec::new(alloc);
    for value in values {
        found.push(atom(alloc, value)?)?;
    }
    Ok(found)
}

/// The atoms of an array of 1 to [`MAX_OPERATION`] of them.
///
/// # Errors
///
/// `Shape` where the value is no such array, and `Memory` where no memory was left.
pub fn atoms(alloc: Global, value: &Value) -> Result<Vec<RawAtom<'static>>, LineFault>
    ensures read { GivesPart (λ v. map raw_atom_view v.items) result (named_atoms_of (data_of value.now)) }
    ensures sized { IfOk result (λ v. IsOperationLength (vec_len v)) }
{
    let Some(values) = elements(value) else {
        return Err(LineFault::Shape);
    };
    if values.is_empty() || values.len() > MAX_OPERATION {
        return Err(LineFault::Shape);
    }
    atom_list(alloc, values)
}
