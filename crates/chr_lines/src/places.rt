//! Where the atoms and the replicas of a command stand in its line.

use crate::mistake::{Found, NoReplica, Undeclared};
use crate::pieces::{elements_at, found_at, value_start};
use chr_base::limits::MAX_REPLICAS;
use chr_base::program::Program;
use chr_json::{RawAtom, RawOp};
use std::alloc::{AllocError, Global};

/// Places in a line.
type Places = Vec<usize>;

/// The place of the element of this number of the array at this place, or that place.
fn element_place(
    alloc: Global,
    line: &[u8],
    at: usize,
    number: usize,
) -> Result<usize, AllocError> {
    match elements_at(alloc, line, at)? {
        Some(parts) => Ok(parts.start(number)),
        None => Ok(at),
    }
}

/// The places of the elements of the array at this place.
fn element_places(alloc: Global, line: &[u8], at: usize) -> Result<Places, AllocError> {
    match elements_at(alloc, line, at)? {
        Some(parts) => Ok(parts.starts),
        None => Ok(Vec::new(alloc)),
    }
}

/// Adds the places of the last elements of these arrays' second elements.
fn inner_places(alloc: Global, line: &[u8], outer: &[usize]) -> Result<Places, AllocError> {
    let mut found = Vec::new(alloc);
    for at in outer {
        let second = element_place(alloc, line, *at, 1)?;
        let inner = element_places(alloc, line, second)?;
        found.extend_from_slice(&inner)?;
    }
    Ok(found)
}

/// The places of the operations of the delta at this place.
fn operation_places(alloc: Global, line: &[u8], at: usize) -> Result<Places, AllocError> {
    let parts = element_places(alloc, line, at)?;
    match parts.as_slice() {
        [version, groups] if matches!(found_at(line, *version), Found::Whole) => {
            let groups = element_places(alloc, line, *groups)?;
            inner_places(alloc, line, &groups)
        }
        _ => Ok(parts),
    }
}

/// The places of the atoms of a line that tells or merges, in the line's order.
fn atom_places(alloc: Global, line: &[u8], is_merge: bool) -> Result<Places, AllocError> {
    let start = value_start(line);
    if !is_merge {
        let atoms = element_place(alloc, line, start, 3)?;
        return element_places(alloc, line, atoms);
    }
    let delta = element_place(alloc, line, start, 2)?;
    let operations = operation_places(alloc, line, delta)?;
    inner_places(alloc, line, &operations)
}

/// An atom that the program doesn't declare, with its number among all atoms of its line.
#[derive(Drop)]
pub(crate) struct Missing {
    number: usize,
    name: String,
    arity: usize,
}

/// The first of these atoms that the program doesn't declare. So many stand before them in their line.
fn missing_among(
    alloc: Global,
    program: &Program,
    atoms: &[RawAtom],
    before: usize,
) -> Result<Option<Missing>, AllocError> {
    for (number, atom) in atoms.iter().enumerate() {
        let (name, arity) = (atom.name.as_str(), atom.args.len());
        if program.symbol(name, arity).is_none() {
            return Ok(Some(Missing {
                number: before.saturating_add(number),
                name: String::from_str(alloc, name)?,
                arity,
            }));
        }
    }
    Ok(None)
}

/// The first atom of these operations that the program doesn't declare.
pub(crate) fn missing_in(
    alloc: Global,
    program: &Program,
    raws: &[RawOp],
) -> Result<Option<Missing>, AllocError> {
    let mut before: usize = 0;
    for raw in raws {
        let found = missing_among(alloc, program, &raw.atoms, before)?;
        if found.is_some() {
            return Ok(found);
        }
        before = before.saturating_add(raw.atoms.len());
    }
    Ok(None)
}

/// An atom that the program doesn't declare, in a line that tells or merges.
pub(crate) fn undeclared(
    alloc: Global,
    line: &[u8],
    is_merge: bool,
    missing: Option<Missing>,
) -> Result<Undeclared, AllocError> {
    let Some(
        Missing {
            number,
            name,
            arity,
        },
    ) = missing
    else {
        return Ok(Undeclared {
            at: value_start(line),
            name: String::new(alloc),
            arity: 0,
        });
    };
    let places = atom_places(alloc, line, is_merge)?;
    let place = *places.get(number).unwrap_or(&0);
    let at = element_place(alloc, line, place, 0)?;
    Ok(Undeclared { at, name, arity })
}

/// Whether a run may have the replica of this number.
fn may_be_there(replica: u64) -> bool {
    1 <= replica && replica <= u64::from(MAX_REPLICAS)
}

/// The first of a line's replicas that no run has.
pub(crate) fn no_replica(
    alloc: Global,
    line: &[u8],
    first: u64,
    second: u64,
) -> Result<NoReplica, AllocError> {
    let (number, replica) = if may_be_there(first) {
        (2, second)
    } else {
        (1, first)
    };
    Ok(NoReplica {
        at: element_place(alloc, line, value_start(line), number)?,
        replica,
    })
}
