//! Operations of atoms that a program declares, from the names that a message or a command line spells.

ghost use Rattle.std.specs.Prelude.{◌≡◌, ◌∷◌, ◌++◌, [], Some, None, All, IfOk, IfSome, IfNone, map, option_map};
ghost use Rattle.chr_base.specs.declared.atom.Atom.{Atom as AtomValue};
ghost use Rattle.chr_base.specs.Programs.{declarations};
ghost use Rattle.chr_json.specs.Reads.{raw_atom_view, raw_op_view, IsSizedOperation};
ghost use Rattle.chr_exchange.specs.Names.{declared_operation, declared_operations, named_atom, named_atoms};

use crate::keys::put_in_order;
use chr_base::atom::{Atom, SymbolId};
use chr_base::bag::Bag;
use chr_base::program::Program;
use chr_json::{RawAtom, RawOp};
use chr_ops::Op;
use std::alloc::{AllocError, Global};

/// Puts the atom of this name and these arguments at the end, and answers its symbol, or nothing where the program
/// doesn't declare it. It is found sooner where its symbol is `near`.
fn push_named(
    program: &Program,
    near: SymbolId,
    word: &RawAtom,
    atoms: &mut Vec<Atom>,
) -> Result<Option<SymbolId>, AllocError>
    ensures some { IfOk result (λ found. IfSome found (λ _. (a : AtomValue)
        × (named_atom (declarations program.now) (raw_atom_view word.now) ≡ Some a)
        × (atoms.new.items ≡ atoms.old.items ++ a ∷ []))) }
    ensures none { IfOk result (λ found. IfNone found
        (named_atom (declarations program.now) (raw_atom_view word.now) ≡ None)) }
{
    let last = atoms.len();
    atoms.push(Atom::default())?;
    if !program.set_atom(near, word.name.as_str(), &word.args, &mut atoms[last]) {
        return Ok(None);
    }
    Ok(Some(atoms[last].symbol))
}

/// The atoms of these names and arguments, or nothing where the program doesn't declare one of them.
///
/// # Errors
///
/// `AllocError` where no memory was left.
pub fn named_atoms(
    alloc: Global,
    program: &Program,
    words: &[RawAtom],
) -> Result<Option<Vec<Atom>>, AllocError>
    ensures { IfOk result (λ found. option_map (λ v. v.items) found
        ≡ named_atoms (declarations program.now) (map raw_atom_view words.now)) }
{
    let mut atoms = Vec::with_capacity(alloc, words.len())?;
    // Most atoms of an operation have the symbol of the one before.
    let mut near = SymbolId(0);
    for word in words {
        let Some(symbol) = push_named(program, near, word, &mut atoms)? else {
            return Ok(None);
        };
        near = symbol;
    }
    Ok(Some(atoms))
}

/// The operation of 1 to 64 atoms that is spelt in these words, ready to be shared, or nothing where the program
/// doesn't declare one of the atoms.
pub fn declared_operation(
    alloc: Global,
    program: &Program,
    raw: &RawOp,
) -> Result<Option<Op>, AllocError>
    requires { IsSizedOperation raw.now }
    ensures { IfOk result (λ found. found ≡ declared_operation (declarations program.now) (raw_op_view raw.now)) }
{
    let Some(mut atoms) = named_atoms(alloc, program, &raw.atoms)? else {
        return Ok(None);
    };
    put_in_order(&mut atoms);
    let bag = Bag::of(atoms)?;
    match Op::of(raw.id, bag) {
        Some(op) => Ok(Some(op.ready_to_share(alloc)?)),
        None => Ok(None),
    }
}

/// The operations that are spelt in these words, each of 1 to 64 atoms, in their order, or nothing where the program
/// doesn't declare an atom of one of them.
pub fn declared_operations(
    alloc: Global,
    program: &Program,
    raws: &[RawOp],
) -> Result<Option<Vec<Op>>, AllocError>
    requires { All IsSizedOperation raws.now }
    ensures { IfOk result (λ found. option_map (λ v. v.items) found
        ≡ declared_operations (declarations program.now) (map raw_op_view raws.now)) }
{
    let mut ops = Vec::with_capacity(alloc, raws.len())?;
    for raw in raws {
        let Some(op) = declared_operation(alloc, program, raw)? else {
            return Ok(None);
        };
        ops.push(op)?;
    }
    Ok(Some(ops))
}
