//! The atoms of a name.
ghost use Rattle.std.specs.Prelude.{◌≡◌, IfOk, filter};
ghost use Rattle.chr_base.specs.Programs.{declarations};
ghost use Rattle.chr_base.specs.Texts.{name_of};
ghost use Rattle.chr_queries.specs.Named.{is_named, named_in};

use chr_base::atom::Atom;
use chr_base::bag::Bag;
use chr_base::program::Program;
use std::alloc::{AllocError, Global};

/// The name of an atom's symbol, or no text where the program doesn't declare it.
pub fn name_of<'a>(program: &'a Program, atom: &Atom) -> &'a str
    ensures { result.now ≡ name_of (declarations program.now) atom.now }
{
    if usize::from(atom.symbol.0) < program.symbols() {
        program.name_of(atom.symbol)
    } else {
        ""
    }
}

/// The atoms of a store whose symbols have this name, each as often as it stands there.
///
/// # Errors
///
/// Out of memory.
pub fn named(alloc: Global, program: &Program, store: &Bag, name: &str) -> Result<Bag, AllocError>
    ensures { IfOk result (λ found. found ≡ named_in (declarations program.now) name.now store.now) }
{
    Bag::of(copies_named(alloc, program, store.atoms(), name)?)
}

/// Copies of those of these atoms whose symbols have this name, in their order.
fn copies_named(
    alloc: Global,
    program: &Program,
    atoms: &[Atom],
    name: &str,
) -> Result<Vec<Atom>, AllocError>
    ensures { IfOk result (λ copies. copies.items ≡ filter (is_named (declarations program.now) name.now) atoms.now) }
{
    let mut copies = Vec::new(alloc);
    for atom in atoms {
        if name_of(program, atom) == name {
            copies.push(atom.copy())?;
        }
    }
    Ok(copies)
}
