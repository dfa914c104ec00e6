//! Atoms and stores as text.
ghost use Rattle.std.specs.Prelude.{◌≡◌, ◌++◌, IfOk, OnOk, codes, string_bytes};
ghost use Rattle.std.specs.Fmt.{signed_decimal};
ghost use Rattle.std.specs.Ordering.{is_gt};
ghost use Rattle.std.specs.List.{All, flat_map};
ghost use Rattle.chr_base.specs.Programs.{declarations};
ghost use Rattle.chr_base.specs.Texts.{in_print_order, print_cmp, atom_text, atoms_text, store_text};
ghost use Rattle.chr_base.specs.working.Runs.{IsRun};

use crate::atom::Atom;
use crate::bag::Bag;
use crate::lists::push_copies;
use crate::program::Program;
use crate::runs::{are_alike, print_order, runs_in_print_order};
use itoa::Buffer;
use std::alloc::{AllocError, Global};

/// The atoms in the order in which texts of stores have them, one that occurs more than once as often as it does: by
/// the bytes of the name, then by the number of arguments, then by the arguments as numbers, the first first. Atoms
/// that the program doesn't declare have no name, and come first.
pub fn in_print_order(alloc: Global, program: &Program, bag: &Bag) -> Result<Vec<Atom>, AllocError>
    ensures { IfOk result (λ v. v.items ≡ in_print_order (declarations program.now) bag.now) }
{
    let mut atoms = Vec::new(alloc);
    push_copies(&mut atoms, bag.atoms())?;
    atoms.sort_unstable_by(|left, right| print_order(program, left, right));
    Ok(atoms)
}

/// Whether an atom is printed after another one.
pub fn is_printed_after(program: &Program, left: &Atom, right: &Atom) -> bool
    ensures { result ≡ is_gt (print_cmp (declarations program.now) left.now right.now) }
{
    if are_alike(left, right) {
        left.is_after(right)
    } else {
        print_order(program, left, right).is_gt()
    }
}

fn push_value(out: &mut String, value: i64) -> Result<(), AllocError>
    ensures { OnOk result (string_bytes out.new ≡ string_bytes out.old ++ signed_decimal value) }
{
    let mut digits = Buffer::new();
    out.push_str(digits.format(value))
}

fn push_more_values(out: &mut String, values: &[i64]) -> Result<(), AllocError>
    ensures { OnOk result (string_bytes out.new ≡ string_bytes out.old
        ++ flat_map (λ z. codes "," ++ signed_decimal z) values.now) }
{
    for value in values {
        out.push_str(",")?;
        push_value(out, *value)?;
    }
    Ok(())
}

/// Adds the text of an atom at the end of a text. Of an atom that the program doesn't declare the name is left out.
pub fn push_atom(out: &mut String, program: &Program, atom: &Atom) -> Result<(), AllocError>
    ensures { OnOk result (string_bytes out.new
        ≡ string_bytes out.old ++ atom_text (declarations program.now) atom.now) }
{
    out.push_str(program.name_or_none(atom))?;
    if let Some((first, rest)) = atom.args.as_slice().split_first() {
        out.push_str("(")?;
        push_value(out, *first)?;
        push_more_values(out, rest)?;
        out.push_str(")")?;
    }
    Ok(())
}

fn push_more_atoms(out: &mut String, program: &Program, atoms: &[Atom]) -> Result<(), AllocError>
    ensures { OnOk result (string_bytes out.new
        ≡ string_bytes out.old ++ flat_map (λ a. codes ", " ++ atom_text (declarations program.now) a) atoms.now) }
{
    for atom in atoms {
        out.push_str(", ")?;
        push_atom(out, program, atom)?;
    }
    Ok(())
}

fn push_atoms(out: &mut String, program: &Program, atoms: &[Atom]) -> Result<(), AllocError>
    ensures { OnOk result (string_bytes out.new
        ≡ string_bytes out.old ++ atoms_text (declarations program.now) atoms.now) }
{
    match atoms.split_first() {
        None => out.push_str("true"),
        Some((first, rest)) => {
            push_atom(out, program, first)?;
            push_more_atoms(out, program, rest)
        }
    }
}

fn push_more_runs(out: &mut String, program: &Program, runs: &[&[Atom]]) -> Result<(), AllocError>
    ensures { OnOk result (string_bytes out.new ≡ string_bytes out.old
        ++ flat_map (λ r. flat_map (λ a. codes ", " ++ atom_text (declarations program.now) a) r.now) runs.now) }
{
    for run in runs {
        push_more_atoms(out, program, run)?;
    }
    Ok(())
}

fn push_runs(out: &mut String, program: &Program, runs: &[&[Atom]]) -> Result<(), AllocError>
    requires { All (λ r. IsRun r.now) runs.now }
    ensures { OnOk result (string_bytes out.new
        ≡ string_bytes out.old ++ atoms_text (declarations program.now) (flat_map (λ r. r.now) runs.now)) }
{
    match runs.split_first() {
        None => out.push_str("true"),
        Some((first, rest)) => {
            push_atoms(out, program, first)?;
            push_more_runs(out, program, rest)?;
            Ok(())
        }
    }
}

/// Adds the text of a store at the end of a text.
pub fn push_store(
    alloc: Global,
    out: &mut String,
    program: &Program,
    bag: &Bag,
) -> Result<(), AllocError>
    ensures { OnOk result (string_bytes out.new
        ≡ string_bytes out.old ++ store_text (declarations program.now) bag.now) }
{
    if let Some(runs) = runs_in_print_order(alloc, program, bag.atoms())? {
        return push_runs(out, program, &runs);
    }
    let atoms = in_print_order(alloc, program, bag)?;
    push_atoms(out, program, &atoms)
}

/// The text of a store: its atoms in order, by name, number of arguments and arguments, joined by `, `; `true` for the
/// empty one. An atom prints as its name and, where it has arguments, these in parentheses, joined by commas. Of an
/// atom that the program doesn't declare the name is left out.
pub fn store_text(alloc: Global, program: &Program, bag: &Bag) -> Result<String, AllocError>
    ensures { IfOk result (λ s. string_bytes s ≡ store_text (declarations program.now) bag.now) }
{
    let mut out = String::new(alloc);
    push_store(alloc, &mut out, program, bag)?;
    Ok(out)
}
