//! The pieces of a message's text, each put at the end of a text.

ghost use Rattle.std.specs.Prelude.{◌≡◌, ◌++◌, ◌∷◌, OnOk, decimal, flat_map, string_bytes};
ghost use Rattle.std.specs.Fmt.{signed_decimal};
ghost use Rattle.serde_json.specs.Written.{compact_text};
ghost use Rattle.chr_base.specs.Programs.{declarations};
ghost use Rattle.chr_base.specs.Texts.{name_of};
ghost use Rattle.chr_json.specs.Printed.{atom_data, atoms_data};
ghost use Rattle.chr_exchange.specs.Texts.{spelt_atom};
ghost use Rattle.std.specs.Prelude.{map};

use chr_base::atom::Atom;
use chr_base::program::Program;
use itoa::Buffer;
use std::alloc::AllocError;

/// Adds a whole number without a sign.
///
/// # Errors
///
/// `AllocError` where no memory was left.
pub fn push_natural(out: &mut String, value: u64) -> Result<(), AllocError>
    ensures { OnOk result (string_bytes out.new ≡ string_bytes out.old ++ decimal value) }
{
    let mut digits = Buffer::new();
    out.push_str(digits.format(value))
}

fn push_integer(out: &mut String, value: i64) -> Result<(), AllocError>
    ensures { OnOk result (string_bytes out.new ≡ string_bytes out.old ++ signed_decimal value) }
{
    let mut digits = Buffer::new();
    out.push_str(digits.format(value))
}

/// Adds arguments, each behind a comma.
fn push_arguments(out: &mut String, values: &[i64]) -> Result<(), AllocError>
    ensures { OnOk result (string_bytes out.new ≡ string_bytes out.old
        ++ flat_map (λ z. 44 ∷ signed_decimal z) values.now) }
{
    for value in values {
        out.push_str(",")?;
        push_integer(out, *value)?;
    }
    Ok(())
}

/// The name of an atom's symbol, or no text where it isn't declared.
fn name<'a>(program: &'a Program, atom: &Atom) -> &'a str
    ensures { result.now ≡ name_of (declarations program.now) atom.now }
{
    if usize::from(atom.symbol.0) < program.symbols() {
        program.name_of(atom.symbol)
    } else {
        ""
    }
}

/// Adds an atom as an array of its name and its arguments.
fn push_atom(out: &mut String, program: &Program, atom: &Atom) -> Result<(), AllocError>
    ensures { OnOk result (string_bytes out.new ≡ string_bytes out.old
        ++ compact_text (atom_data (spelt_atom (declarations program.now) atom.now))) }
{
    out.push_str("[\"")?;
    out.push_str(name(program, atom))?;
    out.push_str("\"")?;
    push_arguments(out, &atom.args)?;
    out.push_str("]")?;
    Ok(())
}

/// Adds atoms, each behind a comma.
fn push_more_atoms(out: &mut String, program: &Program, atoms: &[Atom]) -> Result<(), AllocError>
    ensures { OnOk result (string_bytes out.new ≡ string_bytes out.old
        ++ flat_map (λ a. 44 ∷ compact_text (atom_data (spelt_atom (declarations program.now) a))) atoms.now) }
{
    for atom in atoms {
        out.push_str(",")?;
        push_atom(out, program, atom)?;
    }
    Ok(())
}

/// Adds an array of atoms, without white space, by the names of a program that declares them.
///
/// # Errors
///
/// `AllocError` where no memory was left.
pub fn push_atoms(out: &mut String, program: &Program, atoms: &[Atom]) -> Result<(), AllocError>
    ensures { OnOk result (string_bytes out.new ≡ string_bytes out.old
        ++ compact_text (atoms_data (map (spelt_atom (declarations program.now)) atoms.now))) }
{
    match atoms.split_first() {
        None => out.push_str("[]"),
        Some((first, rest)) => {
            out.push_str("[")?;
            push_atom(out, program, first)?;
            push_more_atoms(out, program, rest)?;
            out.push_str("]")?;
            Ok(())
        }
    }
}
