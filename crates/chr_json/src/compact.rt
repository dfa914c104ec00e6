//! Tells in JSON without spaces, or with one after each comma, read straight from their bytes: no tree of values is
//! made for them.

ghost use Rattle.std.specs.Prelude.{◌≡◌, ◌+◌, ◌∷◌, ◌++◌, IfOk, OnOk, FitsSigned, map, vec_len};
ghost use Rattle.std.specs.Int.{w64};
ghost use Rattle.std.specs.List.{AllByRecursion};
ghost use Rattle.std.specs.Str.{IsUtf8};
ghost use Rattle.json.specs.Print.{escape};
ghost use Rattle.chr_json.specs.NamedAtoms.{IsOperationLength};
ghost use Rattle.chr_json.specs.Printed.{atoms_data, id_data, ArgumentsFit};
ghost use Rattle.chr_json.specs.Reads.{IsSized, raw_atom_view, command_view};
ghost use Rattle.chr_json.specs.Texts.{IsWithinTextLimits};
ghost use Rattle.chr_json.specs.working.Compact.{IsTextOf, arguments_later, atoms_later, comma_text, parted_text};

use crate::atom::{Arguments, RawAtom};
use crate::comma::Comma;
use crate::command::Command;
use crate::piece::{Stop, after, integer, name, natural};
use chr_base::limits::MAX_OPERATION;
use std::alloc::Global;
use std::borrow::CowStr;

/// Reads arguments that follow a name, to the end of their array, and puts them behind those in `found`.
fn push_arguments<'a>(found: &mut Arguments, comma: Comma, text: &'a [u8]) -> Result<&'a [u8], Stop>
    requires { AllByRecursion (FitsSigned w64) found.old.items }
    ensures text { IfOk result (λ rest. arguments_later (comma_text comma) found.old.items ++ text.now
        ≡ arguments_later (comma_text comma) found.new.items ++ 93 ∷ rest.now) }
    ensures fit { IfOk result (λ _. AllByRecursion (FitsSigned w64) found.new.items) }
{
    let mut rest = text;
    while let Ok(next) = comma.after(rest) {
        let (value, next) = integer(next)?;
        found.push(value)?;
        rest = next;
    }
    after(b"]", rest)
}

/// Reads an array of a name and arguments, and puts the atom behind those in `found`. Tells its name as well: most
/// atoms of an operation have the name of the atom before, so `near` is compared first.
fn push_atom<'a>(
    found: &mut Vec<RawAtom<'a>>,
    near: &'a str,
    comma: Comma,
    text: &'a [u8],
) -> Result<(&'a str, &'a [u8]), Stop>
    requires near { escape near.now ≡ near.now }
    requires fit { AllByRecursion ArgumentsFit (map raw_atom_view found.old.items) }
    ensures text { IfOk result (λ r.
        atoms_later (comma_text comma) (map raw_atom_view found.old.items) ++ (comma_text comma ++ text.now)
        ≡ atoms_later (comma_text comma) (map raw_atom_view found.new.items) ++ r.1.now) }
    ensures fit { IfOk result (λ _. AllByRecursion ArgumentsFit (map raw_atom_view found.new.items)) }
    ensures len { IfOk result (λ _. vec_len found.new ≡ vec_len found.old + 1) }
    ensures name { IfOk result (λ r. escape r.0.now ≡ r.0.now) }
    ensures utf8 { IfOk result (λ r. IsUtf8 r.0.now) }
{
    let rest = after(b"[", text)?;
    let (name, rest) = name(near, rest)?;
    let last = found.len();
    let args = Arguments::new(*found.allocator());
    found.push(RawAtom {
        name: CowStr::Borrowed(name),
        args,
    })?;
    // They are read into their place, since what was just written is slow to move.
    let rest = push_arguments(&mut found[last].args, comma, rest)?;
    Ok((name, rest))
}

/// Reads atoms that follow the first, each after a comma, to the end of their array, and puts them behind it. There are
/// at most as many as an operation may have.
fn push_more_atoms<'a>(
    found: &mut Vec<RawAtom<'a>>,
    name: &'a str,
    comma: Comma,
    text: &'a [u8],
) -> Result<&'a [u8], Stop>
    requires name { escape name.now ≡ name.now }
    requires fit { AllByRecursion ArgumentsFit (map raw_atom_view found.old.items) }
    requires first { vec_len found.old ≡ 1 }
    ensures text { IfOk result (λ rest.
        atoms_later (comma_text comma) (map raw_atom_view found.old.items) ++ text.now
        ≡ atoms_later (comma_text comma) (map raw_atom_view found.new.items) ++ 93 ∷ rest.now) }
    ensures fit { IfOk result (λ _. AllByRecursion ArgumentsFit (map raw_atom_view found.new.items)) }
    ensures sized { IfOk result (λ _. IsOperationLength (vec_len found.new)) }
{
    let mut near = name;
    let mut rest = text;
    for _count in 1..MAX_OPERATION {
        let Ok(next) = comma.after(rest) else {
            return after(b"]", rest);
        };
        (near, rest) = push_atom(found, near, comma, next)?;
    }
    after(b"]", rest)
}

/// The least number of bytes that most atoms take.
const USUAL_LENGTH: usize = 8;

/// An array of 1 to [`MAX_OPERATION`] atoms.
fn atoms(alloc: Global, comma: Comma, text: &[u8]) -> Result<(Vec<RawAtom<'_>>, &[u8]), Stop>
    ensures text { IfOk result (λ r. text.now
        ≡ parted_text (comma_text comma) (atoms_data (map raw_atom_view r.0.items)) ++ r.1.now) }
    ensures fit { IfOk result (λ r. AllByRecursion ArgumentsFit (map raw_atom_view r.0.items)) }
    ensures sized { IfOk result (λ r. IsOperationLength (vec_len r.0)) }
{
    let rest = after(b"[", text)?;
    let likely = MAX_OPERATION.min(1 + rest.len() / USUAL_LENGTH);
    let mut found = Vec::with_capacity(alloc, likely)?;
    let (name, rest) = push_atom(&mut found, "", comma, rest)?;
    let rest = push_more_atoms(&mut found, name, comma, rest)?;
    Ok((found, rest))
}

/// An array of an operation's origin and its number there.
fn id(comma: Comma, text: &[u8]) -> Result<(u32, u64, &[u8]), Stop>
    ensures { IfOk result (λ r. text.now ≡ parted_text (comma_text comma) (id_data r.0 r.1) ++ r.2.now) }
{
    let rest = after(b"[", text)?;
    let (origin, rest) = natural(rest)?;
    let Ok(origin) = u32::try_from(origin) else {
        return Err(Stop::Other);
    };
    let rest = comma.after(rest)?;
    let (number, rest) = natural(rest)?;
    let rest = after(b"]", rest)?;
    Ok((origin, number, rest))
}

/// The tell whose text the line is, without spaces or with one after each comma. `Other` says nothing of the line.
pub fn tell_in(alloc: Global, line: &[u8]) -> Result<Command<'_>, Stop>
    ensures text { IfOk result (λ c. IsTextOf line.now (command_view c)) }
    ensures utf8 { OnOk result (IsUtf8 line.now) }
    ensures limits { IfOk result (λ c. IsWithinTextLimits (command_view c)) }
    ensures sized { IfOk result IsSized }
{
    let rest = after(b"[\"tell\"", line)?;
    if !line.is_ascii() {
        return Err(Stop::Other);
    }
    let comma = Comma::at(rest);
    let rest = comma.after(rest)?;
    let (replica, rest) = natural(rest)?;
    let rest = comma.after(rest)?;
    let (origin, number, rest) = id(comma, rest)?;
    let rest = comma.after(rest)?;
    let (atoms, rest) = atoms(alloc, comma, rest)?;
    let [b']'] = rest else {
        return Err(Stop::Other);
    };
    Ok(Command::Tell {
        replica,
        origin,
        number,
        atoms,
    })
}
