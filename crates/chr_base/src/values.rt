//! The arguments of atoms are values.
ghost use Rattle.std.specs.Prelude.{◌≡◌, true, FitsSigned};
ghost use Rattle.std.specs.Int.{w64};
ghost use Rattle.std.specs.List.{list_all};
ghost use Rattle.chr_base.specs.Values.{is_value, args_in};

use crate::atom::Atom;

/// An argument is a value.
fn is_value_of(x: i64)
    ensures fits { FitsSigned w64 x }
    ensures test { is_value x ≡ true }
{}

/// Each of these arguments is a value.
fn are_values(xs: &[i64])
    ensures { list_all is_value xs.now ≡ true }
{
    for x in xs {
        is_value_of(*x);
    }
}

/// Each argument of these atoms is a value.
pub(crate) fn are_values_of(atoms: &[Atom])
    ensures { list_all (args_in is_value) atoms.now ≡ true }
{
    for atom in atoms {
        are_values(&atom.args);
    }
}
