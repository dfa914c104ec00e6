//! Atoms that a program declares.
ghost use Rattle.std.specs.Prelude.{◌≡◌, ◌↔◌, IsTrue, All};
ghost use Rattle.std.specs.List.{list_all};
ghost use Rattle.chr_base.specs.Programs.{declarations, declares_atom};
ghost use Rattle.chr_replica.specs.Replicas.{IsDeclared};

use chr_base::atom::Atom;
use chr_base::program::Program;
use chr_ops::Op;

/// Whether the program declares each of these atoms.
fn declares_atoms(program: &Program, atoms: &[Atom]) -> bool
    ensures { result ≡ list_all (declares_atom (declarations program.now)) atoms.now }
{
    for atom in atoms {
        if !program.declares(atom) {
            return false;
        }
    }
    true
}

/// Whether the program declares the operation's atoms.
pub fn declares(program: &Program, op: &Op) -> bool
    ensures { IsTrue result ↔ IsDeclared program.now op.now }
{
    declares_atoms(program, op.bag().atoms())
}

/// Whether the program declares the atoms of all of these operations.
pub fn declares_all(program: &Program, ops: &[Op]) -> bool
    ensures { IsTrue result ↔ All (IsDeclared program.now) ops.now }
{
    for op in ops {
        if !declares(program, op) {
            return false;
        }
    }
    true
}
