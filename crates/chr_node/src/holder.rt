//! What holds a node's operations.
ghost use Rattle.std.specs.Prelude.{◌≡◌, ◌≢◌, All, Ok, IfErr, IfOk, OnOk, OnErr, option_copied};
ghost use Rattle.std.specs.FinMap as map;
ghost use Rattle.chr_base.specs.declared.program.Program.{Program as ProgramValue};
ghost use Rattle.chr_base.specs.Programs.{declarations, declares_atom, rules_of};
ghost use Rattle.chr_base.specs.Rewriting.{IsNormalForm};
ghost use Rattle.chr_base.specs.Rules.{Step};
ghost use Rattle.chr_base.specs.Values.{Each, HasValues};
ghost use Rattle.chr_ops.specs.Operations.{Operations, IsHeld, IsNew, told_store, told_atoms};
ghost use Rattle.chr_ops.specs.Joins.{union, HasNoClash};
ghost use Rattle.chr_node.specs.Refusals.{HolderRefuses};

use crate::fault::Refusal;
use chr_base::bag::Bag;
use chr_base::program::Program;
use chr_ops::{Added, Op, OpId};
use std::alloc::{AllocError, Global};

/// Something that holds operations of a program, whatever it makes of them, as a board does.
pub trait Holder {
    /// The operations that it holds.
    ghost operations: { Self → Operations };

    /// Its program, which stays.
    ghost program: { Self → ProgramValue };

    /// Its program.
    fn program(&self) -> &Program
        ensures { result.now ≡ program self.now };

    /// The bag of an id.
    fn get(&self, id: OpId) -> Option<&Bag>
        ensures { option_copied result ≡ map.get (operations self.now) id };

    /// Takes an operation in, where the program declares its atoms.
    ///
    /// # Errors
    ///
    /// Whatever the cause, nothing changes.
    fn tell(&mut self, alloc: Global, op: Op) -> Result<Added, Refusal>
        ensures program { program self.new ≡ program self.old }
        ensures declared { result ≡ Ok Added.New → Each (declares_atom (declarations (program self.old))) op.1 }
        ensures absent { result ≡ Ok Added.New → IsNew (operations self.old) op }
        ensures new { result ≡ Ok Added.New → operations self.new ≡ map.insert (operations self.old) op.0 op.1 }
        ensures again { result ≡ Ok Added.Again → IsHeld (operations self.old) op }
        ensures refused { IfErr result (HolderRefuses (program self.old) (operations self.old) op) }
        ensures same { result ≢ Ok Added.New → operations self.new ≡ operations self.old };

    /// Takes all of these operations in, or none, and answers how many were new.
    ///
    /// # Errors
    ///
    /// Whatever the cause, nothing changes.
    fn merge(&mut self, alloc: Global, ops: &[Op]) -> Result<u64, Refusal>
        ensures program { program self.new ≡ program self.old }
        ensures no_clash { OnOk result (HasNoClash (operations self.old) ops.now) }
        ensures union { OnOk result (operations self.new ≡ union (operations self.old) ops.now) }
        ensures err { OnErr result (operations self.new ≡ operations self.old) };
}

/// A holder that makes a store of its operations, as a board does.
pub trait Shower: Holder {
    /// Brings the store to rest, and gives it: a normal form of what was told, whose values have 64 bits.
    ///
    /// # Errors
    ///
    /// Where memory is refused.
    fn show(&mut self, alloc: Global) -> Result<Bag, AllocError>
        ensures program { Self.program self.new ≡ Self.program self.old }
        ensures operations { Self.operations self.new ≡ Self.operations self.old }
        ensures values { HasValues (told_store (Self.operations self.old)) }
        ensures normal { IfOk result (IsNormalForm (Step (rules_of (Self.program self.old)))
            (told_store (Self.operations self.old))) };

    /// How many atoms it was told.
    fn told(&self) -> u64
        ensures { result ≡ told_atoms (Self.operations self.now) };
}
