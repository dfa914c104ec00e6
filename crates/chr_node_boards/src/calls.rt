//! Calls of boards, with the refusals of nodes.
ghost use Rattle.std.specs.Prelude.{◌≡◌, ◌≢◌, Ok, IfErr, IfOk, OnErr, OnOk};
ghost use Rattle.std.specs.FinMap as map;
ghost use Rattle.chr_base.specs.Programs.{declarations, declares_atom, rules_of};
ghost use Rattle.chr_base.specs.Rewriting.{IsAtRest};
ghost use Rattle.chr_base.specs.Rules.{Step};
ghost use Rattle.chr_base.specs.Values.{Each};
ghost use Rattle.chr_join.specs.Parts.{IsOnlyNormalForm};
ghost use Rattle.chr_ops.specs.Joins.{union, HasNoClash};
ghost use Rattle.chr_ops.specs.Operations.{told_store, IsHeld, IsNew};
ghost use Rattle.chr_replica.specs.Boards.{program_on};
ghost use Rattle.chr_replica.specs.Refusals.{refusal_number as replica_number, RefusesMerge};
ghost use Rattle.chr_replica.specs.declared.refusal.Refusal.TheVariants.{Memory as IsMemory};
ghost use Rattle.chr_node.specs.Refusals.{refusal_number, HolderRefuses};
ghost use Rattle.chr_node_boards.specs.Shown.{operations_on};
ghost use Rattle.chr_node_boards.specs.working.Refusals.{IsOfTelling, IsNumbered, node_refusal};

use chr_base::bag::Bag;
use chr_node::Refusal;
use chr_ops::{Added, Op};
use chr_replica::{Board, Refusal as ReplicaRefusal};
use std::alloc::{AllocError, Global};

/// The refusal of a node that has the number of a board's.
fn node_refusal(refusal: ReplicaRefusal) -> Refusal
    requires { IsOfTelling refusal }
    ensures number { refusal_number result ≡ replica_number refusal }
    ensures same { result ≡ node_refusal refusal }
{
    match refusal {
        ReplicaRefusal::UnknownSymbol => Refusal::UnknownSymbol,
        ReplicaRefusal::Clash(id) => Refusal::Clash(id),
        ReplicaRefusal::Full(_) => Refusal::Full,
        ReplicaRefusal::Memory => Refusal::Memory,
        _ => unreachable!(),
    }
}

/// Tells a board an operation.
pub(crate) fn tell(alloc: Global, board: &mut Board, op: Op) -> Result<Added, Refusal>
    ensures accepted { board.new.accepted ≡ board.old.accepted }
    ensures out { board.new.replica.out ≡ board.old.replica.out }
    ensures declared { result ≡ Ok Added.New → Each (declares_atom (declarations (program_on board.old))) op.1 }
    ensures absent { result ≡ Ok Added.New → IsNew (operations_on board.old) op }
    ensures new { result ≡ Ok Added.New
        → operations_on board.new ≡ map.insert (operations_on board.old) op.0 op.1 }
    ensures again { result ≡ Ok Added.Again → IsHeld (operations_on board.old) op }
    ensures same { result ≢ Ok Added.New → operations_on board.new ≡ operations_on board.old }
    ensures refused { IfErr result (HolderRefuses (program_on board.old) (operations_on board.old) op) }
{
    match board.tell(alloc, op) {
        Ok(Added::New) => Ok(Added::New),
        Ok(Added::Again) => Ok(Added::Again),
        Err(refusal) => Err(node_refusal(refusal)),
    }
}

/// Has a board take operations in.
pub(crate) fn merge(alloc: Global, board: &mut Board, ops: &[Op]) -> Result<u64, Refusal>
    ensures accepted { board.new.accepted ≡ board.old.accepted }
    ensures out { board.new.replica.out ≡ board.old.replica.out }
    ensures no_clash { OnOk result (HasNoClash (operations_on board.old) ops.now) }
    ensures union { OnOk result (operations_on board.new ≡ union (operations_on board.old) ops.now) }
    ensures err { OnErr result (operations_on board.new ≡ operations_on board.old) }
    ensures refused { IfErr result (IsNumbered (RefusesMerge (program_on board.old) board.old.replica ops.now)) }
{
    match board.merge(alloc, ops) {
        Ok(count) => Ok(count),
        Err(refusal) => Err(node_refusal(refusal)),
    }
}

/// Brings a board to rest.
pub(crate) fn rest(board: &mut Board) -> Result<(), AllocError>
    ensures accepted { board.new.accepted ≡ board.old.accepted }
    ensures out { board.new.replica.out ≡ board.old.replica.out }
    ensures operations { operations_on board.new ≡ operations_on board.old }
    ensures rests { OnOk result (IsAtRest (Step (rules_of (program_on board.new))) board.new.replica.pool) }
{
    match board.settle() {
        Ok(_) => Ok(()),
        Err(_) => Err(AllocError),
    }
}

/// The store of a board at rest, of which nothing is leased out.
pub(crate) fn shown(alloc: Global, board: &Board) -> Result<Bag, AllocError>
    requires none { board.now.replica.out ≡ map.empty }
    requires rests { IsAtRest (Step (rules_of (program_on board.now))) board.now.replica.pool }
    ensures { IfOk result
        (IsOnlyNormalForm (rules_of (program_on board.now)) (told_store (operations_on board.now))) }
{
    match board.show(alloc) {
        Ok(store) => Ok(store),
        Err(refusal) => Err(for_memory(refusal)),
    }
}

/// What a refusal for want of memory comes to.
fn for_memory(refusal: ReplicaRefusal) -> AllocError
    requires { refusal ≡ IsMemory }
{
    let _memory = refusal;
    AllocError
}
