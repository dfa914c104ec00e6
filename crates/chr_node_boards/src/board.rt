//! The board of a node.
ghost use Rattle.std.specs.Prelude.{◌≡◌, IfOk};
ghost use Rattle.std.specs.Arc.{arc_value};
ghost use Rattle.chr_base.specs.Programs.{rules_of};
ghost use Rattle.chr_base.specs.Values.{HasValues};
ghost use Rattle.chr_join.specs.Parts.{IsOnlyNormalForm};
ghost use Rattle.chr_ops.specs.Operations.{told_store};
ghost use Rattle.chr_replica.specs.Boards.{program_on};
ghost use Rattle.chr_replica.specs.Replicas.{first};
ghost use Rattle.chr_node_boards.specs.Shown.{operations_on};

use crate::calls;
use chr_base::bag::Bag;
use chr_base::program::Program;
use chr_join::Accepted;
use chr_node::{Holder, Refusal, Shower};
use chr_ops::{Added, Op, OpId, OpSet};
use chr_replica::Board;
use std::alloc::{AllocError, Global};
use std::marker::Model;
use std::sync::Arc;

/// A board that holds a node's operations. Its type keeps that nothing is leased out, so that it can be brought to rest
/// at any time.
#[derive(Drop)]
pub struct NodeBoard {
    board: Board,
}

impl Model for NodeBoard {
    ghost use Rattle.std.specs.Prelude.{◌≡◌};
    ghost use Rattle.std.specs.FinMap as map;
    ghost use Rattle.chr_replica.specs.Boards.{Held};
    ghost use Rattle.chr_replica.specs.working.Codes.{coded_held};

    ghost Value = { Held };

    ghost coded = { coded_held };

    ghost view = { λ b. b.board };

    ghost invariant = { λ b. b.board.replica.out ≡ map.empty };
}

impl NodeBoard {
    /// The board of an accepted program that was told nothing.
    pub fn open(alloc: Global, accepted: Arc<Accepted>) -> Result<NodeBoard, AllocError>
        ensures accepted { IfOk result (λ board. board.accepted ≡ arc_value accepted) }
        ensures replica { IfOk result (λ board. board.replica ≡ first) }
    {
        let board = Board::open(alloc, accepted)?;
        Ok(NodeBoard { board })
    }

    /// Its accepted program. It takes no memory.
    pub fn accepted(&self) -> &Arc<Accepted>
        ensures { arc_value result.now ≡ self.now.accepted }
    {
        self.board.program()
    }

    /// Its operations. It takes no memory.
    pub fn ops(&self) -> &OpSet
        ensures { result.now ≡ operations_on self.now }
    {
        self.board.ops()
    }

    /// Brings it to rest, and gives the store: the one normal form of what was told, which has 64-bit values.
    pub fn show(&mut self, alloc: Global) -> Result<Bag, AllocError>
        ensures accepted { self.new.accepted ≡ self.old.accepted }
        ensures operations { operations_on self.new ≡ operations_on self.old }
        ensures values { HasValues (told_store (operations_on self.old)) }
        ensures only { IfOk result
            (IsOnlyNormalForm (rules_of (program_on self.old)) (told_store (operations_on self.old))) }
    {
        self.board.is_sound();
        calls::rest(&mut self.board)?;
        let store = calls::shown(alloc, &self.board)?;
        Ok(store)
    }
}

impl Holder for NodeBoard {
    ghost use Rattle.chr_replica.specs.Boards.{program_on};
    ghost use Rattle.chr_node_boards.specs.Shown.{operations_on};

    ghost operations = { operations_on };

    ghost program = { program_on };

    fn program(&self) -> &Program {
        self.board.program().program()
    }

    fn get(&self, id: OpId) -> Option<&Bag> {
        self.board.ops().get(id)
    }

    fn tell(&mut self, alloc: Global, op: Op) -> Result<Added, Refusal> {
        calls::tell(alloc, &mut self.board, op)
    }

    fn merge(&mut self, alloc: Global, ops: &[Op]) -> Result<u64, Refusal> {
        calls::merge(alloc, &mut self.board, ops)
    }
}

impl Shower for NodeBoard {
    fn show(&mut self, alloc: Global) -> Result<Bag, AllocError> {
        NodeBoard::show(self, alloc)
    }

    fn told(&self) -> u64 {
        self.board.ops().told()
    }
}
