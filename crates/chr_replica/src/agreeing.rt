//! Boards that hold the same operations.
ghost use Rattle.std.specs.Prelude.{◌≡◌};
ghost use Rattle.chr_base.specs.Programs.{rules_of};
ghost use Rattle.chr_base.specs.Sameness.{AreSame};
ghost use Rattle.chr_join.specs.Parts.{IsOnlyNormalForm};
ghost use Rattle.chr_ops.specs.Operations.{told_store};
ghost use Rattle.chr_replica.specs.Replicas.{IsSettled};
ghost use Rattle.chr_replica.specs.Boards.{program_on};

use crate::board::Board;
use crate::laws::one_answer;

/// Two boards of one program that hold the same operations and have settled hold the same store: the one normal form of
/// what was told. The call computes nothing: its contract says so of the two boards.
pub fn agree(left: &Board, right: &Board)
    requires program { AreSame (program_on left.now) (program_on right.now) }
    requires operations { left.now.replica.operations ≡ right.now.replica.operations }
    requires left { IsSettled (program_on left.now) left.now.replica }
    requires right { IsSettled (program_on right.now) right.now.replica }
    ensures pool { left.now.replica.pool ≡ right.now.replica.pool }
    ensures only { IsOnlyNormalForm (rules_of (program_on left.now)) (told_store left.now.replica.operations)
        left.now.replica.pool }
{
    one_answer();
    left.is_sound();
    right.is_sound();
    left.program().weighed();
}
