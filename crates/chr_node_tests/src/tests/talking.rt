//! Talks with nodes over files in memory that stop after some calls.
ghost use Rattle.std.specs.Prelude.{◌≡◌, [], IfSome, IsTrue};
ghost use Rattle.std.specs.Bool.{OnTrue};
ghost use Rattle.std.specs.FinMap as map;
ghost use Rattle.sqlite_disk.specs.Disk.{Only};
ghost use Rattle.chr_replica.specs.Boards.{program_on};
ghost use Rattle.chr_node_boards.specs.Shown.{operations_on};
ghost use Rattle.chr_node_talk.specs.Talks.{IsReady};

use crate::tests::texts::board_of;
use chr_node::{Node, NodeFault, TakenIn};
use chr_node_boards::NodeBoard;
use chr_node_talk::{Alone, NodeMachine, Talk};
use sqlite_disk::{Disk, Fuse, Memory};
use std::alloc::Global;
use std::process::Abort;
use std::thread::Threads;

/// A node that talks, with no other files in its folder.
pub type Machine<D> = NodeMachine<D, NodeBoard, Alone>;

/// One over a file in memory.
pub type Run = Machine<Fuse<Memory>>;

/// A node that was told nothing, where its feed can be made.
fn opened<D: Disk + Drop>(
    alloc: Global,
    board: NodeBoard,
    disk: D,
    origin: u32,
) -> Option<Machine<D>>
    requires untold { operations_on board ≡ map.empty }
    requires empty { D.seen disk ≡ [] }
    requires durable { Only (D.seen disk) (D.may_leave disk) }
    requires usable { IsTrue (D.is_usable disk) }
    ensures { IfSome result (λ m. IsReady D.seen D.may_leave D.is_usable operations_on program_on m.talk.node) }
{
    match Node::open(alloc, board, disk, origin, 0) {
        Ok(node) => Some(NodeMachine {
            talk: Talk::of(alloc, node, Alone),
            begun: Vec::new(alloc),
        }),
        Err(_) => None,
    }
}

/// Whether the lines of a text are answered.
pub fn answers<D: Disk>(
    alloc: Global,
    machine: &mut Machine<D>,
    text: &str,
    held: &mut String,
) -> bool
    requires { IsReady D.seen D.may_leave D.is_usable operations_on program_on machine.old.talk.node }
    ensures { OnTrue result
        (IsReady D.seen D.may_leave D.is_usable operations_on program_on machine.new.talk.node) }
{
    match machine.answer_batch(alloc, text.as_bytes(), held) {
        Ok(()) => true,
        Err(_) => false,
    }
}

/// Takes in what a file tells, which may be used.
pub fn taken_in<D: Disk, E: Disk>(
    rt: &impl Abort,
    alloc: Global,
    machine: &mut Machine<D>,
    file: &mut E,
) -> Result<TakenIn, NodeFault>
    ensures { IsReady D.seen D.may_leave D.is_usable operations_on program_on machine.old.talk.node
        → IsReady D.seen D.may_leave D.is_usable operations_on program_on machine.new.talk.node }
{
    assert!(rt; file.may_be_used());
    machine.talk.node.take_in(alloc, file)
}

/// A run of a program over a file that stops after some calls, where its feed can be made.
pub fn opened_on(
    rt: &(impl Abort + Threads + Sync),
    alloc: Global,
    program: &str,
    calls: u64,
    origin: u32,
) -> Option<Run>
    ensures { IfSome result (λ m. IsReady ⟦<Fuse<Memory> as Disk>⟧.seen ⟦<Fuse<Memory> as Disk>⟧.may_leave
        ⟦<Fuse<Memory> as Disk>⟧.is_usable operations_on program_on m.talk.node) }
{
    let board = board_of(rt, alloc, program);
    opened(alloc, board, Fuse::new(Memory::new(alloc), calls), origin)
}
