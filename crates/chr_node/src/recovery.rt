//! What a run finds that begins after a crash.
ghost use Rattle.std.specs.Prelude.{◌≡◌, [], ◌∷◌, IsTrue, IfOk};
ghost use Rattle.std.specs.FinMap as map;
ghost use Rattle.sqlite_disk.specs.Disk.{Only};
ghost use Rattle.chr_feeds.specs.Feeds.{IsAtRest};
ghost use Rattle.chr_node.specs.Nodes.{IsNode, IsCommitted};

use crate::fault::NodeFault;
use crate::holder::Holder;
use crate::node::Node;
use sqlite_disk::{Crash, Disk};
use std::alloc::Global;

/// Crashes, and opens the next run over an empty file, which takes in the feed of the one that has crashed: it holds
/// just what that run had committed.
///
/// # Errors
///
/// Those of [`Node::open`] and [`Node::take_in`].
pub fn crash_and_open<D: Crash + Drop, H: Holder + Drop>(
    alloc: Global,
    node: &mut Node<D, H>,
    holder: H,
    disk: D,
    origin: u32,
    last: u64,
) -> Result<Node<D, H>, NodeFault>
    requires at_rest { IsAtRest D.Disk.seen D.Disk.may_leave D.Disk.is_usable node.old.feed }
    requires untold { H.operations holder ≡ map.empty }
    requires empty { D.Disk.seen disk ≡ [] }
    requires durable { Only (D.Disk.seen disk) (D.Disk.may_leave disk) }
    requires usable { IsTrue (D.Disk.is_usable disk) }
    ensures found { IfOk result (λ next. IsTrue (D.Disk.is_clean node.new.feed.disk)
        → IsNode D.Disk.seen H.operations H.program (D.Disk.seen node.old.feed.disk ∷ []) next) }
    ensures committed { IfOk result (IsCommitted D.Disk.seen D.Disk.may_leave D.Disk.is_usable) }
    ensures program { IfOk result (λ next. H.program next.holder ≡ H.program holder) }
{
    node.feed.disk.crash();
    let mut next = Node::open(alloc, holder, disk, origin, last)?;
    next.take_in(alloc, &mut node.feed.disk)?;
    Ok(next)
}
