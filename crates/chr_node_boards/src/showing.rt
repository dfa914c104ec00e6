//! What nodes show.
ghost use Rattle.std.specs.Prelude.{◌≡◌, ℕ, List, IfOk};
ghost use Rattle.chr_replica.specs.Boards.{program_on};
ghost use Rattle.chr_node_boards.specs.Shown.{operations_on, files_of, IsBoardNode, ShowsBy};

use crate::board::NodeBoard;
use chr_base::bag::Bag;
use chr_node::Node;
use sqlite_disk::Disk;
use std::alloc::{AllocError, Global};

/// Brings a node to rest, and gives the store that it shows: the normal form of what its feed, the records that wait
/// and the files that it has taken in tell.
pub fn show<D: Disk>(alloc: Global, node: &mut Node<D, NodeBoard>) -> Result<Bag, AllocError>
    ensures shows { IfOk result (λ store. (others : List (List ℕ)) → IsBoardNode D.seen others node.old
        → ShowsBy (program_on node.old.holder) (files_of D.seen others node.old) store) }
    ensures node { (others : List (List ℕ)) → IsBoardNode D.seen others node.old
        → IsBoardNode D.seen others node.new }
    ensures operations { operations_on node.new.holder ≡ operations_on node.old.holder }
    ensures accepted { node.new.holder.accepted ≡ node.old.holder.accepted }
    ensures feed { node.new.feed ≡ node.old.feed }
    ensures waiting { node.new.waiting ≡ node.old.waiting }
    ensures origin { node.new.origin ≡ node.old.origin }
    ensures last { node.new.last ≡ node.old.last }
{
    let store = node.holder.show(alloc)?;
    Ok(store)
}
