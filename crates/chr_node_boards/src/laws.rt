//! The laws of what nodes show. Each is a function that computes nothing: its contract is the law.
ghost use Rattle.chr_join.specs.AcceptedPrograms.{program_in};
ghost use Rattle.chr_node_boards.specs.Laws.{ShownStoresAgree, AcknowledgedAreShown};

use chr_join::Accepted;
use chr_node_laws::{feeds_keep_what_was_told, nodes_agree};

/// Two nodes of one accepted program that have read files which tell the same operations show the same store.
pub fn shown_stores_agree(accepted: &Accepted)
    ensures { ShownStoresAgree (program_in accepted.now) }
{
    nodes_agree();
    accepted.weighed();
}

/// The store that a node shows that has read what a run has left is a normal form of all operations that the run had
/// acknowledged, and of none that no run was told.
pub fn acknowledged_are_shown()
    ensures { AcknowledgedAreShown }
{
    feeds_keep_what_was_told();
}
