//! Each is a function that takes nothing and computes nothing: its contract is the law.
ghost use Rattle.chr_node_laws.specs.Laws.{LeftAreFronts, AcknowledgedAreHeld, NoOthersAreHeld, CopiesTellNoMore};
ghost use Rattle.chr_node_laws.specs.Laws.{AlikeAreOne, NodesAgree, OriginsKeepApart, OneBagIsHeld};

/// Whenever its run ended, a feed has the texts that were acknowledged, and no other than were told. So each node that
/// has read it holds what was acknowledged, and one that has read copies holds nothing that was never told.
pub fn feeds_keep_what_was_told()
    ensures left { LeftAreFronts }
    ensures acknowledged { AcknowledgedAreHeld }
    ensures no_other { NoOthersAreHeld }
{}

/// Nodes of one confluent program that have read the same operations show the same store, whatever files, fronts,
/// orders and repetitions brought them.
pub fn nodes_agree()
    ensures copies { CopiesTellNoMore }
    ensures one { AlikeAreOne }
    ensures agree { NodesAgree }
{}

/// Where each run numbers its operations under an origin of its own, no id stands for two bags, so that a set can hold
/// all that was told.
pub fn origins_keep_apart()
    ensures apart { OriginsKeepApart }
    ensures held { OneBagIsHeld }
{}
