//! What a proposal keeps, and the others don't.
ghost use Rattle.std.specs.Prelude.{IfOk, IfSome};
ghost use Rattle.std.specs.Bool.{OnTrue};
ghost use Rattle.std.specs.List.{All};
ghost use Rattle.chr_diagnosis.specs.Proposals.{IsSamePlace, IsKeptAlone, GoesOrIsOf};

use crate::peak::Peak;
use crate::proposal::Proposal;
use crate::small::{SmallStores, is_wanted};
use crate::staying::stays;
use chr_base::bag::Bag;
use std::alloc::{AllocError, Global};

/// Whether the two put the same rules in the same place.
fn are_same(proposal: &Proposal, other: &Proposal) -> bool
    ensures { OnTrue result (IsSamePlace proposal.now other.now) }
{
    proposal.from == other.from && proposal.rules.as_str() == other.rules.as_str()
}

/// Whether the store goes with each of the proposals but this one.
fn goes_with_others(
    alloc: Global,
    proposals: &[Proposal],
    proposal: &Proposal,
    store: &Bag,
) -> Result<bool, AllocError>
    ensures { IfOk result (λ goes. OnTrue goes (All (GoesOrIsOf proposal.now store.now) proposals.now)) }
{
    for other in proposals {
        if !are_same(proposal, other) && stays(alloc, other.accepted.weighed(), store)? {
            return Ok(false);
        }
    }
    Ok(true)
}

/// Whether the store stays with this proposal, and goes with all others and with the text as it stands.
fn is_kept_alone(
    alloc: Global,
    peak: &Peak,
    proposals: &[Proposal],
    proposal: &Proposal,
    store: &Bag,
) -> Result<bool, AllocError>
    ensures { IfOk result (λ alone. OnTrue alone (IsKeptAlone peak.now proposals.now proposal.now store.now)) }
{
    if !stays(alloc, proposal.accepted.weighed(), store)? {
        return Ok(false);
    }
    if stays(alloc, &peak.weighed, store)? {
        return Ok(false);
    }
    goes_with_others(alloc, proposals, proposal, store)
}

/// The smallest of these stores that stays with the proposal, and goes with all others and with the text as it stands:
/// of atoms that are there once, or where `copies` of one that is there more than once.
pub fn kept_alone(
    alloc: Global,
    peak: &Peak,
    small: &SmallStores,
    proposals: &[Proposal],
    proposal: &Proposal,
    copies: bool,
) -> Result<Option<Bag>, AllocError>
    ensures { IfOk result (λ found. IfSome found (IsKeptAlone peak.now proposals.now proposal.now)) }
{
    for store in &small.stores {
        if is_wanted(store, copies) && is_kept_alone(alloc, peak, proposals, proposal, store)? {
            return Ok(Some(store.copy(alloc)?));
        }
    }
    Ok(None)
}
