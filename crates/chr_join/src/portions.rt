//! Overlaps are taken portion by portion, so that no list of all of them is held.
ghost use Rattle.std.specs.Prelude.{◌<◌, IfOk, length};
ghost use Rattle.chr_weights.specs.WeighedPrograms.{rules_in};
ghost use Rattle.chr_join.specs.working.Portions.{IsPortion};

use chr_overlaps::{Overlap, overlaps_of};
use chr_weights::Weighed;
use std::alloc::{AllocError, Global};

/// The number of first rules whose overlaps are listed at once: 64 rules of four heads have 400,000 overlaps in all.
const RULES_AT_ONCE: usize = 8;

/// The number of overlaps that are looked at before threads are started.
pub(crate) const FEW_OVERLAPS: usize = 32;

/// The least number of overlaps for which one more thread is begun, where their sorted cases are looked at.
pub(crate) const LEAST_PIECE: usize = 8;

/// The bytes of address space that have to be left for threads: each asks for a heap of its own.
const HEAPS: usize = 256 << 20;

/// The least number of items for which one more thread is begun: `wanted`, or more than there can be where the system
/// refuses the address space for heaps, since each growth in a thread would ask it anew.
pub(crate) fn worth_thread(alloc: Global, wanted: usize) -> usize {
    match Vec::<u8>::with_capacity(alloc, HEAPS) {
        Ok(_) => wanted,
        Err(_) => usize::MAX,
    }
}

/// Overlaps in order, all those of some first rules.
#[derive(Drop)]
pub(crate) struct Portion {
    pub(crate) overlaps: Vec<Overlap>,
    /// The place behind the last of the first rules.
    pub(crate) end: usize,
}

/// The overlaps of the first rules from this place on.
pub(crate) fn portion_from(
    alloc: Global,
    weighed: &Weighed,
    place: usize,
) -> Result<Portion, AllocError>
    requires { place < length (rules_in weighed.now) }
    ensures { IfOk result (IsPortion (rules_in weighed.now) place) }
{
    let rules = weighed.program().rules();
    let end = if rules.len() - place > RULES_AT_ONCE {
        place + RULES_AT_ONCE
    } else {
        rules.len()
    };
    Ok(Portion {
        overlaps: overlaps_of(alloc, weighed, place..end)?,
        end,
    })
}

/// The number of overlaps from this place of the rules on that are looked at before threads are started.
pub(crate) fn alone_from(place: usize) -> usize {
    if place == 0 { FEW_OVERLAPS } else { 0 }
}
