//! Overlaps that several threads look at before their turn.
ghost use Rattle.std.specs.Prelude.{◌≡◌, ◌*◌, ℕ, List, All, IfOk, IfSome, length, take, drop, get_or};
ghost use Rattle.std.specs.List.{AllZip};
ghost use Rattle.chr_base.specs.declared.rule.Rule.{Rule};
ghost use Rattle.chr_weights.specs.WeighedPrograms.{rules_in};
ghost use Rattle.chr_overlaps.specs.declared.overlap.Overlap.{Overlap as OverlapValue};
ghost use Rattle.chr_overlaps.specs.OverlapLists.{IsOverlapOf};
ghost use Rattle.chr_join.specs.declared.coverage.Coverage.{Coverage};
ghost use Rattle.chr_join.specs.Verdicts.{HasJoinableCasesBy};
ghost use Rattle.chr_join.specs.working.Checking.{AreAhead, IsListerOf, IsNumberOf};

use crate::lister::Lister;
use crate::portions::worth_thread;
use chr_overlaps::Overlap;
use chr_weights::Weighed;
use rayon::prelude::*;
use std::alloc::{AllocError, Global};
use std::ops::Range;
use std::thread::Threads;

/// The number of overlaps that are first looked at ahead of their turn.
pub(crate) const BATCH: usize = 64;

/// Each next time, this many times as many overlaps are looked at as were looked at before. So few threads are started,
/// and an overlap that ends the verdict wastes no more than that.
const GROWTH: usize = 3;

/// The next overlaps from this place on, at most `most`.
pub(crate) fn batch_from(overlaps: &[Overlap], place: usize, most: usize) -> &[Overlap]
    ensures { result.now ≡ take (length result.now) (drop place overlaps.now) }
{
    let (_, rest) = overlaps.split_at(place.min(overlaps.len()));
    let (batch, _) = rest.split_at(most.min(rest.len()));
    batch
}

/// The numbers of cases of overlaps in a row, where all cases of an overlap are joinable.
#[derive(Drop)]
pub(crate) struct Ahead {
    /// The place of the first of these overlaps.
    pub(crate) start: usize,
    /// Their numbers of cases. None where not all cases are known to be joinable.
    pub(crate) numbers: Vec<Option<usize>>,
}

impl Ahead {
    /// No overlaps were looked at.
    pub(crate) fn none(alloc: Global) -> Ahead
        ensures { (coverage : Coverage) (rules : List Rule) (os : List OverlapValue)
            → AreAhead coverage rules os result }
    {
        Ahead {
            start: 0,
            numbers: Vec::new(alloc),
        }
    }

    /// Whether the overlaps from this place on are not looked at yet.
    pub(crate) fn ends_before(&self, place: usize) -> bool {
        self.start.saturating_add(self.numbers.len()) <= place
    }

    /// The number of cases of the overlap at this place, if it is known.
    pub(crate) fn number_at(&self, place: usize) -> Option<usize>
        ensures { IfSome result (λ n.
            (coverage : Coverage) (rules : List Rule) (os : List OverlapValue) (o : OverlapValue)
            → AreAhead coverage rules os self.now → o ≡ get_or os place o
            → HasJoinableCasesBy coverage rules o n) }
    {
        if place < self.start {
            return None;
        }
        match self.numbers.get(place - self.start) {
            Some(Some(number)) => Some(*number),
            _ => None,
        }
    }
}

/// The number of cases of an overlap, where all of them are joinable and memory is not refused.
fn number_of(alloc: Global, weighed: &Weighed, lister: &Lister, overlap: &Overlap) -> Option<usize>
    requires lister { IsListerOf (rules_in weighed.now) lister.now }
    requires overlap { IsOverlapOf (rules_in weighed.now) overlap.now }
    ensures { IfSome result (HasJoinableCasesBy lister.now.coverage (rules_in weighed.now) overlap.now) }
{
    match lister.check(alloc, weighed, overlap) {
        Ok(cases) => Some(cases),
        Err(_) => None,
    }
}

/// The numbers of cases of these overlaps, which are shared out among threads.
fn numbers_of(
    rt: &(impl Threads + Sync),
    alloc: Global,
    weighed: &Weighed,
    lister: &Lister,
    overlaps: &[Overlap],
) -> Result<Vec<Option<usize>>, AllocError>
    requires lister { IsListerOf (rules_in weighed.now) lister.now }
    requires overlaps { All (IsOverlapOf (rules_in weighed.now)) overlaps.now }
    ensures { IfOk result (λ numbers.
        AllZip (IsNumberOf lister.now.coverage (rules_in weighed.now)) overlaps.now numbers.items) }
{
    overlaps
        .par_iter()
        .with_min_len(worth_thread(alloc, lister.least_piece()))
        .map(
            |overlap: &Overlap| -> Option<usize>
                requires { IsOverlapOf (rules_in weighed.now) overlap.now
                    × IsListerOf (rules_in weighed.now) lister.now }
                ensures { IfSome result
                    (HasJoinableCasesBy lister.entry.now.coverage (rules_in weighed.entry.now) overlap.now) }
            { number_of(alloc, weighed, lister, overlap) },
        )
        .collect(rt, alloc)
}

/// Looks at the next overlaps from the place `places.start` on, none behind `places.end`.
pub(crate) fn look_ahead(
    rt: &(impl Threads + Sync),
    alloc: Global,
    weighed: &Weighed,
    lister: &Lister,
    overlaps: &[Overlap],
    places: Range<usize>,
) -> Result<Ahead, AllocError>
    requires lister { IsListerOf (rules_in weighed.now) lister.now }
    requires overlaps { All (IsOverlapOf (rules_in weighed.now)) overlaps.now }
    ensures { IfOk result (AreAhead lister.now.coverage (rules_in weighed.now) overlaps.now) }
{
    let start = places.start;
    let most = start.saturating_mul(GROWTH).max(BATCH);
    let batch = batch_from(overlaps, start, most.min(places.end.saturating_sub(start)));
    Ok(Ahead {
        start,
        numbers: numbers_of(rt, alloc, weighed, lister, batch)?,
    })
}
