//! Cases that are counted, and not looked at.
ghost use Rattle.std.specs.Prelude.{◌*◌, All, IfOk, IfSome, List, ℤ, ⊤};
ghost use Rattle.std.specs.List.{AllZip};
ghost use Rattle.chr_types.specs.OrderTypes.{Rises};
ghost use Rattle.chr_join.specs.working.Counting.{AreCounts, CountsValues, HasFewTypes, IsCountIfThere, IsCountOf};

use crate::portions::worth_thread;
use chr_overlaps::Unified;
use chr_types::{Visit, visit_types};
use rayon::prelude::*;
use std::alloc::{AllocError, Global};
use std::thread::Threads;

/// The least number of classes that have many order types, among constants or not.
pub(crate) const MANY_CLASSES: usize = 6;

/// Once this many counts are remembered, new ones take their place.
const MOST_COUNTS: usize = 256;

/// Counts the values at which both guards of an overlap hold.
#[derive(Drop)]
pub(crate) struct Counter<'a> {
    pub(crate) unified: &'a Unified,
    pub(crate) counted: usize,
}

impl Visit for Counter<'_> {
    ghost ready = { λ v. ⊤ };

    ghost step = { λ v values stops w. CountsValues v values stops w };

    fn visit(&mut self, values: &[i64]) -> Result<bool, AllocError> {
        if !self.unified.guards_hold(values) {
            return Ok(false);
        }
        self.counted = self.counted.saturating_add(1);
        Ok(false)
    }
}

/// The number of order types at which both guards hold.
fn count_types(alloc: Global, unified: &Unified, constants: &[i64]) -> Result<usize, AllocError>
    requires rising { Rises constants.now }
    requires few { HasFewTypes constants.now unified.now }
    ensures { IfOk result (IsCountOf constants.now unified.now) }
{
    let mut counter = Counter {
        unified,
        counted: 0,
    };
    let classes = unified.free_classes();
    visit_types(alloc, classes, constants, unified, &mut counter)?;
    Ok(counter.counted)
}

/// The number of order types at which both guards hold. None where memory is refused.
fn number_of(alloc: Global, unified: &Unified, constants: &[i64]) -> Option<usize>
    requires rising { Rises constants.now }
    requires few { HasFewTypes constants.now unified.now }
    ensures { IfSome result (IsCountOf constants.now unified.now) }
{
    match count_types(alloc, unified, constants) {
        Ok(number) => Some(number),
        Err(_) => None,
    }
}

/// The numbers of order types at which these guards hold, which are shared out among threads.
fn numbers_of(
    rt: &(impl Threads + Sync),
    alloc: Global,
    guards: &[Unified],
    constants: &[i64],
) -> Result<Vec<Option<usize>>, AllocError>
    requires rising { Rises constants.now }
    requires few { All (HasFewTypes constants.now) guards.now }
    ensures { IfOk result (λ numbers. AllZip (IsCountIfThere constants.now) guards.now numbers.items) }
{
    guards
        .par_iter()
        .with_min_len(worth_thread(alloc, 1))
        .map(
            |unified: &Unified| -> Option<usize>
                requires { Rises constants.now × HasFewTypes constants.now unified.now }
                ensures { IfSome result (IsCountOf constants.entry.now unified.now) }
            { number_of(alloc, unified, constants) },
        )
        .collect(rt, alloc)
}

/// The number of order types at which these guards hold.
#[derive(Drop)]
pub(crate) struct Count {
    pub(crate) unified: Unified,
    pub(crate) number: usize,
}

/// Counts that are remembered, since copies of rules have many overlaps with the same guards.
#[derive(Drop)]
pub(crate) struct Counts {
    pub(crate) entries: Vec<Count>,
}

impl Counts {
    /// No counts are known. It takes no memory.
    pub(crate) fn new(alloc: Global) -> Counts
        ensures { (constants : List ℤ) → AreCounts constants result.entries.items }
    {
        Counts {
            entries: Vec::new(alloc),
        }
    }

    /// Adds the counts of these guards, which are shared out among threads, unless each is counted at once. Where many
    /// counts are remembered, the new ones take their place.
    pub(crate) fn add_all(
        &mut self,
        rt: &(impl Threads + Sync),
        alloc: Global,
        mut guards: Vec<Unified>,
        constants: &[i64],
    ) -> Result<(), AllocError>
        requires rising { Rises constants.now }
        requires few { All (HasFewTypes constants.now) guards.items }
        requires known { AreCounts constants.now self.old.entries.items }
        ensures { IfOk result (λ _. AreCounts constants.now self.new.entries.items) }
    {
        if guards.iter().all(|it| it.free_classes() < MANY_CLASSES) {
            return Ok(());
        }
        let numbers = numbers_of(rt, alloc, &guards, constants)?;
        if self.entries.len() >= MOST_COUNTS {
            self.entries.clear();
        }
        while let Some(unified) = guards.pop() {
            if let Some(Some(number)) = numbers.get(guards.len()) {
                self.entries.push(Count {
                    unified,
                    number: *number,
                })?;
            }
        }
        Ok(())
    }

    /// The count that is remembered of guards like these.
    fn known(&self, unified: &Unified) -> Option<usize>
        ensures { IfSome result (λ n. (constants : List ℤ)
            → AreCounts constants self.now.entries.items → IsCountOf constants unified.now n) }
    {
        for count in &self.entries {
            if count.unified.has_guards_of(unified) {
                return Some(count.number);
            }
        }
        None
    }

    /// Whether a count is remembered of guards like these.
    pub(crate) fn has(&self, unified: &Unified) -> bool {
        self.known(unified).is_some()
    }

    /// The number of order types at which both guards hold.
    pub(crate) fn count(
        &mut self,
        alloc: Global,
        unified: Unified,
        constants: &[i64],
    ) -> Result<usize, AllocError>
        requires rising { Rises constants.now }
        requires few { HasFewTypes constants.now unified }
        requires known { AreCounts constants.now self.old.entries.items }
        ensures known { IfOk result (λ _. AreCounts constants.now self.new.entries.items) }
        ensures number { IfOk result (IsCountOf constants.now unified) }
    {
        if let Some(number) = self.known(&unified) {
            return Ok(number);
        }
        let number = count_types(alloc, &unified, constants)?;
        if self.entries.len() < MOST_COUNTS {
            self.entries.push(Count { unified, number })?;
        }
        Ok(number)
    }
}
