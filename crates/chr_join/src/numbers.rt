//! The numbers of joint cases of an accepted program's overlaps. The cases are counted, and not looked at.
ghost use Rattle.std.specs.Prelude.{IfOk, All};
ghost use Rattle.std.specs.List.{AllZip};
ghost use Rattle.chr_base.specs.Programs.{rules_of};
ghost use Rattle.chr_weights.specs.WeighedPrograms.{rules_in};
ghost use Rattle.chr_confluence.specs.Confluence.{Confluent};
ghost use Rattle.chr_confluence.specs.Constants.{AreConstants};
ghost use Rattle.chr_overlaps.specs.OverlapLists.{IsOverlapOf};
ghost use Rattle.chr_join.specs.AcceptedPrograms.{program_in};
ghost use Rattle.chr_join.specs.Numbers.{HasNumber};
ghost use Rattle.chr_join.specs.working.Checking.{HaveFewTypes};
ghost use Rattle.chr_join.specs.working.Counting.{AreCounts};

use crate::accepted::Accepted;
use crate::ahead::{BATCH, batch_from};
use crate::counting::Counts;
use crate::joint::are_few;
use crate::totals::{Remembered, count_ahead, count_cases};
use chr_overlaps::Overlap;
use chr_overlaps::cases::unified;
use chr_overlaps::constants::constants;
use chr_weights::Weighed;
use std::alloc::{AllocError, Global};
use std::thread::Threads;

/// The number of joint cases of an overlap of confluent rules. None where it has too many order types.
fn case_number(
    alloc: Global,
    weighed: &Weighed,
    overlap: &Overlap,
    constants: &[i64],
    known: &mut Remembered,
) -> Result<Option<usize>, AllocError>
    requires confluent { Confluent (rules_in weighed.now) }
    requires overlap { IsOverlapOf (rules_in weighed.now) overlap.now }
    requires constants { AreConstants (rules_in weighed.now) constants.now }
    requires few { HaveFewTypes constants.now known.old.few.items }
    requires counts { AreCounts constants.now known.old.counts.entries.items }
    ensures few { IfOk result (λ _. HaveFewTypes constants.now known.new.few.items) }
    ensures counts { IfOk result (λ _. AreCounts constants.now known.new.counts.entries.items) }
    ensures number { IfOk result (HasNumber (rules_in weighed.now) overlap.now) }
{
    let Some(unified) = unified(weighed, overlap) else {
        return Ok(Some(0));
    };
    let Remembered { few, counts } = known;
    if !are_few(alloc, unified.free_classes(), constants, few)? {
        return Ok(None);
    }
    let number = count_cases(alloc, weighed, overlap, unified, constants, counts)?;
    Ok(Some(number))
}

/// The numbers of joint cases of these overlaps of an accepted program, each at its overlap's place. No number stands
/// where an overlap has too many order types. Overlaps with like guards are counted once, and others by several
/// threads.
///
/// # Errors
///
/// Where memory is refused.
pub fn case_numbers(
    rt: &(impl Threads + Sync),
    alloc: Global,
    accepted: &Accepted,
    overlaps: &[Overlap],
) -> Result<Vec<Option<usize>>, AllocError>
    requires { All (IsOverlapOf (rules_of (program_in accepted.now))) overlaps.now }
    ensures { IfOk result (λ numbers.
        AllZip (HasNumber (rules_of (program_in accepted.now))) overlaps.now numbers.items) }
{
    let weighed = accepted.weighed();
    let constants = constants(alloc, weighed.program().rules())?;
    let mut known = Remembered {
        few: Vec::new(alloc),
        counts: Counts::new(alloc),
    };
    let mut numbers = Vec::new(alloc);
    for (place, overlap) in overlaps.iter().enumerate() {
        if place % BATCH == 0 {
            let batch = batch_from(overlaps, place, BATCH);
            count_ahead(rt, alloc, weighed, batch, &constants, &mut known)?;
        }
        numbers.push(case_number(alloc, weighed, overlap, &constants, &mut known)?)?;
    }
    Ok(numbers)
}
