//! Portions of records that are put in order and get skips.
ghost use Rattle.std.specs.Prelude.{◌≡◌, ◌*◌, ◌<◌, ◌≤◌, ◌^◌, length, IfOk};
ghost use Rattle.chr_portions.specs.working.Skips.{AreSkips};
ghost use Rattle.chr_portions.specs.working.Entries.{rows_of, IsIndex};

use crate::entry::sorted_entries;
use crate::placed::rearrange;
use crate::record::Record;
use crate::skips::{Skip, skip_for};
use std::alloc::AllocError;

/// Where the portion begins into which the records from `covered` to `to` come: it takes in each portion before it that
/// is at most three times as long. `starts` has where portions begin.
fn portion_start(starts: &mut Vec<u32>, covered: usize, to: usize) -> Result<usize, AllocError>
    requires order { covered ≤ to }
    requires few { to < 2 ^ 32 }
    ensures { IfOk result (λ start. start ≤ covered) }
{
    let mut start = covered;
    let mut count = starts.len();
    while count > 0 {
        let before = start.min(starts[count - 1] as usize);
        if 3 * (to - start) < start - before {
            break;
        }
        start = before;
        count -= 1;
    }
    starts.truncate(count);
    starts.push(start as u32)?;
    Ok(start)
}

/// Each block of eight records that has no skip yet gets one.
fn extend(records: &[Record], skips: &mut Vec<Skip>) -> Result<(), AllocError>
    requires few { length records.now < 2 ^ 32 }
    requires within { 8 * length skips.old.items ≤ length records.now }
    requires linked { AreSkips records.now skips.old.items (length skips.old.items) }
    ensures within { 8 * length skips.new.items ≤ length records.now }
    ensures linked { AreSkips records.now skips.new.items (length skips.new.items) }
{
    for block in skips.len()..records.len() / 8 {
        let skip = skip_for(records, skips, block);
        skips.push(skip)?;
    }
    Ok(())
}

/// Puts records that have no skips in order, together with portions before them that are as small, and gives them
/// skips. No row changes, even where memory is refused.
pub(crate) fn cover(
    records: &mut [Record],
    places: &mut [u32],
    heads: &mut [u32],
    skips: &mut Vec<Skip>,
    starts: &mut Vec<u32>,
) -> Result<(), AllocError>
    requires index { IsIndex records.old places.old heads.old skips.old.items }
    ensures index { IsIndex records.new places.new heads.new skips.new.items }
    ensures rows { rows_of records.new places.new ≡ rows_of records.old places.old }
    ensures size { length records.new ≡ length records.old }
    ensures few { length places.new ≡ length places.old }
    ensures slots { length heads.new ≡ length heads.old }
{
    let to = records.len() / 8 * 8;
    let covered = 8 * skips.len();
    if covered == to {
        return Ok(());
    }
    let start = portion_start(starts, covered, to)?;
    let mut entries = sorted_entries(*skips.allocator(), &records[start..to])?;
    skips.truncate(start / 8);
    rearrange(records, places, heads, &mut entries, start);
    extend(records, skips)
}
