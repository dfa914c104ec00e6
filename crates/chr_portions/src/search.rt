//! Look-ups by place.
ghost use Rattle.std.specs.Prelude.{◌≡◌, ℕ, ◌+◌, ◌-◌, ◌<◌, ◌≤◌, length};
ghost use Rattle.chr_portions.specs.working.Skips.{record_at, IsSought};
ghost use Rattle.chr_portions.specs.working.Entries.{rows_of, IsIndex};

use crate::chains::{start, walk};
use crate::record::{Record, Sought};
use crate::skips::{Skip, find};

/// The greatest place below `bound` whose record is sought, and one more; or 0. `places` are named for the contract.
/// Records that the look-up met in vain among places without skips are added to `demand`.
pub(crate) fn place_below(
    records: &mut [Record],
    places: &[u32],
    heads: &mut [u32],
    skips: &mut [Skip],
    sought: &Sought,
    bound: usize,
    demand: &mut u32,
) -> u32
    requires index { IsIndex records.old places.now heads.old skips.old }
    requires bound { bound ≤ length records.old }
    ensures index { IsIndex records.new places.now heads.new skips.new }
    ensures rows { rows_of records.new places.now ≡ rows_of records.old places.now }
    ensures size { length records.new ≡ length records.old }
    ensures slots { length heads.new ≡ length heads.old }
    ensures blocks { length skips.new ≡ length skips.old }
    ensures within { result ≤ bound }
    ensures sought { 0 < result → IsSought sought.now (record_at records.new (result - 1)) }
    ensures none_between { (p : ℕ) → p < bound → IsSought sought.now (record_at records.new p) → p < result }
{
    let _ = places;
    let slots = heads.len();
    let from = start(records, heads, sought.hash as usize % slots, bound);
    let walked = walk(records, slots, sought, from, 8 * skips.len());
    *demand = demand.saturating_add(walked.demand());
    if walked.is_done {
        return walked.at;
    }
    find(records, skips, sought, walked.at as usize) as u32
}
