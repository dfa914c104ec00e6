//! Skips over blocks of eight places.
ghost use Rattle.std.specs.Prelude.{◌≡◌, ℕ, ◌+◌, ◌*◌, ◌-◌, ◌<◌, ◌≤◌, ◌^◌, length};
ghost use Rattle.chr_portions.specs.working.Skips.{record_at, IsSought, Covers, IsSkip, AreSkips};

use crate::record::{Hull, Record, Sought};

/// How to go on below a block: `own` has its records, `all` those from block `jump` on up to it. A skip is the root of
/// a tree; two trees of one rank become the branches of the next.
#[derive(Clone, Copy, Debug, Default, PartialEq, Eq)]
pub(crate) struct Skip {
    pub(crate) own: Hull,
    pub(crate) all: Hull,
    pub(crate) jump: u32,
    pub(crate) rank: u8,
}

/// A hull of the live records of a block.
pub(crate) fn own_hull(records: &[Record], block: usize) -> Hull
    requires within { 8 * block + 8 ≤ length records.now }
    ensures { Covers records.now (8 * block) (8 * block + 8) result }
{
    let mut hull = Hull::empty();
    for place in 8 * block..8 * block + 8 {
        hull = hull.with(records[place].hull());
    }
    hull
}

/// The skip over a block, where those below have theirs.
pub(crate) fn skip_for(records: &[Record], skips: &[Skip], block: usize) -> Skip
    requires within { 8 * block + 8 ≤ length records.now }
    requires few { length records.now < 2 ^ 32 }
    requires below { block ≤ length skips.now }
    requires linked { AreSkips records.now skips.now block }
    ensures { IsSkip records.now block result }
{
    let own = own_hull(records, block);
    if block > 0 {
        let left = skips[block - 1];
        if left.jump > 0 {
            let right = skips[left.jump as usize - 1];
            if left.rank == right.rank {
                return Skip {
                    own,
                    all: own.with(left.all).with(right.all),
                    jump: right.jump,
                    rank: left.rank.saturating_add(1),
                };
            }
        }
    }
    Skip {
        own,
        all: own,
        jump: block as u32,
        rank: 0,
    }
}

/// The greatest place below `to` and from `from` on with such a record, and one more; or 0.
fn within(records: &[Record], sought: &Sought, from: usize, to: usize) -> usize
    requires within { to ≤ length records.now }
    ensures most { result ≤ to }
    ensures least { 0 < result → from < result }
    ensures sought { 0 < result → IsSought sought.now (record_at records.now (result - 1)) }
    ensures none_between { (p : ℕ) → from ≤ p → p < to → IsSought sought.now (record_at records.now p) → p < result }
{
    let mut at = to;
    while at > from {
        if sought.is(&records[at - 1]) {
            return at;
        }
        at -= 1;
    }
    0
}

/// Whether a record of the block is dead, so that its hulls may be too wide.
fn has_dead(records: &[Record], block: usize) -> bool
    requires { 8 * block + 8 ≤ length records.now }
{
    for place in 8 * block..8 * block + 8 {
        if !records[place].alive {
            return true;
        }
    }
    false
}

/// Makes the skip over a block anew, where records of the block have died.
fn renew(records: &[Record], skips: &mut [Skip], block: usize)
    requires block { block < length skips.old }
    requires within { 8 * length skips.old ≤ length records.now }
    requires few { length records.now < 2 ^ 32 }
    requires linked { AreSkips records.now skips.old (length skips.old) }
    ensures size { length skips.new ≡ length skips.old }
    ensures linked { AreSkips records.now skips.new (length skips.old) }
{
    if has_dead(records, block) {
        skips[block] = skip_for(records, skips, block);
    }
}

/// The greatest place below `at` with such a record, and one more; or 0. Places below `at` are of blocks with skips.
pub(crate) fn find(records: &[Record], skips: &mut [Skip], sought: &Sought, at: usize) -> usize
    requires covered { at ≤ 8 * length skips.old }
    requires within { 8 * length skips.old ≤ length records.now }
    requires few { length records.now < 2 ^ 32 }
    requires linked { AreSkips records.now skips.old (length skips.old) }
    ensures size { length skips.new ≡ length skips.old }
    ensures linked { AreSkips records.now skips.new (length skips.old) }
    ensures most { result ≤ at }
    ensures sought { 0 < result → IsSought sought.now (record_at records.now (result - 1)) }
    ensures none_between { (p : ℕ) → p < at → IsSought sought.now (record_at records.now p) → p < result }
{
    let mut at = at;
    while at > 0 {
        let block = (at - 1) / 8;
        let skip = &skips[block];
        if !sought.meets(&skip.all) {
            at = 8 * skip.jump as usize;
        } else if !sought.meets(&skip.own) {
            at = 8 * block;
        } else {
            let found = within(records, sought, 8 * block, at);
            if found > 0 {
                return found;
            }
            renew(records, skips, block);
            at = 8 * block;
        }
    }
    0
}
