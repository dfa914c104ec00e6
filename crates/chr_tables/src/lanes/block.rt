//! Eight rows at a time.
ghost use Rattle.std.specs.Prelude.{◌≡◌, ℕ, ◌+◌, ◌<◌, ◌≤◌, length, get_or, pos, false};
ghost use Rattle.chr_tables.specs.working.Lanes.{FailsAt, FailsAgainst};

use chr_base::term::Cmp;
use std::simd::prelude::*;

/// The rows of a block.
pub(crate) const LANES: usize = 8;

/// The rows of a column from a place on that make a block.
pub(crate) fn block_of(column: &[i64], at: usize) -> &[i64]
    requires { at + LANES ≤ length column.now }
    ensures size { length result.now ≡ LANES }
    ensures lanes { (lane : ℕ) → lane < LANES → get_or result.now lane (pos 0) ≡ get_or column.now (at + lane) (pos 0) }
{
    &column[at..at + LANES]
}

/// Whether a comparison holds in one of the eight lanes. False means that it holds in none.
pub(crate) fn holds_somewhere(left: &[i64], cmp: Cmp, right: &[i64]) -> bool
    requires left { length left.now ≡ LANES }
    requires right { length right.now ≡ LANES }
    ensures { result ≡ false → (lane : ℕ) → lane < LANES → FailsAt left.now cmp right.now lane }
{
    let left = Simd::<i64, 8>::from_slice(left);
    let right = Simd::<i64, 8>::from_slice(right);
    match cmp {
        Cmp::Less => left.simd_lt(right).any(),
        Cmp::AtMost => left.simd_le(right).any(),
        Cmp::Greater => left.simd_gt(right).any(),
        Cmp::AtLeast => left.simd_ge(right).any(),
        Cmp::Equal => left.simd_eq(right).any(),
        Cmp::NotEqual => left.simd_ne(right).any(),
    }
}

/// Like [`holds_somewhere`], with one value in all lanes on the right.
pub(crate) fn holds_against(left: &[i64], cmp: Cmp, value: i64) -> bool
    requires { length left.now ≡ LANES }
    ensures { result ≡ false → (lane : ℕ) → lane < LANES → FailsAgainst left.now cmp value lane }
{
    holds_somewhere(left, cmp, &[value; LANES])
}
