//! The search for weights under which each rule of a program lowers. Nothing is proved of it: what it finds is checked.

use crate::row::common_divisor;
use crate::tableau::{Share, Tableau};
use chr_base::limits::MAX_WEIGHT;
use chr_base::program::Program;
use chr_base::weight::Weight;
use std::alloc::Global;

/// A search ends without having found anything after this number of steps.
pub const MAX_SEARCH_STEPS: usize = 400;

/// What one of a weight's first numbers counts for, where a size doesn't fit one number: more than any second number.
const PART: i128 = MAX_WEIGHT as i128 + 1;

/// What a search finds.
#[derive(Drop)]
pub(crate) enum Solution {
    /// By how much the weight of each symbol is greater than 1.
    Shares(Vec<Share>),
    /// How often each rule is applied.
    Times(Vec<u64>),
}

/// Looks for weights, or for rules that show that there are none.
pub(crate) fn solve(alloc: Global, program: &Program) -> Option<Solution> {
    let mut tableau = Tableau::new(alloc, program)?;
    for _ in 0..MAX_SEARCH_STEPS {
        let Some(row) = tableau.first_below() else {
            return Some(Solution::Shares(tableau.shares(alloc, program.symbols())?));
        };
        let Some(place) = tableau.column_for(row) else {
            return Some(Solution::Times(tableau.times(alloc, row, program.rules().len())?));
        };
        tableau = tableau.traded(alloc, row, place)?;
    }
    None
}

/// The least number that is a multiple of what each share is a part of.
pub(crate) fn common_multiple(shares: &[Share]) -> Option<i128> {
    let mut multiple: i128 = 1;
    for share in shares {
        let divisor = common_divisor(multiple.unsigned_abs(), share.of.unsigned_abs());
        let divisor = i128::try_from(divisor).ok()?;
        multiple = multiple.checked_mul(share.of.checked_div(divisor)?)?;
    }
    Some(multiple)
}

/// The weight of this size: one number, or two where `paired`.
fn weight_of(size: i128, paired: bool) -> Option<Weight> {
    let part = if paired {
        size.checked_div(PART)?
    } else {
        size
    };
    let rest = if paired { size.checked_rem(PART)? } else { 0 };
    Some(Weight {
        first: u64::try_from(part).ok()?,
        second: u64::try_from(rest).ok()?,
    })
}

/// For each share the weight of `times` times one more than it, rounded up.
pub(crate) fn weights_of(
    alloc: Global,
    shares: &[Share],
    times: i128,
    paired: bool,
) -> Option<Vec<Weight>> {
    let mut weights = Vec::with_capacity(alloc, shares.len()).ok()?;
    for share in shares {
        let size = share.rounded_up(times)?.checked_add(times)?;
        weights.push(weight_of(size, paired)?).ok()?;
    }
    Some(weights)
}
