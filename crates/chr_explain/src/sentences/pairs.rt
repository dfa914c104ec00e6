//! Overlaps summed over pairs of rules.

use crate::prose::Prose;
use chr_diagnosis::Counted;
use chr_join::Coverage;
use std::alloc::{AllocError, Global};

/// Two rules, or a rule twice, with the numbers of their overlaps and of the cases of these.
#[derive(Clone, Copy, Debug, PartialEq, Eq)]
pub(crate) struct ToldPair {
    pub first: u32,
    pub second: u32,
    pub overlaps: usize,
    pub cases: usize,
}

impl ToldPair {
    /// The pair of one overlap.
    fn of(counted: &Counted) -> ToldPair {
        ToldPair {
            first: counted.overlap.first,
            second: counted.overlap.second,
            overlaps: 1,
            cases: counted.cases,
        }
    }

    /// Whether the overlap is one of this pair.
    fn has(&self, counted: &Counted) -> bool {
        self.first == counted.overlap.first && self.second == counted.overlap.second
    }

    /// Both pairs together, as the first one.
    pub(crate) fn plus(self, other: &ToldPair) -> ToldPair {
        ToldPair {
            overlaps: self.overlaps.saturating_add(other.overlaps),
            cases: self.cases.saturating_add(other.cases),
            ..self
        }
    }

    /// Both together.
    fn with(self, counted: &Counted) -> ToldPair {
        ToldPair {
            overlaps: self.overlaps.saturating_add(1),
            cases: self.cases.saturating_add(counted.cases),
            ..self
        }
    }
}

/// The pairs of rules that overlap, in the order of their overlaps.
pub(crate) fn pairs_of(alloc: Global, counts: &[Counted]) -> Result<Vec<ToldPair>, AllocError> {
    let mut pairs = Vec::new(alloc);
    for counted in counts {
        let pair = match pairs.pop() {
            Some(last) if ToldPair::has(&last, counted) => last.with(counted),
            Some(last) => {
                pairs.push(last)?;
                ToldPair::of(counted)
            }
            None => ToldPair::of(counted),
        };
        pairs.push(pair)?;
    }
    Ok(pairs)
}

/// Adds the numbers of a pair: that of its cases where joint ones were looked at, since sorted ones are not counted.
pub(crate) fn push_numbers(out: &mut Prose, pair: &ToldPair, coverage: Coverage) {
    out.push_number("overlaps ", pair.overlaps as u64, "");
    match coverage {
        Coverage::Joint => out.push_number(", cases ", pair.cases as u64, ""),
        Coverage::Sorted => {}
    }
}
