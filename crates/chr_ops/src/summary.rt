//! Summaries of the ids that a set holds.
ghost use Rattle.std.specs.Prelude.{◌≡◌, ◌≤◌, All, IfOk};
ghost use Rattle.chr_ops.specs.declared.id.OpId.{OpId as OpIdValue};
ghost use Rattle.chr_ops.specs.Summaries.{covers, IsApart, ApartIsOne, SummariesAreOne, SummariesExist};

use crate::merging::merge_ranges;
use crate::range::IdRange;
use std::alloc::{AllocError, Global};
use std::marker::Model;

/// The ids that some ranges cover. The ranges are kept as long as possible, so that no two touch.
#[derive(Drop)]
pub struct Summary {
    ranges: Vec<IdRange>,
}

impl Model for Summary {
    ghost use Rattle.std.specs.Prelude.{List};
    ghost use Rattle.std.specs.Coded.{coded_list};
    ghost use Rattle.chr_ops.specs.declared.range.IdRange.{IdRange};
    ghost use Rattle.chr_ops.specs.Summaries.{IsApart};
    ghost use Rattle.chr_ops.specs.working.Codes.{coded_range};

    ghost Value = { List IdRange };

    ghost coded = { coded_list coded_range };

    ghost view = { λ s. s.ranges.items };

    ghost invariant = { λ s. IsApart s.ranges.items };
}

impl Summary {
    /// The ids that ranges cover, which may come in any order, repeat, overlap and touch.
    pub fn of(ranges: Vec<IdRange>) -> Result<Summary, AllocError>
        requires { All (λ r. r.lo ≤ r.hi) ranges.items }
        ensures { IfOk result (λ summary. (id : OpIdValue) → covers summary id ≡ covers ranges.items id) }
    {
        let alloc = *ranges.allocator();
        let mut ranges = ranges;
        ranges.sort_unstable();
        Ok(Summary::of_merged(merge_ranges(alloc, &ranges)?))
    }

    /// The ranges: by origin and by number, and each as long as possible, so that no two touch.
    pub fn ranges(&self) -> &[IdRange]
        ensures ranges { result.now ≡ self.now }
        ensures apart { IsApart self.now }
    {
        &self.ranges
    }

    /// An equal summary.
    pub fn copy(&self, alloc: Global) -> Result<Summary, AllocError>
        ensures { IfOk result (λ summary. summary ≡ self.now) }
    {
        let mut ranges = Vec::new(alloc);
        ranges.extend_from_slice(self.ranges())?;
        Ok(Summary { ranges })
    }

    /// The ids of ranges that are merged.
    pub(crate) fn of_merged(ranges: Vec<IdRange>) -> Summary
        requires { IsApart ranges.items }
        ensures { result ≡ ranges.items }
    {
        Summary { ranges }
    }
}

/// The laws of summaries: ranges that are as long as possible and in order are determined by the ids that they cover,
/// and each set has such ranges. So a set has one summary, whoever makes it.
pub fn summaries_are_one()
    ensures ranges { ApartIsOne }
    ensures summaries { SummariesAreOne }
    ensures exist { SummariesExist }
{}
