//! Bounds of values.
ghost use Rattle.std.specs.Prelude.{◌≡◌, ℤ};
ghost use Rattle.std.specs.Bool.{OnTrue, OnFalse};
ghost use Rattle.chr_indexes.specs.RangedRows.{IsIn, IsOther};
ghost use Rattle.chr_portions.specs.working.Bounds.{IsInBounds};

use chr_indexes::ranges::Range;

/// Values from `low` to `high`; none, where `low` is above `high`.
#[derive(Clone, Copy, Debug, Default, PartialEq, Eq)]
pub(crate) struct Bounds {
    pub(crate) low: i64,
    pub(crate) high: i64,
}

impl Bounds {
    /// Bounds that have all that lies in either.
    pub(crate) fn with(self, other: Bounds) -> Bounds
        ensures left { (x : ℤ) → IsInBounds self x → IsInBounds result x }
        ensures right { (x : ℤ) → IsInBounds other x → IsInBounds result x }
    {
        Bounds {
            low: self.low.min(other.low),
            high: self.high.max(other.high),
        }
    }

    /// Whether the range's exception is all that lies within the bounds.
    fn is_left_out(self, range: &Range) -> bool
        ensures { OnTrue result ((x : ℤ) → IsInBounds self x → IsOther range.now.except x → ⊥) }
    {
        match range.except {
            Some(except) => self.low == except && self.high == except,
            None => false,
        }
    }

    /// Whether a value of the range may lie within the bounds.
    pub(crate) fn meets(self, range: &Range) -> bool
        ensures { OnFalse result ((x : ℤ) → IsInBounds self x → IsIn range.now x → ⊥) }
    {
        let above = match range.least {
            Some(least) => least <= self.high,
            None => true,
        };
        let below = match range.most {
            Some(most) => self.low <= most,
            None => true,
        };
        above && below && !self.is_left_out(range)
    }
}
