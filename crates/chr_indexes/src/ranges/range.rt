//! Ranges of values.
ghost use Rattle.std.specs.Prelude.{◌≡◌, ◌≤ℤ◌, ℤ, None};
ghost use Rattle.std.specs.Bool.{OnTrue, OnFalse};
ghost use Rattle.chr_indexes.specs.RangedRows.{IsIn, IsOther};
ghost use Rattle.chr_indexes.specs.working.Bounds.{IsInBounds};

/// The values from `least` to `most`, both among them, but for `except`. An end that is None bounds nothing, and an
/// exception that is None leaves nothing out.
#[derive(Clone, Copy, Debug, Default, PartialEq, Eq)]
pub struct Range {
    pub least: Option<i64>,
    pub most: Option<i64>,
    pub except: Option<i64>,
}

/// Values from `low` to `high`; none, where `low` is above `high`.
#[derive(Clone, Copy, Debug, Default, PartialEq, Eq)]
pub(crate) struct Bounds {
    pub(crate) low: i64,
    pub(crate) high: i64,
}

impl Bounds {
    /// Bounds that have all that lies in either.
    pub(crate) fn with(self, other: Bounds) -> Bounds
        ensures left { (x : ℤ) → IsInBounds self x → IsInBounds result x }
        ensures right { (x : ℤ) → IsInBounds other x → IsInBounds result x }
    {
        Bounds {
            low: self.low.min(other.low),
            high: self.high.max(other.high),
        }
    }
}

impl Range {
    /// Whether the value is in the range.
    pub fn has(&self, value: i64) -> bool
        ensures in_range { OnTrue result (IsIn self.now value) }
        ensures outside { OnFalse result (IsIn self.now value → ⊥) }
    {
        self.meets(Bounds {
            low: value,
            high: value,
        })
    }

    /// Those values of the range that are at least `least`.
    pub fn at_least(self, least: i64) -> Range
        ensures narrow { (x : ℤ) → IsIn result x → IsIn self x × (least ≤ℤ x) }
        ensures wide { (x : ℤ) → IsIn self x → least ≤ℤ x → IsIn result x }
    {
        let least = match self.least {
            Some(other) => least.max(other),
            None => least,
        };
        Range {
            least: Some(least),
            most: self.most,
            except: self.except,
        }
    }

    /// Those values of the range that are at most `most`.
    pub fn at_most(self, most: i64) -> Range
        ensures narrow { (x : ℤ) → IsIn result x → IsIn self x × (x ≤ℤ most) }
        ensures wide { (x : ℤ) → IsIn self x → x ≤ℤ most → IsIn result x }
    {
        let most = match self.most {
            Some(other) => most.min(other),
            None => most,
        };
        Range {
            least: self.least,
            most: Some(most),
            except: self.except,
        }
    }

    /// Those values of the range that are not `except`; all of them, where the range leaves out another value already.
    pub fn but(self, except: i64) -> Range
        ensures narrow { (x : ℤ) → IsIn result x → IsIn self x }
        ensures wide { (x : ℤ) → IsIn self x → ¬ (x ≡ except) → IsIn result x }
        ensures first { self.except ≡ None → (x : ℤ) → IsIn result x → ¬ (x ≡ except) }
    {
        Range {
            least: self.least,
            most: self.most,
            except: Some(self.except.unwrap_or(except)),
        }
    }

    /// Whether the range's exception is all that lies within these bounds.
    fn leaves_out(&self, bounds: Bounds) -> bool
        ensures itself { OnFalse result ((x : ℤ) → bounds.low ≡ x → bounds.high ≡ x → IsOther self.now.except x) }
        ensures none { OnTrue result ((x : ℤ) → IsInBounds bounds x → IsOther self.now.except x → ⊥) }
    {
        match self.except {
            Some(except) => bounds.low == except && bounds.high == except,
            None => false,
        }
    }

    /// Whether a value within these bounds may be in the range.
    pub(crate) fn meets(&self, bounds: Bounds) -> bool
        ensures itself { OnTrue result ((x : ℤ) → bounds.low ≡ x → bounds.high ≡ x → IsIn self.now x) }
        ensures none { OnFalse result ((x : ℤ) → IsInBounds bounds x → IsIn self.now x → ⊥) }
    {
        let above = match self.least {
            Some(least) => least <= bounds.high,
            None => true,
        };
        let below = match self.most {
            Some(most) => bounds.low <= most,
            None => true,
        };
        above && below && !self.leaves_out(bounds)
    }
}
