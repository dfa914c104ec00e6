//! Weights, which are pairs of numbers.
ghost use Rattle.std.specs.Prelude.{◌≡◌, ◌+◌, ◌++◌, ◌<◌, ◌^◌, ◌↔◌, IsTrue, OnOk, string_bytes};
ghost use Rattle.chr_base.specs.Weights.{IsLighter, is_paired, sum, weight_text};

use std::alloc::AllocError;
use std::fmt::Write;

/// The weight of a symbol, an atom or a store. The first number counts for more: two weights are compared by their
/// first numbers and, where these are equal, by their second numbers.
#[derive(Clone, Copy, Debug, PartialEq, Eq)]
pub struct Weight {
    /// The number that is compared first.
    pub first: u64,
    /// The number that decides between equal first ones.
    pub second: u64,
}

/// The weight of a symbol for which none is declared.
pub const DEFAULT_WEIGHT: Weight = Weight {
    first: 1,
    second: 0,
};

/// The weight of what isn't declared, and of the empty store.
pub const NO_WEIGHT: Weight = Weight {
    first: 0,
    second: 0,
};

impl Weight {
    /// Whether this is less than the other weight.
    pub fn is_lighter(self, other: Weight) -> bool
        ensures { IsTrue result ↔ IsLighter self other }
    {
        self.first < other.first || (self.first == other.first && self.second < other.second)
    }

    /// The sum of both weights, number by number.
    pub fn plus(self, other: Weight) -> Weight
        requires first { self.first + other.first < 2 ^ 64 }
        requires second { self.second + other.second < 2 ^ 64 }
        ensures { result ≡ sum self other }
    {
        Weight {
            first: self.first + other.first,
            second: self.second + other.second,
        }
    }

    /// Whether the second number is not 0, so that the weight's text needs both.
    pub fn is_paired(self) -> bool
        ensures { result ≡ is_paired self }
    {
        self.second != 0
    }

    /// Adds the weight's text: both numbers with a comma between them where `paired`, else the first alone.
    pub fn push_text(self, out: &mut String, paired: bool) -> Result<(), AllocError>
        ensures { OnOk result (string_bytes out.new ≡ string_bytes out.old ++ weight_text paired self) }
    {
        write!(out, "{}", self.first)?;
        if paired {
            write!(out, ",{}", self.second)?;
        }
        Ok(())
    }
}
