//! Overlaps.
ghost use Rattle.std.specs.Prelude.{◌≡◌, ◌<◌, length};
ghost use Rattle.chr_base.specs.declared.limits.TheConstants.{MAX_HEADS};
ghost use Rattle.chr_overlaps.specs.working.Listing.{with_entry};

use arrayvec::ArrayVec;
use chr_base::limits::MAX_HEADS;

/// Two rules of a program, or a rule with its own renamed copy, and a matching of their heads: both rules can fire on
/// atoms that the matched heads share (Abdennadher, Frühwirth and Meuss 1999).
#[derive(Debug, PartialEq, Eq, Drop)]
pub struct Overlap {
    /// The number of the first rule, from 1.
    pub first: u32,
    /// The number of the second rule, from 1. It isn't less than that of the first.
    pub second: u32,
    /// For each head place of the first rule 0, or the place of the second rule, from 1, that it is matched with.
    pub matching: ArrayVec<u8, MAX_HEADS>,
}

impl Overlap {
    /// An equal overlap. It takes no memory.
    pub fn copy(&self) -> Overlap
        ensures { result ≡ self.now }
    {
        let mut matching = ArrayVec::new();
        for entry in self.matching.as_slice() {
            matching.push(*entry);
        }
        Overlap {
            first: self.first,
            second: self.second,
            matching,
        }
    }

    /// The overlap with one entry more.
    pub(crate) fn with(&self, entry: u8) -> Overlap
        requires { length self.now.matching.items < MAX_HEADS }
        ensures { result ≡ with_entry self.now entry }
    {
        let mut longer = self.copy();
        longer.matching.push(entry);
        longer
    }
}
