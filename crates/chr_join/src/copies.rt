//! Rules that are copies of earlier ones.
ghost use Rattle.std.specs.Prelude.{◌<◌, ◌≤◌, IfOk, length};
ghost use Rattle.std.specs.Bool.{OnTrue};
ghost use Rattle.chr_weights.specs.WeighedPrograms.{rules_in};
ghost use Rattle.chr_overlaps.specs.OverlapLists.{IsOverlapOf};
ghost use Rattle.chr_join.specs.working.Portions.{AreCopies, AreOriginals, IsCopy};

use chr_base::rule::Rule;
use chr_overlaps::Overlap;
use chr_weights::Weighed;
use std::alloc::{AllocError, Global};

/// The first place at which stands a copy of the rule at `place`: a rule that says the same.
fn original_of(rules: &[Rule], place: usize) -> usize
    requires { place < length rules.now }
    ensures at { result ≤ place }
    ensures same { AreCopies rules.now result place }
{
    for earlier in 0..place {
        if rules[earlier] == rules[place] {
            return earlier;
        }
    }
    place
}

/// For each rule the place of its first copy.
pub(crate) fn originals(alloc: Global, weighed: &Weighed) -> Result<Vec<usize>, AllocError>
    ensures { IfOk result (λ places. AreOriginals (rules_in weighed.now) places.items) }
{
    let rules = weighed.program().rules();
    let mut places = Vec::new(alloc);
    for place in 0..rules.len() {
        places.push(original_of(rules, place))?;
    }
    Ok(places)
}

/// Whether copies of both rules make the same overlap, and one of them stands earlier.
pub(crate) fn is_copy(weighed: &Weighed, originals: &[usize], overlap: &Overlap) -> bool
    requires originals { AreOriginals (rules_in weighed.now) originals.now }
    requires overlap { IsOverlapOf (rules_in weighed.now) overlap.now }
    ensures { OnTrue result (IsCopy (rules_in weighed.now) overlap.now) }
{
    let first = overlap.first as usize - 1;
    let second = overlap.second as usize - 1;
    originals[first] < first || originals[first..second].contains(&originals[second])
}
