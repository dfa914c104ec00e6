//! All overlaps of a program's rules.
ghost use Rattle.std.specs.Prelude.{◌≡◌, ◌<◌, ◌≤◌, ◌+◌, ◌-◌, ◌*◌, ◌^◌, ◌++◌, OnOk, IfOk, length, get_or, drop, nat_lt};
ghost use Rattle.std.specs.List.{list_any};
ghost use Rattle.chr_base.specs.declared.limits.TheConstants.{MAX_HEADS, MAX_RULES};
ghost use Rattle.chr_base.specs.Programs.{rules_of};
ghost use Rattle.chr_base.specs.Rules.{heads_of, no_pattern};
ghost use Rattle.chr_weights.specs.WeighedPrograms.{program_of};
ghost use Rattle.chr_confluence.specs.Matchings.{matches_removed};
ghost use Rattle.chr_overlaps.specs.OverlapLists.{AreOverlaps, AreOverlapsBetween};
ghost use Rattle.chr_overlaps.specs.working.Listing.{has_same_symbol, may_follow, overlaps_behind, overlaps_of_rule};

use crate::overlap::Overlap;
use arrayvec::ArrayVec;
use chr_base::rule::Rule;
use chr_base::term::Pattern;
use chr_weights::Weighed;
use std::alloc::{AllocError, Global};
use std::ops::Range;

/// Whether the patterns have one symbol, with as many arguments.
fn has_same_symbol(first: &Pattern, second: &Pattern) -> bool
    ensures { result ≡ has_same_symbol first.now second.now }
{
    first.symbol.0 == second.symbol.0 && first.args.len() == second.args.len()
}

/// Whether the next place can have this entry: 0, or a place of the second rule that has the same symbol and isn't
/// matched yet.
fn may_follow(first: &Rule, second: &Rule, begun: &[u8], entry: u8) -> bool
    requires left { length begun.now < length (heads_of first.now) }
    requires there { entry ≤ length (heads_of second.now) }
    ensures { result ≡
        may_follow (heads_of second.now) begun.now
        (get_or (heads_of first.now) (length begun.now) no_pattern) entry }
{
    if entry == 0 {
        return true;
    }
    let place = usize::from(entry) - 1;
    !begun.contains(&entry) && has_same_symbol(first.head_at(begun.len()), second.head_at(place))
}

/// Whether an entry is greater than this.
fn has_greater(entries: &[u8], most: usize) -> bool
    ensures { result ≡ list_any (nat_lt most) entries.now }
{
    entries.iter().any(|entry| usize::from(*entry) > most)
}

/// Whether a matched place is removed in one of the two rules.
#[tactic(auto, using(crate::proofs::Touching::touches_by_parts))]
fn matches_removed(first: &Rule, second: &Rule, matching: &[u8]) -> bool
    requires { length matching.now ≡ length (heads_of first.now) }
    ensures { result ≡ matches_removed (length first.now.kept.items) (length second.now.kept.items) matching.now }
{
    let (kept, removed) = matching.split_at(first.kept.len());
    has_greater(kept, second.kept.len()) || has_greater(removed, 0)
}

/// Adds the overlaps of two rules that begin with the entries of `begun`, in lexicographic order.
fn add_overlaps(
    first: &Rule,
    second: &Rule,
    begun: &Overlap,
    found: &mut Vec<Overlap>,
) -> Result<(), AllocError>
    requires { length begun.now.matching.items ≤ length (heads_of first.now) }
    ensures { OnOk result (found.new.items ≡ found.old.items ++
        overlaps_behind first.now second.now
        (drop (length begun.now.matching.items) (heads_of first.now)) begun.now) }
{
    if begun.matching.len() == first.places() {
        if matches_removed(first, second, &begun.matching) {
            found.push(begun.copy())?;
        }
        return Ok(());
    }
    let entries = second.places() as u8 + 1;
    for entry in 0..entries {
        if may_follow(first, second, &begun.matching, entry) {
            add_overlaps(first, second, &begun.with(entry), found)?;
        }
    }
    Ok(())
}

/// Adds the overlaps of a rule with its own copy and with each rule after it.
fn add_overlaps_of(rules: &[Rule], place: usize, found: &mut Vec<Overlap>) -> Result<(), AllocError>
    requires there { place < length rules.now }
    requires few { length rules.now ≤ MAX_RULES }
    ensures { OnOk result (found.new.items ≡ found.old.items ++ overlaps_of_rule rules.now place) }
{
    for other in place..rules.len() {
        let begun = Overlap {
            first: place as u32 + 1,
            second: other as u32 + 1,
            matching: ArrayVec::new(),
        };
        add_overlaps(&rules[place], &rules[other], &begun, found)?;
    }
    Ok(())
}

/// The overlaps whose first rule stands at one of these places, counted from 0. They are ordered by first rule, second
/// rule and matching. A place where no rule stands has none.
pub fn overlaps_of(
    alloc: Global,
    weighed: &Weighed,
    places: Range<usize>,
) -> Result<Vec<Overlap>, AllocError>
    ensures overlaps { IfOk result (λ os.
        AreOverlapsBetween (rules_of (program_of weighed.now)) places.start places.end os.items) }
    // each head of the one rule has an entry: none, or a place of the other
    ensures few { IfOk result (λ os.
        length os.items ≤ (places.end - places.start) * (MAX_RULES * (MAX_HEADS + 1) ^ MAX_HEADS)) }
{
    let rules = weighed.program().rules();
    let end = places.end.min(rules.len());
    let mut found = Vec::new(alloc);
    for place in places.start..end {
        add_overlaps_of(rules, place, &mut found)?;
    }
    Ok(found)
}

/// All overlaps of the program's rules: every way in which heads of a rule match heads of a later rule, or of the
/// rule's own renamed copy, with at least one matched head that is removed. They are ordered by first rule, second rule
/// and matching.
pub fn overlaps(alloc: Global, weighed: &Weighed) -> Result<Vec<Overlap>, AllocError>
    ensures overlaps { IfOk result (λ os. AreOverlaps (rules_of (program_of weighed.now)) os.items) }
    ensures few { IfOk result (λ os. length os.items ≤ MAX_RULES * MAX_RULES * (MAX_HEADS + 1) ^ MAX_HEADS) }
{
    let rules = weighed.program().rules().len();
    overlaps_of(alloc, weighed, 0..rules)
}
