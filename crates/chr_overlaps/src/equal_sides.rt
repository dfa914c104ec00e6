//! Overlaps of which both steps of each case lead to one store, whatever its values are.
ghost use Rattle.std.specs.Prelude.{◌≡◌, ◌+◌, ◌<◌, ◌≤◌, ◌++◌, IfSome, Some, length, map, slice_get, true};
ghost use Rattle.std.specs.Bool.{OnTrue};
ghost use Rattle.chr_base.specs.declared.rule.Rule.{Rule as RuleValue};
ghost use Rattle.chr_base.specs.declared.term.Pattern.{Pattern as PatternValue};
ghost use Rattle.chr_base.specs.Rules.{Valuation, atoms_at};
ghost use Rattle.chr_base.specs.Stores.{store_of};
ghost use Rattle.chr_types.specs.OrderTypes.{In};
ghost use Rattle.chr_weights.specs.WeighedPrograms.{rules_in};
ghost use Rattle.chr_confluence.specs.Overlaps.{renamed_apart, variables_of};
ghost use Rattle.chr_overlaps.specs.declared.equal_sides.TheConstants.{MAX_CHANGES};
ghost use Rattle.chr_overlaps.specs.EqualSides.{HaveEqualSides};
ghost use Rattle.chr_overlaps.specs.OverlapLists.{IsOverlapOf};
ghost use Rattle.chr_overlaps.specs.UnifiedOverlaps.{AreRulesOf, HasUnified};
ghost use Rattle.chr_overlaps.specs.working.Tables.{class_in, class_pattern, are_below};
ghost use Rattle.chr_overlaps.specs.working.Unifiers.{classes_of};

use crate::cases::rule_of;
use crate::classes::Classes;
use crate::numbered::variables;
use crate::overlap::Overlap;
use crate::unify::Unified;
use arrayvec::ArrayVec;
use chr_base::limits::{MAX_BODY, MAX_HEADS};
use chr_base::rule::Rule;
use chr_base::term::Pattern;
use chr_weights::Weighed;

/// The greatest number of atoms that a rule puts in and another takes away.
const MAX_CHANGES: usize = MAX_BODY + MAX_HEADS;

/// Adds these patterns of a rule with each term's class, where its variables are renamed apart.
fn push_classes(
    changes: &mut ArrayVec<Pattern, MAX_CHANGES>,
    classes: &Classes,
    shift: u8,
    patterns: &[Pattern],
)
    requires below { (p : PatternValue) → In p patterns.now →
        are_below (length classes.now.terms.items) (map (renamed_apart shift) p.args.items) ≡ true }
    requires room { length changes.old.items + length patterns.now ≤ MAX_CHANGES }
    ensures { changes.new.items ≡ changes.old.items ++
        map (class_pattern (class_in classes.now.terms.items) shift) patterns.now }
{
    for pattern in patterns {
        changes.push(classes.class_pattern(shift, pattern));
    }
}

/// What a rule puts in and another takes away, with each term's class.
fn changes(
    classes: &Classes,
    puts: &Rule,
    puts_shift: u8,
    takes: &Rule,
    takes_shift: u8,
) -> ArrayVec<Pattern, MAX_CHANGES>
    requires puts { puts_shift + variables_of puts.now < length classes.now.terms.items }
    requires takes { takes_shift + variables_of takes.now < length classes.now.terms.items }
    ensures { result.items ≡ map (class_pattern (class_in classes.now.terms.items) puts_shift) puts.now.body.items
        ++ map (class_pattern (class_in classes.now.terms.items) takes_shift) takes.now.removed.items }
{
    let mut changes = ArrayVec::new();
    push_classes(&mut changes, classes, puts_shift, &puts.body);
    push_classes(&mut changes, classes, takes_shift, &takes.removed);
    changes
}

/// The place of a pattern among others.
fn place_of(pattern: &Pattern, patterns: &[Pattern]) -> Option<usize>
    ensures { IfSome result (λ i. slice_get patterns.now i ≡ Some pattern.now) }
{
    for (place, other) in patterns.iter().enumerate() {
        if other == pattern {
            return Some(place);
        }
    }
    None
}

/// Whether these are the same patterns, each as often.
fn are_same(left: &[Pattern], right: &mut ArrayVec<Pattern, MAX_CHANGES>) -> bool
    ensures { OnTrue result ((v : Valuation) →
        store_of (atoms_at v left.now) ≡ store_of (atoms_at v right.old.items)) }
{
    let [pattern, left @ ..] = left else {
        return right.is_empty();
    };
    match place_of(pattern, right) {
        Some(place) => {
            right.remove(place);
            are_same(left, right)
        }
        None => false,
    }
}

/// Whether both steps of each case lead to one store, by their patterns alone: what the first rule puts in and the
/// second takes away is what the second puts in and the first takes away. False may also be answered where they do.
pub fn has_equal_sides(weighed: &Weighed, overlap: &Overlap, unified: &Unified) -> bool
    requires overlap { IsOverlapOf (rules_in weighed.now) overlap.now }
    requires unified { HasUnified (rules_in weighed.now) overlap.now unified.now }
    ensures { (r1 r2 : RuleValue) → AreRulesOf (rules_in weighed.now) overlap.now r1 r2 →
        OnTrue result (HaveEqualSides r1 r2 (classes_of unified.now)) }
{
    let first = rule_of(weighed, overlap.first);
    let second = rule_of(weighed, overlap.second);
    let shift = variables(first);
    let left = changes(&unified.classes, first, 0, second, shift);
    let mut right = changes(&unified.classes, second, shift, first, 0);
    are_same(&left, &mut right)
}
