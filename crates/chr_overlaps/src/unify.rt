//! The heads of two rules, made one at matched places.
ghost use Rattle.std.specs.List.{zip};
ghost use Rattle.std.specs.Prelude.{◌≡◌, if◌then◌else◌, ◌+◌, ◌-◌, ◌<◌, ◌≤◌, ◌++◌, IfNone, IfSome, Some, None, get_or};
ghost use Rattle.std.specs.Prelude.{length, map};
ghost use Rattle.std.specs.Bool.{Decides};
ghost use Rattle.chr_base.specs.Rules.{guard_holds, heads_of, no_pattern};
ghost use Rattle.chr_confluence.specs.Representatives.{assignment};
ghost use Rattle.chr_confluence.specs.Unifiers.{IsMostGeneralUnifier, HasNoUnifier};
ghost use Rattle.chr_confluence.specs.Overlaps.{SameSymbols, variables_of, renamed_apart, equations, equations_of};
ghost use Rattle.chr_confluence.specs.working.Solving.{solve};
ghost use Rattle.chr_overlaps.specs.declared.unify.TheConstants.{MAX_JOINT_COMPARISONS};
ghost use Rattle.chr_overlaps.specs.working.Tables.{class_in, class_pattern, class_comparison};
ghost use Rattle.chr_overlaps.specs.working.Unifiers.{classes_of, IsUnified};

use crate::classes::{Classes, MAX_JOINT_VARIABLES};
use crate::instances::{all_hold, all_may_hold};
use crate::numbered::variables;
use arrayvec::ArrayVec;
use chr_base::limits::{MAX_COMPARISONS, MAX_HEADS};
use chr_base::rule::Rule;
use chr_base::term::{Comparison, Pattern};
use chr_types::Beginnings;

/// The greatest number of comparisons of two guards.
pub(crate) const MAX_JOINT_COMPARISONS: usize = 2 * MAX_COMPARISONS;

/// The heads and guards of two rules under the most general unifier of matched places: each term is a constant, or the
/// first variable of its class. The variables of the second rule are numbered on from those of the first.
#[derive(Drop)]
pub struct Unified {
    /// The classes of the variables of both rules.
    pub(crate) classes: Classes,
    /// The heads of the first rule.
    pub(crate) first: ArrayVec<Pattern, MAX_HEADS>,
    /// The heads of the second rule.
    pub(crate) second: ArrayVec<Pattern, MAX_HEADS>,
    /// The comparisons of both guards, those of the first rule first.
    pub(crate) guards: ArrayVec<Comparison, MAX_JOINT_COMPARISONS>,
    /// The classes that are bound to no constant, each by its first variable, rising.
    pub(crate) free: ArrayVec<u8, MAX_JOINT_VARIABLES>,
}

impl Unified {
    /// The classes that are bound to no constant, each by its first variable, rising.
    pub fn free(&self) -> &[u8]
        ensures { result.now ≡ self.now.free.items }
    {
        &self.free
    }

    /// The number of classes that are bound to no constant, at most 48.
    pub fn free_classes(&self) -> usize
        ensures { result ≡ length self.now.free.items }
    {
        self.free.len()
    }

    /// Whether both guards hold at these values of the free classes, in their order.
    pub fn guards_hold(&self, values: &[i64]) -> bool
        ensures { result ≡ guard_holds (assignment self.now.free.items values.now) self.now.guards.items }
    {
        all_hold(&self.free, values, &self.guards)
    }

    /// Whether the guards of both are the same comparisons of the same free classes, so that they hold at the same
    /// values.
    pub fn has_guards_of(&self, other: &Unified) -> bool
        ensures { Decides result ((self.now.free.items ≡ other.now.free.items)
            × (self.now.guards.items ≡ other.now.guards.items)) }
    {
        let classes = self.free.as_slice() == other.free.as_slice();
        let comparisons = self.guards.as_slice() == other.guards.as_slice();
        classes & comparisons
    }
}

impl Beginnings for Unified {
    ghost use Rattle.chr_overlaps.specs.working.Beginnings.{all_may_hold};

    ghost admits = { λ u values. all_may_hold u.free.items u.guards.items values };

    /// Whether no comparison of either guard fails whose classes have values.
    fn goes_on(&self, values: &[i64]) -> bool {
        all_may_hold(&self.free, values, &self.guards)
    }
}

/// Makes the arguments at two matched places equal. False where two constants would be one.
fn join_at(
    classes: &mut Classes,
    first: &Rule,
    second: &Rule,
    shift: u8,
    place: usize,
    matched: usize,
) -> bool
    requires shift { shift ≡ variables_of first.now }
    requires table { length classes.old.terms.items ≡ variables_of first.now + variables_of second.now + 1 }
    requires place { place < length (heads_of first.now) }
    requires matched { matched < length (heads_of second.now) }
    ensures classes { (if result then Some (class_in classes.new.terms.items) else None) ≡
        solve (class_in classes.old.terms.items)
        (zip (get_or (heads_of first.now) place no_pattern).args.items
        (map (renamed_apart shift) (get_or (heads_of second.now) matched no_pattern).args.items)) }
    ensures len { length classes.new.terms.items ≡ length classes.old.terms.items }
{
    let left = first.head_at(place);
    let right = second.head_at(matched);
    classes.join_terms(&left.args, shift, &right.args)
}

/// Makes the arguments at all matched places equal. False where two constants would be one.
pub(crate) fn join_heads(
    classes: &mut Classes,
    first: &Rule,
    second: &Rule,
    shift: u8,
    matching: &[u8],
) -> bool
    requires symbols { SameSymbols (heads_of second.now) matching.now (heads_of first.now) }
    requires shift { shift ≡ variables_of first.now }
    requires table { length classes.old.terms.items ≡ variables_of first.now + variables_of second.now + 1 }
    ensures classes { (if result then Some (class_in classes.new.terms.items) else None) ≡
        solve (class_in classes.old.terms.items)
        (equations shift (heads_of second.now) matching.now (heads_of first.now)) }
    ensures len { length classes.new.terms.items ≡ length classes.old.terms.items }
{
    for (place, entry) in matching.iter().enumerate() {
        let entry = usize::from(*entry);
        if entry > 0 && !join_at(classes, first, second, shift, place, entry - 1) {
            return false;
        }
    }
    true
}

/// The heads of a rule with each term's class.
fn class_heads(classes: &Classes, rule: &Rule, shift: u8) -> ArrayVec<Pattern, MAX_HEADS>
    requires { shift + variables_of rule.now < length classes.now.terms.items }
    ensures { result.items ≡ map (class_pattern (class_in classes.now.terms.items) shift) (heads_of rule.now) }
{
    let mut heads = ArrayVec::new();
    for place in 0..rule.places() {
        heads.push(classes.class_pattern(shift, rule.head_at(place)));
    }
    heads
}

/// Adds the comparisons of a rule's guard with each term's class.
fn push_guard(
    guards: &mut ArrayVec<Comparison, MAX_JOINT_COMPARISONS>,
    classes: &Classes,
    rule: &Rule,
    shift: u8,
)
    requires table { shift + variables_of rule.now < length classes.now.terms.items }
    requires room { length guards.old.items + length rule.now.guard.items ≤ MAX_JOINT_COMPARISONS }
    ensures { guards.new.items ≡ guards.old.items ++
        map (class_comparison (class_in classes.now.terms.items) shift) rule.now.guard.items }
{
    for comparison in rule.guard.as_slice() {
        guards.push(classes.class_comparison(shift, comparison));
    }
}

/// The comparisons of both guards with each term's class.
fn class_guards(
    classes: &Classes,
    first: &Rule,
    second: &Rule,
    shift: u8,
) -> ArrayVec<Comparison, MAX_JOINT_COMPARISONS>
    requires shift { shift ≡ variables_of first.now }
    requires table { shift + variables_of second.now < length classes.now.terms.items }
    ensures { result.items ≡ map (class_comparison (class_in classes.now.terms.items) 0) first.now.guard.items
        ++ map (class_comparison (class_in classes.now.terms.items) shift) second.now.guard.items }
{
    let mut guards = ArrayVec::new();
    push_guard(&mut guards, classes, first, 0);
    push_guard(&mut guards, classes, second, shift);
    guards
}

/// The heads and guards of two rules in these classes.
pub(crate) fn unified_by(classes: Classes, first: &Rule, second: &Rule, shift: u8) -> Unified
    requires shift { shift ≡ variables_of first.now }
    requires table { length classes.terms.items ≡ variables_of first.now + variables_of second.now + 1 }
    ensures classes { result.classes ≡ classes }
    ensures unified { IsUnified first.now second.now result }
{
    Unified {
        first: class_heads(&classes, first, 0),
        second: class_heads(&classes, second, shift),
        guards: class_guards(&classes, first, second, shift),
        free: classes.free(),
        classes,
    }
}

/// Makes two rules' heads one at matched places. None where two constants would be one.
pub(crate) fn unify(first: &Rule, second: &Rule, matching: &[u8]) -> Option<Unified>
    requires { SameSymbols (heads_of second.now) matching.now (heads_of first.now) }
    ensures none { IfNone result (HasNoUnifier (equations_of first.now second.now matching.now)) }
    ensures solves { IfSome result (λ u.
        IsMostGeneralUnifier (classes_of u) (equations_of first.now second.now matching.now)) }
    ensures unified { IfSome result (λ u. IsUnified first.now second.now u) }
{
    let shift = variables(first);
    let mut classes = Classes::identity(shift + variables(second));
    if !join_heads(&mut classes, first, second, shift, matching) {
        return None;
    }
    Some(unified_by(classes, first, second, shift))
}
