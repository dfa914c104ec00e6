//! The heads of two rules, made one at matched places with what the `=:=` of both guards make equal.
ghost use Rattle.std.specs.Prelude.{◌≡◌, if◌then◌else◌, ◌+◌, ◌<◌, IfNone, IfSome, Some, None, length, map};
ghost use Rattle.chr_base.specs.Rules.{heads_of};
ghost use Rattle.chr_confluence.specs.Unifiers.{IsMostGeneralUnifier, HasNoUnifier};
ghost use Rattle.chr_confluence.specs.Overlaps.{SameSymbols, variables_of};
ghost use Rattle.chr_confluence.specs.working.Solving.{solve};
ghost use Rattle.chr_confluence.specs.SortedCases.{is_equation, guard_equations, equation_apart, all_equations};
ghost use Rattle.chr_overlaps.specs.working.Tables.{class_in};
ghost use Rattle.chr_overlaps.specs.working.Unifiers.{classes_of, IsUnified};

use crate::classes::{Classes, renamed_apart};
use crate::numbered::variables;
use crate::unify::{Unified, join_heads, unified_by};
use chr_base::rule::Rule;
use chr_base::term::Cmp;

/// Whether the comparison makes its sides equal.
fn is_equation(cmp: Cmp) -> bool
    ensures { result ≡ is_equation cmp }
{
    matches!(cmp, Cmp::Equal)
}

/// Makes both sides of each `=:=` of a rule's guard equal, where its variables are renamed apart. False where two
/// constants would be one.
fn join_guard(classes: &mut Classes, rule: &Rule, shift: u8) -> bool
    requires { shift + variables_of rule.now < length classes.old.terms.items }
    ensures classes { (if result then Some (class_in classes.new.terms.items) else None) ≡
        solve (class_in classes.old.terms.items)
        (map (equation_apart shift) (guard_equations rule.now.guard.items)) }
    ensures len { length classes.new.terms.items ≡ length classes.old.terms.items }
{
    for comparison in rule.guard.as_slice() {
        let left = renamed_apart(shift, comparison.left);
        let right = renamed_apart(shift, comparison.right);
        if is_equation(comparison.cmp) && !classes.join(left, right) {
            return false;
        }
    }
    true
}

/// Makes the arguments at all matched places equal, and both sides of each `=:=` of both guards. False where two
/// constants would be one.
fn join_all(classes: &mut Classes, first: &Rule, second: &Rule, shift: u8, matching: &[u8]) -> bool
    requires symbols { SameSymbols (heads_of second.now) matching.now (heads_of first.now) }
    requires shift { shift ≡ variables_of first.now }
    requires table { length classes.old.terms.items ≡ variables_of first.now + variables_of second.now + 1 }
    ensures classes { (if result then Some (class_in classes.new.terms.items) else None) ≡
        solve (class_in classes.old.terms.items) (all_equations first.now second.now matching.now) }
    ensures len { length classes.new.terms.items ≡ length classes.old.terms.items }
{
    if !join_heads(classes, first, second, shift, matching) {
        return false;
    }
    if !join_guard(classes, first, 0) {
        return false;
    }
    join_guard(classes, second, shift)
}

/// Makes two rules' heads one at matched places, and both sides of each `=:=` of both guards equal. None where two
/// constants would be one.
pub(crate) fn sorted_unify(first: &Rule, second: &Rule, matching: &[u8]) -> Option<Unified>
    requires { SameSymbols (heads_of second.now) matching.now (heads_of first.now) }
    ensures none { IfNone result (HasNoUnifier (all_equations first.now second.now matching.now)) }
    ensures solves { IfSome result (λ u.
        IsMostGeneralUnifier (classes_of u) (all_equations first.now second.now matching.now)) }
    ensures unified { IfSome result (λ u. IsUnified first.now second.now u) }
{
    let shift = variables(first);
    let mut classes = Classes::identity(shift + variables(second));
    if !join_all(&mut classes, first, second, shift, matching) {
        return None;
    }
    Some(unified_by(classes, first, second, shift))
}
