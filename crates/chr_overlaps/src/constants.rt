//! The constants of rules.
ghost use Rattle.std.specs.Prelude.{◌≡◌, ◌<◌, ◌≤◌, ◌<ℤ◌, ◌∷◌, [], ℕ, IfNone, IfSome, IfOk, OnOk, get_or, length};
ghost use Rattle.chr_base.specs.declared.term.Term.TheVariants.{Constant};
ghost use Rattle.chr_base.specs.RuleTests.{terms_of};
ghost use Rattle.chr_types.specs.OrderTypes.{In, AreValues};
ghost use Rattle.chr_confluence.specs.Constants.{AreConstants, guard_terms, rule_terms};
ghost use Rattle.chr_overlaps.specs.working.Gathering.{Gathers};

use chr_base::rule::Rule;
use chr_base::term::{Comparison, Pattern, Term};
use std::alloc::{AllocError, Global};

/// Where a constant belongs among rising ones: None where it is one of them.
fn gap_for(found: &[i64], constant: i64) -> Option<usize>
    ensures there { IfNone result (In constant found.now) }
    ensures within { IfSome result (λ i. i ≤ length found.now) }
    ensures before { IfSome result (λ i. (k : ℕ) → k < i → get_or found.now k constant <ℤ constant) }
    ensures after { IfSome result (λ i. i < length found.now → constant <ℤ get_or found.now i constant) }
{
    for (i, other) in found.iter().enumerate() {
        if constant <= *other {
            return if constant < *other { Some(i) } else { None };
        }
    }
    Some(found.len())
}

/// Adds a constant to rising ones, at its place, where it isn't one of them yet.
pub fn add_constant(found: &mut Vec<i64>, constant: i64) -> Result<(), AllocError>
    ensures { OnOk result (Gathers (Constant constant ∷ []) found.old.items found.new.items) }
{
    if let Some(i) = gap_for(found, constant) {
        found.insert(i, constant)?;
    }
    Ok(())
}

/// Adds the constants among these terms.
fn add_terms(found: &mut Vec<i64>, terms: &[Term]) -> Result<(), AllocError>
    ensures { OnOk result (Gathers terms.now found.old.items found.new.items) }
{
    for term in terms {
        if let Term::Constant(constant) = term {
            add_constant(found, *constant)?;
        }
    }
    Ok(())
}

/// Adds the constants of these patterns.
fn add_patterns(found: &mut Vec<i64>, patterns: &[Pattern]) -> Result<(), AllocError>
    ensures { OnOk result (Gathers (terms_of patterns.now) found.old.items found.new.items) }
{
    for pattern in patterns {
        add_terms(found, &pattern.args)?;
    }
    Ok(())
}

/// Adds the constants of a guard.
fn add_guard(found: &mut Vec<i64>, guard: &[Comparison]) -> Result<(), AllocError>
    ensures { OnOk result (Gathers (guard_terms guard.now) found.old.items found.new.items) }
{
    for comparison in guard {
        add_terms(found, &[comparison.left, comparison.right])?;
    }
    Ok(())
}

/// Adds the constants of a rule.
fn add_rule(found: &mut Vec<i64>, rule: &Rule) -> Result<(), AllocError>
    ensures { OnOk result (Gathers (rule_terms rule.now) found.old.items found.new.items) }
{
    add_patterns(found, &rule.kept)?;
    add_patterns(found, &rule.removed)?;
    add_guard(found, &rule.guard)?;
    add_patterns(found, &rule.body)?;
    Ok(())
}

/// The constants of all heads, guards and bodies, each once, rising.
pub fn constants(alloc: Global, rules: &[Rule]) -> Result<Vec<i64>, AllocError>
    ensures constants { IfOk result (λ found. AreConstants rules.now found.items) }
    ensures values { IfOk result (λ found. AreValues found.items) }
{
    let mut found = Vec::new(alloc);
    for rule in rules {
        add_rule(&mut found, rule)?;
    }
    Ok(found)
}
