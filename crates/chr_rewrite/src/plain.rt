//! The plain computation of a store, which takes the least step at each store.
ghost use Rattle.std.specs.Prelude.{◌≡◌, ◌<◌, ◌^◌, List, IfOk, IfSome, IfNone, OnOk, length};
ghost use Rattle.chr_base.specs.declared.derivation.Step.{Step as StepValue};
ghost use Rattle.chr_base.specs.FinBag.{IsWithin, ◌⊕◌};
ghost use Rattle.chr_base.specs.Stores.{Store, store_of};
ghost use Rattle.chr_base.specs.Rules.{Step as StepOf, HasInstance, StepOn};
ghost use Rattle.chr_base.specs.Programs.{rules_of};
ghost use Rattle.chr_base.specs.Rewriting.{IsAtRest};
ghost use Rattle.chr_weights.specs.WeighedPrograms.{program_of};
ghost use Rattle.chr_rewrite.specs.Derivations.{LeadsTo, IsLeastStep, IsPlainComputation};

use crate::choose::find_instance;
use crate::edits::copies_of;
use chr_base::atom::Atom;
use chr_base::bag::Bag;
use chr_base::derivation::{Derivation, Step};
use chr_base::rule::Rule;
use chr_weights::Weighed;
use std::alloc::{AllocError, Global};

/// Adds copies of these atoms: all of them, or none where memory is refused.
pub(crate) fn add_all(alloc: Global, bag: &mut Bag, atoms: &[Atom]) -> Result<(), AllocError>
    ensures { OnOk result (bag.new ≡ bag.old ⊕ store_of atoms.now) }
{
    let added = Bag::of(copies_of(alloc, atoms)?)?;
    bag.union(&added)
}

/// One step by the instance with these heads. Where memory is refused, the bag is lost.
fn fire(alloc: Global, rule: &Rule, heads: &[Atom], bag: &mut Bag) -> Result<(), AllocError>
    requires instance { HasInstance rule.now heads.now }
    requires there { IsWithin (store_of heads.now) bag.old }
    ensures { OnOk result (StepOn rule.now heads.now bag.old bag.new) }
{
    let (_, removed) = heads.split_at(rule.kept.len());
    bag.remove_all(removed);
    add_all(alloc, bag, &rule.body_of(heads))
}

/// The bag after one step by the instance with these heads.
pub fn fired(alloc: Global, rule: &Rule, heads: &[Atom], bag: &Bag) -> Result<Bag, AllocError>
    requires instance { HasInstance rule.now heads.now }
    requires there { IsWithin (store_of heads.now) bag.now }
    ensures { IfOk result (StepOn rule.now heads.now bag.now) }
{
    let mut after = bag.copy(alloc)?;
    fire(alloc, rule, heads, &mut after)?;
    Ok(after)
}

/// The least step at the bag, where some rule has one.
fn least_step(rules: &[Rule], bag: &Bag) -> Option<Step>
    requires { length rules.now < 2 ^ 32 }
    ensures least { IfSome result (IsLeastStep rules.now bag.now) }
    ensures none { IfNone result (IsAtRest (StepOf rules.now) bag.now) }
{
    for (i, rule) in rules.iter().enumerate() {
        if let Some(heads) = find_instance(rule, bag.atoms()) {
            return Some(Step {
                rule: i as u32 + 1,
                heads,
            });
        }
    }
    None
}

/// Takes the least step, where there is one. Where memory is refused, the bag is lost.
fn take_least(alloc: Global, rules: &[Rule], bag: &mut Bag) -> Result<Option<Step>, AllocError>
    requires { length rules.now < 2 ^ 32 }
    ensures least { IfOk result (λ found. IfSome found (IsLeastStep rules.now bag.old)) }
    ensures taken { IfOk result (λ found. IfSome found (λ step. LeadsTo rules.now step bag.old bag.new)) }
    ensures rests { IfOk result (λ found. IfNone found (IsAtRest (StepOf rules.now) bag.old)) }
    ensures same { IfOk result (λ found. IfNone found (bag.new ≡ bag.old)) }
{
    let Some(step) = least_step(rules, bag) else {
        return Ok(None);
    };
    fire(alloc, &rules[step.rule as usize - 1], &step.heads, bag)?;
    Ok(Some(step))
}

/// The plain derivation of the bag: at each store the step of the least rule that has one, and of its instances the one
/// whose heads come first, compared place by place. It ends at rest.
pub fn plain_rest(alloc: Global, weighed: &Weighed, bag: &Bag) -> Result<Derivation, AllocError>
    ensures start { IfOk result (λ derivation. derivation.start ≡ bag.now) }
    ensures plain { IfOk result (λ derivation. (t : Store) ×
        IsPlainComputation (rules_of (program_of weighed.now)) derivation.steps.items bag.now t) }
{
    let rules = weighed.program().rules();
    let start = bag.copy(alloc)?;
    let mut now = bag.copy(alloc)?;
    let mut steps = Vec::new(alloc);
    while let Some(step) = take_least(alloc, rules, &mut now)? {
        steps.push(step)?;
    }
    Ok(Derivation { start, steps })
}

/// The end of the plain derivation of the bag. The steps are not kept.
pub fn plain_end(alloc: Global, weighed: &Weighed, bag: &Bag) -> Result<Bag, AllocError>
    ensures { IfOk result (λ end. (steps : List StepValue) ×
        IsPlainComputation (rules_of (program_of weighed.now)) steps bag.now end) }
{
    let rules = weighed.program().rules();
    let mut now = bag.copy(alloc)?;
    while take_least(alloc, rules, &mut now)?.is_some() {}
    Ok(now)
}
