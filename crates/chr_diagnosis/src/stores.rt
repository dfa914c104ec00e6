//! The stores of a derivation.
ghost use Rattle.std.specs.Prelude.{◌≡◌, ◌++◌, List, IfOk, OnOk};
ghost use Rattle.chr_base.specs.Stores.{Store};
ghost use Rattle.chr_rewrite.specs.Derivations.{IsApplicable, IsDerivation, LeadsTo};
ghost use Rattle.chr_weights.specs.WeighedPrograms.{rules_in};
ghost use Rattle.chr_diagnosis.specs.Diagnoses.{AreFirstStores, PassesThrough};

use crate::limits::MAX_TOLD_STEPS;
use chr_base::bag::Bag;
use chr_base::derivation::{Derivation, Step};
use chr_rewrite::plain::fired;
use chr_weights::Weighed;
use std::alloc::{AllocError, Global};

/// The store after a step.
fn after(alloc: Global, weighed: &Weighed, store: &Bag, step: &Step) -> Result<Bag, AllocError>
    requires { IsApplicable (rules_in weighed.now) store.now step.now }
    ensures { IfOk result (LeadsTo (rules_in weighed.now) step.now store.now) }
{
    let rule = &weighed.program().rules()[step.rule as usize - 1];
    fired(alloc, rule, &step.heads, store)
}

/// Adds the store after each of these steps.
fn add_stores(
    alloc: Global,
    weighed: &Weighed,
    store: &Bag,
    steps: &[Step],
    stores: &mut Vec<Bag>,
) -> Result<(), AllocError>
    requires { (end : Store) × IsDerivation (rules_in weighed.now) steps.now store.now end }
    ensures { OnOk result ((passed : List Store) × (stores.new.items ≡ stores.old.items ++ passed)
        × PassesThrough (rules_in weighed.now) steps.now store.now passed) }
{
    let [step, rest @ ..] = steps else {
        return Ok(());
    };
    let after = after(alloc, weighed, store, step)?;
    let next = after.copy(alloc)?;
    stores.push(after)?;
    add_stores(alloc, weighed, &next, rest, stores)
}

/// The stores after the first steps of a derivation, `MAX_TOLD_STEPS` at most.
pub(crate) fn first_stores(
    alloc: Global,
    weighed: &Weighed,
    derivation: &Derivation,
) -> Result<Vec<Bag>, AllocError>
    requires { (end : Store) × IsDerivation (rules_in weighed.now) derivation.now.steps.items derivation.now.start end }
    ensures { IfOk result (λ v. AreFirstStores (rules_in weighed.now) derivation.now v.items) }
{
    let told = MAX_TOLD_STEPS.min(derivation.steps.len());
    let mut stores = Vec::new(alloc);
    add_stores(
        alloc,
        weighed,
        &derivation.start,
        &derivation.steps[..told],
        &mut stores,
    )?;
    Ok(stores)
}
