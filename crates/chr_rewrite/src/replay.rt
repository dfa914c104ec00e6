//! Taking steps that are given, and replaying a derivation.
ghost use Rattle.std.specs.Prelude.{◌≡◌, ℕ, IfOk, Err, OnOk, OnErr};
ghost use Rattle.std.specs.Bool.{OnTrue, OnFalse};
ghost use Rattle.chr_base.specs.Stores.{Store};
ghost use Rattle.chr_base.specs.Rules.{Step as RuleStep};
ghost use Rattle.chr_base.specs.Programs.{rules_of};
ghost use Rattle.chr_base.specs.Rewriting.{Reaches};
ghost use Rattle.chr_weights.specs.WeighedPrograms.{program_of};
ghost use Rattle.chr_rewrite.specs.Derivations.{IsApplicable, LeadsTo, IsDerivation, IsFirstInapplicable};
ghost use Rattle.chr_rewrite.specs.declared.replay.ReplayFault.TheVariants.{NotThere as IsNotThere};

use crate::list::ListPool;
use crate::pool::Pool;
use chr_base::bag::Bag;
use chr_base::derivation::{Derivation, Step};
use chr_base::rule::Rule;
use chr_weights::Weighed;
use std::alloc::{AllocError, Global};

/// Why steps were not taken one after the other.
#[derive(Clone, Copy, Debug, PartialEq, Eq)]
pub enum ReplayFault {
    /// The step at this place, counted from 0, is the first that is no instance at its store.
    NotThere(usize),
    /// There is not enough memory.
    Memory,
}

impl From<AllocError> for ReplayFault {
    ghost use Rattle.chr_rewrite.specs.declared.replay.ReplayFault.TheVariants.{Memory};

    ghost from_gives = { λ _ e. e ≡ Memory };

    fn from(_error: AllocError) -> ReplayFault {
        ReplayFault::Memory
    }
}

/// Takes the step, where it is an instance in the pool. Where it is none, or where memory is refused, nothing changes.
pub fn take_step<P: Pool>(rules: &[Rule], pool: &mut P, step: &Step) -> Result<bool, AllocError>
    ensures taken { IfOk result (λ taken.
        OnTrue taken (LeadsTo rules.now step.now (P.contents pool.old) (P.contents pool.new))) }
    ensures none { IfOk result (λ taken. OnFalse taken (¬ IsApplicable rules.now (P.contents pool.old) step.now)) }
    ensures same { IfOk result (λ taken. OnFalse taken (P.contents pool.new ≡ P.contents pool.old)) }
    ensures err { OnErr result (P.contents pool.new ≡ P.contents pool.old) }
{
    if step.rule == 0 {
        return Ok(false);
    }
    let Some(rule) = rules.get(step.rule as usize - 1) else {
        return Ok(false);
    };
    if !rule.fires(&step.heads) || !pool.has(&step.heads) {
        return Ok(false);
    }
    pool.fire(rule, &step.heads)?;
    Ok(true)
}

/// Takes these steps of the program, one after the other. It ends at the first that is no instance in the pool then, or
/// for which memory is refused; the steps before it stand.
pub fn take_steps<P: Pool>(
    weighed: &Weighed,
    pool: &mut P,
    steps: &[Step],
) -> Result<(), ReplayFault>
    ensures ok { OnOk result (
        IsDerivation (rules_of (program_of weighed.now)) steps.now (P.contents pool.old) (P.contents pool.new)) }
    ensures not_there { (n : ℕ) → result ≡ Err (IsNotThere n) →
        IsFirstInapplicable (rules_of (program_of weighed.now)) steps.now (P.contents pool.old) n }
    ensures reached { Reaches (RuleStep (rules_of (program_of weighed.now)))
        (P.contents pool.old) (P.contents pool.new) }
{
    let rules = weighed.program().rules();
    for (i, step) in steps.iter().enumerate() {
        if !take_step(rules, pool, step)? {
            return Err(ReplayFault::NotThere(i));
        }
    }
    Ok(())
}

/// The end of the derivation, where each of its steps is an instance of its rule that is in the store before it.
///
/// # Errors
///
/// `NotThere` with the place of the first step that is no such instance; `Memory` where memory is refused.
pub fn replay(alloc: Global, weighed: &Weighed, derivation: &Derivation) -> Result<Bag, ReplayFault>
    ensures ok { IfOk result (
        IsDerivation (rules_of (program_of weighed.now)) derivation.now.steps.items derivation.now.start) }
    ensures not_there { (n : ℕ) → result ≡ Err (IsNotThere n) →
        IsFirstInapplicable (rules_of (program_of weighed.now)) derivation.now.steps.items derivation.now.start n }
    ensures no_end { (n : ℕ) → result ≡ Err (IsNotThere n) → (t : Store) →
        ¬ IsDerivation (rules_of (program_of weighed.now)) derivation.now.steps.items derivation.now.start t }
{
    let mut pool = ListPool::new(alloc);
    pool.insert(derivation.start.atoms())?;
    take_steps(weighed, &mut pool, &derivation.steps)?;
    Ok(pool.bag(alloc)?)
}
