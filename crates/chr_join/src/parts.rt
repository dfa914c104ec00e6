//! Parts of a store are rewritten by themselves, in a pool of columns.
ghost use Rattle.std.specs.Prelude.{◌≡◌, ℕ, IfOk, Err};
ghost use Rattle.chr_base.specs.Rules.{Step as RuleStep};
ghost use Rattle.chr_base.specs.Rewriting.{IsNormalForm};
ghost use Rattle.chr_weights.specs.WeighedPrograms.{rules_in};
ghost use Rattle.chr_rewrite.specs.Derivations.{IsDerivation, IsFirstInapplicable};
ghost use Rattle.chr_rewrite.specs.declared.replay.ReplayFault.TheVariants.{NotThere as IsNotThere};

use chr_base::bag::Bag;
use chr_base::derivation::Step;
use chr_columns::columns::Columns;
use chr_rewrite::replay::{ReplayFault, take_steps};
use chr_rewrite::resting::rest;
use chr_weights::Weighed;
use std::alloc::{AllocError, Global};

/// The pool of a part's atoms, whose keys are hashed under the seed.
fn pool_of(alloc: Global, seed: u64, weighed: &Weighed, part: &Bag) -> Result<Columns, AllocError>
    ensures { IfOk result (λ pool. pool ≡ part.now) }
{
    let mut pool = Columns::seeded(alloc, seed, weighed.program().rules())?;
    pool.insert(part.atoms())?;
    Ok(pool)
}

/// The part at rest.
pub(crate) fn rested(
    alloc: Global,
    seed: u64,
    weighed: &Weighed,
    part: &Bag,
) -> Result<Bag, AllocError>
    ensures { IfOk result (IsNormalForm (RuleStep (rules_in weighed.now)) part.now) }
{
    let mut pool = pool_of(alloc, seed, weighed, part)?;
    pool.arrange();
    match rest(weighed, &mut pool) {
        Ok(_) => pool.bag(alloc),
        Err(_) => Err(AllocError),
    }
}

/// The part after these steps, taken one after the other.
pub(crate) fn stepped(
    alloc: Global,
    seed: u64,
    weighed: &Weighed,
    part: &Bag,
    steps: &[Step],
) -> Result<Bag, ReplayFault>
    ensures ok { IfOk result (IsDerivation (rules_in weighed.now) steps.now part.now) }
    ensures not_there { (n : ℕ) → result ≡ Err (IsNotThere n) →
        IsFirstInapplicable (rules_in weighed.now) steps.now part.now n }
{
    let mut pool = pool_of(alloc, seed, weighed, part)?;
    take_steps(weighed, &mut pool, steps)?;
    Ok(pool.bag(alloc)?)
}
