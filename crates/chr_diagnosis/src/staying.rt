//! Whether a store stays as it is.
ghost use Rattle.std.specs.Prelude.{◌↔◌, IsTrue, IfOk};
ghost use Rattle.chr_base.specs.Rules.{Step};
ghost use Rattle.chr_base.specs.Rewriting.{IsAtRest};
ghost use Rattle.chr_weights.specs.WeighedPrograms.{rules_in};

use chr_base::bag::Bag;
use chr_rewrite::list::ListPool;
use chr_rewrite::pool::Pool;
use chr_rewrite::resting::at_rest;
use chr_weights::Weighed;
use std::alloc::{AllocError, Global};

/// Whether no rule of the program has a step in the store.
pub(crate) fn stays(alloc: Global, weighed: &Weighed, store: &Bag) -> Result<bool, AllocError>
    ensures { IfOk result (λ stays. IsTrue stays ↔ IsAtRest (Step (rules_in weighed.now)) store.now) }
{
    let mut pool = ListPool::new(alloc);
    pool.insert(store.atoms())?;
    Ok(at_rest(weighed, &pool))
}
