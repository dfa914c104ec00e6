//! Resting a pool under a program that lowers.
ghost use Rattle.std.specs.Prelude.{◌≡◌, ◌<◌, ◌^◌, ◌↔◌, IfOk, IfErr, IsTrue, OnOk};
ghost use Rattle.chr_base.specs.Rules.{Step};
ghost use Rattle.chr_base.specs.Programs.{rules_of};
ghost use Rattle.chr_base.specs.Rewriting.{IsAtRest, Runs};
ghost use Rattle.chr_weights.specs.WeighedPrograms.{program_of};
ghost use Rattle.chr_weights.specs.Weights.{store_rank};
ghost use Rattle.chr_rewrite.specs.Pools.{TookSteps};

use crate::pool::Pool;
pub use chr_columns::columns::Stopped;
use chr_weights::Weighed;

/// Takes steps of the program until the pool is at rest, and tells how many. A number of 2^64 or more is told as the
/// greatest u64; where the store's rank fits 64 bits, as that of a million atoms does (`ranks_are_bounded`), the number
/// is exact. A pool at rest stays as it is.
///
/// # Errors
///
/// Where memory is refused, the steps taken so far stand, and [`Stopped`] has their number, at most the greatest u64.
/// The pool may then be at rest already: [`at_rest`] tells it without memory.
pub fn rest<P: Pool>(weighed: &Weighed, pool: &mut P) -> Result<u64, Stopped>
    ensures ok { IfOk result (λ n. TookSteps (program_of weighed.now) n (P.contents pool.old) (P.contents pool.new)) }
    ensures exact { store_rank (program_of weighed.now) (P.contents pool.old) < 2 ^ 64 →
        IfOk result (λ n.
        Runs (Step (rules_of (program_of weighed.now))) n (P.contents pool.old) (P.contents pool.new)) }
    ensures rests { OnOk result (IsAtRest (Step (rules_of (program_of weighed.now))) (P.contents pool.new)) }
    ensures resting { IsAtRest (Step (rules_of (program_of weighed.now))) (P.contents pool.old) →
        (P.contents pool.new ≡ P.contents pool.old)
        × IfOk result (λ n. n ≡ 0) × IfErr result (λ e. e.steps ≡ 0) }
    ensures stopped { IfErr result (λ e.
        TookSteps (program_of weighed.now) e.steps (P.contents pool.old) (P.contents pool.new)) }
{
    let rules = weighed.program().rules();
    let mut steps: u64 = 0;
    loop {
        match pool.advance(rules, u64::MAX) {
            Ok(more) => {
                steps = steps.saturating_add(more);
                if more < u64::MAX {
                    return Ok(steps);
                }
            }
            Err(stopped) => {
                let steps = steps.saturating_add(stopped.steps);
                return Err(Stopped { steps });
            }
        }
    }
}

/// Whether no rule of the program has a step in the pool. It takes no memory.
pub fn at_rest<P: Pool>(weighed: &Weighed, pool: &P) -> bool
    ensures { IsTrue result ↔ IsAtRest (Step (rules_of (program_of weighed.now))) (P.contents pool.now) }
{
    for rule in weighed.program().rules() {
        if pool.find(rule).is_some() {
            return false;
        }
    }
    true
}
