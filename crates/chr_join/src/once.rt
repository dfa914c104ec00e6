//! What the verdict on rules is worth. Nothing here computes: the contract is the law.
ghost use Rattle.chr_join.specs.Once.{AcceptedAreConfluent, AcceptedOnce, NeverBoth, RefusedAreNotConfluent};
ghost use Rattle.chr_join.specs.Once.{RefusedOnce, VerdictsExist};
ghost use Rattle.chr_join.specs.working.Counting.{JointCasesJoin};

use chr_confluence::laws::peak;
use chr_confluence::listing::{listed_cases, listed_confluence};
use chr_confluence::sorted_laws::{sorted_cases, sorted_confluence};
use chr_sorting::laws::combinations;

/// There is a verdict on each program that lowers: it is accepted, or there is a first cause for which it is refused, a
/// case that fails or an overlap of more than 50,000 order types.
pub fn verdicts_exist()
    ensures { VerdictsExist }
{}

/// The verdict on rules is determined, by each coverage. Accepted rules have one number of cases, and are refused for
/// want of memory alone. Rules that are refused for another cause have one such cause: the same overlap, and for a case
/// that fails the same two derivations with the same ends.
pub fn verdict_is_one()
    ensures accepted { AcceptedOnce }
    ensures refused { RefusedOnce }
    ensures either { NeverBoth }
{}

/// Rules of which no case fails, joint or sorted, and which lower a weight, are confluent (after Abdennadher, Frühwirth
/// and Meuss 1999).
pub fn accepted_are_confluent()
    ensures { AcceptedAreConfluent }
{
    peak();
    listed_cases();
    listed_confluence();
    combinations();
    sorted_cases();
    sorted_confluence();
}

/// Rules of which a case fails, joint or sorted, are not confluent.
pub fn refused_are_not_confluent()
    ensures { RefusedAreNotConfluent }
{
    peak();
    listed_cases();
    listed_confluence();
    combinations();
    sorted_cases();
    sorted_confluence();
}

/// Joint cases of confluent rules that lower a weight are joinable.
pub(crate) fn joint_cases_join()
    ensures { JointCasesJoin }
{
    peak();
    listed_cases();
    listed_confluence();
    sorted_cases();
}
