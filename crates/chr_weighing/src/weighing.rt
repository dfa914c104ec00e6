//! Weights that are found, and rules that show that there are none.
ghost use Rattle.std.specs.Prelude.{IfSome};
ghost use Rattle.chr_weighing.specs.Weighings.{IsWeighing};

use crate::cycle::{Cycle, is_cycle};
use crate::reweighing::weighed_with;
use crate::search::{Solution, common_multiple, solve, weights_of};
use crate::tableau::Share;
use chr_base::program::Program;
use chr_weights::Weighed;
use std::alloc::Global;

/// What is found of the weights that a program can have.
#[derive(Drop)]
pub enum Weighing {
    /// The program with weights under which each rule lowers.
    Weights(Weighed),
    /// Rules which no weights lower all.
    Cycle(Cycle),
    /// Neither was found.
    Unknown,
}

/// The program with weights of `times` times one more than each of these shares, where each rule then lowers.
fn weights_found(
    alloc: Global,
    program: &Program,
    shares: &[Share],
    times: i128,
    paired: bool,
) -> Option<Weighing>
    ensures { IfSome result (IsWeighing program.now) }
{
    let weights = weights_of(alloc, shares, times, paired)?;
    let weighed = weighed_with(alloc, program, &weights).ok()??;
    Some(Weighing::Weights(weighed))
}

/// The program with the first of the weights by these shares under which each rule lowers: the least ones, or multiples
/// of them, as single numbers or as pairs.
fn shares_found(alloc: Global, program: &Program, shares: &[Share]) -> Option<Weighing>
    ensures { IfSome result (IsWeighing program.now) }
{
    let multiple = common_multiple(shares)?;
    for paired in [false, true] {
        for times in [1, multiple] {
            let weighing = weights_found(alloc, program, shares, times, paired);
            if weighing.is_some() {
                return weighing;
            }
        }
    }
    None
}

/// The cycle in which each rule is applied its number of `times`, where that is one.
fn cycle_found(program: &Program, times: Vec<u64>) -> Option<Weighing>
    ensures { IfSome result (IsWeighing program.now) }
{
    if is_cycle(program, &times) {
        Some(Weighing::Cycle(Cycle { times }))
    } else {
        None
    }
}

fn weighing_found(alloc: Global, program: &Program) -> Option<Weighing>
    ensures { IfSome result (IsWeighing program.now) }
{
    match solve(alloc, program)? {
        Solution::Shares(shares) => shares_found(alloc, program, &shares),
        Solution::Times(times) => cycle_found(program, times),
    }
}

/// Looks for weights of all symbols under which each rule lowers, or for a cycle, which shows that there are none. It
/// finds nothing where the numbers become too great, after `MAX_SEARCH_STEPS` steps, or where memory runs out.
pub fn find_weights(alloc: Global, program: &Program) -> Weighing
    ensures { IsWeighing program.now result }
{
    match weighing_found(alloc, program) {
        Some(weighing) => weighing,
        None => Weighing::Unknown,
    }
}
