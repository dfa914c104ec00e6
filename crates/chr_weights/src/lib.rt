//! Weights, and the programs in which each rule lowers them.
#![tactic(auto)]

ghost use Rattle.std.specs.Prelude.{◌≡◌, ◌^◌, ◌<◌, ◌↔◌, IfOk, IfErr, IsOk};
ghost use Rattle.chr_base.specs.Programs.{declarations, rules_of};
ghost use Rattle.chr_weights.specs.Weights.{store_weight, ProgramLowers, IsFirstNotLowered};
ghost use Rattle.chr_weights.specs.WeighedPrograms.{program_of};

use crate::sums::{atoms_weight, first_not_lowered};
use chr_base::bag::Bag;
use chr_base::program::Program;
use chr_base::weight::Weight;

pub mod laws;
mod sums;
mod weighed;

pub use weighed::Weighed;

/// The first rule whose removed heads do not weigh more than its body.
#[derive(Clone, Copy, Debug, PartialEq, Eq)]
pub struct NotLowered {
    /// Its number, from 1.
    pub rule: usize,
    /// The weight of its removed heads.
    pub before: Weight,
    /// The weight of its body.
    pub after: Weight,
}

/// Takes a program in which the removed heads of each rule weigh more than its body. Else it tells the first rule whose
/// removed heads do not, with the weights of its heads and its body. It takes no memory.
pub fn weigh(program: Program) -> Result<Weighed, NotLowered>
    ensures exact { IsOk result ↔ ProgramLowers program }
    ensures ok { IfOk result (λ w. program_of w ≡ program) }
    ensures first { IfErr result (λ e.
        IsFirstNotLowered (declarations program) (rules_of program) e.rule e.before e.after) }
{
    match first_not_lowered(&program) {
        Some(fault) => Err(fault),
        None => Ok(Weighed::new(program)),
    }
}

/// The weight of a bag. Each of its two sums has to fit 64 bits. It takes no memory.
pub fn weight(weighed: &Weighed, bag: &Bag) -> Weight
    requires first { (store_weight (program_of weighed.now) bag.now).first < 2 ^ 64 }
    requires second { (store_weight (program_of weighed.now) bag.now).second < 2 ^ 64 }
    ensures { result ≡ store_weight (program_of weighed.now) bag.now }
{
    atoms_weight(weighed.program(), bag.atoms())
}
