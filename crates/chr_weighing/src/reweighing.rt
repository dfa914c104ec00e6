//! A program with other weights.
ghost use Rattle.std.specs.Prelude.{IfOk, IfSome, IsTrue, ◌↔◌};
ghost use Rattle.chr_base.specs.Weights.{is_weight};
ghost use Rattle.chr_weights.specs.WeighedPrograms.{program_of};
ghost use Rattle.chr_weighing.specs.Reweighing.{IsReweighed};

use chr_base::atom::SymbolId;
use chr_base::limits::MAX_WEIGHT;
use chr_base::program::Program;
use chr_base::weight::{NO_WEIGHT, Weight};
use chr_weights::{Weighed, weigh};
use std::alloc::{AllocError, Global};

/// Whether a symbol may have this weight.
fn is_weight(weight: Weight) -> bool
    ensures { IsTrue result ↔ IsTrue (is_weight weight) }
{
    weight.first <= MAX_WEIGHT && weight.second <= MAX_WEIGHT && weight != NO_WEIGHT
}

/// Gives the symbol at a place another weight, where it may have it.
fn put_weight(program: &mut Program, place: usize, weight: Weight)
    ensures { IsReweighed program.old program.new }
{
    if place < program.symbols() && is_weight(weight) {
        if let Ok(symbol) = u16::try_from(place) {
            program.set_weight(SymbolId(symbol), weight);
        }
    }
}

/// The program with these weights of its symbols, in order.
fn with_weights(alloc: Global, program: &Program, weights: &[Weight]) -> Result<Program, AllocError>
    ensures { IfOk result (IsReweighed program.now) }
{
    let mut other = program.copy(alloc)?;
    for (place, weight) in weights.iter().enumerate() {
        put_weight(&mut other, place, *weight);
    }
    Ok(other)
}

/// The program with these weights of its symbols, where each rule then lowers.
pub(crate) fn weighed_with(
    alloc: Global,
    program: &Program,
    weights: &[Weight],
) -> Result<Option<Weighed>, AllocError>
    ensures { IfOk result (λ o. IfSome o (λ w. IsReweighed program.now (program_of w))) }
{
    let other = with_weights(alloc, program, weights)?;
    Ok(weigh(other).ok())
}
