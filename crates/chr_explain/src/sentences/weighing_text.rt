//! Weights of all symbols, and rules that show that there are none, as they are told.

use crate::prose::Prose;
use crate::sentences::weight_text::push_weight_clause;
use chr_base::atom::SymbolId;
use chr_base::program::Program;
use chr_base::weight::DEFAULT_WEIGHT;
use chr_diagnosis::{NamedProgram, told_rule};
use chr_weighing::Cycle;
use std::alloc::Global;

/// Adds a line with the clause that gives the symbol its weight, where it isn't the default one.
fn push_declared(out: &mut Prose, program: &Program, symbol: SymbolId) {
    if program.symbols() <= usize::from(symbol.0) {
        return;
    }
    let weight = program.weight_of(symbol);
    if weight == DEFAULT_WEIGHT {
        return;
    }
    push_weight_clause(out, program, symbol, weight);
    out.push_str("\n")
}

/// Adds the weights of a program that lowers.
pub(crate) fn push_found(out: &mut Prose, program: &Program) {
    out.push_str(
        "With these weights in place of all that are declared each rule lowers the weight:\n",
    );
    for place in 0..program.symbols() {
        if let Ok(symbol) = u16::try_from(place) {
            push_declared(out, program, SymbolId(symbol));
        }
    }
}

/// Adds how often a rule is applied.
fn push_times(out: &mut Prose, times: u64) {
    if times == 1 {
        out.push_str("  once ")
    } else {
        out.push_number("  ", times, " times ")
    }
}

/// Adds a line with the rule of this number and how often it is applied.
fn push_applied(
    alloc: Global,
    out: &mut Prose,
    source: NamedProgram<'_>,
    number: usize,
    times: u64,
) {
    let Some(rule) = told_rule(source, number) else {
        return;
    };
    push_times(out, times);
    out.push_number("rule ", number as u64, ": ");
    out.push_clause(alloc, rule);
    out.push_str("\n")
}

/// Adds the rules of a cycle.
pub(crate) fn push_cycle(alloc: Global, out: &mut Prose, source: NamedProgram<'_>, cycle: &Cycle) {
    out.push_str(
        "No weights do that: these rules, applied together, give back at least what they take.\n",
    );
    for (place, times) in cycle.times.iter().enumerate() {
        if *times != 0 {
            push_applied(alloc, out, source, usize::saturating_add(place, 1), *times);
        }
    }
    out.push_str("Remove more heads in one of them, or write a smaller body.\n")
}
