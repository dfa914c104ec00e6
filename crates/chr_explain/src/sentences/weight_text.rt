//! The weights of a rule's atoms as they are told.

use crate::prose::Prose;
use crate::sentences::symbol_text::push_symbol;
use chr_base::atom::SymbolId;
use chr_base::limits::MAX_WEIGHT;
use chr_base::program::Program;
use chr_base::rule::Rule;
use chr_base::term::Pattern;
use chr_base::weight::Weight;
use chr_diagnosis::ToldRule;
use chr_weights::NotLowered;
use std::alloc::Global;

/// Adds the weight of a symbol.
fn push_weight(out: &mut Prose, program: &Program, symbol: SymbolId, paired: bool) {
    if usize::from(symbol.0) < program.symbols() {
        out.push_weight(program.weight_of(symbol), paired);
    }
}

/// Adds an atom of a rule, and its weight.
fn push_weighed(
    alloc: Global,
    out: &mut Prose,
    told: ToldRule<'_>,
    pattern: &Pattern,
    paired: bool,
) {
    out.push_atom(alloc, told, pattern);
    out.push_str(" weighs ");
    push_weight(out, told.program, pattern.symbol, paired)
}

/// Adds the weight of each of these atoms of a rule, with both numbers where `paired`.
pub(crate) fn push_weights(
    alloc: Global,
    out: &mut Prose,
    told: ToldRule<'_>,
    part: &str,
    patterns: &[Pattern],
    paired: bool,
) {
    out.push_text("  ", part, ": ");
    for (i, pattern) in patterns.iter().enumerate() {
        out.push_str(if i == 0 { "" } else { ", " });
        push_weighed(alloc, out, told, pattern, paired);
    }
    out.push_str(if patterns.is_empty() { "nothing" } else { "" })
}

/// How many of these atoms have the symbol.
fn count_of(patterns: &[Pattern], symbol: SymbolId) -> usize {
    patterns
        .iter()
        .filter(|pattern| pattern.symbol == symbol)
        .count()
}

/// Whether the rule removes this symbol more often than its body has it.
fn is_lowered(rule: &Rule, symbol: SymbolId) -> bool {
    count_of(&rule.body, symbol) < count_of(&rule.removed, symbol)
}

/// Whether some weights are lowered by the rule: it removes a symbol more often than its body has it.
pub(crate) fn can_lower(rule: &Rule) -> bool {
    rule.removed
        .iter()
        .any(|pattern| is_lowered(rule, pattern.symbol))
}

/// The first number of a weight of the symbol under which the rule lowers the weight: greater by more than the body's
/// first number is than that of the removed heads. None where no weight is so great.
fn lowering_weight(program: &Program, symbol: SymbolId, fault: &NotLowered) -> Option<u64> {
    if program.symbols() <= usize::from(symbol.0) {
        return None;
    }
    let missing = fault.after.first.saturating_sub(fault.before.first);
    let weight = program
        .weight_of(symbol)
        .first
        .saturating_add(missing)
        .saturating_add(1);
    if MAX_WEIGHT < weight {
        None
    } else {
        Some(weight)
    }
}

/// Adds a weight of a removed symbol under which the rule lowers the weight, where there is one.
pub(crate) fn push_lowering(out: &mut Prose, told: ToldRule<'_>, fault: &NotLowered) {
    for pattern in &told.rule.removed {
        if is_lowered(told.rule, pattern.symbol) {
            if let Some(first) = lowering_weight(told.program, pattern.symbol, fault) {
                return push_lowering_clause(out, told.program, pattern.symbol, first);
            }
        }
    }
}

/// Adds that the rule lowers the weight where the symbol has this one.
fn push_lowering_clause(out: &mut Prose, program: &Program, symbol: SymbolId, first: u64) {
    out.push_str("This rule lowers the weight with `");
    push_weight_clause(out, program, symbol, Weight { first, second: 0 });
    out.push_str("`\n")
}

/// Adds the clause that gives a symbol this weight.
pub(crate) fn push_weight_clause(
    out: &mut Prose,
    program: &Program,
    symbol: SymbolId,
    weight: Weight,
) {
    if usize::from(symbol.0) < program.symbols() {
        out.push_str(":- chr_weight ");
        push_symbol(out, program, symbol);
        out.push_str(" = ");
        out.push_weight(weight, weight.is_paired());
        out.push_str(".");
    }
}
