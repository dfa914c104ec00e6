//! Rules that keep the weight, as nodes and edges.

use crate::drawings::graph::{Edge, Graph, Meaning, Node, node_with};
use crate::prose::Prose;
use crate::sentences::push_symbol;
use chr_base::atom::SymbolId;
use chr_base::program::Program;
use chr_base::rule::Rule;
use chr_base::term::Pattern;
use chr_diagnosis::{NamedProgram, ToldRule, told_rule};
use chr_faults::Names;
use chr_weighing::Cycle;
use std::alloc::{AllocError, Global};

/// A rule of a cycle, and how often it is applied.
#[derive(Clone, Copy)]
struct Applied<'a> {
    rule: ToldRule<'a>,
    times: u64,
}

/// The rules of a cycle, in order.
fn applied_in<'a>(
    alloc: Global,
    source: NamedProgram<'a>,
    cycle: &Cycle,
) -> Result<Vec<Applied<'a>>, AllocError> {
    let mut applied = Vec::new(alloc);
    for (place, times) in cycle.times.iter().enumerate() {
        if let Some(rule) = told_rule(source, usize::saturating_add(place, 1)) {
            if *times != 0 {
                applied.push(Applied {
                    rule,
                    times: *times,
                })?;
            }
        }
    }
    Ok(applied)
}

/// The node of a rule.
fn node_of(alloc: Global, applied: &Applied<'_>) -> Result<Node, AllocError> {
    let mut name = Prose::new(alloc);
    name.push_number("rule", applied.rule.number as u64, "");
    let mut text = Prose::new(alloc);
    text.push_clause(alloc, applied.rule);
    let mut more = Prose::new(alloc);
    if applied.times == 1 {
        more.push_str("once");
    } else {
        more.push_number("", applied.times, " times");
    }
    node_with(name, text, more)
}

/// Whether one of these atoms has the symbol.
fn has_symbol(patterns: &[Pattern], symbol: SymbolId) -> bool {
    patterns.iter().any(|pattern| pattern.symbol == symbol)
}

/// The symbols that the body of one rule has and another rule removes.
fn passed_text(
    alloc: Global,
    program: &Program,
    from: &Rule,
    to: &Rule,
) -> Result<String, AllocError> {
    let mut text = Prose::new(alloc);
    for number in 0..program.symbols() {
        let symbol = SymbolId(u16::try_from(number).unwrap_or(u16::MAX));
        if has_symbol(&from.body, symbol) && has_symbol(&to.removed, symbol) {
            let before = if text.is_empty() { "" } else { ", " };
            text.push_str(before);
            push_symbol(&mut text, program, symbol);
        }
    }
    text.finish()
}

/// Adds the edges from one of the rules to those that take what it gives.
fn push_edges(
    alloc: Global,
    edges: &mut Vec<Edge>,
    program: &Program,
    applied: &[Applied<'_>],
    from: usize,
    giver: &Rule,
) -> Result<(), AllocError> {
    for (to, taker) in applied.iter().enumerate() {
        let text = passed_text(alloc, program, giver, taker.rule.rule)?;
        if !text.is_empty() {
            let mark = text.clone()?;
            edges.push(Edge {
                from,
                to,
                text,
                mark,
            })?;
        }
    }
    Ok(())
}

/// The rules of a cycle, with an edge where the body of one has what another one removes.
pub(crate) fn cycle_graph(
    alloc: Global,
    names: &Names,
    program: &Program,
    cycle: &Cycle,
) -> Result<Graph, AllocError> {
    let applied = applied_in(alloc, NamedProgram { program, names }, cycle)?;
    let mut nodes = Vec::new(alloc);
    let mut edges = Vec::new(alloc);
    for (place, one) in applied.iter().enumerate() {
        nodes.push(node_of(alloc, one)?)?;
        push_edges(alloc, &mut edges, program, &applied, place, one.rule.rule)?;
    }
    Ok(Graph {
        meaning: Meaning::Cycle,
        nodes,
        edges,
        has_words: false,
    })
}
