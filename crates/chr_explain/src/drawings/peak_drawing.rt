//! A case that fails, as a drawing in the language of Graphviz.

use crate::drawings::label::{Align, push_written};
use crate::prose::Prose;
use chr_base::bag::Bag;
use chr_base::derivation::Derivation;
use chr_diagnosis::{NamedProgram, Peak, told_rule};
use chr_faults::Names;
use std::alloc::Global;

/// One of the two sides of a case.
#[derive(Clone, Copy)]
struct Side<'a> {
    /// The name of its nodes.
    name: &'static str,
    derivation: &'a Derivation,
    stores: &'a [Bag],
    end: &'a Bag,
}

/// Adds a node for a store. An end has two lines round it.
fn push_store_node(
    alloc: Global,
    out: &mut Prose,
    source: NamedProgram<'_>,
    store: &Bag,
    is_end: bool,
) {
    let mut text = Prose::new(alloc);
    text.push_store(alloc, source, store);
    push_written(out, text, Align::Middle);
    out.push_str(if is_end { " [peripheries=2];\n" } else { ";\n" })
}

/// Adds the name of a store of a side, behind this.
fn push_store_name(out: &mut Prose, before: &str, name: &str, number: usize) {
    out.push_text(before, name, "");
    out.push_number("", number as u64, "")
}

/// Adds the nodes that the edge to the store of this number of a side joins.
fn push_ends(out: &mut Prose, name: &str, number: usize) {
    if number == 0 {
        return out.push_text("  store -> ", name, "1 ");
    }
    push_store_name(out, "  ", name, number);
    push_store_name(out, " -> ", name, usize::saturating_add(number, 1));
    out.push_str(" ")
}

/// Adds the edge to the store of this number of a side.
fn push_edge(
    alloc: Global,
    out: &mut Prose,
    source: NamedProgram<'_>,
    side: Side<'_>,
    number: usize,
) {
    push_ends(out, side.name, number);
    let mut text = Prose::new(alloc);
    if let Some(step) = side.derivation.steps.get(number) {
        if let Some(rule) = told_rule(source, step.rule as usize) {
            text.push_step(rule, &step.heads);
        }
    }
    push_written(out, text, Align::Middle);
    out.push_str(";\n")
}

/// Adds the end of a side of which not all steps are told.
fn push_cut_end(alloc: Global, out: &mut Prose, source: NamedProgram<'_>, side: Side<'_>) {
    out.push_text("  ", side.name, "end ");
    push_store_node(alloc, out, source, side.end, true);
    push_store_name(out, "  ", side.name, side.stores.len());
    out.push_text(" -> ", side.name, "end [label=\"more steps\"];\n")
}

/// Adds the stores and steps of a side.
fn push_side(alloc: Global, out: &mut Prose, source: NamedProgram<'_>, side: Side<'_>) {
    let is_whole = side.stores.len() == side.derivation.steps.len();
    for (number, store) in side.stores.iter().enumerate() {
        let next = usize::saturating_add(number, 1);
        let is_end = is_whole && next == side.stores.len();
        push_store_name(out, "  ", side.name, next);
        out.push_str(" ");
        push_store_node(alloc, out, source, store, is_end);
        push_edge(alloc, out, source, side, number);
    }
    if !is_whole {
        push_cut_end(alloc, out, source, side);
    }
}

/// Draws a case whose sides end in different stores.
pub(crate) fn push_peak_drawing(alloc: Global, out: &mut Prose, names: &Names, peak: &Peak) {
    let program = peak.weighed.program();
    let source = NamedProgram { program, names };
    let failure = &peak.first.failure;
    out.push_str("digraph peak {\n  node [shape=box];\n  store ");
    push_store_node(alloc, out, source, &failure.left.start, false);
    let left = Side {
        name: "left",
        derivation: &failure.left,
        stores: &peak.first.left,
        end: &failure.left_end,
    };
    push_side(alloc, out, source, left);
    let right = Side {
        name: "right",
        derivation: &failure.right,
        stores: &peak.first.right,
        end: &failure.right_end,
    };
    push_side(alloc, out, source, right);
    out.push_str("}\n")
}
