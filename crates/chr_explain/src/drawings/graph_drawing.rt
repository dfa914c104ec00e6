//! Nodes and edges in the language of Graphviz.

use crate::drawings::graph::{Edge, Graph, Meaning, Node};
use crate::drawings::label::{Align, push_label, push_written};
use crate::prose::Prose;
use std::alloc::Global;

/// How a drawing begins. Rules that overlap stand in one column, whatever their edges are, so that many of them stay a
/// page.
fn head_of(meaning: Meaning) -> &'static str {
    match meaning {
        Meaning::Overlaps =>
            "graph overlaps {\n  rankdir=LR;\n  nodesep=0.1;\n  node [shape=box, height=0.3];\n",
        Meaning::Cycle => "digraph cycle {\n  nodesep=0.1;\n  ranksep=0.3;\n  node [shape=box];\n",
        Meaning::Columns => "digraph columns {\n  node [shape=box];\n",
    }
}

/// How all edges are drawn.
fn edges_of(meaning: Meaning) -> &'static str {
    match meaning {
        Meaning::Overlaps => "  edge [constraint=false, fontsize=10];\n",
        Meaning::Cycle => "",
        Meaning::Columns => "  edge [dir=none];\n",
    }
}

/// What joins the two nodes of an edge.
fn joint_of(meaning: Meaning) -> &'static str {
    match meaning {
        Meaning::Overlaps => "--",
        Meaning::Cycle => "->",
        Meaning::Columns => "->",
    }
}

/// Adds a node.
fn push_node(alloc: Global, out: &mut Prose, node: &Node) {
    let mut text = Prose::new(alloc);
    text.push_str(node.text.as_str());
    if !node.more.is_empty() {
        text.push_text("\n", node.more.as_str(), "");
    }
    out.push_text("  ", node.name.as_str(), " ");
    push_written(out, text, Align::Middle);
    out.push_str(";\n")
}

/// Adds an edge.
fn push_edge(out: &mut Prose, graph: &Graph, edge: &Edge) {
    let (Some(from), Some(to)) = (graph.nodes.get(edge.from), graph.nodes.get(edge.to)) else {
        return;
    };
    out.push_text("  ", from.name.as_str(), " ");
    out.push_str(joint_of(graph.meaning));
    out.push_text(" ", to.name.as_str(), " ");
    push_label(out, edge.text.as_str(), Align::Middle);
    out.push_str(";\n")
}

/// Adds a node with these words below the others, where there are some.
fn push_words(out: &mut Prose, graph: &Graph, words: &str) {
    if words.is_empty() {
        return;
    }
    out.push_str("  text ");
    push_label(out, words, Align::Left);
    out.push_str(" [fontname=monospace];\n");
    match graph.nodes.first() {
        Some(first) => out.push_text("  ", first.name.as_str(), " -> text [style=invis];\n"),
        None => {}
    }
}

/// Draws nodes and edges, and a node with these words, where there are some.
pub(crate) fn push_graph(alloc: Global, out: &mut Prose, graph: &Graph, words: &str) {
    out.push_str(head_of(graph.meaning));
    out.push_str(edges_of(graph.meaning));
    for node in &graph.nodes {
        push_node(alloc, out, node);
    }
    for edge in &graph.edges {
        push_edge(out, graph, edge);
    }
    push_words(out, graph, words);
    out.push_str("}\n")
}
