//! Nodes, one below another, and edges beside them, as a drawing in SVG.

use crate::drawings::graph::{Edge, Graph, Meaning, Node};
use crate::drawings::html::push_html;
use crate::drawings::limits::MAX_MARKED_EDGES;
use crate::drawings::svg::{
    CHARACTER, Frame, MARGIN, push_frame, push_svg, push_svg_text, width_of,
};
use crate::prose::Prose;
use std::alloc::{AllocError, Global};

/// How high a row is.
const ROW: usize = 24;

/// How high the box of a node is.
const HEIGHT: usize = 20;

/// How far an edge within a node goes to the right.
const LEAST_REACH: usize = 24;

/// Where the edges begin, and how much farther to the right one goes for each row that it passes.
#[derive(Clone, Copy)]
struct Layout {
    x: usize,
    slope: usize,
}

/// The way of an edge: the heights of its two ends, how far it goes to the right, and its mark.
#[derive(Drop)]
struct Arc<'g> {
    edge: &'g Edge,
    from: usize,
    to: usize,
    reach: usize,
    /// Empty where marks don't stand beside the edges.
    mark: &'g str,
    mark_x: usize,
    mark_y: usize,
}

impl Arc<'_> {
    /// Where its mark ends.
    fn mark_end(&self) -> usize {
        self.mark_x.saturating_add(width_of(self.mark))
    }
}

/// The middle of the row of this place.
fn middle(place: usize) -> usize {
    place
        .saturating_mul(ROW)
        .saturating_add(ROW / 2)
        .saturating_add(MARGIN)
}

/// How wide a node is.
fn node_width(node: &Node) -> usize {
    let more = width_of(node.more.as_str());
    let gap = if more == 0 { 0 } else { CHARACTER };
    width_of(node.text.as_str())
        .saturating_add(gap)
        .saturating_add(more)
        .saturating_add(MARGIN.saturating_mul(2))
}

/// How much farther an edge goes for each row that it passes: less where there are many rows, or little room.
fn slope_of(rows: usize, x: usize) -> usize {
    if rows <= 16 {
        24
    } else if x <= 600 {
        16
    } else {
        8
    }
}

/// Where the edges of these nodes are.
fn layout_of(nodes: &[Node]) -> Layout {
    let mut width = 0;
    for node in nodes {
        width = width.max(node_width(node));
    }
    let x = width.saturating_add(MARGIN);
    Layout {
        x,
        slope: slope_of(nodes.len(), x),
    }
}

/// How many rows an edge passes.
fn rows_of(edge: &Edge) -> usize {
    edge.from
        .max(edge.to)
        .saturating_sub(edge.from.min(edge.to))
}

/// Whether an edge goes up.
fn goes_up(edge: &Edge) -> bool {
    edge.to < edge.from
}

/// Whether less than a row is between the middles of two edges, so that their marks are of about one height.
fn are_level(first: &Edge, second: &Edge) -> bool {
    let first = first.from.saturating_add(first.to);
    let second = second.from.saturating_add(second.to);
    first.max(second).saturating_sub(first.min(second)) < 2
}

/// How far an edge goes to the right at least. One that goes up passes beyond the one that goes down between the same
/// rows.
fn least_reach(layout: Layout, edge: &Edge) -> usize {
    let up = if goes_up(edge) { layout.slope } else { 0 };
    rows_of(edge)
        .saturating_mul(layout.slope)
        .saturating_add(LEAST_REACH)
        .saturating_add(up)
}

/// The way of an edge that goes so far, with its mark at the middle: a curve's is three quarters as far as its handles.
fn arc_of<'g>(layout: Layout, edge: &'g Edge, mark: &'g str, reach: usize) -> Arc<'g> {
    let from = middle(edge.from).saturating_add(4);
    let to = middle(edge.to).saturating_sub(4);
    let wide = reach.saturating_mul(3) / 4;
    Arc {
        edge,
        from,
        to,
        reach,
        mark,
        mark_x: layout.x.saturating_add(wide).saturating_add(4),
        mark_y: (from.saturating_add(to) / 2).saturating_add(4),
    }
}

/// How far an edge has to go for its mark to begin beyond this place.
fn reach_beyond(layout: Layout, x: usize) -> usize {
    let wide = x.saturating_add(CHARACTER).saturating_sub(layout.x);
    wide.saturating_mul(4) / 3
}

/// The way of an edge whose mark hides none of those of these ways.
fn arc_beyond<'g>(layout: Layout, edge: &'g Edge, inner: &[Arc<'_>]) -> Arc<'g> {
    let mut reach = least_reach(layout, edge);
    for arc in inner {
        if are_level(edge, arc.edge) {
            reach = reach.max(reach_beyond(layout, arc.mark_end()));
        }
    }
    arc_of(layout, edge, edge.mark.as_str(), reach)
}

/// Whether marks stand beside the edges: among many edges they would hide one another.
fn has_marks(graph: &Graph) -> bool {
    graph.edges.len() <= MAX_MARKED_EDGES
}

/// The edges, those that pass few rows first, and of those between the same rows the ones that go down.
fn inner_first<'g>(alloc: Global, graph: &'g Graph) -> Result<Vec<&'g Edge>, AllocError> {
    let mut edges = Vec::new(alloc);
    for edge in &graph.edges {
        edges.push(edge)?;
    }
    edges.sort_by_key(|edge| (rows_of(*edge), goes_up(*edge)))?;
    Ok(edges)
}

/// The ways of all edges.
fn arcs_of<'g>(
    alloc: Global,
    layout: Layout,
    graph: &'g Graph,
) -> Result<Vec<Arc<'g>>, AllocError> {
    let edges = inner_first(alloc, graph)?;
    let mut arcs = Vec::new(alloc);
    for edge in &edges {
        let arc = if has_marks(graph) {
            arc_beyond(layout, *edge, &arcs)
        } else {
            arc_of(layout, *edge, "", least_reach(layout, *edge))
        };
        arcs.push(arc)?;
    }
    Ok(arcs)
}

/// How wide the drawing is.
fn width_in(layout: Layout, arcs: &[Arc<'_>]) -> usize {
    let mut width = layout.x;
    for arc in arcs {
        width = width.max(arc.mark_end());
    }
    width.saturating_add(MARGIN)
}

/// Adds a node in the row of this place.
fn push_node(out: &mut Prose, layout: Layout, place: usize, node: &Node) {
    let frame = Frame {
        x: MARGIN,
        y: middle(place).saturating_sub(HEIGHT / 2),
        width: layout.x.saturating_sub(MARGIN),
        height: HEIGHT,
    };
    push_frame(out, frame);
    let x = MARGIN.saturating_mul(2);
    let y = middle(place).saturating_add(4);
    push_svg_text(out, x, y, "word", node.text.as_str());
    if node.more.is_empty() {
        return;
    }
    let behind = x
        .saturating_add(width_of(node.text.as_str()))
        .saturating_add(CHARACTER);
    push_svg_text(out, behind, y, "mark", node.more.as_str())
}

/// Adds what an edge says, with the names of its rules.
fn push_title(out: &mut Prose, graph: &Graph, edge: &Edge) {
    out.push_str("<title>");
    if graph.meaning != Meaning::Columns {
        if let (Some(from), Some(to)) = (graph.nodes.get(edge.from), graph.nodes.get(edge.to)) {
            push_html(out, from.name.as_str());
            out.push_str(", ");
            push_html(out, to.name.as_str());
            out.push_str(": ");
        }
    }
    push_html(out, edge.text.as_str());
    out.push_str("</title>")
}

/// Adds a point of a path behind this.
fn push_point(out: &mut Prose, before: &str, x: usize, y: usize) {
    out.push_number(before, x as u64, " ");
    out.push_number("", y as u64, "")
}

/// Adds the curve of an edge.
fn push_curve(out: &mut Prose, layout: Layout, arc: &Arc<'_>) {
    let x = layout.x;
    let far = x.saturating_add(arc.reach);
    push_point(out, "<path class=\"edge\" d=\"M", x, arc.from);
    push_point(out, " C", far, arc.from);
    push_point(out, " ", far, arc.to);
    push_point(out, " ", x, arc.to);
    out.push_str("\"/>\n")
}

/// Adds an edge.
fn push_edge(out: &mut Prose, layout: Layout, graph: &Graph, arc: &Arc<'_>) {
    out.push_str("<g>");
    push_title(out, graph, arc.edge);
    push_curve(out, layout, arc);
    if graph.meaning == Meaning::Cycle {
        push_point(out, "<path class=\"tip\" d=\"M", layout.x, arc.to);
        out.push_str(" l9 -4 v8 z\"/>\n");
    }
    if !arc.mark.is_empty() {
        push_svg_text(out, arc.mark_x, arc.mark_y, "mark", arc.mark);
    }
    out.push_str("</g>\n")
}

/// What the drawing is of.
fn subject_of(meaning: Meaning) -> &'static str {
    match meaning {
        Meaning::Overlaps => "rules, with an arc between two that have cases in common",
        Meaning::Cycle => "rules, with an arrow from one to each that takes what it gives",
        Meaning::Columns => "symbols, with an arc between two of which rules compare columns",
    }
}

/// Adds nodes, one below another, and edges beside them.
pub(crate) fn push_graph_svg(
    alloc: Global,
    out: &mut Prose,
    graph: &Graph,
) -> Result<(), AllocError> {
    let layout = layout_of(&graph.nodes);
    let rows = graph.nodes.len();
    let height = rows
        .saturating_mul(ROW)
        .saturating_add(MARGIN.saturating_mul(2));
    let arcs = arcs_of(alloc, layout, graph)?;
    push_svg(
        out,
        width_in(layout, &arcs),
        height,
        rows,
        subject_of(graph.meaning),
    );
    for (place, node) in graph.nodes.iter().enumerate() {
        push_node(out, layout, place, node);
    }
    for arc in &arcs {
        push_edge(out, layout, graph, arc);
    }
    out.push_str("</svg>\n");
    Ok(())
}
