//! What is to be told of a text, as a drawing in the language of Graphviz.

use crate::drawings::graph_drawing::push_graph;
use crate::drawings::graphs::graph_of;
use crate::drawings::label::{Align, push_label};
use crate::drawings::peak_drawing::push_peak_drawing;
use crate::prose::Prose;
use crate::sentences::told_text;
use chr_diagnosis::{Diagnosis, Judged};
use chr_faults::Names;
use std::alloc::{AllocError, Global};

/// Draws a text in one node.
fn push_words(out: &mut Prose, text: &str) {
    out.push_str("digraph explanation {\n  node [shape=box, fontname=monospace];\n  text ");
    push_label(out, text, Align::Left);
    out.push_str(";\n}\n")
}

/// Draws what is told of a text in one node.
fn push_told(
    alloc: Global,
    out: &mut Prose,
    text: &[u8],
    judged: &Judged,
) -> Result<(), AllocError> {
    let told = told_text(alloc, text, judged, &[], false)?;
    push_words(out, told.text.as_str());
    Ok(())
}

/// Draws what is told of a text that has no case that fails: as nodes and edges, or in one node.
fn push_others(
    alloc: Global,
    out: &mut Prose,
    text: &[u8],
    judged: &Judged,
) -> Result<(), AllocError> {
    let Some(graph) = graph_of(alloc, text, &judged.diagnosis)? else {
        return push_told(alloc, out, text, judged);
    };
    if !graph.has_words {
        push_graph(alloc, out, &graph, "");
        return Ok(());
    }
    let told = told_text(alloc, text, judged, &[], false)?;
    push_graph(alloc, out, &graph, told.text.as_str());
    Ok(())
}

/// Draws both ways of a case that fails, an accepted program, or what else is told of a text.
fn push_drawing(
    alloc: Global,
    out: &mut Prose,
    text: &[u8],
    judged: &Judged,
) -> Result<(), AllocError> {
    match &judged.diagnosis {
        Diagnosis::Fails(peak) => {
            let names = Names::of(alloc, text, peak.weighed.program())?;
            push_peak_drawing(alloc, out, &names, peak);
            Ok(())
        }
        _ => push_others(alloc, out, text, judged),
    }
}

/// What is to be told of a text, as a drawing.
pub fn drawn_text(alloc: Global, text: &[u8], judged: &Judged) -> Result<String, AllocError> {
    let mut out = Prose::new(alloc);
    push_drawing(alloc, &mut out, text, judged)?;
    out.finish()
}
