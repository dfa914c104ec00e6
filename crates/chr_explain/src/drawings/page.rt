//! What is to be told of a text, as a page in HTML that stands alone.

use crate::drawings::cards::cards_of;
use crate::drawings::case_page::push_case;
use crate::drawings::changes_page::push_changes;
use crate::drawings::graph::{Graph, Meaning};
use crate::drawings::graph_svg::push_graph_svg;
use crate::drawings::graphs::graph_of;
use crate::drawings::html::{push_first_line, push_html};
use crate::drawings::listing::push_listing;
use crate::drawings::style::STYLE;
use crate::prose::Prose;
use crate::sentences::Told;
use chr_diagnosis::{Diagnosis, Peak, Proposal};
use chr_faults::{Names, TextFaults};
use chr_read::Fault;
use std::alloc::{AllocError, Global};

/// The number of the first fault of a text that is no program.
fn first_fault(faults: &TextFaults) -> usize {
    match faults {
        TextFaults::TooLong => 2,
        TextFaults::Clauses(bad) => match bad.first() {
            Some(first) => usize::from(Fault::number(first.fault)),
            None => 0,
        },
    }
}

/// Adds the verdict in a word or two.
fn push_verdict(out: &mut Prose, diagnosis: &Diagnosis) {
    match diagnosis {
        Diagnosis::Text(faults) => out.push_number("refused ", first_fault(faults) as u64, ""),
        Diagnosis::NotLowered(_) => out.push_str("refused 20"),
        Diagnosis::Fails(_) => out.push_str("refused 21"),
        Diagnosis::TooManyCombinations(_) => out.push_str("refused 22"),
        Diagnosis::Accepted(_) => out.push_str("accepted"),
    }
}

/// What the verdict means to whoever runs replicas of the program.
fn meaning_of(diagnosis: &Diagnosis) -> &'static str {
    match diagnosis {
        Diagnosis::Text(_) => {
            "The text is no program yet. What is wrong stands below each line, with what would be right."
        }
        Diagnosis::NotLowered(_) => {
            "A rule has to take away more than it leaves, so that the rules come to an end."
        }
        Diagnosis::Fails(_) => {
            "Replicas that hold the same facts, and apply these rules in another order, disagree for ever."
        }
        Diagnosis::TooManyCombinations(_) => {
            "Whether replicas agree was not decided: the marked rules compare too many values at once."
        }
        Diagnosis::Accepted(_) => {
            "Replicas that hold the same facts show the same store, in whatever order the rules are applied."
        }
    }
}

/// Adds what stands before the program: the verdict, the style, the first line of what is told, and what it means.
fn push_head(out: &mut Prose, diagnosis: &Diagnosis, told: &str) {
    out.push_str("<!DOCTYPE html>\n<html lang=\"en\">\n<head>\n<meta charset=\"utf-8\">\n");
    out.push_str("<meta name=\"viewport\" content=\"width=device-width, initial-scale=1\">\n");
    out.push_str("<title>chrrep: ");
    push_verdict(out, diagnosis);
    out.push_str("</title>\n");
    out.push_str(STYLE);
    out.push_str("</head>\n<body>\n<header>\n<h1>");
    push_first_line(out, told);
    out.push_str("</h1>\n<p>");
    push_html(out, meaning_of(diagnosis));
    out.push_str("</p>\n</header>\n<main>\n")
}

/// What the drawing shows.
fn caption_of(meaning: Meaning) -> &'static str {
    match meaning {
        Meaning::Overlaps =>
            "Copies of a rule are one box. An arc joins rules that have cases, and tells how many.",
        Meaning::Cycle =>
            "An arrow goes from a rule to each rule that takes what the first one gives.",
        Meaning::Columns =>
            "An arc joins symbols of which a rule compares columns, and tells which.",
    }
}

/// Adds a drawing of nodes and edges.
fn push_graph_figure(alloc: Global, out: &mut Prose, graph: &Graph) -> Result<(), AllocError> {
    out.push_str("<section>\n<h2>Drawing</h2>\n<figure>\n");
    push_graph_svg(alloc, out, graph)?;
    out.push_str("<figcaption>");
    push_html(out, caption_of(graph.meaning));
    out.push_str("</figcaption>\n</figure>\n</section>\n");
    Ok(())
}

/// Adds both ways of a case that fails, and what would be right.
fn push_peak(
    alloc: Global,
    out: &mut Prose,
    text: &[u8],
    peak: &Peak,
    proposals: &[Proposal],
    told: &Told,
) -> Result<(), AllocError> {
    let names = Names::of(alloc, text, peak.weighed.program())?;
    let ways = cards_of(alloc, &names, peak)?;
    push_case(out, &ways);
    push_changes(alloc, out, text, proposals, told)
}

/// Adds what is drawn of the text, where something is.
fn push_pictures(
    alloc: Global,
    out: &mut Prose,
    text: &[u8],
    diagnosis: &Diagnosis,
) -> Result<(), AllocError> {
    let Some(graph) = graph_of(alloc, text, diagnosis)? else {
        return Ok(());
    };
    if graph.nodes.is_empty() {
        return Ok(());
    }
    push_graph_figure(alloc, out, &graph)
}

/// Adds all that is told, in words.
fn push_words(out: &mut Prose, told: &str) {
    out.push_str("<section>\n<h2>In words</h2>\n<pre class=\"told\" tabindex=\"0\">");
    push_html(out, told);
    out.push_str("</pre>\n</section>\n")
}

/// Adds the same, to be opened: the page has shown it.
fn push_shut_words(out: &mut Prose, told: &str) {
    out.push_str("<details>\n<summary>As text</summary>\n<pre class=\"told\" tabindex=\"0\">");
    push_html(out, told);
    out.push_str("</pre>\n</details>\n")
}

/// What is to be told of a text, as a page.
pub(crate) fn page_text(
    alloc: Global,
    text: &[u8],
    diagnosis: &Diagnosis,
    proposals: &[Proposal],
    told: &Told,
) -> Result<String, AllocError> {
    let words = told.text.as_str();
    let mut out = Prose::new(alloc);
    push_head(&mut out, diagnosis, words);
    push_listing(alloc, &mut out, text, diagnosis, told)?;
    match diagnosis {
        Diagnosis::Text(_) => push_shut_words(&mut out, words),
        Diagnosis::Fails(peak) => {
            push_peak(alloc, &mut out, text, peak, proposals, told)?;
            push_shut_words(&mut out, words);
        }
        _ => {
            push_words(&mut out, words);
            push_pictures(alloc, &mut out, text, diagnosis)?;
        }
    }
    out.push_str("</main>\n</body>\n</html>\n");
    out.finish()
}
