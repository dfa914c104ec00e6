//! The text of a program on a page, with marks at its faulty places.

use crate::drawings::html::{push_html, push_html_char};
use crate::prose::Prose;
use crate::sentences::Told;
use chr_diagnosis::Diagnosis;
use chr_faults::{Span, TextFaults, bad_spans, rule_span, shown};
use chr_overlaps::Overlap;
use std::alloc::{AllocError, Global};

/// The clauses of the rules of these numbers, which may be one.
fn rule_spans(
    alloc: Global,
    text: &[u8],
    first: usize,
    second: usize,
) -> Result<Vec<Span>, AllocError> {
    let mut spans = Vec::new(alloc);
    if let Some(span) = rule_span(alloc, text, first)? {
        spans.push(span)?;
    }
    if let Some(span) = rule_span(alloc, text, second)? {
        spans.push(span)?;
    }
    Ok(spans)
}

/// The clauses of an overlap's rules.
fn overlap_spans(alloc: Global, text: &[u8], overlap: &Overlap) -> Result<Vec<Span>, AllocError> {
    rule_spans(alloc, text, overlap.first as usize, overlap.second as usize)
}

/// The places of what is wrong with a text that is no program.
fn fault_spans(alloc: Global, text: &[u8], faults: &TextFaults) -> Result<Vec<Span>, AllocError> {
    match faults {
        TextFaults::TooLong => Ok(Vec::new(alloc)),
        TextFaults::Clauses(bad) => bad_spans(alloc, text, bad),
    }
}

/// The faulty places of a text.
fn spans_of(alloc: Global, text: &[u8], diagnosis: &Diagnosis) -> Result<Vec<Span>, AllocError> {
    match diagnosis {
        Diagnosis::Text(faults) => fault_spans(alloc, text, faults),
        Diagnosis::NotLowered(told) => rule_spans(alloc, text, told.fault.rule, told.fault.rule),
        Diagnosis::Fails(peak) => overlap_spans(alloc, text, &peak.shown().failure.overlap),
        Diagnosis::TooManyCombinations(throng) => {
            overlap_spans(alloc, text, &throng.too_many.overlap)
        }
        Diagnosis::Accepted(_) => Ok(Vec::new(alloc)),
    }
}

/// Whether the byte at this place is in one of the spans.
fn is_marked(spans: &[Span], at: usize) -> bool {
    spans.iter().any(|span| span.has(at))
}

/// Adds the begin or the end of a mark, where one is.
fn push_turn(out: &mut Prose, was_in: bool, is_in: bool) {
    out.push_str(match (was_in, is_in) {
        (false, true) => "<mark>",
        (true, false) => "</mark>",
        _ => "",
    })
}

/// Adds what is told of a place: what is wrong, and what would be right, where that is told.
fn push_note(out: &mut Prose, message: &str, remedy: &str) {
    out.push_str("<em>");
    push_html(out, message);
    out.push_str(if remedy.is_empty() { "" } else { "<br>" });
    push_html(out, remedy);
    out.push_str("</em>")
}

/// Adds what is told of comments in the line of this number that name columns as the program has none.
fn push_misnamed(out: &mut Prose, text: &[u8], told: &Told, line: usize) {
    for fault in &told.misnamed {
        if fault.place(text).line == line {
            push_note(out, fault.message.as_str(), "");
        }
    }
}

/// Adds what is told of the line of this number.
fn push_notes(out: &mut Prose, text: &[u8], told: &Told, line: usize) {
    for note in &told.notes {
        if note.place(text).line == line {
            push_note(out, note.message.as_str(), note.remedy.as_str());
        }
    }
    push_misnamed(out, text, told, line)
}

/// Adds the text with marks at these places. Each line is an element, so that it gets its number, and has what is told
/// of it below. A mark ends with its line, and begins again with the next one.
fn push_marked(out: &mut Prose, text: &[u8], spans: &[Span], told: &Told) {
    let mut was_in = false;
    let mut line: usize = 1;
    for (at, byte) in text.iter().enumerate() {
        let is_in = *byte != b'\n' && is_marked(spans, at);
        push_turn(out, was_in, is_in);
        if *byte == b'\n' {
            out.push_str("</span>\n");
            push_notes(out, text, told, line);
            out.push_str("<span class=\"line\">");
            line = line.saturating_add(1);
        } else {
            push_html_char(out, shown(*byte));
        }
        was_in = is_in;
    }
    push_turn(out, was_in, false);
    push_notes(out, text, told, line)
}

/// Adds the text of a program with marks at its faulty places, and below each line what is told of it.
pub(crate) fn push_listing(
    alloc: Global,
    out: &mut Prose,
    text: &[u8],
    diagnosis: &Diagnosis,
    told: &Told,
) -> Result<(), AllocError> {
    let spans = spans_of(alloc, text, diagnosis)?;
    out.push_str("<section>\n<h2>The program</h2>\n");
    out.push_str("<pre class=\"listing\" tabindex=\"0\"><span class=\"line\">");
    push_marked(out, text, &spans, told);
    out.push_str("</span></pre>\n</section>\n");
    Ok(())
}
