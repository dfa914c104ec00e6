//! What would be right where a case fails, on a page: in words, and as rules with which the program is accepted.

use crate::drawings::difference::changed_part;
use crate::drawings::html::{push_html, push_html_char};
use crate::prose::Prose;
use crate::sentences::Told;
use chr_diagnosis::Proposal;
use chr_faults::Span;
use std::alloc::{AllocError, Global};

/// Adds a paragraph.
fn push_paragraph(out: &mut Prose, sentence: &str) {
    out.push_str("<p>");
    push_html(out, sentence);
    out.push_str("</p>\n")
}

/// Adds a rule, with a mark at the part that is new.
fn push_marked(out: &mut Prose, rule: &str, part: Span) {
    for (at, c) in rule.chars().enumerate() {
        if at == part.from && part.from < part.to {
            out.push_str("<mark>");
        }
        push_html_char(out, c);
        if at.saturating_add(1) == part.to && part.from < part.to {
            out.push_str("</mark>");
        }
    }
}

/// Adds proposed rules, with marks: the first one stands in place of the rule before, and each other one is new.
fn push_rules(
    alloc: Global,
    out: &mut Prose,
    before: &[u8],
    rules: &str,
) -> Result<(), AllocError> {
    for (number, rule) in rules.lines().enumerate() {
        out.push_str(if number == 0 { "" } else { "\n" });
        let all = Span {
            from: 0,
            to: rule.len(),
        };
        let part = if number == 0 {
            changed_part(alloc, before, rule.as_bytes())?
        } else {
            Some(all)
        };
        push_marked(out, rule, part.unwrap_or(Span { from: 0, to: 0 }));
    }
    Ok(())
}

/// Adds one proposal, and what is told of it.
fn push_change(
    alloc: Global,
    out: &mut Prose,
    text: &[u8],
    proposal: &Proposal,
    kept: &[String],
) -> Result<(), AllocError> {
    let before = "<h3>Accepted with this in place of rule ";
    out.push_number(before, proposal.rule as u64, "</h3>\n");
    let before = text.get(proposal.from..proposal.to).unwrap_or(&[]);
    out.push_str("<pre class=\"change\" tabindex=\"0\">");
    push_rules(alloc, out, before, proposal.rules.as_str())?;
    out.push_str("</pre>\n");
    for sentence in kept {
        push_paragraph(out, sentence.as_str());
    }
    Ok(())
}

/// Adds what would be right.
pub(crate) fn push_changes(
    alloc: Global,
    out: &mut Prose,
    text: &[u8],
    proposals: &[Proposal],
    told: &Told,
) -> Result<(), AllocError> {
    out.push_str("<section>\n<h2>What would be right</h2>\n");
    for sentence in &told.advice {
        push_paragraph(out, sentence);
    }
    for (proposal, kept) in proposals.iter().zip(told.kept.iter()) {
        push_change(alloc, out, text, proposal, kept)?;
    }
    out.push_str("</section>\n");
    Ok(())
}
