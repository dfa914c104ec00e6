//! Both ways of a case that fails, side by side on a page: boxes of stores, with an arrow from each to the next.

use crate::drawings::cards::{Card, Cards};
use crate::drawings::html::push_html;
use crate::prose::Prose;

/// Adds the box of a store.
fn push_store(out: &mut Prose, store: &str, is_end: bool) {
    out.push_str(if is_end {
        "<p class=\"store end\"><strong>The end:</strong> <code>"
    } else {
        "<p class=\"store\"><code>"
    });
    push_html(out, store);
    out.push_str("</code></p>\n")
}

/// Adds a step, and the store that it leaves.
fn push_card(out: &mut Prose, card: &Card) {
    out.push_str("<li><p class=\"step\">");
    push_html(out, card.step.as_str());
    out.push_str("</p>\n");
    push_store(out, card.store.as_str(), card.is_end);
    out.push_str("</li>\n")
}

/// Adds the steps of one way.
fn push_way(out: &mut Prose, heading: &str, cards: &[Card]) {
    out.push_str("<section>\n<h3>");
    push_html(out, heading);
    out.push_str("</h3>\n<ol>\n");
    for card in cards {
        push_card(out, card);
    }
    out.push_str("</ol>\n</section>\n")
}

/// Adds the store, and both ways below it.
pub(crate) fn push_case(out: &mut Prose, ways: &Cards) {
    out.push_str("<section>\n<h2>Two ends of one store</h2>\n");
    push_store(out, ways.start.as_str(), false);
    out.push_str("<div class=\"ways\">\n");
    push_way(out, "One way", &ways.left);
    push_way(out, "The other way", &ways.right);
    out.push_str("</div>\n</section>\n")
}
