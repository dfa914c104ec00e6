//! Boxes and text of drawings in SVG. All lengths are whole units, of which a character takes 8.

use crate::drawings::html::{push_html, push_html_char};
use crate::drawings::limits::MAX_SVG_CHARACTERS;
use crate::prose::Prose;

/// How wide a character is.
pub(crate) const CHARACTER: usize = 8;

/// How much room is left round a drawing, and beside the text in a box.
pub(crate) const MARGIN: usize = 8;

/// A box.
#[derive(Clone, Copy)]
pub(crate) struct Frame {
    pub x: usize,
    pub y: usize,
    pub width: usize,
    pub height: usize,
}

/// How wide a text is, of which the first `MAX_SVG_CHARACTERS` are drawn, and two stops for the rest.
pub(crate) fn width_of(text: &str) -> usize {
    let most = MAX_SVG_CHARACTERS.saturating_add(2);
    text.chars().take(most).count().saturating_mul(CHARACTER)
}

/// Adds the beginning of a drawing of this size, with what it is for those who don't see it: so many of these.
pub(crate) fn push_svg(out: &mut Prose, width: usize, height: usize, count: usize, subject: &str) {
    out.push_number("<svg viewBox=\"0 0 ", width as u64, " ");
    out.push_number("", height as u64, "\"");
    out.push_number(" width=\"", width as u64, "\"");
    out.push_number(" height=\"", height as u64, "\" role=\"img\" aria-label=\"");
    out.push_number("", count as u64, " ");
    push_html(out, subject);
    out.push_str("\">\n")
}

/// Adds the first characters of a text.
fn push_cut(out: &mut Prose, text: &str) {
    for c in text.chars().take(MAX_SVG_CHARACTERS) {
        push_html_char(out, c);
    }
    out.push_str(if MAX_SVG_CHARACTERS < text.chars().count() {
        ".."
    } else {
        ""
    })
}

/// Adds a text, from this place on. Where it is cut, all of it is the title.
pub(crate) fn push_svg_text(out: &mut Prose, x: usize, y: usize, class: &str, text: &str) {
    out.push_number("<text x=\"", x as u64, "\"");
    out.push_number(" y=\"", y as u64, "\" class=\"");
    out.push_str(class);
    out.push_str("\">");
    push_cut(out, text);
    if MAX_SVG_CHARACTERS < text.chars().count() {
        out.push_str("<title>");
        push_html(out, text);
        out.push_str("</title>");
    }
    out.push_str("</text>\n")
}

/// Adds a line round a box.
pub(crate) fn push_frame(out: &mut Prose, frame: Frame) {
    out.push_number("<rect class=\"box\" x=\"", frame.x as u64, "\"");
    out.push_number(" y=\"", frame.y as u64, "\"");
    out.push_number(" width=\"", frame.width as u64, "\"");
    out.push_number(" height=\"", frame.height as u64, "\" rx=\"3\"/>\n")
}
