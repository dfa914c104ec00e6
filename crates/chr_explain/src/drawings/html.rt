//! Text in pages of HTML.

use crate::prose::Prose;

/// Adds one character of a text: five of them have a meaning in a page.
pub(crate) fn push_html_char(out: &mut Prose, c: char) {
    match c {
        '&' => out.push_str("&amp;"),
        '<' => out.push_str("&lt;"),
        '>' => out.push_str("&gt;"),
        '"' => out.push_str("&quot;"),
        '\'' => out.push_str("&#39;"),
        _ => out.push(c),
    }
}

/// Adds a text.
pub(crate) fn push_html(out: &mut Prose, text: &str) {
    for c in text.chars() {
        push_html_char(out, c);
    }
}

/// Adds the first line of a text.
pub(crate) fn push_first_line(out: &mut Prose, text: &str) {
    for c in text.chars() {
        if c == '\n' {
            return;
        }
        push_html_char(out, c);
    }
}
