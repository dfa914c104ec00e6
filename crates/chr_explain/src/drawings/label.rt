//! Labels of nodes and edges in the language of Graphviz.

use crate::drawings::limits::MAX_DRAWN_BYTES;
use crate::prose::Prose;

/// Where the lines of a label end: in the middle, or on the left.
#[derive(Clone, Copy)]
pub(crate) enum Align {
    Middle,
    Left,
}

impl Align {
    /// What ends a line.
    fn line_end(self) -> &'static str {
        match self {
            Align::Middle => "\\n",
            Align::Left => "\\l",
        }
    }
}

/// Adds one character of a label. Quotes end a label, backslashes and ampersands have a meaning in it.
fn push_escaped(out: &mut Prose, c: char, align: Align) {
    match c {
        '"' => out.push_str("\\\""),
        '\\' => out.push_str("\\\\"),
        '&' => out.push_str("&amp;"),
        '\n' => out.push_str(align.line_end()),
        '\t' => out.push_str("    "),
        _ => out.push(c),
    }
}

/// Adds a label of what was written.
pub(crate) fn push_written(out: &mut Prose, written: Prose, align: Align) {
    match written.finish() {
        Ok(text) => push_label(out, text.as_str(), align),
        Err(_) => out.lose(),
    }
}

/// Adds a label, `MAX_DRAWN_BYTES` characters of it at most.
pub(crate) fn push_label(out: &mut Prose, text: &str, align: Align) {
    out.push_str("[label=\"");
    for c in text.chars().take(MAX_DRAWN_BYTES) {
        push_escaped(out, c, align);
    }
    out.push_str(if MAX_DRAWN_BYTES < text.len() {
        "..\"]"
    } else {
        "\"]"
    })
}
