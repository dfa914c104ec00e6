//! The words of a node.
ghost use Rattle.std.specs.Prelude.{◌≡◌};
ghost use Rattle.serde_json.specs.View.{view as data_of};
ghost use Rattle.chr_node_lines.specs.Asked.{word_of};

use chr_json::is_string;
use serde_json::Value;

/// What a line begins with.
#[derive(Clone, Copy, Debug, PartialEq, Eq)]
pub(crate) enum Word {
    /// Tell an operation.
    Tell,
    /// Say the number of the operation that was told last.
    Last,
    /// Show the store at rest.
    Show,
    /// Find atoms that match a pattern.
    Find,
    /// Count the atoms that match a pattern.
    Count,
    /// Say what came and went.
    Changes,
    /// Say how the node is.
    Status,
}

/// The word that a value is.
pub(crate) fn word_in(value: &Value) -> Option<Word>
    ensures { result ≡ word_of (data_of value.now) }
{
    if is_string(value, "tell") {
        Some(Word::Tell)
    } else if is_string(value, "last") {
        Some(Word::Last)
    } else if is_string(value, "show") {
        Some(Word::Show)
    } else if is_string(value, "find") {
        Some(Word::Find)
    } else if is_string(value, "count") {
        Some(Word::Count)
    } else if is_string(value, "changes") {
        Some(Word::Changes)
    } else if is_string(value, "status") {
        Some(Word::Status)
    } else {
        None
    }
}
