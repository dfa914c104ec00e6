//! What is told of a text.

use chr_faults::{ColumnFault, Note};
use std::alloc::Global;

/// What is told of a text, and those of its parts that stand at their own places on a page.
pub(crate) struct Told {
    /// All that is told, in whole lines.
    pub text: String,
    /// What is told of each bad clause, where the text is no program.
    pub notes: Vec<Note>,
    /// What is told of comments that name columns as the program has none.
    pub misnamed: Vec<ColumnFault>,
    /// What a person can do where a case fails, in sentences.
    pub advice: Vec<&'static str>,
    /// What is told below each proposal, in sentences.
    pub kept: Vec<Vec<String>>,
}

/// What is derived would be proved again at each end of a function that lets it go.
impl Drop for Told {
    fn drop(self) {
        let Told {
            text: _text,
            notes: _notes,
            misnamed: _misnamed,
            advice: _advice,
            kept: _kept,
        } = self;
    }
}

impl Told {
    /// All that is told.
    pub(crate) fn into_text(self) -> String {
        let Told {
            text,
            notes: _notes,
            misnamed: _misnamed,
            advice: _advice,
            kept: _kept,
        } = self;
        text
    }

    /// Nothing.
    pub(crate) fn nothing(alloc: Global) -> Told {
        Told {
            text: String::new(alloc),
            notes: Vec::new(alloc),
            misnamed: Vec::new(alloc),
            advice: Vec::new(alloc),
            kept: Vec::new(alloc),
        }
    }
}
