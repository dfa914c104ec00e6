//! What an index keeps of a row.

/// A row's hash, whether it lives, and the place of the next row of its slot, 0 where there is none.
///
/// They lie side by side, so that a look-up fetches memory once for each row that it meets.
#[derive(Clone, Copy)]
pub(crate) struct Row {
    pub(crate) hash: u32,
    pub(crate) next: u32,
    pub(crate) alive: bool,
}
