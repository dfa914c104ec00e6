//! How much is drawn.

/// How many bytes of a store are drawn.
pub const MAX_DRAWN_BYTES: usize = 2_000;

/// How many copies of a rule are told by their numbers.
pub const MAX_TOLD_COPIES: usize = 8;

/// How many characters of a text are drawn on a page.
pub const MAX_SVG_CHARACTERS: usize = 100;

/// How many edges a drawing on a page may have if each has its mark beside it.
pub const MAX_MARKED_EDGES: usize = 24;
