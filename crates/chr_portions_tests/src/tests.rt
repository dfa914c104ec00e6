//! Operations that look random, by the index and by a plain list. Where memory runs out a test ends.
mod beside;
mod list;
