//! Tables of texts, order types, overlaps, derivations, columns and limits with what is expected of them; and how rows
//! are hashed, compacted and printed. Where memory runs out a test ends.
mod cases;
mod compacting;
mod hashes;
mod lanes;
mod limits;
mod overlaps;
mod plain;
mod printing;
mod texts;
mod types;
mod written;
