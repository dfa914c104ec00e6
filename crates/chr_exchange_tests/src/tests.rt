//! Sets of operations, lines of JSON that are commands, and texts of exchange. Where memory runs out a test ends.
mod lines;
mod messages;
mod operations;
