//! Nodes of the program of coins, of which two make a note. Where memory runs out a test ends.
mod crashes;
mod exchanges;
mod lines;
mod talking;
mod texts;
