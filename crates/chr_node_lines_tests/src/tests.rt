//! Lines with their replies. Where memory runs out a test ends.
mod lines;
