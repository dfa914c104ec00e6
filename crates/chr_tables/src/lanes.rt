//! The first row of columns at which tests hold, eight rows at a time.

mod block;
mod rows;
mod test;

pub use rows::first_row;
pub use test::{Against, Test};
