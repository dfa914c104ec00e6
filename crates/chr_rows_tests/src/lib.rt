//! Tests of rows that are written out, in public words, from texts and order types to the rows of a pool. There is
//! nothing here but tests.
#![tactic(auto)]

#[cfg(test)]
mod tests;
