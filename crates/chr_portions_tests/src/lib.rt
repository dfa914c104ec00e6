//! Tests of an index of portions beside a plain list. There is nothing here but tests.
#![tactic(auto)]

#[cfg(test)]
mod tests;
