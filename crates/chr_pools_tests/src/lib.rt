//! Tests of stores and calls at random: pools keep what a plain list keeps, and rest stores as it does. There is
//! nothing here but tests.
#![tactic(auto)]

#[cfg(test)]
mod tests;
