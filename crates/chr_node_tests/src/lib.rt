//! Tests of nodes that answer lines and whose operations a board holds, over files in memory. There is nothing here but
//! tests.
#![tactic(auto)]

#[cfg(test)]
mod tests;
