//! Tests of the words of a node, in the public words of `chr_queries` and `chr_node_lines`. There is nothing here but
//! tests.
#![tactic(auto)]

#[cfg(test)]
mod tests;
