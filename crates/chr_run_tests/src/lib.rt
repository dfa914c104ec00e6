//! Tests of devices, of threads that are kept, and of the loop that feeds a machine, over readers, writers and wires
//! that give and take little or fail, in public words. There is nothing here but tests.
#![tactic(auto)]

#[cfg(test)]
mod tests;
