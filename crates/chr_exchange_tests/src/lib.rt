//! Tests of operation sets, of lines and of messages, in the public words of `chr_ops`, `chr_json` and `chr_exchange`.
//! There is nothing here but tests.
#![tactic(auto)]

#[cfg(test)]
mod tests;
