//! Tests of records and of feeds, in the public words of `chr_records` and `chr_feeds`, and a disk for them. Nothing
//! here is for programs.
#![tactic(auto)]

#[cfg(test)]
mod lasting;
#[cfg(test)]
mod tests;
