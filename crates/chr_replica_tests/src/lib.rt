//! Tests of replicas, in public words: books that are called often, workers that rest replicas, worlds, and books that
//! seats share, in one thread and in threads of their own. `tests/seats/halls.rt` is a worked example of shared books.
//! There is nothing here but tests.
#![tactic(auto)]

#[cfg(test)]
mod tests;
