//! Replicas are asked at random, and a slow model replies as they do.
pub mod acts;
mod books;
mod tally;
mod worlds;
