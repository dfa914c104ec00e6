//! A slow model of replicas of the program of the least value.
pub mod replica;
pub mod values;
