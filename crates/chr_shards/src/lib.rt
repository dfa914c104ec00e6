//! Stores that are kept in several pools, where the rules of a program allow it, so that several threads rest a store
//! without taking it apart.
//!
//! Rules allow it where all atoms of an instance, and those that it puts in, have one value of an argument: atoms of
//! one value lie in one pool, and so the pools are rested by themselves.
#![tactic(auto)]

mod hastening;
mod placing;
mod pools;
mod shards;

pub use shards::Shards;
