//! Worlds: replicas of one accepted program that each take events of their own and exchange what they were told.
#![tactic(auto)]

mod answer;
mod board_list;
mod boards;
mod calls;
mod event;
mod gained;
pub mod laws;
mod playing;
mod refusal;
mod resting;
mod world;

pub use answer::Answer;
pub use event::Event;
pub use playing::PlayStopped;
pub use refusal::{NotSettled, WorldRefusal};
pub use world::World;
