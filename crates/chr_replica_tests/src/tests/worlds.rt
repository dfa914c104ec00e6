//! Worlds of replicas of the program of the least value.
mod rows;

use crate::tests::texts::accepted;
use chr_testing::texts::MINIMUM;
use chr_worlds::{Answer, Event, World};
use std::alloc::Global;
use std::process::Abort;
use std::thread::Threads;

/// A world of four replicas.
pub fn four(rt: &(impl Abort + Threads + Sync), alloc: Global) -> World {
    World::open(alloc, accepted(rt, alloc, MINIMUM), 4).expect(rt, "memory")
}

/// What the world answers to the event, with ample memory.
pub fn answer(rt: &impl Abort, alloc: Global, world: &mut World, event: &Event) -> Answer {
    assert!(rt; event.fits(), "it does not fit");
    world.act(alloc, event).expect(rt, "memory")
}
