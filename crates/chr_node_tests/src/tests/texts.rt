//! Programs as texts, boards of them, and lines.
ghost use Rattle.std.specs.Prelude.{◌≡◌};
ghost use Rattle.std.specs.FinMap as map;
ghost use Rattle.chr_node_boards.specs.Shown.{operations_on};

use chr_join::{Accepted, Coverage, accept};
use chr_node_boards::NodeBoard;
use chr_testing::texts::weighed_of;
use std::alloc::Global;
use std::process::Abort;
use std::sync::Arc;
use std::thread::Threads;

/// A line that tells a coin.
pub const COIN: &str = "[\"tell\",[[\"coin\"]]]\n";

/// The accepted program of a text.
fn accepted_in(rt: &(impl Abort + Threads + Sync), alloc: Global, text: &str) -> Arc<Accepted> {
    let weighed = weighed_of(alloc, text).expect(rt, "a program that lowers");
    let accepted = accept(rt, alloc, weighed, Coverage::Joint).ok();
    Arc::new(alloc, accepted.expect(rt, "accepted")).expect(rt, "memory")
}

/// A board of the program of a text that was told nothing.
pub fn board_of(rt: &(impl Abort + Threads + Sync), alloc: Global, text: &str) -> NodeBoard
    ensures { operations_on result ≡ map.empty }
{
    NodeBoard::open(alloc, accepted_in(rt, alloc, text)).expect(rt, "memory")
}

/// A text several times.
pub fn repeated(rt: &impl Abort, alloc: Global, text: &str, times: u64) -> String {
    let mut whole = String::new(alloc);
    for _time in 0..times {
        whole.push_str(text).expect(rt, "memory");
    }
    whole
}
