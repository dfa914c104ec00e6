//! Books that seats share, in one thread and in threads of their own.
ghost use Rattle.std.specs.Prelude.{◌≡◌, Some};
ghost use Rattle.std.specs.Arc.{arc_value};

mod calls;
mod claims;
mod closing;
mod halls;
mod resting;
mod rows;
mod sixteen;
pub mod work;

use chr_acts::Book;
use chr_join::Accepted;
use chr_shared::{MAX_SEATS, Naming, Opening, Seat, Shared};
use std::alloc::Global;
use std::process::Abort;
use std::sync::Arc;

/// A book of the program that was told nothing, about to be shared by `seats` seats, at most 16.
pub fn opening(rt: &impl Abort, alloc: Global, accepted: &Arc<Accepted>, seats: u32) -> Opening
    ensures { result.accepted ≡ Some (arc_value accepted.now) }
{
    if seats < 1 || seats > MAX_SEATS {
        panic!(rt; "another number of seats");
    }
    let program = accepted.clone().expect(rt, "memory");
    let book = Book::open(alloc, program).expect(rt, "memory");
    Opening::of(alloc, book, seats).ok().expect(rt, "memory")
}

/// The shared book with its seats.
pub fn opened<J: Naming, R: Abort>(
    rt: &R,
    alloc: Global,
    opening: Opening,
) -> (Shared<J>, Vec<Seat<J>>)
    requires { opening ≡ J.opening }
{
    let opened = Shared::<J>::open(alloc, opening).ok();
    opened.expect(rt, "memory")
}

/// Closes the book of all of these seats.
pub fn close<J: Naming>(rt: &impl Abort, shared: Shared<J>, seats: Vec<Seat<J>>) -> Book {
    if !shared.has_all(&seats) {
        panic!(rt; "other seats");
    }
    shared.close(seats, &[])
}
