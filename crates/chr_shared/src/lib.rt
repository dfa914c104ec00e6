//! Books that threads share. An [`Opening`] prepares a book for a number of seats, and [`Shared::open`] gives the seats
//! out. Each call of a seat is one act under the book's lock, and answers a receipt: an equal copy of the entry that it
//! made. [`Shared::close`] gives the book back; its journal since the opening has the receipts of the seats and no
//! other entries.
#![tactic(auto)]

mod laws;
mod limits;
mod locked_book;
mod naming;
mod seat;
mod settled;
mod settling;
mod shared;
mod tie;

pub use chr_acts::Entry as Receipt;
pub use laws::receipts_are_listed;
pub use limits::MAX_SEATS;
pub use naming::{Naming, Opening};
pub use seat::Seat;
pub use settled::Settled;
pub use shared::Shared;
