//! The end of a book that was shared.
ghost use Rattle.std.specs.Prelude.{◌≡◌, ◌≤◌, Some};
ghost use Rattle.std.specs.List.{Contains};
ghost use Rattle.chr_base.specs.declared.limits.TheConstants.{MAX_PARTS, MAX_WORKERS};

use chr_acts::{Book, Reply};
use chr_base::bag::Bag;
use chr_base::limits::{MAX_PARTS, MAX_WORKERS};
use chr_shared::{Naming, Receipt, Seat, Settled, Shared};
use chr_workers::OpenGate;
use std::alloc::Global;
use std::process::Abort;
use std::sync::Wait;
use std::thread::Threads;

/// The store that a receipt shows, if it shows one.
pub fn shown(receipt: &Receipt) -> Option<&Bag> {
    match &receipt.reply {
        Reply::Shown(store) => Some(store),
        _ => None,
    }
}

/// The first seat has workers rest the book, which comes to rest, and the book is closed with the receipt of the show.
/// That stands in the book's journal, as the contract says.
pub fn closed<J: Naming, R: Abort + Threads + Wait + Sync>(
    rt: &R,
    alloc: Global,
    shared: Shared<J>,
    seats: Vec<Seat<J>>,
    workers: u32,
    parts: u32,
) -> (Receipt, Book)
    requires workers { (1 ≤ workers) × (workers ≤ MAX_WORKERS) }
    requires parts { (1 ≤ parts) × (parts ≤ MAX_PARTS) }
    ensures receipt { Contains result.1.entries result.0 }
    ensures program { Some result.1.board.accepted ≡ J.opening.accepted }
{
    let mut seats = seats;
    let Some(first) = seats.first_mut() else {
        panic!(rt; "no seat");
    };
    let settled = shared.settle_with(rt, alloc, first, workers, parts, &OpenGate);
    if !shared.has_all(&seats) {
        panic!(rt; "a seat is missing");
    }
    let Settled::Rest(receipt) = settled else {
        panic!(rt; "no store is shown");
    };
    let book = shared.close_with(seats, &receipt);
    (receipt, book)
}
