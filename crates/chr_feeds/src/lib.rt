//! A log of records in a file, to which one writer only appends, over a disk that may crash.
//!
//! A record counts behind an open gate. Where a torn write leaves each byte old or new, records are written over
//! blanks, and one sync is enough. Elsewhere they are written behind a closed gate, which is opened once they are on
//! the disk.
#![tactic(auto)]

mod fault;
mod feed;
mod limits;
mod recovery;
mod wire;

pub use fault::FeedFault;
pub use feed::{Feed, NotCreated};
pub use limits::{BLOCK, MAX_SIZE};
pub use recovery::{append_and_crash, read_file, recover};
pub use wire::{Wire, keep_and_tell};
