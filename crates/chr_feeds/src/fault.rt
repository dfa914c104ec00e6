//! Why a feed gave up.

ghost use Rattle.std.specs.Prelude.{◌≡◌};
ghost use Rattle.chr_feeds.specs.declared.fault.FeedFault.TheVariants.{Disk, Memory};

use std::alloc::AllocError;
use std::io;

/// Why a feed gave up. After `Disk` the feed is only read: no clause says that more may be appended.
#[derive(Clone, Copy, Debug, PartialEq, Eq)]
pub enum FeedFault {
    /// The disk refused a call. What was to be appended may be there after a crash, all of it or a front.
    Disk,
    /// The disk says that the file is not empty, which it has to be.
    NotEmpty,
    /// The feed would have more than [`MAX_SIZE`](crate::MAX_SIZE) bytes.
    Full,
    /// No memory was left.
    Memory,
}

impl From<io::Error> for FeedFault {
    ghost from_gives = { λ _ e. e ≡ Disk };

    fn from(_error: io::Error) -> FeedFault {
        FeedFault::Disk
    }
}

impl From<AllocError> for FeedFault {
    ghost from_gives = { λ _ e. e ≡ Memory };

    fn from(_error: AllocError) -> FeedFault {
        FeedFault::Memory
    }
}
