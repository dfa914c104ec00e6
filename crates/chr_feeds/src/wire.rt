//! A wire on which a text is told to be kept only once every outcome of a crash has it.
ghost use Rattle.std.specs.Prelude.{◌≡◌, ◌++◌, [], ◌∷◌, ℕ, List, IsTrue, OnOk};
ghost use Rattle.chr_records.specs.Records.{IsText, records_of};
ghost use Rattle.chr_feeds.specs.Feeds.{IsAtRest};
ghost use Rattle.chr_feeds.specs.Files.{IsDurable};

use crate::{Feed, FeedFault};
use chr_records::push_record;
use sqlite_disk::Disk;
use std::alloc::Global;

/// What tells a caller which texts are kept.
pub trait Wire {
    /// The texts that were told to be kept, the newest first.
    ghost told: { Self → List (List ℕ) };

    /// Tells that a disk keeps a text.
    ///
    /// # Errors
    ///
    /// `Disk` where the message can't be sent.
    fn send_told<D: Disk>(&mut self, disk: &D, text: &[u8]) -> Result<(), FeedFault>
        requires { IsDurable (D.may_leave disk.now) text.now }
        ensures { OnOk result (told self.new ≡ text.now ∷ told self.old) };
}

/// Keeps a text in the feed, and then tells that it is kept.
///
/// # Errors
///
/// Those of [`Feed::append`], and of the wire.
pub fn keep_and_tell<D: Disk, W: Wire>(
    alloc: Global,
    feed: &mut Feed<D>,
    wire: &mut W,
    text: &[u8],
) -> Result<(), FeedFault>
    requires at_rest { IsAtRest D.seen D.may_leave D.is_usable feed.old }
    requires one { IsText text.now }
    ensures there { OnOk result (records_of (D.seen feed.new.disk)
        ≡ records_of (D.seen feed.old.disk) ++ text.now ∷ []) }
    ensures at_rest { OnOk result (IsAtRest D.seen D.may_leave D.is_usable feed.new) }
    ensures durable { OnOk result (IsDurable (D.may_leave feed.new.disk) text.now) }
    ensures told { OnOk result (W.told wire.new ≡ text.now ∷ W.told wire.old) }
    ensures calm { OnOk result (D.faults feed.new.disk ≡ D.faults feed.old.disk) }
{
    let mut batch = Vec::new(alloc);
    push_record(&mut batch, text)?;
    feed.append(alloc, &batch)?;
    wire.send_told(&feed.disk, text)?;
    Ok(())
}
