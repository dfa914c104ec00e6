//! Blocks of bytes, cut where batches may end.
ghost use Rattle.std.specs.Prelude.{◌≡◌, ◌≤◌, ◌++◌, [], ℕ, List, false, length, take, OnOk};
ghost use Rattle.std.specs.Bool.{OnTrue};
ghost use Rattle.chr_run.specs.Sources.{begun_of};

use crate::peer::Peer;
use crate::reading::read_block;
use crate::source::Source;
use chr_device::RunFault;
use std::alloc::{AllocError, Global};

/// Where batches may end.
pub trait Cut {
    // These bytes may be a batch, though more come.
    ghost AreWhole: { List ℕ → Type 0 };

    /// How many of the bytes may be a batch. Those after them wait for what comes.
    fn whole_len(&self, bytes: &[u8]) -> usize
        ensures within { result ≤ length bytes.now }
        ensures whole { AreWhole (take result bytes.now) };
}

/// They may end anywhere.
#[derive(Clone, Copy, Debug)]
pub struct Anywhere;

impl Cut for Anywhere {
    ghost AreWhole = { λ _. Unit {0} };

    fn whole_len(&self, bytes: &[u8]) -> usize {
        bytes.len()
    }
}

/// Keeps the bytes of a room that may be a batch, and moves those after them.
fn cut_at<C: Cut>(cut: &C, room: &mut Vec<u8>, begun: &mut Vec<u8>) -> Result<(), AllocError>
    requires { begun.old.items ≡ [] }
    ensures are { OnOk result (room.old.items ≡ room.new.items ++ begun.new.items) }
    ensures whole { OnOk result (C.AreWhole room.new.items) }
{
    let whole = cut.whole_len(room);
    begun.extend_from_slice(room.split_at(whole).1)?;
    room.truncate(whole);
    Ok(())
}

/// Reads ahead, block by block: each is twice as long as the one before it, so that little is waited for at first.
#[derive(Drop)]
pub struct Blocks<C> {
    /// Where a block may end.
    cut: C,
    /// What was read after the end of the block that was given.
    begun: Vec<u8>,
    /// The least bytes of the next block, if that many come.
    size: usize,
    /// The least bytes of the longest one.
    most: usize,
}

impl<C> Blocks<C> {
    /// Blocks that are cut so, of `size` to `most` bytes. Nothing was read.
    pub fn new(alloc: Global, cut: C, size: usize, most: usize) -> Blocks<C>
        ensures { begun_of result ≡ [] }
    {
        Blocks {
            cut,
            begun: Vec::new(alloc),
            size,
            most,
        }
    }
}

impl<P: Peer, C: Cut> Source<P, Vec<u8>> for Blocks<C> {
    ghost begun = { begun_of };

    ghost fits = { λ _ _. Unit {0} };

    ghost may_read_on = { λ _ _. (p : P) → P.may_wait p };

    ghost leaves = { λ _. false };

    ghost gives = { λ more batch. OnTrue more (C.AreWhole batch.items) };

    fn next(&mut self, peer: &mut P, batch: &mut Vec<u8>) -> Result<bool, RunFault> {
        batch.clear();
        batch.extend_from_slice(&self.begun)?;
        self.begun.clear();
        // What has begun is not copied once more for each block that it takes.
        let least = self.size.max(batch.len().saturating_mul(2)).max(1);
        let more = read_block(peer, batch, least)?;
        if more {
            cut_at(&self.cut, batch, &mut self.begun)?;
        }
        self.size = self.size.saturating_mul(2).min(self.most);
        Ok(more)
    }

    fn leaves(&self) -> bool {
        false
    }
}
