//! Manners of reading.
ghost use Rattle.std.specs.Prelude.{◌≡◌, ◌<◌, ◌++◌, ℕ, List, Bool, Option, length, IfOk, OnOk};
ghost use Rattle.std.specs.Bool.{OnTrue};
ghost use Rattle.std.specs.Io.KnownBytes.{prepend_known};
ghost use Rattle.chr_run.specs.Answered.{IsGiven};
ghost use Rattle.chr_run.specs.Ends.{Ends};

use crate::batch::Batch;
use crate::peer::Peer;
use chr_device::RunFault;

/// A manner of reading a peer, batch by batch.
pub trait Source<P: Peer, B: Batch> {
    // The bytes that it has read of the peer and not given; what it knows of these and of those that the peer has left
    // to give; when it may read on; and whether it leaves a peer unread whose bytes are answered no more.
    ghost begun: { Self → List ℕ };

    ghost fits: { Self → Option (List ℕ) → Type 0 };

    ghost may_read_on: { Self → P → Type 0 };

    ghost leaves: { Self → Bool };

    // What it knows of a batch that it gives, before the last one and of the last one.
    ghost gives: { Bool → B → Type 0 };

    /// Gives the bytes that come next, in a room that held others, and whether more may come.
    ///
    /// # Errors
    ///
    /// `Device` where a read fails, and `Memory` where no memory was left.
    fn next(&mut self, peer: &mut P, batch: &mut B) -> Result<bool, RunFault>
        requires right { may_read_on self.old peer.old }
        requires fits { fits self.old (P.unread peer.old) }
        ensures fits { OnOk result (fits self.new (P.unread peer.new)) }
        ensures given { IfOk result (λ more. IsGiven (prepend_known (begun self.old) (P.unread peer.old))
            (prepend_known (begun self.new) (P.unread peer.new)) (P.unread peer.new) more (B.bytes batch.new)) }
        // While more may come something has come.
        ensures some { IfOk result (λ more. OnTrue more
            (length (begun self.old) < length (B.bytes batch.new ++ begun self.new))) }
        ensures gives { IfOk result (λ more. gives more batch.new) }
        ensures kept { P.sent peer.new ≡ P.sent peer.old }
        ensures leaves { OnOk result (leaves self.new ≡ leaves self.old) }
        ensures ends { Ends result (P.is_broken peer.old) (P.is_broken peer.new) };

    /// Whether it leaves a peer unread whose bytes are answered no more.
    fn leaves(&self) -> bool
        ensures { result ≡ leaves self.now };
}
