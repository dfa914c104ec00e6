//! Manners of sending.
ghost use Rattle.std.specs.Prelude.{◌≡◌, ℕ, List, [], OnOk, OnErr, string_bytes};
ghost use Rattle.chr_device.specs.Devices.{AppendsPart};
ghost use Rattle.chr_run.specs.Answered.{Moves};
ghost use Rattle.chr_run.specs.Ends.{Ends};

use crate::peer::Peer;
use chr_device::RunFault;

/// A manner of sending answers to a peer.
pub trait Sink<P: Peer> {
    // When nothing of a text that is held has to be sent before the peer is waited for; and when nothing of it has to
    // be sent before more is answered.
    ghost is_settled: { Self → List ℕ → Type 0 };

    ghost is_short: { Self → List ℕ → Type 0 };

    /// Sends what has to be sent before more is answered. An answer was just added.
    ///
    /// # Errors
    ///
    /// `Device` where the peer fails. Less may have been sent then.
    fn offer(&mut self, peer: &mut P, held: &mut String) -> Result<(), RunFault>
        ensures ok { OnOk result (Moves (P.sent peer.old) (P.sent peer.new)
            (string_bytes held.old) (string_bytes held.new) []) }
        ensures short { OnOk result (is_short self.new (string_bytes held.new)) }
        ensures err { OnErr result (AppendsPart (P.sent peer.old) (P.sent peer.new) (string_bytes held.old)) }
        ensures kept { P.unread peer.new ≡ P.unread peer.old }
        ensures ends { Ends result (P.is_broken peer.old) (P.is_broken peer.new) };

    /// Sends what has to be sent before the peer is waited for.
    ///
    /// # Errors
    ///
    /// `Device` where the peer fails. Less may have been sent then.
    fn settle(&mut self, peer: &mut P, held: &mut String) -> Result<(), RunFault>
        ensures ok { OnOk result (Moves (P.sent peer.old) (P.sent peer.new)
            (string_bytes held.old) (string_bytes held.new) []) }
        ensures settled { OnOk result (is_settled self.new (string_bytes held.new)) }
        ensures err { OnErr result (AppendsPart (P.sent peer.old) (P.sent peer.new) (string_bytes held.old)) }
        ensures kept { P.unread peer.new ≡ P.unread peer.old }
        ensures ends { Ends result (P.is_broken peer.old) (P.is_broken peer.new) };
}
