//! Whom bytes come from, and whom answers are sent.
ghost use Rattle.std.specs.Prelude.{◌≡◌, ℕ, List, [], Bool, true, Option, Some, OnOk, OnErr, Err};
ghost use Rattle.std.specs.Io.{ReadsAtMost};
ghost use Rattle.std.specs.Io.KnownBytes.{Appends, ReadConsumes};
ghost use Rattle.chr_device.specs.Devices.{AppendsPart, inner_of, has_failed};
ghost use Rattle.chr_device.specs.declared.fault.RunFault.TheVariants.{Device};

use chr_device::{RunFault, Watched};
use std::io::Read;

/// A peer that gives bytes.
pub trait Peer {
    // The bytes that it has left to give and those that it was sent, where they are known; whether it has failed; and
    // when it may be waited for.
    ghost unread: { Self → Option (List ℕ) };

    ghost sent: { Self → Option (List ℕ) };

    ghost is_broken: { Self → Bool };

    ghost may_wait: { Self → Type 0 };

    /// Waits for bytes, and gives as many as are there, up to the buffer's length. None are the end.
    ///
    /// # Errors
    ///
    /// `Device` where the read fails.
    fn wait(&mut self, buf: &mut [u8]) -> Result<usize, RunFault>
        requires { may_wait self.old }
        ensures bound { ReadsAtMost result buf.new }
        ensures bytes { ReadConsumes (unread self.old) (unread self.new) result buf.new }
        ensures kept { sent self.new ≡ sent self.old }
        ensures whole { OnOk result (is_broken self.new ≡ is_broken self.old) }
        ensures device { OnErr result ((result ≡ Err Device) × (is_broken self.new ≡ true)) };
}

/// A peer that is sent bytes, too.
pub trait Wire: Peer {
    /// Writes all bytes, and flushes.
    ///
    /// # Errors
    ///
    /// `Device` where a write or the flush fails. A beginning of the bytes is written then.
    fn send(&mut self, bytes: &[u8]) -> Result<(), RunFault>
        ensures ok { OnOk result (Appends (Self.sent self.old) (Self.sent self.new) bytes.now) }
        ensures err { OnErr result (AppendsPart (Self.sent self.old) (Self.sent self.new) bytes.now) }
        ensures kept { Self.unread self.new ≡ Self.unread self.old }
        ensures whole { OnOk result (Self.is_broken self.new ≡ Self.is_broken self.old) }
        ensures device { OnErr result ((result ≡ Err Device) × (Self.is_broken self.new ≡ true)) };
}

/// A reader may be waited for at any time, and is sent nothing.
impl<R: Read> Peer for Watched<R> {
    ghost unread = { λ w. R.remaining (inner_of w) };

    ghost sent = { λ _. Some [] };

    ghost is_broken = { has_failed };

    ghost may_wait = { λ _. Unit {0} };

    fn wait(&mut self, buf: &mut [u8]) -> Result<usize, RunFault> {
        match self.read(buf) {
            Ok(n) => Ok(n),
            Err(_) => Err(RunFault::Device),
        }
    }
}
