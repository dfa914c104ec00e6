//! Two manners of sending: nothing at all, and what is held before the peer is waited for.
ghost use Rattle.std.specs.Prelude.{◌≡◌, ◌<◌, ◌⊎◌, ℕ, List, [], length, OnOk, OnErr, string_bytes};
ghost use Rattle.chr_device.specs.Devices.{AppendsPart};
ghost use Rattle.chr_run.specs.Answered.{Moves};
ghost use Rattle.chr_run.specs.Ends.{Ends};

use crate::peer::{Peer, Wire};
use crate::sink::Sink;
use chr_device::RunFault;

/// Holds all answers. Whoever has them when all are there may write them.
#[derive(Clone, Copy, Debug)]
pub struct HoldsAll;

impl<P: Peer> Sink<P> for HoldsAll {
    ghost is_settled = { λ _ _. Unit {0} };

    ghost is_short = { λ _ _. Unit {0} };

    fn offer(&mut self, _peer: &mut P, _held: &mut String) -> Result<(), RunFault> {
        Ok(())
    }

    fn settle(&mut self, _peer: &mut P, _held: &mut String) -> Result<(), RunFault> {
        Ok(())
    }
}

/// Sends all that is held before the peer is waited for, and where that is long before more is answered.
#[derive(Clone, Copy, Debug)]
pub struct SendsPromptly {
    /// Answers of this many bytes are long.
    pub most: usize,
}

/// Sends all that is held, if anything is.
fn send_all<T: Wire>(wire: &mut T, held: &mut String) -> Result<(), RunFault>
    ensures ok { OnOk result (Moves (T.sent wire.old) (T.sent wire.new)
        (string_bytes held.old) (string_bytes held.new) []) }
    ensures none { OnOk result (string_bytes held.new ≡ []) }
    ensures err { OnErr result (AppendsPart (T.sent wire.old) (T.sent wire.new) (string_bytes held.old)) }
    ensures kept { T.unread wire.new ≡ T.unread wire.old }
    ensures ends { Ends result (T.is_broken wire.old) (T.is_broken wire.new) }
{
    if held.is_empty() {
        return Ok(());
    }
    wire.send(held.as_bytes())?;
    held.clear();
    Ok(())
}

impl<T: Wire> Sink<T> for SendsPromptly {
    ghost is_settled = { λ _ held. held ≡ [] };

    ghost is_short = { λ s held. (length held < s.most) ⊎ (held ≡ []) };

    fn offer(&mut self, wire: &mut T, held: &mut String) -> Result<(), RunFault> {
        if held.len() < self.most {
            return Ok(());
        }
        send_all(wire, held)
    }

    fn settle(&mut self, wire: &mut T, held: &mut String) -> Result<(), RunFault> {
        send_all(wire, held)
    }
}
