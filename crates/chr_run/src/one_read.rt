//! What one read brings.
ghost use Rattle.std.specs.Prelude.{[], true};

use crate::peer::Peer;
use crate::reading::read_once;
use crate::source::Source;
use chr_device::RunFault;

/// Gives what one read brought, so that nothing is waited for before it is answered.
#[derive(Clone, Copy, Debug)]
pub struct OneRead;

impl<P: Peer> Source<P, Vec<u8>> for OneRead {
    ghost begun = { λ _. [] };

    ghost fits = { λ _ _. Unit {0} };

    ghost may_read_on = { λ _ p. P.may_wait p };

    ghost leaves = { λ _. true };

    ghost gives = { λ _ _. Unit {0} };

    fn next(&mut self, peer: &mut P, batch: &mut Vec<u8>) -> Result<bool, RunFault> {
        batch.clear();
        read_once(peer, batch)
    }

    fn leaves(&self) -> bool {
        true
    }
}
