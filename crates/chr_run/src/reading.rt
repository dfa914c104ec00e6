//! One read, and reads to a size.
ghost use Rattle.std.specs.Prelude.{◌≡◌, ◌<◌, ◌≤◌, length, vec_len, IfOk, OnOk};
ghost use Rattle.std.specs.Bool.{OnTrue, OnFalse};
ghost use Rattle.std.specs.Io.KnownBytes.{IsAtEnd};
ghost use Rattle.chr_device.specs.Devices.{ReadsOn};
ghost use Rattle.chr_run.specs.Ends.{Ends};

use crate::peer::Peer;
use chr_device::RunFault;

/// The most bytes of a read. They lie on the stack.
const CHUNK: usize = 4_096;

/// Reads once, to what a room holds. False at the end.
pub(crate) fn read_once<P: Peer>(peer: &mut P, room: &mut Vec<u8>) -> Result<bool, RunFault>
    requires { P.may_wait peer.old }
    ensures read { OnOk result (ReadsOn (P.unread peer.old) (P.unread peer.new) room.old.items room.new.items) }
    ensures end { IfOk result (λ more. OnFalse more (IsAtEnd (P.unread peer.new))) }
    ensures grows { IfOk result (λ more. OnTrue more (length room.old.items < length room.new.items)) }
    ensures kept { P.sent peer.new ≡ P.sent peer.old }
    ensures ends { Ends result (P.is_broken peer.old) (P.is_broken peer.new) }
{
    let mut chunk = [0u8; CHUNK];
    let n = peer.wait(&mut chunk)?;
    if n == 0 {
        return Ok(false);
    }
    room.extend_from_slice(&chunk[..n])?;
    Ok(true)
}

/// Reads on until a room holds this many bytes, and no more have come. False at the end.
pub(crate) fn read_block<P: Peer>(
    peer: &mut P,
    room: &mut Vec<u8>,
    size: usize,
) -> Result<bool, RunFault>
    requires { (p : P) → P.may_wait p }
    ensures read { OnOk result (ReadsOn (P.unread peer.old) (P.unread peer.new) room.old.items room.new.items) }
    ensures end { IfOk result (λ more. OnFalse more (IsAtEnd (P.unread peer.new))) }
    ensures size { IfOk result (λ more. OnTrue more (size ≤ vec_len room.new)) }
    ensures kept { P.sent peer.new ≡ P.sent peer.old }
    ensures ends { Ends result (P.is_broken peer.old) (P.is_broken peer.new) }
{
    while room.len() < size {
        if !read_once(peer, room)? {
            return Ok(false);
        }
    }
    Ok(true)
}
