//! Command lines that several threads read before their turn.
ghost use Rattle.std.specs.Prelude.{◌≤◌, All, IfOk};
ghost use Rattle.chr_join.specs.AcceptedPrograms.{program_in};
ghost use Rattle.chr_answers.specs.Ahead.{IsAhead};
ghost use Rattle.chr_answers.specs.Requests.{IsHeard};

use crate::gathering::gather;
use chr_answers::{Ahead, Carried, Heard, Request, read_one};
use chr_base::program::Program;
use chr_join::Accepted;
use std::alloc::{AllocError, Global};

/// The most lines of a text that are read ahead, so that what short lines ask for takes no more memory than this many
/// requests.
pub(crate) const MOST_LINES: usize = 65_536;

/// The memory of what lines ask for, as a multiple of their bytes.
const ROOM: usize = 3;

/// The replica that the first line of a text tells an operation, if that is what it asks for.
pub(crate) fn first_replica(alloc: Global, program: &Program, text: &[u8]) -> Option<u64> {
    let Heard { request, .. } = read_one(alloc, program, text, text.len())?;
    match request {
        Some(Request::Tell(replica, _op)) => Some(replica),
        _ => None,
    }
}

/// Asks for as much memory at once as lines of `size` bytes take, and gives it back. Some allocators ask the system for
/// each page that a thread takes, and have the other threads wait meanwhile: such an allocator has these pages then.
fn make_room(alloc: Global, size: usize) {
    let _room = Vec::<u8>::with_capacity(alloc, size.saturating_mul(ROOM));
}

/// Reads the lines that are left of a text.
fn read_lines(
    alloc: Global,
    program: &Program,
    text: &[u8],
    left: usize,
) -> Result<Vec<Heard>, AllocError>
    ensures { IfOk result (λ lines. All (IsHeard program.now text.now) lines.items) }
{
    let mut found = Vec::new(alloc);
    let mut left = left;
    while left > 0 && found.len() < MOST_LINES {
        let Some(heard) = read_one(alloc, program, text, left) else {
            break;
        };
        left = heard.more;
        found.push(heard)?;
    }
    Ok(found)
}

/// Reads the lines of a text. If the block is to be rested, `carried` is what its first tells are rested with.
pub(crate) fn read_ahead(
    alloc: Global,
    accepted: &Accepted,
    text: &[u8],
    carried: Option<Carried>,
) -> Result<Ahead, AllocError>
    ensures { IfOk result (IsAhead (program_in accepted.now) text.now) }
{
    make_room(alloc, text.len());
    let tells = match carried {
        Some(carried) => gather(alloc, accepted, text, carried)?,
        None => None,
    };
    let left = match &tells {
        Some(tells) => tells.more,
        None => text.len(),
    };
    let heard = read_lines(alloc, accepted.program(), text, left)?;
    Ok(Ahead::of(tells, heard))
}
