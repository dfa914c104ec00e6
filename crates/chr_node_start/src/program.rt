//! The program of a node.

use crate::failure::Failure;
use chr_base::program::Program;
use chr_join::{Accepted, Cause, Coverage, accept};
use chr_read::{read, write};
use chr_weights::{Weighed, weigh};
use sqlite_disk::digest_of;
use std::alloc::Global;
use std::random::RandomSource;
use std::thread::Threads;

/// An accepted program, and the number by which feeds name it.
#[derive(Drop)]
pub(crate) struct Judged {
    pub(crate) accepted: Accepted,
    pub(crate) digest: u64,
}

fn refused(alloc: Global, path: &str) -> Failure {
    match format!(in alloc; "{path}: the program is refused: `chrrep explain < {path}` says why") {
        Ok(sentence) => Failure::Refused(sentence),
        Err(_) => Failure::Memory,
    }
}

/// The program of a text in a file.
fn program_in(alloc: Global, path: &str, text: &[u8]) -> Result<Program, Failure> {
    read(alloc, text).map_err(|_| refused(alloc, path))
}

/// What stands for a program: programs of one canonical text have one number.
fn digest(alloc: Global, program: &Program) -> Result<u64, Failure> {
    let text = write(alloc, program)?;
    Ok(digest_of(0, text.as_bytes()))
}

/// What stands for the program of a text in a file.
pub(crate) fn digest_in(alloc: Global, path: &str, text: &[u8]) -> Result<u64, Failure> {
    let program = program_in(alloc, path, text)?;
    digest(alloc, &program)
}

/// Accepts by joint cases, and by sorted ones where these are too many, or where they are asked for.
fn accepted(
    rt: &(impl Threads + Sync),
    alloc: Global,
    path: &str,
    weighed: Weighed,
    wide: bool,
) -> Result<Accepted, Failure> {
    let coverage = if wide {
        Coverage::Sorted
    } else {
        Coverage::Joint
    };
    let back = match accept(rt, alloc, weighed, coverage) {
        Ok(accepted) => return Ok(accepted),
        Err(back) => back,
    };
    match back.cause {
        Cause::Memory => Err(Failure::Memory),
        Cause::TooManyTypes(_) if !wide => accepted_widely(rt, alloc, path, back.weighed),
        _ => Err(refused(alloc, path)),
    }
}

fn accepted_widely(
    rt: &(impl Threads + Sync),
    alloc: Global,
    path: &str,
    weighed: Weighed,
) -> Result<Accepted, Failure> {
    match accept(rt, alloc, weighed, Coverage::Sorted) {
        Ok(accepted) => Ok(accepted),
        Err(_) => Err(refused(alloc, path)),
    }
}

/// Stores hash keys under a seed that the system draws, so that nobody can choose facts whose keys meet in one place.
fn with_drawn_seed(rt: &impl RandomSource, accepted: Accepted) -> Accepted {
    let mut bytes = [0; 8];
    match rt.fill_bytes(&mut bytes) {
        Ok(()) => accepted.seeded(u64::from_le_bytes(bytes)),
        Err(_) => accepted,
    }
}

/// Judges the program of a text in a file.
pub(crate) fn judge(
    rt: &(impl RandomSource + Threads + Sync),
    alloc: Global,
    path: &str,
    text: &[u8],
    wide: bool,
) -> Result<Judged, Failure> {
    let program = program_in(alloc, path, text)?;
    let digest = digest(alloc, &program)?;
    let weighed = match weigh(program) {
        Ok(weighed) => weighed,
        Err(_) => return Err(refused(alloc, path)),
    };
    let accepted = accepted(rt, alloc, path, weighed, wide)?;
    Ok(Judged {
        accepted: with_drawn_seed(rt, accepted),
        digest,
    })
}
