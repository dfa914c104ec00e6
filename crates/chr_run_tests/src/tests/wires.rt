//! Readers and wires that give little, and wires that hang up.
ghost use Rattle.std.specs.Prelude.{◌≡◌, ◌≤◌, None, false, length};

use chr_device::RunFault;
use chr_run::{Peer, Wire};
use std::io;
use std::io::Read;

/// A reader that gives at most so many bytes a read.
#[derive(Drop)]
pub(crate) struct Sips<'a> {
    pub(crate) rest: &'a [u8],
    pub(crate) most: usize,
}

/// Takes the next bytes, at most so many, to a buffer.
fn sip<'a>(rest: &'a [u8], most: usize, buf: &mut [u8]) -> (usize, &'a [u8])
    ensures { result.0 ≤ length buf.new }
{
    let n = most.min(buf.len()).min(rest.len());
    let (front, rest) = rest.split_at(n);
    buf[..n].copy_from_slice(front);
    (n, rest)
}

impl<'a> Read for Sips<'a> {
    ghost remaining = { λ _. None };

    fn read(&mut self, buf: &mut [u8]) -> io::Result<usize> {
        let (n, rest) = sip(self.rest, self.most, buf);
        self.rest = rest;
        Ok(n)
    }
}

/// A peer that is waited for and sent to, and notes how. Calls are counted from 1.
#[derive(Drop)]
pub(crate) struct Line<'a> {
    /// What it has to give.
    pub(crate) rest: &'a [u8],
    /// The most bytes that it gives a wait.
    pub(crate) most: usize,
    /// The call at which it hangs up, and takes no more than one byte then. None at 0.
    pub(crate) hangs_up: u64,
    /// The calls up to now.
    pub(crate) calls: u64,
    /// The lines that it gave.
    pub(crate) lines: usize,
    /// Whether it was waited for while a line that it gave was not answered.
    pub(crate) kept_waiting: bool,
    /// Whether it has failed.
    pub(crate) failed: bool,
    /// What it was sent.
    pub(crate) sent: Vec<u8>,
}

/// How many line feeds there are.
fn feeds(bytes: &[u8]) -> usize {
    bytes.iter().filter(|b| **b == b'\n').count()
}

impl<'a> Line<'a> {
    /// Gives at most so many bytes a wait. What it is sent goes to the room.
    pub(crate) fn new(rest: &'a [u8], most: usize, hangs_up: u64, room: Vec<u8>) -> Line<'a>
        ensures { result.failed ≡ false }
    {
        Line {
            rest,
            most,
            hangs_up,
            calls: 0,
            lines: 0,
            kept_waiting: false,
            failed: false,
            sent: room,
        }
    }

    /// Counts a call, and says whether it hangs up.
    fn hangs_up_now(&mut self) -> bool
        ensures { self.new.failed ≡ self.old.failed }
    {
        self.calls = self.calls.saturating_add(1);
        self.calls == self.hangs_up
    }
}

impl<'a> Peer for Line<'a> {
    ghost unread = { λ _. None };

    ghost sent = { λ _. None };

    ghost is_broken = { λ line. line.failed };

    ghost may_wait = { λ _. Unit {0} };

    fn wait(&mut self, buf: &mut [u8]) -> Result<usize, RunFault> {
        if self.hangs_up_now() {
            self.failed = true;
            return Err(RunFault::Device);
        }
        if feeds(&self.sent) != self.lines {
            self.kept_waiting = true;
        }
        let (n, rest) = sip(self.rest, self.most, buf);
        self.rest = rest;
        self.lines = self.lines.saturating_add(feeds(&buf[..n]));
        Ok(n)
    }
}

impl<'a> Wire for Line<'a> {
    fn send(&mut self, bytes: &[u8]) -> Result<(), RunFault> {
        let hangs_up = self.hangs_up_now();
        let taken = if hangs_up {
            &bytes[..bytes.len().min(1)]
        } else {
            bytes
        };
        if self.sent.extend_from_slice(taken).is_err() || hangs_up {
            self.failed = true;
            return Err(RunFault::Device);
        }
        Ok(())
    }
}
