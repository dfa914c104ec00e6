//! What a service reads from and writes to.
ghost use Rattle.chr_report.specs.Wires.{is_broken, reader_of, writer_of};

use chr_device::{RunFault, Watched, write_whole};
use chr_run::{Peer, Wire};
use std::io::{Read, Write};

/// A reader and a writer. They may be waited for at any time.
#[derive(Drop)]
pub struct Streams<R, W> {
    pub reader: Watched<R>,
    pub writer: Watched<W>,
}

impl<R: Read, W: Write> Peer for Streams<R, W> {
    ghost unread = { λ w. R.remaining (reader_of w) };

    ghost sent = { λ w. W.contents (writer_of w) };

    ghost is_broken = { is_broken };

    ghost may_wait = { λ _. Unit {0} };

    fn wait(&mut self, buf: &mut [u8]) -> Result<usize, RunFault> {
        match self.reader.read(buf) {
            Ok(n) => Ok(n),
            Err(_) => Err(RunFault::Device),
        }
    }
}

impl<R: Read, W: Write> Wire for Streams<R, W> {
    fn send(&mut self, bytes: &[u8]) -> Result<(), RunFault> {
        write_whole(&mut self.writer, bytes)
    }
}
