//! An open file, as a disk asks it. Each method makes one call of the system, and then notes it with its answer.
ghost use Rattle.std.specs.Prelude.{◌≡◌, ◌<◌, ◌≤◌, ◌^◌, [], ◌∷◌, length, IfOk};
ghost use Rattle.sqlite_disk.specs.Events.{settled};

use crate::record::Record;
use sqlite_disk::{Calls, is_no_room};
use std::os::unix::fs::FileExt;
use std::{fs, io};

const SETTLED: u64 = 0;

const MEASURED: u64 = 1;

const READ: u64 = 2;

const WRITTEN: u64 = 3;

const CUT: u64 = 4;

const FLUSHED: u64 = 5;

const TESTED: u64 = 6;

const MAX_OFFSET: usize = (1 << 63) - 1;

/// An open file of the operating system, with the calls that were made on it.
#[derive(Drop)]
pub struct Host {
    file: fs::File,
    log: Record,
}

impl Host {
    /// Syncs the file and its folder, so that a crash leaves the file as it is.
    pub(crate) fn settle(file: fs::File, folder: &fs::File, key: u64) -> io::Result<Host>
        ensures { IfOk result (λ host. host.log.events ≡ settled key ∷ []) }
    {
        file.sync_all()?;
        folder.sync_all()?;
        let mut log = Record::new();
        log.note(&[SETTLED, key, 0, 1], &[]);
        Ok(Host { file, log })
    }
}

fn measure(file: &fs::File) -> io::Result<usize> {
    Ok(file.metadata()?.len() as usize)
}

fn read(file: &fs::File, at: usize, buf: &mut [u8]) -> io::Result<usize>
    ensures { IfOk result (λ n. (0 < n) × (n ≤ length buf.old) × (at < 2 ^ 63)) }
{
    if at > MAX_OFFSET {
        return Err(io::ErrorKind::InvalidInput.into());
    }
    let got = file.read_at(buf, at as u64)?;
    if got == 0 {
        Err(io::ErrorKind::UnexpectedEof.into())
    } else {
        Ok(got)
    }
}

fn write(file: &fs::File, at: usize, bytes: &[u8]) -> io::Result<usize>
    ensures { IfOk result (λ n. (0 < n) × (n ≤ length bytes.now) × (at < 2 ^ 63)) }
{
    if at > MAX_OFFSET {
        return Err(io::ErrorKind::InvalidInput.into());
    }
    let put = file.write_at(bytes, at as u64)?;
    if put == 0 {
        Err(io::ErrorKind::WriteZero.into())
    } else {
        Ok(put)
    }
}

impl Calls for Host {
    ghost history = { λ f. f.log.events };

    fn len(&mut self) -> io::Result<usize> {
        let answer = measure(&self.file);
        match answer {
            Ok(n) => self.log.note(&[MEASURED, n as u64, 0, 1], &[]),
            Err(_) => self.log.note(&[MEASURED, 0, 0, 0], &[]),
        }
        answer
    }

    fn read_some(&mut self, at: usize, buf: &mut [u8]) -> io::Result<usize> {
        let (at64, len) = (at as u64, buf.len() as u64);
        let answer = read(&self.file, at, buf);
        match answer {
            Ok(n) => self.log.note(&[READ, at64, len, 1], &buf[..n]),
            Err(_) => self.log.note(&[READ, at64, len, 0], &[]),
        }
        answer
    }

    fn read_under(&mut self, key: u64, want: u64, at: usize, buf: &mut [u8]) -> io::Result<usize> {
        let (at64, len) = (at as u64, buf.len() as u64);
        let answer = read(&self.file, at, buf);
        match answer {
            Ok(n) => self.log.note(&[TESTED, at64, len, 1, key, want], &buf[..n]),
            Err(_) => self.log.note(&[TESTED, at64, len, 0, key, want], &[]),
        }
        answer
    }

    fn write_some(&mut self, at: usize, bytes: &[u8]) -> io::Result<usize> {
        let answer = write(&self.file, at, bytes);
        match answer {
            Ok(n) => self.log.note(&[WRITTEN, at as u64, n as u64, 1], bytes),
            Err(error) => self.log.note(
                &[WRITTEN, at as u64, u64::from(is_no_room(&error)), 0],
                bytes,
            ),
        }
        answer
    }

    fn resize(&mut self, len: usize) -> io::Result<()> {
        let answer = self.file.set_len(len as u64);
        match answer {
            Ok(()) => self.log.note(&[CUT, len as u64, 0, 1], &[]),
            Err(error) => self
                .log
                .note(&[CUT, len as u64, u64::from(is_no_room(&error)), 0], &[]),
        }
        answer
    }

    fn sync(&mut self) -> io::Result<()> {
        let answer = self.file.sync_data();
        match answer {
            Ok(()) => self.log.note(&[FLUSHED, 0, 0, 1], &[]),
            Err(error) => self
                .log
                .note(&[FLUSHED, 0, u64::from(is_no_room(&error)), 0], &[]),
        }
        answer
    }
}
