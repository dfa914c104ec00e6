//! The file of a feed that is written: one that was made anew, and is locked.
ghost use Rattle.std.specs.Prelude.{◌≡◌, [], IsTrue, IfOk};
ghost use Rattle.sqlite_disk.specs.Disk.{Only};

use crate::host::Host;
use sqlite_disk::{Disk, Modelled, Unknown};
use std::fs::{File, Files, OpenOptions, TryLockError};
use std::hash::{BuildHasher, RandomState};
use std::io;
use std::os::fd::AsRawFd;
use std::os::unix::fs::OpenOptionsExt;
use std::random::RandomSource;

/// A real file that was empty when it was opened. Of a write that a crash tears each byte is supposed to be old or new.
pub type FeedFile = Modelled<Host, Unknown>;

/// Makes a file, which must not be there yet, and locks it for as long as it is held. The folder that it is in is
/// given, too.
///
/// # Errors
///
/// `AlreadyExists` where the file is there, `WouldBlock` where another process has locked it, and whatever else a call
/// of the system says.
pub fn create_feed_file<R: Files<File = File> + RandomSource>(
    rt: &R,
    folder: &str,
    path: &str,
) -> io::Result<FeedFile>
    ensures empty { IfOk result (λ file. ⟦<Modelled<Host, Unknown> as Disk>⟧.seen file ≡ []) }
    ensures durable { IfOk result (λ file.
        Only (⟦<Modelled<Host, Unknown> as Disk>⟧.seen file) (⟦<Modelled<Host, Unknown> as Disk>⟧.may_leave file)) }
    ensures usable { IfOk result (λ file. IsTrue (⟦<Modelled<Host, Unknown> as Disk>⟧.is_usable file)) }
{
    let file = create_locked(rt, path)?;
    let folder = File::open(rt, folder)?;
    let key = RandomState::new(rt)?.hash_one(&0u8);
    let host = Host::settle(file, &folder, key)?;
    Ok(Modelled::new(host, true, key))
}

// A file that was made anew, with a descriptor behind those of the standard streams: what is meant for one of these
// that was closed must not land in it.
fn create_locked<R: Files<File = File>>(rt: &R, path: &str) -> io::Result<File> {
    let mut file = OpenOptions::new()
        .read(true)
        .write(true)
        .create_new(true)
        .mode(0o644)
        .open(rt, path)?;
    if file.as_raw_fd() <= 2 {
        file = file.try_clone()?;
    }
    match file.try_lock() {
        Ok(()) => Ok(file),
        Err(TryLockError::WouldBlock) => Err(io::ErrorKind::WouldBlock.into()),
        Err(TryLockError::Error(error)) => Err(error),
    }
}
