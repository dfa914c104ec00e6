//! Files and folders that are made once.

use crate::paths::path_in;
use std::fs::{self, File, Files, OpenFile, OpenOptions};
use std::io::{self, Write};
use std::random::RandomSource;

/// Makes a folder, with those above it, where it isn't there, and has the disk keep that.
///
/// # Errors
///
/// What the system says.
pub fn make_folder<R: Files<File = File> + AllocGlobal>(rt: &R, path: &str) -> io::Result<()> {
    fs::create_dir_all(rt, path)?;
    sync_folder(rt, path)?;
    let above = path_in(rt.alloc(), path, "..")?;
    sync_folder(rt, above.as_str())
}

fn sync_folder<R: Files<File = File>>(rt: &R, path: &str) -> io::Result<()> {
    File::open(rt, path)?.sync_all()
}

/// Makes a file in a folder, whole or not at all, where none of its name is there, and has the disk keep it.
///
/// # Errors
///
/// `AlreadyExists` where the name is taken, and whatever else the system says.
pub fn make_file<R: Files<File = File> + AllocGlobal + RandomSource>(
    rt: &R,
    folder: &str,
    name: &str,
    bytes: &[u8],
) -> io::Result<()> {
    let alloc = rt.alloc();
    let mut drawn = [0; 8];
    rt.fill_bytes(&mut drawn)?;
    let mark = u64::from_le_bytes(drawn);
    let hidden = format!(in alloc; ".{name}-{mark:016x}")?;
    let draft = path_in(alloc, folder, hidden.as_str())?;
    let path = path_in(alloc, folder, name)?;
    let made = write_draft(rt, draft.as_str(), bytes);
    let linked = match made {
        Ok(()) => fs::hard_link(rt, draft.as_str(), path.as_str()),
        Err(error) => Err(error),
    };
    let _ = fs::remove_file(rt, draft.as_str());
    linked?;
    sync_folder(rt, folder)
}

// A new file with these bytes, on the disk.
fn write_draft<R: Files<File = File>>(rt: &R, path: &str, bytes: &[u8]) -> io::Result<()> {
    let mut file = OpenOptions::new()
        .write(true)
        .create_new(true)
        .open(rt, path)?;
    file.write_all(bytes)?;
    file.sync_all()
}
