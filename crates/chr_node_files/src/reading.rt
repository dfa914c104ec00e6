//! Files that others write.
ghost use Rattle.std.specs.Prelude.{◌≡◌, ◌≤◌, length, IfOk};
ghost use Rattle.chr_records.specs.Records.{IsWhole};

use chr_records::read_records;
use std::alloc::Global;
use std::fs::{self, File, Files};
use std::io;
use std::os::unix::fs::FileExt;

/// The most bytes that are read at a time. The record of a line that a node takes is shorter by far.
const PORTION: usize = 8 << 20;

/// The names in a folder, in order.
///
/// # Errors
///
/// What the system says where the folder can't be read.
pub fn names_in<R: Files + AllocGlobal + Clone + Drop>(
    rt: &R,
    folder: &str,
) -> io::Result<Vec<String>> {
    let alloc = rt.alloc();
    let mut names = Vec::new(alloc);
    for entry in fs::read_dir(rt, folder)? {
        let entry = entry?;
        names.push(String::from_str(alloc, entry.file_name())?)?;
    }
    names.sort_unstable();
    Ok(names)
}

/// The whole records of a file behind its first bytes, as many as are read at a time. A file that some other is writing
/// has those that are written whole.
///
/// # Errors
///
/// What the system says where the file can't be read.
pub fn records_behind<R: Files<File = File> + AllocGlobal>(
    rt: &R,
    path: &str,
    size: u64,
) -> io::Result<Vec<u8>>
    ensures { IfOk result (λ bytes. IsWhole bytes.items) }
{
    let alloc = rt.alloc();
    let file = fs::open(rt, path)?;
    let mut first = [0];
    if file.read_at(&mut first, size)? == 0 || first[0] != b'=' {
        return Ok(Vec::new(alloc));
    }
    let bytes = bytes_behind(alloc, &file, size)?;
    whole_front(alloc, bytes)
}

// The bytes of a file behind its first ones.
fn bytes_behind(alloc: Global, file: &File, size: u64) -> io::Result<Vec<u8>> {
    let length = file.metadata()?.len().saturating_sub(size);
    let wanted = usize::try_from(length).unwrap_or(PORTION).min(PORTION);
    let mut bytes = Vec::new(alloc);
    bytes.resize(wanted, 0)?;
    let read = fill_from(file, size, &mut bytes)?;
    bytes.truncate(read);
    Ok(bytes)
}

// Reads until the buffer is full or the file has ended, and says how many bytes came.
fn fill_from(file: &File, size: u64, buf: &mut [u8]) -> io::Result<usize>
    ensures { IfOk result (λ n. n ≤ length buf.old) }
{
    let mut done = 0;
    for _ in 0..u64::MAX {
        if done >= buf.len() {
            break;
        }
        let read = file.read_at(&mut buf[done..], size.saturating_add(done as u64))?;
        if read == 0 {
            break;
        }
        done += read;
    }
    Ok(done)
}

// The whole records in front.
#[tactic(auto, using(crate::proofs::Fronts::front_is_whole))]
fn whole_front(alloc: Global, bytes: Vec<u8>) -> io::Result<Vec<u8>>
    ensures { IfOk result (λ front. IsWhole front.items) }
{
    let size = read_records(alloc, &bytes)?.size;
    let mut front = bytes;
    front.truncate(size);
    Ok(front)
}
