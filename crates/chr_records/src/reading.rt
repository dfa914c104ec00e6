//! Records that are read.
ghost use Rattle.std.specs.Prelude.{◌≡◌, [], ◌∷◌, ◌++◌, ◌+◌, ◌≤◌, List, ℕ, length, IfOk, MatchOption};
ghost use Rattle.chr_records.specs.Records.{records_of, size_of, record_bytes, IsText};
ghost use Rattle.chr_records.specs.Records.{texts_in};

use std::alloc::{AllocError, Global};

/// The texts of records, in their order, and how many bytes the records take.
#[derive(Drop)]
pub struct Records {
    pub texts: Vec<Vec<u8>>,
    pub size: usize,
}

/// The text of the first record, and the bytes behind it. None if no whole record stands in front.
pub fn split_record(bytes: &[u8]) -> Option<(&[u8], &[u8])>
    ensures { MatchOption result (records_of bytes.now ≡ [])
        (λ parts. (bytes.now ≡ record_bytes parts.0.now ++ parts.1.now) × IsText parts.0.now
        × (records_of bytes.now ≡ parts.0.now ∷ records_of parts.1.now)) }
{
    let [b'=', rest @ ..] = bytes else {
        return None;
    };
    for (i, b) in rest.iter().enumerate() {
        if *b == b'\n' {
            return Some((&rest[..i], &rest[i + 1..]));
        }
        if *b == 0 {
            return None;
        }
    }
    None
}

/// The texts of the whole records.
///
/// # Errors
///
/// Out of memory.
pub fn read_records(alloc: Global, bytes: &[u8]) -> Result<Records, AllocError>
    ensures texts { IfOk result (λ read. texts_in read.texts.items ≡ records_of bytes.now) }
    ensures size { IfOk result (λ read. read.size ≡ size_of bytes.now) }
{
    let mut texts = Vec::new(alloc);
    let mut rest = bytes;
    while let Some((text, behind)) = split_record(rest) {
        texts.push(text.to_vec(alloc)?)?;
        rest = behind;
    }
    Ok(Records {
        texts,
        size: bytes.len() - rest.len(),
    })
}

/// The records of a file that were not there when its first `size` bytes were whole records: whoever follows a feed
/// reads only those.
///
/// # Errors
///
/// Out of memory.
pub fn read_on(alloc: Global, bytes: &[u8], size: usize) -> Result<Records, AllocError>
    requires { size ≤ length bytes.now }
    ensures texts { IfOk result (λ read. (front rest : List ℕ) → bytes.now ≡ front ++ rest → size ≡ size_of front
        → records_of bytes.now ≡ records_of front ++ texts_in read.texts.items) }
    ensures size { IfOk result (λ read. (front rest : List ℕ) → bytes.now ≡ front ++ rest → size ≡ size_of front
        → size_of bytes.now ≡ size + read.size) }
{
    let read = read_records(alloc, &bytes[size..])?;
    Ok(read)
}
