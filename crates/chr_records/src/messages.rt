//! Messages: texts with a checksum in front, so that one that a disk or a copy has damaged is known.
ghost use Rattle.std.specs.Prelude.{◌≡◌, ◌≢◌, ◌++◌, [], ◌∷◌, ℕ, List, OnOk, MatchOption};
ghost use Rattle.chr_records.specs.Records.{IsText, IsWhole, record_bytes, records_of};
ghost use Rattle.chr_records.specs.Checksums.{text_of};
ghost use Rattle.chr_records.specs.Damages.{BeginsWithMessage, BeginsWithNone};

use crate::checksum::{CHECKSUM_SIZE, checksum};
use crate::split_record;
use std::alloc::AllocError;

/// Adds the record of a message, with its checksum, behind what is there.
///
/// # Errors
///
/// Out of memory.
pub fn push_message(bytes: &mut Vec<u8>, message: &[u8]) -> Result<(), AllocError>
    ensures bytes { OnOk result (bytes.new.items ≡ bytes.old.items ++ record_bytes (text_of message.now)) }
    ensures whole { OnOk result (IsWhole bytes.old.items → IsText message.now → IsWhole bytes.new.items
        × (records_of bytes.new.items ≡ records_of bytes.old.items ++ text_of message.now ∷ [])) }
{
    bytes.push(b'=')?;
    bytes.extend_from_slice(&checksum(message))?;
    bytes.extend_from_slice(message)?;
    bytes.push(b'\n')?;
    Ok(())
}

/// The message of a text whose checksum is that of its message. None where it is another.
pub fn message_in(text: &[u8]) -> Option<&[u8]>
    ensures { MatchOption result ((m : List ℕ) → text.now ≢ text_of m) (λ message. text.now ≡ text_of message.now) }
{
    if text.len() < CHECKSUM_SIZE {
        return None;
    }
    let (told, message) = text.split_at(CHECKSUM_SIZE);
    if told == checksum(message).as_slice() {
        Some(message)
    } else {
        None
    }
}

/// The message of the first record, and the bytes behind it. None if no whole record stands in front whose checksum is
/// right.
pub fn split_message(bytes: &[u8]) -> Option<(&[u8], &[u8])>
    ensures { MatchOption result (BeginsWithNone bytes.now)
        (λ parts. BeginsWithMessage bytes.now parts.0.now parts.1.now) }
{
    let Some((text, behind)) = split_record(bytes) else {
        return None;
    };
    let Some(message) = message_in(text) else {
        return None;
    };
    Some((message, behind))
}
