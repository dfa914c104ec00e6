//! What records are put in order by.
ghost use Rattle.std.specs.Prelude.{◌≡◌, ◌-◌, ◌<◌, ◌≤◌, ◌^◌, length, vec_len, IfOk};

use crate::record::Record;
use std::alloc::{AllocError, Global};

/// A record's hash and first value, and its place in its portion.
#[derive(Clone, Copy, Debug)]
pub(crate) struct Entry {
    pub(crate) first: i64,
    pub(crate) hash: u32,
    pub(crate) place: u32,
}

/// Tells the place at an entry of the list, and has it be that entry's own.
pub(crate) fn settle(entries: &mut [Entry], at: usize) -> usize
    requires at { at < length entries.old }
    requires few { length entries.old < 2 ^ 32 }
    ensures { length entries.new ≡ length entries.old }
{
    let place = entries[at].place;
    entries[at].place = at as u32;
    place as usize
}

/// An entry for each record, in order by hash and first value.
pub(crate) fn sorted_entries(alloc: Global, records: &[Record]) -> Result<Vec<Entry>, AllocError>
    requires few { length records.now < 2 ^ 32 }
    ensures { IfOk result (λ entries. vec_len entries ≡ length records.now) }
{
    let mut entries = Vec::with_capacity(alloc, records.len())?;
    for place in 0..records.len() {
        let record = &records[place];
        entries.push(Entry {
            first: record.first,
            hash: record.hash,
            place: place as u32,
        })?;
    }
    entries.sort_by_key(|entry| (entry.hash, entry.first))?;
    Ok(entries)
}
