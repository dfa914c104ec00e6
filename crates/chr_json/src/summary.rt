//! Summaries as a message spells them: ranges of ids.

ghost use Rattle.std.specs.Prelude.{◌≡◌, ◌≤◌, All, IfOk, IfSome, OnOk};
ghost use Rattle.serde_json.specs.View.{view as data_of};
ghost use Rattle.chr_json.specs.Parts.{AddsParts, GivesPart};
ghost use Rattle.chr_json.specs.Summaries.{origin_ranges_of, range_of, ranges_of, summary_of};

use crate::fault::LineFault;
use crate::value::{elements, origin};
use chr_ops::IdRange;
use serde_json::Value;
use std::alloc::Global;

/// An array of the first and the last number of a range, which is not empty.
fn range(origin: u32, value: &Value) -> Option<IdRange>
    ensures read { result ≡ range_of origin (data_of value.now) }
    ensures some { IfSome result (λ r. r.lo ≤ r.hi) }
{
    let [lo, hi] = elements(value)? else {
        return None;
    };
    let (lo, hi) = (lo.as_u64()?, hi.as_u64()?);
    if lo <= hi {
        Some(IdRange { origin, lo, hi })
    } else {
        None
    }
}

/// Adds the ranges of an origin that an array has.
fn add_ranges(found: &mut Vec<IdRange>, origin: u32, value: &Value) -> Result<(), LineFault>
    ensures read { AddsParts result found.old.items found.new.items (ranges_of origin (data_of value.now)) }
    ensures some { OnOk result (All (λ r. r.lo ≤ r.hi) found.old.items → All (λ r. r.lo ≤ r.hi) found.new.items) }
{
    let Some(values) = elements(value) else {
        return Err(LineFault::Shape);
    };
    for value in values {
        let Some(range) = range(origin, value) else {
            return Err(LineFault::Shape);
        };
        found.push(range)?;
    }
    Ok(())
}

/// Adds the ranges of an array of an origin and an array of ranges.
fn add_origin_ranges(found: &mut Vec<IdRange>, value: &Value) -> Result<(), LineFault>
    ensures read { AddsParts result found.old.items found.new.items (origin_ranges_of (data_of value.now)) }
    ensures some { OnOk result (All (λ r. r.lo ≤ r.hi) found.old.items → All (λ r. r.lo ≤ r.hi) found.new.items) }
{
    let Some([first, ranges]) = elements(value) else {
        return Err(LineFault::Shape);
    };
    let Some(origin) = origin(first) else {
        return Err(LineFault::Shape);
    };
    add_ranges(found, origin, ranges)
}

/// The ranges of a summary, in the order in which they stand there. They may overlap and touch.
///
/// # Errors
///
/// `Shape` where the value is no summary, and `Memory` where no memory was left.
pub fn ranges_in(alloc: Global, value: &Value) -> Result<Vec<IdRange>, LineFault>
    ensures read { GivesPart (λ v. v.items) result (summary_of (data_of value.now)) }
    ensures some { IfOk result (λ v. All (λ r. r.lo ≤ r.hi) v.items) }
{
    let Some(values) = elements(value) else {
        return Err(LineFault::Shape);
    };
    let mut found = Vec::new(alloc);
    for value in values {
        add_origin_ranges(&mut found, value)?;
    }
    Ok(found)
}
