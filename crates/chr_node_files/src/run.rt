//! The origin and the numbers of a run's operations.
ghost use Rattle.std.specs.Prelude.{◌≡◌, ◌%◌, ◌^◌, ◌<◌, IfOk, IfSome};

use std::alloc::{AllocError, Global};
use std::io;
use std::random::RandomSource;

/// What no other run may have: the origin of its operations, and the number before their first.
#[derive(Clone, Copy, Debug, PartialEq, Eq)]
pub struct Run {
    pub origin: u32,
    pub last: u64,
}

impl Run {
    /// An origin, which is drawn unless it is given, and a number that is drawn among the multiples of 2^32 below 2^63.
    ///
    /// # Errors
    ///
    /// What the system says where it draws nothing.
    pub fn draw(rt: &impl RandomSource, origin: Option<u32>) -> io::Result<Run>
        ensures given { IfSome origin (λ given. IfOk result (λ run. run.origin ≡ given)) }
        ensures multiple { IfOk result (λ run. run.last % 2 ^ 32 ≡ 0) }
        ensures small { IfOk result (λ run. run.last < 2 ^ 63) }
    {
        let mut drawn = [0; 4];
        rt.fill_bytes(&mut drawn)?;
        let mut high = [0; 4];
        rt.fill_bytes(&mut high)?;
        Ok(Run {
            origin: origin.unwrap_or(u32::from_le_bytes(drawn)),
            last: multiple(u32::from_le_bytes(high)),
        })
    }
}

// The multiple of 2^32 that the lower 31 bits say.
fn multiple(drawn: u32) -> u64
    ensures multiple { result % 2 ^ 32 ≡ 0 }
    ensures small { result < 2 ^ 63 }
{
    u64::from(drawn % 0x8000_0000) * 0x1_0000_0000
}

/// The name of a run's feed: what stands for its program, and then what no other run has.
///
/// # Errors
///
/// Out of memory.
pub fn feed_name(alloc: Global, program: u64, run: Run) -> Result<String, AllocError> {
    let Run { origin, last } = run;
    let block = last / 0x1_0000_0000;
    format!(in alloc; "{program:016x}-{origin:08x}-{block:08x}.feed")
}

/// Whether a name is that of a feed.
pub fn is_feed(name: &str) -> bool {
    name.ends_with(".feed")
}

/// Whether a name is that of a feed of this program.
///
/// # Errors
///
/// Out of memory.
pub fn is_feed_of(alloc: Global, program: u64, name: &str) -> Result<bool, AllocError> {
    let front = format!(in alloc; "{program:016x}-")?;
    Ok(is_feed(name) && name.starts_with(front.as_str()))
}
