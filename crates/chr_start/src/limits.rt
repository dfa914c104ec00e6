//! What the system lets the process have.

ghost use Rattle.std.specs.Prelude.{◌≡◌};
ghost use Rattle.chr_device.specs.Settings.{IsWithinLimits};

use chr_report::Settings;
use std::fs::{File, Files};
use std::io::{Read, Result};
use std::str;

/// Where Linux lists the limits of the process that reads it.
const LIST: &str = "/proc/self/limits";

/// The most bytes of the list that are read. The lines that are looked for stand within them.
const MOST_READ: usize = 1_024;

/// What the line of the stack begins with. Bytes follow, or a word where there is no limit.
const STACK_LINE: &str = "Max stack size";

/// What the line of the address space begins with.
const SPACE_LINE: &str = "Max address space";

/// The bytes of stack that are enough for any input. Most is taken by the value of a line that has as many brackets in
/// brackets as it may, which is read by recursion.
const ENOUGH_STACK: u64 = 262_144;

/// The bytes of address space that are left to what is told and answered before threads are started: threads give none
/// back.
const STORE_SPACE: u64 = 4 << 30;

/// The bytes of address space that have to be left for each thread, which asks for a heap of its own.
const THREAD_SPACE: u64 = 256 << 20;

/// The limits of the process in bytes, as far as they are known and set.
#[derive(Clone, Copy, Debug, PartialEq, Eq)]
pub struct Limits {
    stack: Option<u64>,
    space: Option<u64>,
}

/// Reads a file as far as there is room.
fn read_start<'b>(files: &impl Files, path: &str, room: &'b mut [u8]) -> Result<&'b [u8]> {
    let mut file = File::open(files, path)?;
    let read = file.read(room)?;
    Ok(room.get(..read).unwrap_or(&[]))
}

/// The limit that this line of the list tells, in bytes.
fn listed_limit(list: &str, name: &str) -> Option<u64> {
    let limit = list.lines().find_map(|line| line.strip_prefix(name))?;
    limit.split_whitespace().next()?.parse().ok()
}

impl Limits {
    /// No limit is known.
    const NONE: Limits = Limits {
        stack: None,
        space: None,
    };

    /// The limits that a list of them tells.
    fn listed(list: &[u8]) -> Limits {
        match str::from_utf8(list) {
            Ok(list) => Limits {
                stack: listed_limit(list, STACK_LINE),
                space: listed_limit(list, SPACE_LINE),
            },
            Err(_) => Limits::NONE,
        }
    }

    /// The limits of the process that asks.
    // Inlined, its frame would be part of the caller's, and take stack for as long as the caller runs.
    #[inline(never)]
    pub fn of_process(files: &impl Files) -> Limits {
        let mut room = [0u8; MOST_READ];
        match read_start(files, LIST, &mut room) {
            Ok(list) => Limits::listed(list),
            Err(_) => Limits::NONE,
        }
    }

    /// Whether the stack may be too small for some input.
    pub(crate) fn has_little_stack(&self) -> bool {
        self.stack.is_some_and(|limit| limit < ENOUGH_STACK)
    }

    /// Whether there may be too little address space for `workers` workers, of which one has the caller's thread.
    fn has_little_space(&self, workers: u32) -> bool {
        let threads = u64::from(workers.saturating_sub(1));
        let wanted = STORE_SPACE.saturating_add(threads.saturating_mul(THREAD_SPACE));
        self.space.is_some_and(|limit| limit < wanted)
    }

    /// The settings, with one worker where there may be too little address space for more. What is written does not
    /// depend on the number of workers.
    pub(crate) fn fitting(&self, settings: Settings) -> Settings
        requires { IsWithinLimits settings }
        ensures limits { IsWithinLimits result }
        ensures command { result.command ≡ settings.command }
        ensures replicas { result.replicas ≡ settings.replicas }
        ensures wide { result.wide ≡ settings.wide }
    {
        if self.has_little_space(settings.workers) {
            return Settings {
                workers: 1,
                ..settings
            };
        }
        settings
    }
}
