//! Gates that see workers pass.
use chr_workers::Gate;
use std::sync::atomic::{AtomicU64, Ordering};
use std::thread;

/// How often a wait looks before it gives up.
const TURNS: u32 = 100_000_000;

/// Whether a flag goes up within [`TURNS`] looks.
pub fn goes_up(flag: &AtomicU64) -> bool {
    for _ in 0..TURNS {
        if flag.load(Ordering::SeqCst) == 1 {
            return true;
        }
        thread::yield_now();
    }
    false
}

/// A gate at which part 1 raises a flag, and waits until part 2 has passed and another flag is up.
#[derive(Drop)]
pub struct Holds {
    /// Whether part 1 has come.
    pub first_came: AtomicU64,
    second_passed: AtomicU64,
    /// Whether part 1 may go on, once part 2 has passed.
    pub may_go: AtomicU64,
    first_went_on: AtomicU64,
}

impl Holds {
    /// Part 1 may go on once part 2 has passed, and `may_go` is 1.
    pub fn new(may_go: u64) -> Holds {
        Holds {
            first_came: AtomicU64::new(0),
            second_passed: AtomicU64::new(0),
            may_go: AtomicU64::new(may_go),
            first_went_on: AtomicU64::new(0),
        }
    }

    /// Whether part 1 went on because it might, and not since its wait was given up.
    pub fn has_seen_both(&self) -> bool {
        self.first_went_on.load(Ordering::SeqCst) == 1
    }
}

impl Gate for Holds {
    fn pass(&self, part: u32) {
        if part == 2 {
            self.second_passed.store(1, Ordering::SeqCst);
        }
        if part == 1 {
            self.first_came.store(1, Ordering::SeqCst);
            if goes_up(&self.second_passed) && goes_up(&self.may_go) {
                self.first_went_on.store(1, Ordering::SeqCst);
            }
        }
    }
}

/// The bit of a part, or 0 where that is none of 64.
fn bit_of(part: u32) -> u64 {
    1u64.checked_shl(part.wrapping_sub(1)).unwrap_or(0)
}

/// A gate that notes the parts that pass.
#[derive(Drop)]
pub struct Notes {
    passed: AtomicU64,
    /// The sum of the parts' bits.
    bits: AtomicU64,
}

impl Notes {
    pub fn new() -> Notes {
        Notes {
            passed: AtomicU64::new(0),
            bits: AtomicU64::new(0),
        }
    }

    /// Whether each part up to this number has passed, once, and no other.
    pub fn have(&self, parts: u32) -> bool {
        let mut all = 0u64;
        for part in 0..parts {
            all |= bit_of(part.wrapping_add(1));
        }
        self.passed.load(Ordering::SeqCst) == u64::from(parts)
            && self.bits.load(Ordering::SeqCst) == all
    }
}

impl Gate for Notes {
    fn pass(&self, part: u32) {
        self.passed.fetch_add(1, Ordering::SeqCst);
        self.bits.fetch_add(bit_of(part), Ordering::SeqCst);
    }
}
