//! Records that are damaged: where they stand, and how much stands behind.
ghost use Rattle.std.specs.Prelude.{◌≡◌, MatchOption};
ghost use Rattle.chr_records.specs.Damages.{line_count, IsSound, IsDamaged};

use crate::split_message;

/// Where the sound records in front end, though more stands behind them.
#[derive(Clone, Copy, Debug, PartialEq, Eq)]
pub struct Damage {
    /// How many records are sound.
    pub records: usize,
    /// How many bytes the sound records take.
    pub place: usize,
    /// How many lines end behind the sound records: as many as there were records, where none of their ends is damaged.
    pub lines: usize,
}

/// How many lines end in the bytes.
pub fn count_lines(bytes: &[u8]) -> usize
    ensures { result ≡ line_count bytes.now }
{
    bytes.iter().filter(|b| **b == b'\n').count()
}

/// Where the records with a right checksum end, if a line ends behind them. A batch whose writing a crash cut short may
/// look damaged, too: only the writer knows whether the batch was told.
pub fn find_damage(bytes: &[u8]) -> Option<Damage>
    ensures { MatchOption result (IsSound bytes.now) (λ damage. IsDamaged bytes.now damage) }
{
    let mut records = 0;
    let mut rest = bytes;
    while let Some((_message, behind)) = split_message(rest) {
        records += 1;
        rest = behind;
    }
    let lines = count_lines(rest);
    if lines == 0 {
        None
    } else {
        Some(Damage {
            records,
            place: bytes.len() - rest.len(),
            lines,
        })
    }
}
