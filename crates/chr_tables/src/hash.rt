//! The hash of a key.
ghost use Rattle.std.specs.Prelude.{◌≡◌};
ghost use Rattle.chr_tables.specs.Hashes.{mix, mixed, key_hash};

/// The seed where none is drawn.
pub const FIXED_SEED: u64 = 0x2545_F491_4F6C_DD1D;

/// The word with its bits mixed, so that a change of any one bit changes each with a chance of about a half: the
/// finalizer of SplitMix64, which is variant 13 of David Stafford's "Better Bit Mixing".
fn mix(word: u64) -> u64
    ensures { result ≡ mix word }
{
    let once = (word ^ (word >> 30)).wrapping_mul(0xBF58_476D_1CE4_E5B9);
    let twice = (once ^ (once >> 27)).wrapping_mul(0x94D0_49BB_1331_11EB);
    twice ^ (twice >> 31)
}

/// The hash of the values in `key` after those before, whose hash is `state`.
fn mixed(state: u64, key: &[i64]) -> u64
    ensures { result ≡ mixed state key.now }
{
    match key {
        [] => state,
        [value, rest @ ..] => mixed(mix(state ^ value.cast_unsigned()), rest),
    }
}

/// The hash of a key: 32 bits, each of which depends on all bits of the seed and of each value, and on nothing else. It
/// is no cryptographic hash. A seed that is drawn for each process only keeps keys that were chosen before it was known
/// from having one hash more often than other keys.
pub fn key_hash(seed: u64, key: &[i64]) -> u32
    ensures { result ≡ key_hash seed key.now }
{
    (mixed(seed, key) & 0xFFFF_FFFF) as u32
}
