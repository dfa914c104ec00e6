//! Hashes of keys.

use chr_tables::hash::{FIXED_SEED, key_hash};

/// In how many of 256 slots the multiples of `factor` by the numbers below 256 lie under a seed.
fn slots_of_multiples(seed: u64, factor: i64) -> usize {
    let mut is_taken = [false; 256];
    for i in 0..256i64 {
        is_taken[(key_hash(seed, &[i.wrapping_mul(factor)]) % 256) as usize] = true;
    }
    is_taken.iter().filter(|taken| **taken).count()
}

/// Of 256 slots, 256 numbers that are drawn at random take 162. The factor of a node's number in the high bits of an id
/// is one of those here.
#[test]
fn multiples_spread_over_the_slots(rt: HostRuntime) {
    for shift in 0..8u32 {
        for seed in [0, 1, FIXED_SEED, u64::MAX] {
            assert!(rt; slots_of_multiples(seed, 1 << (8 * shift)) > 140);
        }
    }
}

/// Keys whose hashes end in one byte under the fixed seed are spread under another seed: 256 of them take as many slots
/// as 256 numbers that are drawn at random.
#[test]
fn keys_chosen_for_one_seed_spread_under_another(rt: HostRuntime) {
    let mut is_taken = [false; 256];
    let mut chosen = 0;
    for i in 0..200_000i64 {
        if chosen < 256 && key_hash(FIXED_SEED, &[i]) % 256 == 0 {
            is_taken[(key_hash(1, &[i]) % 256) as usize] = true;
            chosen += 1;
        }
    }
    assert!(rt; chosen == 256);
    assert!(rt; is_taken.iter().filter(|taken| **taken).count() > 140);
}
