//! Slots of hashes.
ghost use Rattle.std.specs.Prelude.{◌≡◌, ◌<◌, ◌%◌};

/// The slot of a hash: the rest by the number of slots. Where that is a power of two no division is needed.
pub(crate) fn slot_for(hash: u32, slots: usize) -> usize
    requires { 0 < slots }
    ensures { result ≡ hash % slots }
{
    let bits = slots.trailing_zeros() % 64;
    if slots == 1 << bits {
        hash as usize & (slots - 1)
    } else {
        hash as usize % slots
    }
}
