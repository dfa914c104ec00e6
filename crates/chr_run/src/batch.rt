//! Bytes that a machine is fed at once.
ghost use Rattle.std.specs.Prelude.{◌≡◌, ℕ, List};

/// Bytes, and whatever was found out of them before their turn.
pub trait Batch {
    ghost bytes: { Self → List ℕ };

    /// The bytes.
    fn bytes(&self) -> &[u8]
        ensures { result.now ≡ bytes self.now };
}

/// Nothing was found out of them.
impl Batch for Vec<u8> {
    ghost bytes = { λ v. v.items };

    fn bytes(&self) -> &[u8] {
        self.as_slice()
    }
}
