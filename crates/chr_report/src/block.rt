//! Bytes of command lines.
ghost use Rattle.std.specs.Prelude.{◌≡◌, ◌≤◌, drop, length, take};
ghost use Rattle.chr_answers.specs.Lines.{AreWholeLines};

use chr_answers::whole_len;

/// Bytes of an input: whole lines, and the beginning of one.
#[derive(Drop)]
pub(crate) struct Block {
    /// All bytes.
    pub(crate) bytes: Vec<u8>,
    /// How many of the bytes are whole lines.
    pub(crate) whole: usize,
    pub ghost within: { whole ≤ length bytes.items },
}

impl Block {
    /// The block of these bytes.
    pub(crate) fn of(bytes: Vec<u8>) -> Block
        ensures bytes { result.bytes ≡ bytes }
        ensures lines { AreWholeLines (take result.whole result.bytes.items) }
    {
        let whole = whole_len(&bytes);
        Block { bytes, whole }
    }

    /// The whole lines of the block.
    pub(crate) fn lines(&self) -> &[u8]
        ensures { result.now ≡ take self.now.whole self.now.bytes.items }
    {
        &self.bytes[..self.whole]
    }

    /// What comes after the whole lines, which begins a line.
    pub(crate) fn begun(&self) -> &[u8]
        ensures { result.now ≡ drop self.now.whole self.now.bytes.items }
    {
        &self.bytes[self.whole..]
    }
}
