//! A machine that answers each line by its length.
ghost use Rattle.std.specs.Prelude.{◌≡◌, ◌++◌, ℕ, List, [], true, OnOk, string_bytes};

use chr_run::Machine;
use std::alloc::AllocError;

/// Counts the bytes of the line that has begun. After a line that is a dot nothing is answered.
#[derive(Clone, Copy, Debug)]
pub(crate) struct Lengths {
    count: u64,
    is_dot: bool,
    done: bool,
}

impl Lengths {
    /// Nothing was read.
    pub(crate) fn new() -> Lengths {
        Lengths {
            count: 0,
            is_dot: false,
            done: false,
        }
    }

    /// Answers the line that has begun.
    fn end_line(&mut self, held: &mut String) -> Result<(), AllocError>
        ensures { OnOk result ((text : List ℕ) × (string_bytes held.new ≡ string_bytes held.old ++ text)) }
    {
        let count = self.count;
        writeln!(held, "{count}")?;
        self.done = self.is_dot;
        self.count = 0;
        self.is_dot = false;
        Ok(())
    }

    /// Takes one byte.
    fn take(&mut self, byte: u8, held: &mut String) -> Result<(), AllocError>
        ensures { OnOk result ((text : List ℕ) × (string_bytes held.new ≡ string_bytes held.old ++ text)) }
    {
        if self.done {
            return Ok(());
        }
        if byte == b'\n' {
            return self.end_line(held);
        }
        self.is_dot = byte == b'.' && self.count == 0;
        self.count = self.count.saturating_add(1);
        Ok(())
    }
}

/// It is fed byte by byte. What it answers is looked at when it has run, so that nothing is promised of it.
impl Machine<Vec<u8>> for Lengths {
    ghost Answers = { λ _ _ _ _. Unit {0} };

    ghost Finishes = { λ _ _ _ _. Unit {0} };

    ghost AnswersAll = { λ _ _ _. Unit {0} };

    ghost IsDone = { λ m. m.done ≡ true };

    ghost IsReady = { λ _. Unit {0} };

    ghost fits = { λ _ _. Unit {0} };

    fn answer(
        &mut self,
        batch: &mut Vec<u8>,
        at: usize,
        held: &mut String,
    ) -> Result<usize, AllocError> {
        self.take(batch[at], held)?;
        Ok(at + 1)
    }

    fn finish(&mut self, held: &mut String) -> Result<(), AllocError> {
        if self.done || self.count == 0 {
            return Ok(());
        }
        self.end_line(held)
    }

    fn is_done(&self) -> bool {
        self.done
    }

    ghost starts = { λ _. tt };

    ghost joins = { λ _ _ _ _ _ _ _ _ _. tt };

    ghost ends = { λ _ _ _ _ _ _ _ _ _. tt };

    ghost goes_on = { λ _ _ _ _ _ _ _ _. tt };

    ghost all = { λ _ _ _ _ _. tt };

    ghost done = { λ _ _ _. tt };

    ghost exists = { λ _ _. ([], tt) };
}
