//! What answers bytes.
ghost use Rattle.std.specs.Prelude.{◌≡◌, ◌<◌, ◌↔◌, ℕ, List, [], ◌++◌, length, IfOk, OnOk, IsTrue, string_bytes};
ghost use Rattle.chr_run.specs.Answered.{AnswersSome};

use crate::batch::Batch;
use std::alloc::AllocError;

/// Something that is fed bytes, answers them, and changes with them. It knows no device. What a line is, and what it
/// keeps of one that has not ended, is its own.
pub trait Machine<B: Batch> {
    // Fed these bytes it answers this text, and then it is the second one. So it is where these are all bytes. To all
    // these bytes this may be answered. And nothing that comes is answered any more.
    ghost Answers: { Self → List ℕ → List ℕ → Self → Type 0 };

    ghost Finishes: { Self → List ℕ → List ℕ → Self → Type 0 };

    ghost AnswersAll: { Self → List ℕ → List ℕ → Type 0 };

    ghost IsDone: { Self → Type 0 };

    // When it can answer anything, and what has to be known of a batch that it is fed.
    ghost IsReady: { Self → Type 0 };

    ghost fits: { Self → B → Type 0 };

    /// Takes some bytes of a batch, from a place on, adds what it answers, and says up to which place it took them. It
    /// may use up what was found out of them.
    ///
    /// # Errors
    ///
    /// `AllocError` where no memory was left.
    fn answer(&mut self, batch: &mut B, at: usize, held: &mut String) -> Result<usize, AllocError>
        requires ready { IsReady self.old }
        requires fits { fits self.old batch.old }
        requires some { at < length (B.bytes batch.old) }
        ensures ok { IfOk result (λ to. AnswersSome (Answers self.old) self.new (B.bytes batch.old) at to
            (string_bytes held.old) (string_bytes held.new)) }
        ensures bytes { B.bytes batch.new ≡ B.bytes batch.old }
        ensures ready { OnOk result (IsReady self.new) }
        ensures fits { OnOk result (fits self.new batch.new) };

    /// No byte comes any more: adds what is still to be answered.
    ///
    /// # Errors
    ///
    /// `AllocError` where no memory was left.
    fn finish(&mut self, held: &mut String) -> Result<(), AllocError>
        requires { IsReady self.old }
        ensures { OnOk result ((text : List ℕ) × Finishes self.old [] text self.new
            × (string_bytes held.new ≡ string_bytes held.old ++ text)) };

    /// Whether nothing that comes is answered any more.
    fn is_done(&self) -> bool
        ensures { IsTrue result ↔ IsDone self.now };

    ghost starts: { (m : Self) → Answers m [] [] m };

    ghost joins: { (a b c : Self) (front rest x y : List ℕ) → Answers a front x b → Answers b rest y c
        → Answers a (front ++ rest) (x ++ y) c };

    ghost ends: { (a b c : Self) (front rest x y : List ℕ) → Answers a front x b → Finishes b rest y c
        → Finishes a (front ++ rest) (x ++ y) c };

    ghost goes_on: { (a b : Self) (front rest x y : List ℕ) → Answers a front x b → AnswersAll b rest y
        → AnswersAll a (front ++ rest) (x ++ y) };

    ghost all: { (a b : Self) (bytes text : List ℕ) → Finishes a bytes text b → AnswersAll a bytes text };

    ghost done: { (m : Self) (rest : List ℕ) → IsDone m → Finishes m rest [] m };

    ghost exists: { (m : Self) (bytes : List ℕ) → (text : List ℕ) × AnswersAll m bytes text };
}
