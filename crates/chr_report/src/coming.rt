//! Bytes of an input as they come.
ghost use Rattle.std.specs.Prelude.{◌≡◌, ◌≤◌, ℕ, List, [], ◌∷◌, ◌++◌, ◌<◌, length, take, IsTrue, OnOk, IfOk};
ghost use Rattle.std.specs.Prelude.{string_bytes};
ghost use Rattle.chr_answers.specs.Lines.{HasNoFeed};
ghost use Rattle.chr_report.specs.working.Coming.{Adds, AnswersNone, Ends, Feeds, HasComeTo, IsReadyAt, IsRefusedNow};
ghost use Rattle.chr_report.specs.working.Coming.{IsPastText, IsTooLong, MayAnswer, TakesTurns, TurnEnds, status_at};
ghost use Rattle.chr_report.specs.working.Coming.{end_answers, feeds_end, feeds_join, feeds_more, feeds_nothing};
ghost use Rattle.chr_report.specs.working.Coming.{nothing_may_be_answered, refused_ends};

use crate::input::MOST_TEXT;
use crate::running::Status;
use crate::turning::{Asked, Stage, Turn};
use chr_answers::{ended_line, shorten};
use chr_run::Machine;
use std::alloc::{AllocError, Global};
use std::mem::{forget, replace};

/// An input of which a beginning has come. Who makes it says by what lines are taken.
#[derive(Drop)]
pub(crate) struct Coming<F> {
    pub(crate) alloc: Global,
    /// What is asked of the input.
    pub(crate) asked: Asked,
    /// What it stands at, at the end of the last whole line.
    pub(crate) stage: Stage,
    /// What is held of the line after that.
    pub(crate) line: Vec<u8>,
    /// Takes the line whose turn it is.
    pub(crate) turn: F,
}

impl<F: Fn(Turn) -> Result<Turn, AllocError>> Coming<F> {
    /// Nothing has come.
    pub(crate) fn new(alloc: Global, asked: Asked, turn: F) -> Coming<F>
        ensures asked { result.asked ≡ asked }
        ensures turn { result.turn ≡ turn }
        ensures ready { IsReadyAt result.stage }
        ensures none { HasComeTo result [] [] }
    {
        let text = Vec::new(alloc);
        let line = Vec::new(alloc);
        Coming {
            alloc,
            asked,
            stage: Stage::Text(text),
            line,
            turn,
        }
    }

    /// The line that is held has its turn: it ends, or the input does with it. Nothing is held of a line then.
    fn take_turn(&mut self, is_last: bool, held: &mut String) -> Result<(), AllocError>
        requires turns { TakesTurns self.old.asked (F.pre self.old.turn) (F.post self.old.turn) }
        requires ready { IsReadyAt self.old.stage }
        ensures asked { self.new.asked ≡ self.old.asked }
        ensures turn { self.new.turn ≡ self.old.turn }
        ensures ready { OnOk result (IsReadyAt self.new.stage) }
        ensures none { OnOk result (self.new.line.items ≡ []) }
        ensures taken { OnOk result (Adds (string_bytes held.old) (string_bytes held.new)
            (TurnEnds self.old self.new is_last)) }
    {
        let turn = Turn {
            stage: replace(&mut self.stage, Stage::Refused),
            line: replace(&mut self.line, Vec::new(self.alloc)),
            held: replace(held, String::new(self.alloc)),
            is_last,
        };
        let taken = (self.turn)(turn)?;
        self.stage = taken.stage;
        self.line = taken.line;
        self.line.clear();
        *held = taken.held;
        Ok(())
    }

    /// Whether the program text has ended.
    fn is_past_text(&self) -> bool
        ensures { IsTrue result → IsPastText self.now.stage }
    {
        match &self.stage {
            Stage::Text(_) => false,
            Stage::Commands(_) | Stage::Checked | Stage::Refused => true,
        }
    }

    /// More of a line comes. Of one that is longer than any command some is held.
    fn hold(&mut self, more: &[u8]) -> Result<(), AllocError>
        requires { HasNoFeed more.now }
        ensures asked { self.new.asked ≡ self.old.asked }
        ensures turn { self.new.turn ≡ self.old.turn }
        ensures stage { self.new.stage ≡ self.old.stage }
        ensures holds { OnOk result (Feeds self.old more.now [] self.new) }
    {
        self.line.extend_from_slice(more)?;
        if self.is_past_text() {
            shorten(&mut self.line);
        }
        Ok(())
    }

    /// A line ends, and then others may come.
    fn end_line(&mut self, end: &[u8], held: &mut String) -> Result<(), AllocError>
        requires unended { HasNoFeed end.now }
        requires turns { TakesTurns self.old.asked (F.pre self.old.turn) (F.post self.old.turn) }
        requires ready { IsReadyAt self.old.stage }
        ensures asked { self.new.asked ≡ self.old.asked }
        ensures turn { self.new.turn ≡ self.old.turn }
        ensures ready { OnOk result (IsReadyAt self.new.stage) }
        ensures feeds { OnOk result (Adds (string_bytes held.old) (string_bytes held.new)
            (λ text. Feeds self.old (end.now ++ 10 ∷ []) text self.new)) }
    {
        self.hold(end)?;
        self.take_turn(false, held)
    }

    /// Whether there is more program text than any program has.
    fn is_too_long(&self) -> bool
        ensures { IsTrue result → IsTooLong self.now.stage self.now.line.items }
    {
        match &self.stage {
            Stage::Text(text) => text.len().saturating_add(self.line.len()) > MOST_TEXT,
            Stage::Commands(_) | Stage::Checked | Stage::Refused => false,
        }
    }

    /// Refuses program text that is too long, whatever comes after it.
    fn refuse_long(&mut self, held: &mut String) -> Result<(), AllocError>
        requires turns { TakesTurns self.old.asked (F.pre self.old.turn) (F.post self.old.turn) }
        requires ready { IsReadyAt self.old.stage }
        ensures asked { self.new.asked ≡ self.old.asked }
        ensures turn { self.new.turn ≡ self.old.turn }
        ensures ready { OnOk result (IsReadyAt self.new.stage) }
        ensures feeds { OnOk result (Adds (string_bytes held.old) (string_bytes held.new)
            (λ text. Feeds self.old [] text self.new)) }
    {
        if !self.is_too_long() {
            return Ok(());
        }
        self.take_turn(true, held)?;
        self.stage = Stage::Refused;
        Ok(())
    }

    /// Whether no line is answered any more, whatever comes.
    fn answers_none(&self) -> bool
        ensures { IsTrue result → AnswersNone self.now.stage }
    {
        match &self.stage {
            Stage::Checked | Stage::Refused => true,
            Stage::Text(_) | Stage::Commands(_) => false,
        }
    }

    /// Takes bytes up to the end of a line, or all. Answers how many.
    fn take_some(&mut self, bytes: &[u8], held: &mut String) -> Result<usize, AllocError>
        requires some { 0 < length bytes.now }
        requires turns { TakesTurns self.old.asked (F.pre self.old.turn) (F.post self.old.turn) }
        requires ready { IsReadyAt self.old.stage }
        ensures asked { self.new.asked ≡ self.old.asked }
        ensures turn { self.new.turn ≡ self.old.turn }
        ensures ready { OnOk result (IsReadyAt self.new.stage) }
        ensures some { IfOk result (λ n. 0 < n) }
        ensures within { IfOk result (λ n. n ≤ length bytes.now) }
        ensures feeds { IfOk result (λ n. Adds (string_bytes held.old) (string_bytes held.new)
            (λ text. Feeds self.old (take n bytes.now) text self.new)) }
    {
        if self.answers_none() {
            return Ok(bytes.len());
        }
        let Some((end, rest)) = ended_line(bytes) else {
            self.hold(bytes)?;
            return Ok(bytes.len());
        };
        self.end_line(end, held)?;
        Ok(bytes.len() - rest.len())
    }

    /// The status of an input that has come to its end, or whose output has. The process is about to end then, and its
    /// memory with it, so the replicas are left as they are: to free a million operations one by one takes time.
    pub(crate) fn end(self) -> Status
        ensures { result ≡ status_at self.stage }
    {
        let status = match &self.stage {
            Stage::Commands(_) | Stage::Checked => Status::Accepted,
            Stage::Text(_) | Stage::Refused => Status::Refused,
        };
        forget(self);
        status
    }
}

impl<F: Fn(Turn) -> Result<Turn, AllocError>> Machine<Vec<u8>> for Coming<F> {
    ghost Answers = { Feeds };

    ghost Finishes = { Ends };

    ghost AnswersAll = { MayAnswer };

    ghost IsDone = { IsRefusedNow };

    ghost IsReady = { λ p. TakesTurns p.asked (F.pre p.turn) (F.post p.turn) × IsReadyAt p.stage };

    ghost fits = { λ _ _. Unit {0} };

    fn answer(
        &mut self,
        batch: &mut Vec<u8>,
        at: usize,
        held: &mut String,
    ) -> Result<usize, AllocError> {
        let taken = self.take_some(&batch[at..], held)?;
        self.refuse_long(held)?;
        Ok(at + taken)
    }

    fn finish(&mut self, held: &mut String) -> Result<(), AllocError> {
        self.take_turn(true, held)
    }

    fn is_done(&self) -> bool {
        match &self.stage {
            Stage::Refused => true,
            Stage::Text(_) | Stage::Commands(_) | Stage::Checked => false,
        }
    }

    ghost starts = { feeds_nothing };

    ghost joins = { feeds_join };

    ghost ends = { feeds_end };

    ghost goes_on = { feeds_more };

    ghost all = { end_answers };

    ghost done = { refused_ends };

    ghost exists = { nothing_may_be_answered };
}
