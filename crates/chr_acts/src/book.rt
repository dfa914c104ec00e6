//! Books: boards with their journals.
ghost use Rattle.std.specs.Prelude.{◌≡◌, ◌-◌, ◌+◌, ◌<◌, ◌++◌, ◌∷◌, [], IfOk, IfErr, OnOk, OnErr, IsNone, length};
ghost use Rattle.std.specs.Prelude.{option_copied};
ghost use Rattle.std.specs.Prelude.{slice_get};
ghost use Rattle.std.specs.Arc.{arc_value};
ghost use Rattle.chr_replica.specs.Boards.{program_on};
ghost use Rattle.chr_replica.specs.Replicas.{first};
ghost use Rattle.chr_acts.specs.Acts.{FitsAct, TakesNoParts};
ghost use Rattle.chr_acts.specs.Events.{Does};
ghost use Rattle.chr_acts.specs.Books.{Enters};
ghost use Rattle.chr_acts.specs.Journals.{IsLegal, count_of};

use crate::act::Act;
use crate::entry::{Entry, Journal};
use chr_join::Accepted;
use chr_replica::Board;
use std::alloc::{AllocError, Global};
use std::marker::Model;
use std::sync::Arc;

/// The act of a call to which memory was refused, which is handed back.
#[derive(Drop)]
pub struct CallFault {
    pub act: Act,
}

/// A board with the journal of all that was asked of it. Its type keeps that the journal is legal: each entry is an
/// event of the replica, under its seat's next number, and all of them lead from the replica that was told nothing to
/// that of the board.
#[derive(Drop)]
pub struct Book {
    board: Board,
    journal: Journal,
}

impl Model for Book {
    ghost use Rattle.chr_replica.specs.Boards.{program_on};
    ghost use Rattle.chr_acts.specs.Journals.{IsLegal};
    ghost use Rattle.chr_acts.specs.Books.{Kept};
    ghost use Rattle.chr_acts.specs.working.Books.{coded_kept};

    ghost Value = { Kept };

    ghost coded = { coded_kept };

    ghost view = { λ b. record { board = b.board; entries = b.journal } };

    ghost invariant = { λ b. IsLegal (program_on b.board) b.journal b.board.replica };
}

impl Book {
    /// The board that was told nothing, with no entries.
    pub fn open(alloc: Global, accepted: Arc<Accepted>) -> Result<Book, AllocError>
        ensures accepted { IfOk result (λ book. book.board.accepted ≡ arc_value accepted) }
        ensures replica { IfOk result (λ book. book.board.replica ≡ first) }
        ensures entries { IfOk result (λ book. book.entries ≡ []) }
    {
        Ok(Book {
            board: Board::open(alloc, accepted)?,
            journal: Journal::new(alloc),
        })
    }

    /// What the book's type keeps: the journal is legal, and leads to the board's replica. The call computes nothing:
    /// its contract says so of the book.
    pub fn is_legal(&self)
        ensures { IsLegal (program_on self.now.board) self.now.entries self.now.board.replica }
    {
        let _ = &self.board;
    }

    /// The board. It takes no memory.
    pub fn board(&self) -> &Board
        ensures { result.now ≡ self.now.board }
    {
        &self.board
    }

    /// The number of entries. It takes no memory.
    pub fn entries(&self) -> u64
        ensures { result ≡ length self.now.entries }
    {
        self.journal.len() as u64
    }

    /// The entry at a place, counted from 1. It takes no memory.
    pub fn entry(&self, place: u64) -> Option<&Entry>
        ensures none { place ≡ 0 → IsNone result }
        ensures entry { 0 < place → option_copied result ≡ slice_get self.now.entries (place - 1) }
    {
        let before = place.checked_sub(1)?;
        self.journal.get(before as usize)
    }

    /// Carries a seat's act out on the board, and answers the place of its entry, which is the last. A refusal is
    /// entered as well, and so is a `settle` that was stopped. The reply is read in the entry: a copy of it could be
    /// refused memory when the act is done.
    ///
    /// # Errors
    /// Where memory is refused to any act but a `settle`, or to the entry. The act is handed back, and the book is as
    /// it was.
    pub fn call(&mut self, alloc: Global, seat: u32, act: Act) -> Result<u64, CallFault>
        requires { FitsAct act }
        ensures program { self.new.board.accepted ≡ self.old.board.accepted }
        ensures ok { OnOk result (Enters (program_on self.old.board) self.old.entries self.old.board.replica seat act
            self.new.entries self.new.board.replica) }
        ensures place { IfOk result (λ place. place ≡ length self.new.entries) }
        ensures handed_back { IfErr result (λ fault. fault.act ≡ act) }
        ensures err { OnErr result (self.new ≡ self.old) }
    {
        match self.journal.enter(alloc, &mut self.board, seat, act) {
            Ok(()) => Ok(self.entries()),
            Err(act) => Err(CallFault { act }),
        }
    }

    /// Like [`Book::call`], but for an act that does not take the pool in parts, and answers an equal copy of the
    /// entry, which is made before the board changes.
    ///
    /// # Errors
    /// Where memory is refused to any act but a `settle`, or to the entry or its copy. The act is handed back, and the
    /// book is as it was.
    pub fn call_with_copy(&mut self, alloc: Global, seat: u32, act: Act) -> Result<Entry, CallFault>
        requires { TakesNoParts act }
        ensures program { self.new.board.accepted ≡ self.old.board.accepted }
        ensures entered { IfOk result (λ entry. self.new.entries ≡ self.old.entries ++ entry ∷ []) }
        ensures asked { IfOk result (λ entry.
            (entry.seat ≡ seat) × (entry.number ≡ count_of seat self.old.entries + 1) × (entry.act ≡ act)) }
        ensures does { IfOk result (λ entry.
            Does (program_on self.old.board) self.old.board.replica act entry.reply self.new.board.replica) }
        ensures handed_back { IfErr result (λ fault. fault.act ≡ act) }
        ensures err { OnErr result (self.new ≡ self.old) }
    {
        match self
            .journal
            .enter_with_copy(alloc, &mut self.board, seat, act)
        {
            Ok(entry) => Ok(entry),
            Err(act) => Err(CallFault { act }),
        }
    }
}
