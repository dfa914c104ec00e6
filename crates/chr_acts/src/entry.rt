//! The entries of a journal.
ghost use Rattle.std.specs.Prelude.{◌≡◌, ◌+◌, ◌++◌, [], ◌∷◌, IfOk, IfErr, OnOk, OnErr};
ghost use Rattle.std.specs.Prelude.{length, slice_get, option_copied};
ghost use Rattle.chr_replica.specs.Boards.{program_on};
ghost use Rattle.chr_acts.specs.Acts.{FitsAct, TakesNoParts};
ghost use Rattle.chr_acts.specs.Events.{Does};
ghost use Rattle.chr_acts.specs.Journals.{count_of};
ghost use Rattle.chr_acts.specs.Books.{Enters};

use crate::act::Act;
use crate::acting::{carry_out, carry_out_with_copy};
use crate::numbers::Numbers;
use crate::reply::Reply;
use chr_replica::Board;
use std::alloc::{AllocError, Global};
use std::marker::Model;

/// What a seat asked of a replica, and what was answered.
#[derive(Drop)]
pub struct Entry {
    /// Who asked.
    pub seat: u32,
    /// The place of this entry among those of the seat, from 1 on.
    pub number: u64,
    /// What was asked.
    pub act: Act,
    /// What was answered.
    pub reply: Reply,
}

impl Entry {
    /// An equal entry.
    pub fn copy(&self, alloc: Global) -> Result<Entry, AllocError>
        ensures { IfOk result (λ entry. entry ≡ self.now) }
    {
        Ok(Entry {
            seat: self.seat,
            number: self.number,
            act: self.act.copy(alloc)?,
            reply: self.reply.copy(alloc)?,
        })
    }
}

/// Entries, the oldest first, with the last number of each seat.
#[derive(Drop)]
pub struct Journal {
    entries: Vec<Entry>,
    numbers: Numbers,
}

impl Model for Journal {
    ghost use Rattle.std.specs.Prelude.{List};
    ghost use Rattle.chr_acts.specs.declared.entry.Entry.{Entry};
    ghost use Rattle.chr_acts.specs.working.Journals.{coded_journal};
    ghost use Rattle.chr_acts.specs.working.Numbers.{AreLast};

    ghost Value = { List Entry };

    ghost coded = { coded_journal };

    ghost view = { λ j. j.entries.items };

    ghost invariant = { λ j. AreLast j.numbers j.entries.items };
}

impl Journal {
    /// The empty journal.
    pub fn new(alloc: Global) -> Journal
        ensures { result ≡ [] }
    {
        Journal {
            entries: Vec::new(alloc),
            numbers: Numbers::new(alloc),
        }
    }

    /// The number of entries. It takes no memory.
    pub fn len(&self) -> usize
        ensures { result ≡ length self.now }
    {
        self.entries.len()
    }

    /// The entry at a place, counted from 0. It takes no memory.
    pub fn get(&self, place: usize) -> Option<&Entry>
        ensures { option_copied result ≡ slice_get self.now place }
    {
        self.entries.get(place)
    }

    /// The number that the next entry of a seat has. It takes no memory, and as long however many entries there are.
    pub fn next_number(&self, seat: u32) -> u64
        ensures { result ≡ count_of seat self.now + 1 }
    {
        self.numbers.last(seat) + 1
    }

    /// Carries a seat's act out on a board, and enters it with the reply under the seat's next number.
    ///
    /// # Errors
    /// Where memory is refused, with the act. Nothing is entered, and the board is as it was.
    pub(crate) fn enter(
        &mut self,
        alloc: Global,
        board: &mut Board,
        seat: u32,
        act: Act,
    ) -> Result<(), Act>
        requires { FitsAct act }
        ensures program { board.new.accepted ≡ board.old.accepted }
        ensures ok { OnOk result (
            Enters (program_on board.old) self.old board.old.replica seat act self.new board.new.replica) }
        ensures handed_back { IfErr result (λ back. back ≡ act) }
        ensures err { OnErr result (self.new ≡ self.old) }
        ensures board { OnErr result (board.new ≡ board.old) }
    {
        let number = self.next_number(seat);
        let Ok(()) = self.numbers.make_room(seat) else {
            return Err(act);
        };
        if self.entries.reserve(1).is_err() {
            return Err(act);
        }
        let Ok(reply) = carry_out(alloc, board, &act) else {
            return Err(act);
        };
        self.numbers.give(seat, number);
        self.entries.push_reserved(Entry {
            seat,
            number,
            act,
            reply,
        });
        Ok(())
    }

    /// Like [`Journal::enter`], but answers an equal copy of the entry.
    ///
    /// # Errors
    /// Where memory is refused, with the act. Nothing is entered, and the board is as it was.
    pub(crate) fn enter_with_copy(
        &mut self,
        alloc: Global,
        board: &mut Board,
        seat: u32,
        act: Act,
    ) -> Result<Entry, Act>
        requires { TakesNoParts act }
        ensures program { board.new.accepted ≡ board.old.accepted }
        ensures entered { IfOk result (λ entry. self.new ≡ self.old ++ entry ∷ []) }
        ensures asked { IfOk result (λ entry.
            (entry.seat ≡ seat) × (entry.number ≡ count_of seat self.old + 1) × (entry.act ≡ act)) }
        ensures does { IfOk result (λ entry.
            Does (program_on board.old) board.old.replica act entry.reply board.new.replica) }
        ensures handed_back { IfErr result (λ back. back ≡ act) }
        ensures err { OnErr result (self.new ≡ self.old) }
        ensures board { OnErr result (board.new ≡ board.old) }
    {
        let number = self.next_number(seat);
        let Ok(copied) = act.copy(alloc) else {
            return Err(act);
        };
        let Ok(()) = self.numbers.make_room(seat) else {
            return Err(act);
        };
        if self.entries.reserve(1).is_err() {
            return Err(act);
        }
        let Ok((reply, again)) = carry_out_with_copy(alloc, board, &act) else {
            return Err(act);
        };
        self.numbers.give(seat, number);
        self.entries.push_reserved(Entry {
            seat,
            number,
            act,
            reply,
        });
        Ok(Entry {
            seat,
            number,
            act: copied,
            reply: again,
        })
    }
}
