//! What lies under the lock: the book, and the view of the tie that has the book's journal since the opening.
ghost use Rattle.std.specs.Prelude.{◌≡◌, ◌≤◌, ◌<◌, ◌++◌, ◌∷◌, [], true, Some, List, All, IfOk, IfErr, OnErr, OnOk};
ghost use Rattle.chr_base.specs.declared.limits.TheConstants.{MAX_PARTS};
ghost use Rattle.chr_replica.specs.Boards.{program_on};
ghost use Rattle.chr_acts.specs.declared.entry.Entry.{Entry};
ghost use Rattle.chr_acts.specs.declared.reply.Reply.TheVariants as reply;
ghost use Rattle.chr_acts.specs.Acts.{FitsAct, TakesNoParts};
ghost use Rattle.chr_acts.specs.Events.{Does};
ghost use Rattle.chr_acts.specs.Journals.{IsLegal};
ghost use Rattle.chr_shared.specs.Openings.{IsTableOf};
ghost use Rattle.chr_shared.specs.Seats.{GetsAll, GetsOne, HasOwn, Receives};
ghost use Rattle.chr_shared.specs.Settling.{EndsWith, IsAnswerOf, IsShowReply, IsTaken, IsUntaken, StopsTaking};
ghost use Rattle.chr_shared.specs.Settling.{is_stopped, last_of, refusal_in};
ghost use Rattle.chr_shared.specs.Tie.{appended, no_entry, of_seat, IsBySeat};

use crate::naming::Naming;
use crate::seat::Seat;
use crate::settled::Settled;
use crate::tie::{Append, Check, EntryName, Pass, TieTable, Visit};
use atomic_table::Badge;
use chr_acts::{Act, Book, CallFault, Entry, Reply};
use chr_base::limits::MAX_PARTS;
use chr_join::{Accepted, Lease};
use chr_replica::Refusal;
use std::alloc::{AllocError, Global};
use std::marker::{Brand, Model, PhantomData};
use std::mem;
use std::sync::Arc;

/// A book with the view of the tie that has its journal since the opening. A contract sees it as the board, with that
/// journal.
#[derive(Drop)]
pub struct LockedBook<J: Naming> {
    pub(crate) book: Book,
    pub(crate) pass: Pass,
    pub(crate) of: PhantomData<J>,
}

impl<J: Naming> Model for LockedBook<J> {
    ghost use Rattle.std.specs.Prelude.{◌≡◌, ◌++◌, [], Some};
    ghost use Rattle.chr_acts.specs.Books.{Kept};
    ghost use Rattle.chr_acts.specs.working.Books.{coded_kept};
    ghost use Rattle.chr_shared.specs.Tie.{keeper};

    ghost Value = { Kept };

    ghost coded = { coded_kept };

    ghost view = { λ b. record { board = b.book.board; entries = b.pass.me.0.all } };

    ghost invariant = { λ b. (b.pass.table_id ≡ J.opening.table)
        × (b.pass.me ≡ (keeper b.pass.me.0.all J.opening.seats, []))
        × (b.book.entries ≡ J.opening.journal ++ b.pass.me.0.all)
        × (Some b.book.board.accepted ≡ J.opening.accepted) };
}

impl<J: Naming> LockedBook<J> {
    /// One call of a seat: its entry is the next of the journal and of the seat's list. The seat's view of the tie is
    /// joined to that under the lock, the entry is appended to both lists, and the two views are parted again.
    pub fn call(
        &mut self,
        alloc: Global,
        table: &TieTable,
        seat: &mut Seat<J>,
        act: Act,
    ) -> Result<Entry, CallFault>
        requires parts { TakesNoParts act }
        requires table { IsTableOf J.opening table.now.shared.table_id }
        ensures number { seat.new.number ≡ seat.old.number }
        ensures program { self.new.board.accepted ≡ self.old.board.accepted }
        ensures entered { IfOk result (λ e. self.new.entries ≡ self.old.entries ++ e ∷ []) }
        ensures received { IfOk result (λ e. Receives J.opening.journal act seat.old e seat.new) }
        ensures does { IfOk result (λ e.
            Does (program_on self.old.board) self.old.board.replica act e.reply self.new.board.replica) }
        ensures handed_back { IfErr result (λ f. f.act ≡ act) }
        ensures list { OnErr result (seat.new.list ≡ seat.old.list) }
        ensures err { OnErr result (self.new ≡ self.old) }
    {
        let entry = self.book.call_with_copy(alloc, seat.number, act)?;
        let badge = mem::replace(&mut seat.badge, Badge::blank());
        table
            .shared
            .join_seat::<Visit>(&mut self.pass, badge.into_seat());
        append::<Brand>(table, &mut self.pass, &entry);
        seat.badge = table
            .shared
            .split_seat::<Visit>(&mut self.pass)
            .into_badge();
        Ok(entry)
    }

    /// One call of a seat, of which no copy is made.
    fn call_without_copy(
        &mut self,
        alloc: Global,
        table: &TieTable,
        seat: &mut Seat<J>,
        act: Act,
    ) -> Result<(), CallFault>
        requires fits { FitsAct act }
        requires table { IsTableOf J.opening table.now.shared.table_id }
        ensures number { seat.new.number ≡ seat.old.number }
        ensures ok { OnOk result ((e : Entry) × (self.new.entries ≡ self.old.entries ++ e ∷ [])
            × (seat.new.list ≡ seat.old.list ++ e ∷ []) × (e.act ≡ act)) }
        ensures list { OnErr result (seat.new.list ≡ seat.old.list) }
    {
        self.book.call(alloc, seat.number, act)?;
        let badge = mem::replace(&mut seat.badge, Badge::blank());
        table
            .shared
            .join_seat::<Visit>(&mut self.pass, badge.into_seat());
        append_last::<Brand>(table, &mut self.pass, &self.book);
        seat.badge = table
            .shared
            .split_seat::<Visit>(&mut self.pass)
            .into_badge();
        Ok(())
    }

    /// Copies of the leases that the last call took, or why it took none.
    fn last_leases(&self, alloc: Global) -> Result<Vec<Lease>, Refusal>
        ensures ok { IfOk result (λ leases. (before : List Entry) (e : Entry) →
            self.now.entries ≡ before ++ e ∷ [] → e.reply ≡ reply.LeasedParts leases.items) }
        ensures err { IfErr result (λ refusal. (before : List Entry) (e : Entry) →
            self.now.entries ≡ before ++ e ∷ [] → IsUntaken e refusal) }
    {
        let Some(entry) = self.book.entry(self.book.entries()) else {
            return Err(Refusal::Memory);
        };
        match &entry.reply {
            Reply::LeasedParts(leases) => Ok(leases.copy(alloc)?.into_vec()),
            Reply::Refused(Refusal::Full(what)) => Err(Refusal::Full(*what)),
            _ => Err(Refusal::Memory),
        }
    }

    /// Takes the pool in parts for a seat, and answers copies of the leases.
    pub fn take_parts(
        &mut self,
        alloc: Global,
        table: &TieTable,
        seat: &mut Seat<J>,
        parts: u32,
    ) -> Result<Vec<Lease>, Refusal>
        requires fits { (1 ≤ parts) × (parts ≤ MAX_PARTS) }
        requires table { IsTableOf J.opening table.now.shared.table_id }
        ensures number { seat.new.number ≡ seat.old.number }
        ensures ok { IfOk result (λ leases. GetsOne (IsTaken parts leases.items) seat.old seat.new) }
        ensures err { IfErr result (λ refusal. GetsAll (StopsTaking parts refusal) seat.old seat.new) }
    {
        let Ok(()) = self.call_without_copy(alloc, table, seat, Act::TakeParts(parts)) else {
            return Err(Refusal::Memory);
        };
        self.last_leases(alloc)
    }

    /// Rests the pool and shows it, for a seat.
    pub fn settle_and_show(
        &mut self,
        alloc: Global,
        table: &TieTable,
        seat: &mut Seat<J>,
    ) -> Settled
        requires table { IsTableOf J.opening table.now.shared.table_id }
        ensures number { seat.new.number ≡ seat.old.number }
        ensures list { GetsAll (EndsWith result) seat.old seat.new }
    {
        let Ok(settled) = self.call(alloc, table, seat, Act::Settle) else {
            return Settled::NotRested(Refusal::Memory);
        };
        if was_stopped(&settled.reply) {
            return Settled::NotRested(Refusal::Memory);
        }
        let Ok(shown) = self.call(alloc, table, seat, Act::Show) else {
            return Settled::NotRested(Refusal::Memory);
        };
        answer_of(shown)
    }

    /// The program of the book's board.
    pub fn program(&self) -> Result<Arc<Accepted>, AllocError> {
        self.book.board().program().clone()
    }

    /// Compares a seat's list with the journal since the opening.
    pub fn check(&mut self, table: &TieTable, seat: Seat<J>)
        requires table { IsTableOf J.opening table.now.shared.table_id }
        ensures same { self.new ≡ self.old }
        ensures own { HasOwn self.old.entries seat }
        ensures others { All (IsBySeat J.opening.seats) self.old.entries }
    {
        let Seat { badge, .. } = seat;
        table
            .shared
            .join_seat::<Visit>(&mut self.pass, badge.into_seat());
        table.shared.load::<Check>(&mut self.pass, 0);
        drop(table.shared.split_seat::<Visit>(&mut self.pass));
    }

    /// The book, whose journal goes on from the one that was opened.
    pub fn into_book(self) -> Book
        ensures entries { result.entries ≡ J.opening.journal ++ self.entries }
        ensures board { result.board ≡ self.board }
        ensures program { Some result.board.accepted ≡ J.opening.accepted }
        ensures legal { IsLegal (program_on result.board) result.entries result.board.replica }
    {
        let LockedBook { book, .. } = self;
        book.is_legal();
        book
    }
}

/// Appends an entry to both lists of a view that has the journal and a seat's list. What the seat's list had before was
/// the seat's part of the journal.
fn append<E: EntryName>(table: &TieTable, pass: &mut Pass, entry: &Entry)
    requires name { entry.now ≡ E.entry }
    requires table { (pass.old.table_id ≡ table.now.shared.table_id) × (0 < table.now.shared.table_id.words) }
    requires hosts { (pass.old.me.0.keeps ≡ true) × (pass.old.me.0.sits ≡ true)
        × (pass.old.me.0.number ≡ entry.now.seat) × (pass.old.me.1 ≡ []) }
    ensures appended { (pass.new.table_id ≡ pass.old.table_id)
        × (pass.new.me ≡ (appended pass.old.me.0 entry.now, [])) }
    ensures own { pass.old.me.0.mine ≡ of_seat pass.old.me.0.number pass.old.me.0.all }
{
    table.shared.load::<Append<E>>(pass, 0);
}

/// Appends the last entry of the book to both lists of a view that has the journal and a seat's list.
fn append_last<E: EntryName>(table: &TieTable, pass: &mut Pass, book: &Book)
    requires name { last_of no_entry book.now.entries ≡ E.entry }
    requires table { (pass.old.table_id ≡ table.now.shared.table_id) × (0 < table.now.shared.table_id.words) }
    requires hosts { (pass.old.me.0.keeps ≡ true) × (pass.old.me.0.sits ≡ true)
        × (pass.old.me.0.number ≡ (last_of no_entry book.now.entries).seat) × (pass.old.me.1 ≡ []) }
    ensures appended { (pass.new.table_id ≡ pass.old.table_id)
        × (pass.new.me ≡ (appended pass.old.me.0 (last_of no_entry book.now.entries), [])) }
{
    table.shared.load::<Append<E>>(pass, 0);
}

/// Whether a reply is that of a settle that was refused memory.
fn was_stopped(reply: &Reply) -> bool
    ensures { result ≡ is_stopped reply.now }
{
    matches!(reply, Reply::Stopped(_))
}

/// Why a call was refused, if it was.
fn refusal_of(reply: &Reply) -> Option<Refusal>
    ensures { result ≡ refusal_in reply.now }
{
    match reply {
        Reply::Refused(refusal) => Some(*refusal),
        _ => None,
    }
}

/// The answer of a settling, by the entry of its show of a pool at rest.
fn answer_of(shown: Entry) -> Settled
    requires { IsShowReply shown.reply }
    ensures { IsAnswerOf shown result }
{
    match refusal_of(&shown.reply) {
        Some(refusal) => Settled::NotRested(refusal),
        None => Settled::Rest(shown),
    }
}
