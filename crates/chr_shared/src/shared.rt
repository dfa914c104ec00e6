//! Books under their locks.
ghost use Rattle.std.specs.Prelude.{◌≡◌, ◌<◌, length, take, drop, vec_len, Some, All, IfOk, IfErr, IsTrue, OnErr, ◌↔◌};
ghost use Rattle.std.specs.List.{Contains};
ghost use Rattle.chr_replica.specs.Boards.{program_on};
ghost use Rattle.chr_acts.specs.Acts.{TakesNoParts};
ghost use Rattle.chr_acts.specs.Journals.{IsLegal};
ghost use Rattle.chr_shared.specs.Openings.{IsTableOf};
ghost use Rattle.chr_shared.specs.Seats.{AreNew, AreNumbered, HaveOwn, IsReceiptOf, Receives};
ghost use Rattle.chr_shared.specs.Tie.{IsBySeat};

use crate::locked_book::LockedBook;
use crate::naming::{Naming, Opening};
use crate::seat::Seat;
use crate::tie::{Deal, TieTable};
use chr_acts::{Act, Book, CallFault, Entry, OpList};
use chr_base::bag::Bag;
use chr_join::Done;
use chr_ops::{Op, Summary};
use std::alloc::{AllocError, Global};
use std::marker::PhantomData;
use std::slice;
use std::sync::{Mutex, Wait};

/// A book that threads share. Each call of a seat, but for [`Shared::settle_with`], is one act under the book's lock,
/// and answers its receipt. Where memory for the call is refused, the act is handed back, and nothing has happened.
#[derive(Drop)]
pub struct Shared<J: Naming> {
    pub(crate) table: TieTable,
    pub(crate) locked: Mutex<LockedBook<J>>,
    pub(crate) seats: u32,
    ghost table_is: { table.shared.table_id ≡ J.opening.table },
    ghost words: { table.shared.table_id.words ≡ 1 },
    ghost seats_are: { (seats ≡ J.opening.seats) × (0 < J.opening.seats) },
}

impl<J: Naming> Shared<J> {
    /// Shares a book. Its seats have the numbers from 1 on, and no receipts yet.
    pub fn open(
        alloc: Global,
        opening: Opening,
    ) -> Result<(Shared<J>, Vec<Seat<J>>), (AllocError, Opening)>
        requires { opening ≡ J.opening }
        ensures ok { IfOk result (λ r. (vec_len r.1 ≡ opening.seats) × AreNew r.1.items) }
        ensures err { IfErr result (λ r. r.1 ≡ opening) }
    {
        let Ok(mut seats) = Vec::with_capacity(alloc, opening.seats as usize) else {
            return Err((AllocError, opening));
        };
        let Opening {
            book,
            table,
            mut pass,
            seats: count,
        } = opening;
        for k in 0..count {
            let badge = table.shared.split_seat::<Deal>(&mut pass).into_badge();
            seats.push_reserved(Seat {
                number: k + 1,
                badge,
                of: PhantomData,
            });
        }
        let locked = Mutex::new(LockedBook {
            book,
            pass,
            of: PhantomData,
        });
        Ok((
            Shared {
                table,
                locked,
                seats: count,
            },
            seats,
        ))
    }

    /// One call of a seat, under the lock. Where memory is refused the act is handed back, and nothing has happened.
    fn call<R: Wait>(
        &self,
        rt: &R,
        alloc: Global,
        seat: &mut Seat<J>,
        act: Act,
    ) -> Result<Entry, CallFault>
        requires { TakesNoParts act }
        ensures number { seat.new.number ≡ seat.old.number }
        ensures received { IfOk result (λ e. Receives J.opening.journal act seat.old e seat.new) }
        ensures handed_back { IfErr result (λ f. f.act ≡ act) }
        ensures list { OnErr result (seat.new.list ≡ seat.old.list) }
    {
        self.locked.lock(rt).call(alloc, &self.table, seat, act)
    }

    /// Tells an operation.
    pub fn tell<R: Wait>(
        &self,
        rt: &R,
        alloc: Global,
        seat: &mut Seat<J>,
        op: Op,
    ) -> Result<Entry, CallFault>
        ensures number { seat.new.number ≡ seat.old.number }
        ensures received { IfOk result (λ e. Receives J.opening.journal (Act.Tell op) seat.old e seat.new) }
        ensures handed_back { IfErr result (λ f. f.act ≡ (Act.Tell op)) }
        ensures list { OnErr result (seat.new.list ≡ seat.old.list) }
    {
        self.call(rt, alloc, seat, Act::Tell(op))
    }

    /// Takes in all of these operations, or none.
    pub fn merge<R: Wait>(
        &self,
        rt: &R,
        alloc: Global,
        seat: &mut Seat<J>,
        ops: Vec<Op>,
    ) -> Result<Entry, CallFault>
        ensures number { seat.new.number ≡ seat.old.number }
        ensures received { IfOk result (λ e. Receives J.opening.journal (Act.Merge ops.items) seat.old e seat.new) }
        ensures handed_back { IfErr result (λ f. f.act ≡ (Act.Merge ops.items)) }
        ensures list { OnErr result (seat.new.list ≡ seat.old.list) }
    {
        self.call(rt, alloc, seat, Act::Merge(OpList::of(ops)))
    }

    /// Leases these atoms of the pool out.
    pub fn take<R: Wait>(
        &self,
        rt: &R,
        alloc: Global,
        seat: &mut Seat<J>,
        part: Bag,
    ) -> Result<Entry, CallFault>
        ensures number { seat.new.number ≡ seat.old.number }
        ensures received { IfOk result (λ e. Receives J.opening.journal (Act.Take part) seat.old e seat.new) }
        ensures handed_back { IfErr result (λ f. f.act ≡ (Act.Take part)) }
        ensures list { OnErr result (seat.new.list ≡ seat.old.list) }
    {
        self.call(rt, alloc, seat, Act::Take(part))
    }

    /// Puts back what came of a lease.
    pub fn put<R: Wait>(
        &self,
        rt: &R,
        alloc: Global,
        seat: &mut Seat<J>,
        done: Done,
    ) -> Result<Entry, CallFault>
        ensures number { seat.new.number ≡ seat.old.number }
        ensures received { IfOk result (λ e. Receives J.opening.journal (Act.Put done) seat.old e seat.new) }
        ensures handed_back { IfErr result (λ f. f.act ≡ (Act.Put done)) }
        ensures list { OnErr result (seat.new.list ≡ seat.old.list) }
    {
        self.call(rt, alloc, seat, Act::Put(done))
    }

    /// Takes the part that is leased out under this number back as it is.
    pub fn recall<R: Wait>(
        &self,
        rt: &R,
        alloc: Global,
        seat: &mut Seat<J>,
        number: u64,
    ) -> Result<Entry, CallFault>
        ensures number { seat.new.number ≡ seat.old.number }
        ensures received { IfOk result (λ e. Receives J.opening.journal (Act.Recall number) seat.old e seat.new) }
        ensures handed_back { IfErr result (λ f. f.act ≡ (Act.Recall number)) }
        ensures list { OnErr result (seat.new.list ≡ seat.old.list) }
    {
        self.call(rt, alloc, seat, Act::Recall(number))
    }

    /// Rests the pool.
    pub fn settle<R: Wait>(
        &self,
        rt: &R,
        alloc: Global,
        seat: &mut Seat<J>,
    ) -> Result<Entry, CallFault>
        ensures number { seat.new.number ≡ seat.old.number }
        ensures received { IfOk result (λ e. Receives J.opening.journal Act.Settle seat.old e seat.new) }
        ensures handed_back { IfErr result (λ f. f.act ≡ Act.Settle) }
        ensures list { OnErr result (seat.new.list ≡ seat.old.list) }
    {
        self.call(rt, alloc, seat, Act::Settle)
    }

    /// Shows the pool.
    pub fn show<R: Wait>(
        &self,
        rt: &R,
        alloc: Global,
        seat: &mut Seat<J>,
    ) -> Result<Entry, CallFault>
        ensures number { seat.new.number ≡ seat.old.number }
        ensures received { IfOk result (λ e. Receives J.opening.journal Act.Show seat.old e seat.new) }
        ensures handed_back { IfErr result (λ f. f.act ≡ Act.Show) }
        ensures list { OnErr result (seat.new.list ≡ seat.old.list) }
    {
        self.call(rt, alloc, seat, Act::Show)
    }

    /// Asks which ids the operations have.
    pub fn summary<R: Wait>(
        &self,
        rt: &R,
        alloc: Global,
        seat: &mut Seat<J>,
    ) -> Result<Entry, CallFault>
        ensures number { seat.new.number ≡ seat.old.number }
        ensures received { IfOk result (λ e. Receives J.opening.journal Act.Summary seat.old e seat.new) }
        ensures handed_back { IfErr result (λ f. f.act ≡ Act.Summary) }
        ensures list { OnErr result (seat.new.list ≡ seat.old.list) }
    {
        self.call(rt, alloc, seat, Act::Summary)
    }

    /// Asks for the operations whose ids a summary does not cover.
    pub fn lacks<R: Wait>(
        &self,
        rt: &R,
        alloc: Global,
        seat: &mut Seat<J>,
        ids: Summary,
    ) -> Result<Entry, CallFault>
        ensures number { seat.new.number ≡ seat.old.number }
        ensures received { IfOk result (λ e. Receives J.opening.journal (Act.Lacks ids) seat.old e seat.new) }
        ensures handed_back { IfErr result (λ f. f.act ≡ (Act.Lacks ids)) }
        ensures list { OnErr result (seat.new.list ≡ seat.old.list) }
    {
        self.call(rt, alloc, seat, Act::Lacks(ids))
    }

    /// Asks for the least lease number that is out. With `recall` of it, until none is out, all leased parts come back.
    pub fn least_lease<R: Wait>(
        &self,
        rt: &R,
        alloc: Global,
        seat: &mut Seat<J>,
    ) -> Result<Entry, CallFault>
        ensures number { seat.new.number ≡ seat.old.number }
        ensures received { IfOk result (λ e. Receives J.opening.journal Act.LeastLease seat.old e seat.new) }
        ensures handed_back { IfErr result (λ f. f.act ≡ Act.LeastLease) }
        ensures list { OnErr result (seat.new.list ≡ seat.old.list) }
    {
        self.call(rt, alloc, seat, Act::LeastLease)
    }

    /// Whether these are all seats of the sharing, in the order of their numbers. It takes no memory.
    pub fn has_all(&self, seats: &[Seat<J>]) -> bool
        ensures { IsTrue result ↔ (length seats.now ≡ J.opening.seats) × AreNumbered seats.now }
    {
        seats.len() == self.seats as usize && are_numbered(seats)
    }

    /// Ends the sharing. The journal since the opening has, of each seat, just that seat's receipts in their order, and
    /// no other entries. The call takes all seats, in the order of their numbers ([`Shared::has_all`]). Each of
    /// `receipts` stands in the journal, with the act, the reply, the seat and the number that it tells.
    pub fn close(self, seats: Vec<Seat<J>>, receipts: &[Entry]) -> Book
        requires numbers { AreNumbered seats.items }
        requires all { vec_len seats ≡ J.opening.seats }
        requires receipts { All (IsReceiptOf seats.items) receipts.now }
        ensures program { Some result.board.accepted ≡ J.opening.accepted }
        ensures before { take (length J.opening.journal) result.entries ≡ J.opening.journal }
        ensures legal { IsLegal (program_on result.board) result.entries result.board.replica }
        ensures seats { HaveOwn (drop (length J.opening.journal) result.entries) seats.items }
        ensures receipts { All (Contains result.entries) receipts.now }
        ensures others { All (IsBySeat J.opening.seats) (drop (length J.opening.journal) result.entries) }
    {
        let Shared { table, locked, .. } = self;
        let mut locked = locked.into_inner();
        let mut seats = seats;
        while let Some(seat) = seats.pop() {
            locked.check(&table, seat);
        }
        locked.into_book()
    }

    /// Like [`Shared::close`], but with one receipt, which stands in the journal.
    pub fn close_with(self, seats: Vec<Seat<J>>, receipt: &Entry) -> Book
        requires numbers { AreNumbered seats.items }
        requires all { vec_len seats ≡ J.opening.seats }
        requires receipt { IsReceiptOf seats.items receipt.now }
        ensures program { Some result.board.accepted ≡ J.opening.accepted }
        ensures before { take (length J.opening.journal) result.entries ≡ J.opening.journal }
        ensures legal { IsLegal (program_on result.board) result.entries result.board.replica }
        ensures seats { HaveOwn (drop (length J.opening.journal) result.entries) seats.items }
        ensures receipt { Contains result.entries receipt.now }
        ensures others { All (IsBySeat J.opening.seats) (drop (length J.opening.journal) result.entries) }
    {
        self.close(seats, slice::from_ref(receipt))
    }
}

/// Whether the seats have the numbers 1, 2 and so on.
fn are_numbered<J: Naming>(seats: &[Seat<J>]) -> bool
    ensures { IsTrue result ↔ AreNumbered seats.now }
{
    for k in 0..seats.len() {
        if u64::from(seats[k].number()) != k as u64 + 1 {
            return false;
        }
    }
    true
}
