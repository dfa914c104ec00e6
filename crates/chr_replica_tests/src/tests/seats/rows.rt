//! Two seats ask in turn, in one thread.
ghost use Rattle.std.specs.Prelude.{◌≡◌};

use crate::tests::said::{Said, says};
use crate::tests::seats::calls::receipt;
use crate::tests::seats::{close, opened, opening};
use crate::tests::texts::{accepted, op};
use chr_acts::{Book, Entry};
use chr_shared::{Naming, Opening, Receipt, Seat, Shared};
use chr_testing::texts::MINIMUM;
use std::alloc::Global;
use std::marker::Brand;
use std::process::Abort;
use std::sync::Wait;

/// The number of a seat and of its receipt, and what is answered.
type Row = (u32, u64, Said);

const TWO_SEATS: [Row; 4] = [
    (1, 1, Said::New),
    (2, 1, Said::Again),
    (2, 2, Said::Shown(5)),
    (1, 2, Said::Refused(36)),
];

/// Whether the entry is that of the row.
fn is_of(entry: &Entry, row: &Row) -> bool {
    let (seat, number, said) = row;
    entry.seat == *seat && entry.number == *number && says(&entry.reply, *said)
}

/// Whether the receipts are those of the rows, and the book has the same entries in this order, and no others.
fn are_of(receipts: &[Receipt], book: &Book, rows: &[Row]) -> bool {
    if receipts.len() != rows.len() || book.entries() != rows.len() as u64 {
        return false;
    }
    let mut place = 0u64;
    for (receipt, row) in receipts.iter().zip(rows) {
        place = place.wrapping_add(1);
        let Some(entry) = book.entry(place) else {
            return false;
        };
        if !is_of(receipt, row) || !is_of(entry, row) {
            return false;
        }
    }
    true
}

fn tell<J: Naming, R: Abort + Wait>(
    rt: &R,
    alloc: Global,
    shared: &Shared<J>,
    seat: &mut Seat<J>,
) -> Receipt {
    let five = op(rt, alloc, 1, 1, &[5]);
    receipt(rt, shared.tell(rt, alloc, seat, five))
}

/// Both seats tell, the second shows and the first recalls 7, as [`TWO_SEATS`] has it.
fn receipts<J: Naming, R: Abort + Wait>(
    rt: &R,
    alloc: Global,
    shared: &Shared<J>,
    first: &mut Seat<J>,
    second: &mut Seat<J>,
) -> [Receipt; 4] {
    let new = tell(rt, alloc, shared, first);
    let again = tell(rt, alloc, shared, second);
    let shown = receipt(rt, shared.show(rt, alloc, second));
    let refused = receipt(rt, shared.recall(rt, alloc, first, 7));
    [new, again, shown, refused]
}

/// The receipts and the closed book of two seats.
fn of_two<J: Naming, R: Abort + Wait>(
    rt: &R,
    alloc: Global,
    opening: Opening,
) -> ([Receipt; 4], Book)
    requires { opening ≡ J.opening }
{
    let (shared, mut seats) = opened::<J, _>(rt, alloc, opening);
    let mut second = seats.pop().expect(rt, "a seat");
    let mut first = seats.pop().expect(rt, "a seat");
    let receipts = receipts(rt, alloc, &shared, &mut first, &mut second);
    let seats = vec![in alloc; first, second].expect(rt, "memory");
    (receipts, close(rt, shared, seats))
}

#[test]
fn two_seats_ask_in_turn(rt: HostRuntime) {
    let alloc = rt.alloc();
    let opening = opening(&rt, alloc, &accepted(&rt, alloc, MINIMUM), 2);
    let (receipts, book) = of_two::<Brand, _>(&rt, alloc, opening);
    assert!(rt; are_of(&receipts, &book, &TWO_SEATS));
}
