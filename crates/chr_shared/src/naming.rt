//! What names one opening of a book, and openings that have no name yet.
ghost use Rattle.std.specs.Prelude.{◌≡◌, ◌≤◌, IfOk, IfErr, Some};
ghost use Rattle.chr_shared.specs.declared.limits.TheConstants.{MAX_SEATS};

use crate::limits::MAX_SEATS;
use crate::tie::{Pass, TieTable};
use atomic_table::Table;
use chr_acts::Book;
use std::alloc::{AllocError, Global};
use std::marker::{Brand, Model};

/// Names one opening, so that the types of its seats and of what is shared tell it from others. A function that shares
/// a book has such a name as a parameter, and its caller picks it: `Brand` is a new name for each call.
pub trait Naming {
    ghost use Rattle.chr_shared.specs.Openings.{OpeningView};

    ghost opening: { OpeningView };
}

impl Naming for Brand {
    ghost use Rattle.chr_shared.specs.Openings.{no_opening};

    ghost opening = { no_opening };
}

/// A book that is about to be shared, with the table that ties its seats to its journal.
#[derive(Drop)]
pub struct Opening {
    // The book, which no thread uses yet.
    pub(crate) book: Book,
    // What ties the receipts of the seats to the journal.
    pub(crate) table: TieTable,
    // The view of the table that has the journal since the opening.
    pub(crate) pass: Pass,
    // How many seats there will be.
    pub(crate) seats: u32,
}

impl Model for Opening {
    ghost use Rattle.std.specs.Prelude.{◌≡◌, ◌<◌, [], Some};
    ghost use Rattle.chr_shared.specs.Openings.{OpeningView};
    ghost use Rattle.chr_shared.specs.Tie.{keeper};
    ghost use Rattle.chr_shared.specs.working.Codes.{coded_opening_view};

    ghost Value = { OpeningView };

    ghost coded = { coded_opening_view };

    ghost view = { λ o. record {
      table = o.table.shared.table_id;
      accepted = Some o.book.board.accepted;
      journal = o.book.entries;
      seats = o.seats;
    } };

    ghost invariant = { λ o. (o.table.shared.table_id.words ≡ 1) × (o.pass.table_id ≡ o.table.shared.table_id)
        × (o.pass.me ≡ (keeper [] 0, [])) × (0 < o.seats) };
}

impl Opening {
    /// Prepares a book for `seats` seats, 1 to [`MAX_SEATS`].
    ///
    /// # Errors
    /// Where memory is refused, with the book.
    pub fn of(alloc: Global, book: Book, seats: u32) -> Result<Opening, (AllocError, Book)>
        requires { (1 ≤ seats) × (seats ≤ MAX_SEATS) }
        ensures journal { IfOk result (λ o. o.journal ≡ book.entries) }
        ensures program { IfOk result (λ o. o.accepted ≡ Some book.board.accepted) }
        ensures seats { IfOk result (λ o. o.seats ≡ seats) }
        ensures handed_back { IfErr result (λ r. r.1 ≡ book) }
    {
        let Ok((table, pass)) = Table::of_words(alloc, &[0], &()) else {
            return Err((AllocError, book));
        };
        Ok(Opening {
            book,
            table,
            pass,
            seats,
        })
    }
}
