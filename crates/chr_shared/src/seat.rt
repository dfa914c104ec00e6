//! A seat at a shared book.
ghost use Rattle.std.specs.Prelude.{◌≡◌};

use crate::naming::Naming;
use crate::tie::Known;
use atomic_table::Badge;
use std::marker::{Model, PhantomData};

/// The right to make calls under one number. A contract sees it as the number with the receipts so far.
#[derive(Drop)]
pub struct Seat<J: Naming> {
    pub(crate) number: u32,
    pub(crate) badge: Badge<Known>,
    pub(crate) of: PhantomData<J>,
}

impl<J: Naming> Model for Seat<J> {
    ghost use Rattle.std.specs.Prelude.{◌≡◌, ◌∷◌, []};
    ghost use Rattle.chr_shared.specs.Openings.{SeatView};
    ghost use Rattle.chr_shared.specs.Seats.{mine_of};
    ghost use Rattle.chr_shared.specs.Tie.{sitting};
    ghost use Rattle.chr_shared.specs.working.Codes.{coded_seat_view};

    ghost Value = { SeatView };

    ghost coded = { coded_seat_view };

    ghost view = { λ s. record { number = s.number; list = mine_of s.badge.views } };

    ghost invariant = { λ s. (s.badge.table_id ≡ J.opening.table)
        × (s.badge.views ≡ sitting s.number (mine_of s.badge.views) ∷ []) };
}

impl<J: Naming> Seat<J> {
    /// The seat's number. The seats of an opening have the numbers 1, 2 and so on. It takes no memory.
    pub fn number(&self) -> u32
        ensures { result ≡ self.now.number }
    {
        self.number
    }
}
