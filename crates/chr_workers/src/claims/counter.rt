//! The claims, and the seats by which threads claim.
ghost use Rattle.std.specs.Prelude.{◌≡◌, ℕ, ◌<◌, ◌≤◌, true, false, All, IfOk, MatchOption, None, count_by, vec_len};
ghost use Rattle.chr_workers.specs.ClaimSeats.{IsOf, IsFresh, DrawsPart, DrawsPast, times_drawn};

use crate::claims::law::{Deal, Draw, Gather, Hand, Law, Size};
use atomic_table::{Seat, Table};
use std::alloc::{AllocError, Global};
use std::marker::Model;

/// The numbers from 0 on, each claimed by one seat.
#[derive(Drop)]
pub struct Claims {
    table: Table<u8, Hand, Size, Law, Global>,
    parts: u32,
    seats: u32,
}

impl Model for Claims {
    ghost use Rattle.std.specs.Prelude.{◌≡◌};
    ghost use Rattle.chr_workers.specs.ClaimSeats.{Opened, opened_code};

    ghost Value = { Opened };

    ghost coded = { opened_code };

    ghost view = { λ c. record { name = c.table.shared.table_id; parts = c.parts; seats = c.seats } };

    ghost invariant = { λ c. (c.table.shared.table_id.words ≡ 1) × (c.table.shared.table_id.slots ≡ 0)
        × (c.table.shared.key.parts ≡ c.parts) × (c.table.shared.key.seats ≡ c.seats) };
}

/// The right to claim numbers. Contracts see those that it drew, in their order.
#[derive(Drop)]
pub struct ClaimSeat {
    seat: Seat<u8, Hand>,
    spent: bool,
}

impl Model for ClaimSeat {
    ghost use Rattle.std.specs.Prelude.{◌≡◌, [], if◌then◌else◌};
    ghost use Rattle.chr_workers.specs.ClaimSeats.{Drawn, drawn_code};

    ghost Value = { Drawn };

    ghost coded = { drawn_code };

    ghost view = { λ s. record {
      name = s.seat.table_id;
      parts = s.seat.me.0.limit;
      numbers = s.seat.me.0.drawn;
      spent = s.spent;
    } };

    ghost invariant = { λ s. (s.seat.me.1 ≡ []) × (s.seat.me.0.shares ≡ 1)
        × (s.seat.me.0.over ≡ (if s.spent then 1 else 0)) };
}

impl Claims {
    /// Claims of the numbers below `parts`, and their seats.
    pub fn open(
        alloc: Global,
        parts: u32,
        seats: u32,
    ) -> Result<(Claims, Vec<ClaimSeat>), AllocError>
        requires { 0 < seats }
        ensures claims { IfOk result (λ r. (r.0.parts ≡ parts) × (r.0.seats ≡ seats)) }
        ensures seats { IfOk result (λ r. (vec_len r.1 ≡ seats) × All (λ s. IsFresh r.0 s) r.1.items) }
    {
        let mut fresh = Vec::with_capacity(alloc, seats as usize)?;
        let (table, mut first) = Table::of_words(alloc, &[0], &Size { parts, seats })?;
        for _ in 1..seats {
            let seat = table.shared.split_seat::<Deal>(&mut first);
            fresh.push_reserved(ClaimSeat { seat, spent: false });
        }
        fresh.push_reserved(ClaimSeat {
            seat: first,
            spent: false,
        });
        Ok((
            Claims {
                table,
                parts,
                seats,
            },
            fresh,
        ))
    }

    /// Claims the next number. None where all numbers below `parts` are claimed: the seat then takes no further step. A
    /// claim is one atomic step, and waits for nothing.
    pub fn next(&self, seat: &mut ClaimSeat) -> Option<u32>
        requires { IsOf self.now seat.old }
        ensures same { IsOf self.now seat.new }
        ensures again { seat.old.spent ≡ true → (result ≡ None) × (seat.new ≡ seat.old) }
        ensures claimed { seat.old.spent ≡ false → MatchOption result (DrawsPast self.now seat.old seat.new)
            (DrawsPart self.now seat.old seat.new) }
    {
        if seat.spent {
            return None;
        }
        let number = self.table.shared.fetch_add::<Draw>(&mut seat.seat, 0, 1);
        if number < u64::from(self.parts) {
            Some(number as u32)
        } else {
            seat.spent = true;
            None
        }
    }

    /// Ends the claims. No number was drawn twice, and each below `parts` was drawn where a seat was told None.
    pub fn close(self, seats: Vec<ClaimSeat>)
        requires all { vec_len seats ≡ self.seats }
        requires of { All (λ s. IsOf self s) seats.items }
        ensures once { (x : ℕ) → times_drawn x seats.items ≤ 1 }
        ensures whole { 0 < count_by (λ s. s.spent) seats.items → (x : ℕ) → x < self.parts
            → times_drawn x seats.items ≡ 1 }
    {
        let Claims {
            table,
            parts: _,
            seats: _,
        } = self;
        let mut seats = seats;
        let Some(last) = seats.pop() else {
            return;
        };
        let ClaimSeat { seat: mut all, .. } = last;
        while let Some(one) = seats.pop() {
            let ClaimSeat { seat, .. } = one;
            table.shared.join_seat::<Gather>(&mut all, seat);
        }
        table.close_with(all).free();
    }
}
