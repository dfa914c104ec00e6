//! What the word and the seats' lists keep, and what each kind of step does.
use atomic_table::{Join, Play, Split, TableRule};
use std::collections::LinkedList;

/// How many parts and seats the claims were opened with.
#[derive(Clone, Copy, Drop)]
pub struct Size {
    pub parts: u32,
    pub seats: u32,
}

/// What a seat knows. No value of it is made: it exists in proofs alone.
pub struct Hand {
    /// The number of parts.
    pub limit: u32,
    /// How many seats it stands for.
    pub shares: u32,
    /// How often it ran past the parts.
    pub over: u32,
    /// The numbers that it drew.
    pub drawn: LinkedList<u64>,
}

/// Every number below the word was drawn once, by one seat.
pub struct Law;

impl TableRule<u8, Hand, Size> for Law {
    ghost use Rattle.chr_workers.specs.Claiming.{IsKept, first_hand};

    ghost holds = { λ size state. IsKept size state };

    ghost first = { first_hand };
}

/// `fetch_add` of 1: the number found joins the stepping seat's list.
pub struct Draw;

impl Play<u8, Hand> for Draw {
    ghost use Rattle.chr_workers.specs.Claiming.{Draws};

    ghost then = { Draws };
}

/// One seat is split off.
pub struct Deal;

impl Split<Hand> for Deal {
    ghost use Rattle.chr_workers.specs.Claiming.{dealt, newcomer};

    ghost left = { dealt };

    ghost right = { newcomer };
}

/// Two seats' lists are put together, and nothing is left of the second seat.
pub struct Gather;

impl Join<Hand> for Gather {
    ghost use Rattle.chr_workers.specs.Claiming.{gathered, nobody};

    ghost both = { gathered };

    ghost spent = { nobody };
}
