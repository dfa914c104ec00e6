//! The tie of receipts to entries: a table of one word, which never changes, whose views are lists of entries.
//! - The keeper is the view that has the journal since the opening. It lies under the book's lock.
//! - Each seat has a view with its own entries, its badge.
//!
//! In a call the badge is joined to the keeper's view: the seat is the keeper's visitor. The entry is appended to both
//! lists, and the two views are parted again.
use atomic_table::{Join, Play, Split, Table, TableRule};
use chr_acts::Entry;
use std::alloc::Global;
use std::collections::LinkedList;
use std::marker::{Brand, PhantomData};

/// What a view of the table knows. Only specifications use its values: none is made.
pub struct Known {
    /// Whether it is the keeper's. Else `all` and `dealt` say nothing.
    pub keeps: bool,
    /// The journal since the opening.
    pub all: LinkedList<Entry>,
    /// How many seats were dealt.
    pub dealt: u32,
    /// Whether it is a seat's, or the keeper's with a visitor. Else `number` and `mine` say nothing.
    pub sits: bool,
    /// The number of the seat.
    pub number: u32,
    /// The entries of the seat, in their order.
    pub mine: LinkedList<Entry>,
}

/// The rule of the table: there is one journal, of which the keeper has all and each seat its own part.
pub struct TieRule;

impl TableRule<u8, Known, ()> for TieRule {
    ghost use Rattle.std.specs.Prelude.{[]};
    ghost use Rattle.chr_shared.specs.Tie.{IsTied, keeper};

    ghost holds = { λ _ state. IsTied state };

    ghost first = { λ _. keeper [] 0 };
}

/// The step by which the keeper deals a seat, with the next number and no entries.
pub struct Deal;

impl Split<Known> for Deal {
    ghost use Rattle.chr_shared.specs.Tie.{dealing, newcomer};

    ghost left = { dealing };

    ghost right = { newcomer };
}

/// The steps of a call: a seat's view is joined to the keeper's, and parted from it again.
pub struct Visit;

impl Join<Known> for Visit {
    ghost use Rattle.chr_shared.specs.Tie.{visited, nobody};

    ghost both = { visited };

    ghost spent = { nobody };
}

impl Split<Known> for Visit {
    ghost use Rattle.chr_shared.specs.Tie.{alone, visitor};

    ghost left = { alone };

    ghost right = { visitor };
}

/// Names one entry, for the step that appends it.
pub trait EntryName {
    ghost use Rattle.chr_acts.specs.declared.entry.Entry.{Entry};

    ghost entry: { Entry };
}

impl EntryName for Brand {
    ghost use Rattle.chr_shared.specs.Tie.{no_entry};

    ghost entry = { no_entry };
}

/// The step that appends the entry to both lists of the keeper with a visitor.
pub struct Append<E: EntryName>(PhantomData<E>);

impl<E: EntryName> Play<u8, Known> for Append<E> {
    ghost use Rattle.chr_shared.specs.Tie.{Appends};

    ghost then = { λ step before found after. Appends E.entry before after };
}

/// The step that compares the visitor's list with the journal.
pub struct Check;

impl Play<u8, Known> for Check {
    ghost use Rattle.chr_shared.specs.Tie.{Checks};

    ghost then = { λ step before found after. Checks before after };
}

/// The table of the tie. Its word is never read for its value.
pub type TieTable = Table<u8, Known, (), TieRule, Global>;

/// A view of the table: the keeper's, with a visitor or without, or that of a seat in a call.
pub type Pass = atomic_table::Seat<u8, Known>;
