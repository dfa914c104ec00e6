//! Operations whose atoms were rested before a board is told them.

use chr_base::bag::Bag;
use chr_ops::Op;

/// A part of a pool that is leased out.
#[derive(Clone, Copy)]
pub struct LeasedPart<'a> {
    /// The number under which it is out.
    pub number: u64,
    /// Its atoms.
    pub part: &'a Bag,
}

/// Operations, and what some steps have made of their atoms before a board is told them.
#[derive(Clone, Copy)]
pub struct RestedOps<'a> {
    /// The operations, in the order in which they are told.
    pub ops: &'a [Op],
    /// A leased part of the board's pool, on which the steps were taken as well, if any.
    pub carried: Option<LeasedPart<'a>>,
    /// What the steps have made of the operations' atoms and of the carried part.
    pub rested: &'a Bag,
}

/// Where a board puts what the steps have made.
#[derive(Clone, Copy, Debug, PartialEq, Eq)]
pub enum Destination {
    /// It goes into the board's pool.
    Pool,
    /// It is leased out, under the next number.
    Lease,
}

/// Where a board has put what the steps have made.
#[derive(Clone, Copy, Debug, PartialEq, Eq)]
pub enum Placed {
    /// It is in the board's pool.
    InPool,
    /// It is leased out under this number.
    Leased(u64),
}
