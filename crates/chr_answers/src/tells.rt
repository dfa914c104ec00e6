//! Tells that were read together before their turn, and rested.

use chr_base::bag::Bag;
use chr_ops::Op;

/// Atoms that are carried from blocks that were read before.
#[derive(Drop)]
pub struct Carried {
    /// The atoms.
    pub part: Bag,
    /// The number of the stretch of blocks in which they may be carried on. A new stretch begins where parts that are
    /// leased out come back.
    pub stretch: u64,
}

/// Lines of a text that tell one replica operations, and what comes of their atoms.
#[derive(Drop)]
pub struct Tells {
    /// How many bytes of the text are left where the lines begin.
    pub left: usize,
    /// How many bytes of the text are left where they end.
    pub more: usize,
    /// The number of the replica.
    pub replica: u64,
    /// The operations, in the order of the lines.
    pub ops: Vec<Op>,
    /// The atoms that were carried to them.
    pub carried: Carried,
    /// What the operations' atoms and those that were carried come to, at rest.
    pub rested: Bag,
    /// Whether what was rested is carried on.
    pub goes_on: bool,
}

impl Tells {
    /// How many more atoms were left than were carried here.
    pub(crate) fn staying(&self) -> u64 {
        (self.rested.len() as u64).saturating_sub(self.carried.part.len() as u64)
    }
}
