//! Plans: in which order the partners of an active atom are looked for, and by which of their arguments.
ghost use Rattle.std.specs.Prelude.{◌≡◌};
ghost use Rattle.chr_plans.specs.Plans.{columns_of};

use crate::key::{Key, Limit, Order, Test};
use arrayvec::ArrayVec;
use chr_base::limits::{MAX_ARITY, MAX_COMPARISONS, MAX_HEADS};

/// A partner, and how it is looked for. Where the key alone would leave many rows to look at, the limits leave some of
/// them out.
#[derive(Debug, Default, Drop)]
pub struct Partner {
    /// Its head place, counted from 0.
    pub place: usize,
    /// The arguments whose values are known when it is looked for, with the sources of the values.
    pub key: ArrayVec<Key, MAX_ARITY>,
    /// What the heads before it must pass. Where they fail one test, the partner need not be looked for.
    pub tests: ArrayVec<Test, MAX_COMPARISONS>,
    /// What the guard says of further arguments.
    pub limits: ArrayVec<Limit, MAX_COMPARISONS>,
    /// The columns by which the limits leave rows out.
    pub order: Order,
}

/// A copy of the items.
fn copy_of<T: Copy + Default, const CAP: usize>(items: &ArrayVec<T, CAP>) -> ArrayVec<T, CAP>
    ensures { result.items ≡ items.now.items }
{
    let mut copies = ArrayVec::new();
    for item in items.as_slice() {
        copies.push(*item);
    }
    copies
}

impl Partner {
    /// The columns of the key: an index by these serves to look the partner up.
    pub fn columns(&self) -> ArrayVec<usize, MAX_ARITY>
        ensures { result.items ≡ columns_of self.now.key.items }
    {
        let mut columns = ArrayVec::new();
        for part in self.key.as_slice() {
            columns.push(part.column);
        }
        columns
    }

    /// An equal partner. It takes no memory.
    pub fn copy(&self) -> Partner
        ensures { result ≡ self.now }
    {
        Partner {
            place: self.place,
            key: copy_of(&self.key),
            tests: copy_of(&self.tests),
            limits: copy_of(&self.limits),
            order: self.order,
        }
    }
}

/// The look-up of a partner, by an index of a table.
#[derive(Debug, Default, Drop)]
pub struct Lookup {
    pub partner: Partner,
    pub table: usize,
    pub index: usize,
}

/// The plan of an occurrence: how the partners of an atom are found that is the head of a rule at a place.
#[derive(Debug, Default, Drop)]
pub struct Plan {
    /// The rule's number, from 0.
    pub rule: usize,
    /// The head place of the active atom, counted from 0.
    pub place: usize,
    /// Whether the head at that place has constants. For an atom with other values nothing is looked up.
    pub has_constants: bool,
    /// The look-ups of the partners, in order.
    pub lookups: ArrayVec<Lookup, MAX_HEADS>,
}
