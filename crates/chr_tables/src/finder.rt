//! How an index finds rows.
ghost use Rattle.std.specs.Prelude.{◌≡◌, ℕ, ℤ, ◌+◌, ◌<◌, ◌≤◌, ◌^◌, ◌∷◌, ◌++◌, [], length, set, Some, None, OnOk, IfOk};
ghost use Rattle.std.specs.Prelude.{IfSome, IfNone};
ghost use Rattle.chr_plans.specs.Keys.{argument, key_of, columns_by};
ghost use Rattle.chr_indexes.specs.RangedRows.{IsIn};
ghost use Rattle.chr_tables.specs.working.Finders.{order_in, finder_rows, room_in, IsFinderRow};

use chr_base::atom::Atom;
use chr_indexes::ranges::Range;
use chr_plans::key::{Band, Order, Span};
use std::alloc::{AllocError, Global};

/// An argument of an atom, 0 where it has none.
pub(crate) fn argument(atom: &Atom, column: usize) -> i64
    ensures { result ≡ argument atom.now column }
{
    if column < atom.args.len() {
        atom.args[column]
    } else {
        0
    }
}

/// The rows of an index, by the hash of the key of each.
#[derive(Drop)]
pub(crate) enum Finder {
    /// By the hash alone.
    Chained(chr_indexes::hashes::Index),
    /// By the hash and the values in one column, counted from 0.
    Ranged {
        column: usize,
        index: chr_indexes::ranges::Index,
    },
    /// By the hash and the values in two columns, counted from 0.
    Crossed {
        first: usize,
        second: usize,
        index: chr_indexes::ranges::Crossing,
    },
}

/// The range of a band, where it is of this column; else all values.
fn range_for(column: usize, band: Band) -> Range
    ensures wide { (x : ℤ) → (column ≡ band.column → IsIn band.range x) → IsIn result x }
    ensures narrow { column ≡ band.column → (x : ℤ) → IsIn result x → IsIn band.range x }
{
    if column == band.column {
        band.range
    } else {
        Range::default()
    }
}

impl Finder {
    /// The finder of no rows, by the hash and the values in the order's columns.
    pub(crate) fn new(alloc: Global, order: Order) -> Result<Finder, AllocError>
        ensures order { IfOk result (λ f. order_in f ≡ columns_by order) }
        ensures rows { IfOk result (λ f. finder_rows f ≡ []) }
    {
        match order {
            Order::Unordered => Ok(Finder::Chained(chr_indexes::hashes::Index::new(alloc)?)),
            Order::By(column) => Ok(Finder::Ranged {
                column,
                index: chr_indexes::ranges::Index::new(alloc)?,
            }),
            Order::ByBoth(first, second) => Ok(Finder::Crossed {
                first,
                second,
                index: chr_indexes::ranges::Crossing::new(alloc)?,
            }),
        }
    }

    /// Makes room for one row more.
    pub(crate) fn reserve(&mut self) -> Result<(), AllocError>
        requires { length (finder_rows self.old) + 1 < 2 ^ 32 }
        ensures order { order_in self.new ≡ order_in self.old }
        ensures rows { finder_rows self.new ≡ finder_rows self.old }
        ensures ok { OnOk result (length (finder_rows self.old) + 1 ≤ room_in self.new) }
    {
        match self {
            Finder::Chained(index) => index.reserve(1),
            Finder::Ranged { index, .. } => index.reserve(1),
            Finder::Crossed { index, .. } => index.reserve(1),
        }
    }

    /// Adds a row, the newest.
    pub(crate) fn push(&mut self, hash: u32, atom: &Atom)
        requires room { length (finder_rows self.old) < room_in self.old }
        requires few { length (finder_rows self.old) + 1 < 2 ^ 32 }
        ensures order { order_in self.new ≡ order_in self.old }
        ensures rows { finder_rows self.new ≡ finder_rows self.old
            ++ Some (record { hash = hash; values = key_of (order_in self.old) atom.now }) ∷ [] }
        ensures room { room_in self.new ≡ room_in self.old }
    {
        match self {
            Finder::Chained(index) => index.push(hash),
            Finder::Ranged { column, index } => index.push(hash, argument(atom, *column)),
            Finder::Crossed {
                first,
                second,
                index,
            } => index.push(hash, argument(atom, *first), argument(atom, *second)),
        }
    }

    /// Forgets all rows. The room stays, and is room for as many.
    pub(crate) fn clear(&mut self)
        ensures order { order_in self.new ≡ order_in self.old }
        ensures rows { finder_rows self.new ≡ [] }
        ensures fits { length (finder_rows self.old) ≤ room_in self.new }
    {
        match self {
            Finder::Chained(index) => index.clear(),
            Finder::Ranged { index, .. } => index.clear(),
            Finder::Crossed { index, .. } => index.clear(),
        }
    }

    /// A row dies.
    pub(crate) fn kill(&mut self, row: u32)
        requires { row < length (finder_rows self.old) }
        ensures order { order_in self.new ≡ order_in self.old }
        ensures rows { finder_rows self.new ≡ set (finder_rows self.old) row None }
        ensures room { room_in self.new ≡ room_in self.old }
    {
        match self {
            Finder::Chained(index) => index.kill(row),
            Finder::Ranged { index, .. } => index.kill(row),
            Finder::Crossed { index, .. } => index.kill(row),
        }
    }

    /// The newest live row with this hash that is not known to lie outside the span.
    pub(crate) fn first(&mut self, hash: u32, span: &Span) -> Option<u32>
        ensures same { self.new ≡ self.old }
        ensures met { IfSome result (λ row. IsFinderRow self.old hash span.now row) }
        ensures newest { IfSome result (λ row. (other : ℕ) → IsFinderRow self.old hash span.now other → other ≤ row) }
        ensures none { IfNone result ((other : ℕ) → ¬ (IsFinderRow self.old hash span.now other)) }
    {
        match self {
            Finder::Chained(index) => index.first(hash),
            Finder::Ranged { column, index } => index.first(hash, &range_for(*column, span.first)),
            Finder::Crossed {
                first,
                second,
                index,
            } => {
                let first = range_for(*first, span.first);
                index.first(hash, &first, &range_for(*second, span.second))
            }
        }
    }

    /// Like [`Finder::first`], but below `row`.
    pub(crate) fn next(&mut self, hash: u32, span: &Span, row: u32) -> Option<u32>
        ensures same { self.new ≡ self.old }
        ensures below { IfSome result (λ next. next < row) }
        ensures met { IfSome result (λ next. IsFinderRow self.old hash span.now next) }
        ensures newest { IfSome result (λ next. (other : ℕ) → other < row
            → IsFinderRow self.old hash span.now other → other ≤ next) }
        ensures none { IfNone result ((other : ℕ) → other < row → ¬ (IsFinderRow self.old hash span.now other)) }
    {
        match self {
            Finder::Chained(index) => index.next(hash, row),
            Finder::Ranged { column, index } => {
                index.next(hash, &range_for(*column, span.first), row)
            }
            Finder::Crossed {
                first,
                second,
                index,
            } => {
                let first = range_for(*first, span.first);
                index.next(hash, &first, &range_for(*second, span.second), row)
            }
        }
    }

    /// Like [`Finder::first`], but at `row` or below it. The row may be dead, or past the last.
    pub(crate) fn at_or_below(&mut self, hash: u32, span: &Span, row: u32) -> Option<u32>
        ensures same { self.new ≡ self.old }
        ensures at_or_below { IfSome result (λ next. next ≤ row) }
        ensures met { IfSome result (λ next. IsFinderRow self.old hash span.now next) }
        ensures newest { IfSome result (λ next. (other : ℕ) → other ≤ row
            → IsFinderRow self.old hash span.now other → other ≤ next) }
        ensures none { IfNone result ((other : ℕ) → other ≤ row → ¬ (IsFinderRow self.old hash span.now other)) }
    {
        match self {
            Finder::Chained(index) => index.at_or_below(hash, row),
            Finder::Ranged { column, index } => {
                index.at_or_below(hash, &range_for(*column, span.first), row)
            }
            Finder::Crossed {
                first,
                second,
                index,
            } => {
                let first = range_for(*first, span.first);
                index.at_or_below(hash, &first, &range_for(*second, span.second), row)
            }
        }
    }
}
