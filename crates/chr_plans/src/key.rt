//! What is known before a head is looked for: keys, the values of some of its arguments, and tests of what was found.
ghost use Rattle.std.specs.Prelude.{◌≡◌, ℤ, pos, map, true, slice_get, IfSome};
ghost use Rattle.std.specs.List.{list_all};
ghost use Rattle.std.specs.Ordering.{int_cmp};
ghost use Rattle.chr_base.specs.declared.atom.Atom.{Atom as AtomValue};
ghost use Rattle.chr_base.specs.Rules.{compares};
ghost use Rattle.chr_base.specs.declared.term.Cmp.TheVariants.{Equal};
ghost use Rattle.chr_plans.specs.declared.key.Source.TheVariants.{Constant};
ghost use Rattle.chr_plans.specs.declared.key.Order.TheVariants.{Unordered};
ghost use Rattle.chr_plans.specs.Keys.{argument, source_value, passes, allows, columns_by, IsInBand, Spans};
ghost use Rattle.chr_indexes.specs.RangedRows.{IsIn};

use arrayvec::ArrayVec;
use chr_base::atom::Atom;
use chr_base::limits::{MAX_ARITY, MAX_COMPARISONS};
use chr_base::term::Cmp;
use chr_indexes::ranges::Range;

/// Where a value of a key comes from.
#[derive(Clone, Copy, Debug, PartialEq, Eq)]
pub enum Source {
    /// The value is a constant of the rule.
    Constant(i64),
    /// The value is an argument, its column counted from 0, of the head at a place.
    Argument { place: usize, column: usize },
}

impl Default for Source {
    fn default() -> Self
        ensures { result ≡ Constant (pos 0) }
    {
        Source::Constant(0)
    }
}

/// An argument of a head, counted from 0, with the source of its value.
#[derive(Clone, Copy, Debug, Default, PartialEq, Eq)]
pub struct Key {
    pub column: usize,
    pub source: Source,
}

/// A comparison of two values that are known before the head is looked for.
#[derive(Clone, Copy, Debug, PartialEq, Eq)]
pub struct Test {
    pub left: Source,
    pub cmp: Cmp,
    pub right: Source,
}

impl Default for Test {
    fn default() -> Self
        ensures { result ≡ record { left = Constant (pos 0); cmp = Equal; right = Constant (pos 0) } }
    {
        Test {
            left: Source::Constant(0),
            cmp: Cmp::Equal,
            right: Source::Constant(0),
        }
    }
}

/// What the guard says of an argument of a head, counted from 0: how it compares with a value that is known.
#[derive(Clone, Copy, Debug, PartialEq, Eq)]
pub struct Limit {
    pub column: usize,
    pub cmp: Cmp,
    pub source: Source,
}

impl Default for Limit {
    fn default() -> Self
        ensures { result ≡ record { column = 0; cmp = Equal; source = Constant (pos 0) } }
    {
        Limit {
            column: 0,
            cmp: Cmp::Equal,
            source: Source::Constant(0),
        }
    }
}

/// By which columns rows are found beside their key.
#[derive(Clone, Copy, Debug, PartialEq, Eq)]
pub enum Order {
    /// By no column.
    Unordered,
    /// By the values in this column, counted from 0.
    By(usize),
    /// By the values in the first of these columns, and by those in the second.
    ByBoth(usize, usize),
}

impl Default for Order {
    fn default() -> Self
        ensures { result ≡ Unordered }
    {
        Order::Unordered
    }
}

/// Atoms whose argument in a column, counted from 0, is in a range.
#[derive(Clone, Copy, Debug, Default, PartialEq, Eq)]
pub struct Band {
    pub column: usize,
    pub range: Range,
}

/// Atoms that lie in two bands.
#[derive(Clone, Copy, Debug, Default, PartialEq, Eq)]
pub struct Span {
    pub first: Band,
    pub second: Band,
}

/// The value that comes from a source under these heads, 0 where they have no such argument.
pub fn value_of(heads: &[Atom], source: Source) -> i64
    ensures { result ≡ source_value heads.now source }
{
    match source {
        Source::Constant(value) => value,
        Source::Argument { place, column } => {
            if place < heads.len() && column < heads[place].args.len() {
                heads[place].args[column]
            } else {
                0
            }
        }
    }
}

/// The values become those of a key under these heads. They are written where they stay: a move of what was just
/// written waits for it.
pub fn read_key(
    heads: &[Atom],
    key: &ArrayVec<Key, MAX_ARITY>,
    values: &mut ArrayVec<i64, MAX_ARITY>,
)
    ensures { values.new.items ≡ map (λ k. source_value heads.now k.source) key.now.items }
{
    values.clear();
    for part in key.as_slice() {
        values.push(value_of(heads, part.source));
    }
}

/// Whether these heads pass a test.
pub(crate) fn passes(heads: &[Atom], test: &Test) -> bool
    ensures { result ≡ passes heads.now test.now }
{
    let order = value_of(heads, test.left).cmp(&value_of(heads, test.right));
    match test.cmp {
        Cmp::Less => order.is_lt(),
        Cmp::AtMost => order.is_le(),
        Cmp::Greater => order.is_gt(),
        Cmp::AtLeast => order.is_ge(),
        Cmp::Equal => order.is_eq(),
        Cmp::NotEqual => order.is_ne(),
    }
}

/// Whether these heads pass all the tests.
pub fn pass(heads: &[Atom], tests: &ArrayVec<Test, MAX_COMPARISONS>) -> bool
    ensures { result ≡ list_all (passes heads.now) tests.now.items }
{
    tests.iter().all(|test| passes(heads, test))
}

/// A range with all values of `range` that compare by `cmp` with the value, and maybe others.
fn narrowed(range: Range, cmp: Cmp, value: i64) -> Range
    ensures { (x : ℤ) → IsIn range x → compares cmp (int_cmp x value) ≡ true → IsIn result x }
{
    match cmp {
        Cmp::Less => range.at_most(value.saturating_sub(1)),
        Cmp::AtMost => range.at_most(value),
        Cmp::Greater => range.at_least(value.saturating_add(1)),
        Cmp::AtLeast => range.at_least(value),
        Cmp::NotEqual => range.but(value),
        Cmp::Equal => range,
    }
}

/// A range narrowed by the limit, where it speaks of this column.
fn narrowed_at(heads: &[Atom], limit: &Limit, column: usize, range: Range) -> Range
    ensures { (a : AtomValue) → IsIn range (argument a column) → allows heads.now a limit.now ≡ true
        → IsIn result (argument a column) }
{
    if limit.column == column {
        narrowed(range, limit.cmp, value_of(heads, limit.source))
    } else {
        range
    }
}

/// A range narrowed by those limits that speak of this column.
fn narrowed_by(heads: &[Atom], limits: &[Limit], column: usize, range: Range) -> Range
    ensures { (a : AtomValue) → IsIn range (argument a column) → list_all (allows heads.now a) limits.now ≡ true
        → IsIn result (argument a column) }
{
    let [limit, limits @ ..] = limits else {
        return range;
    };
    let range = narrowed_at(heads, limit, column, range);
    narrowed_by(heads, limits, column, range)
}

/// Whether the sign is one of an order.
pub(crate) fn is_order(cmp: Cmp) -> bool {
    match cmp {
        Cmp::Less | Cmp::AtMost | Cmp::Greater | Cmp::AtLeast => true,
        Cmp::Equal | Cmp::NotEqual => false,
    }
}

/// The first column, other than `other`, with a limit by an order, or by an inequality where `by_order` is false.
fn column_limited(limits: &[Limit], by_order: bool, other: Option<usize>) -> Option<usize> {
    for limit in limits {
        let is_other = match other {
            Some(column) => limit.column != column,
            None => true,
        };
        if is_order(limit.cmp) == by_order && is_other {
            return Some(limit.column);
        }
    }
    None
}

/// The first column, other than `other`, with a limit; by an order, where there is such a limit.
fn column_beside(limits: &[Limit], other: Option<usize>) -> Option<usize> {
    match column_limited(limits, true, other) {
        Some(column) => Some(column),
        None => column_limited(limits, false, other),
    }
}

/// The columns by which the limits leave out most rows: those of orders come before those of inequalities.
pub fn order_of(limits: &[Limit]) -> Order {
    let Some(first) = column_beside(limits, None) else {
        return Order::Unordered;
    };
    match column_beside(limits, Some(first)) {
        Some(second) => Order::ByBoth(first, second),
        None => Order::By(first),
    }
}

/// A band with all atoms that these limits allow under these heads.
fn band_of(heads: &[Atom], limits: &[Limit], column: usize) -> Band
    ensures all { (a : AtomValue) → list_all (allows heads.now a) limits.now ≡ true → IsInBand result a }
    ensures column { result.column ≡ column }
{
    Band {
        column,
        range: narrowed_by(heads, limits, column, Range::default()),
    }
}

/// A span with all atoms that these limits allow under these heads: that of the order's columns.
fn limited_span(heads: &[Atom], order: Order, limits: &[Limit]) -> Span
    ensures all { (a : AtomValue) → list_all (allows heads.now a) limits.now ≡ true → Spans result a }
    ensures first { IfSome (slice_get (columns_by order) 0) (λ c. result.first.column ≡ c) }
    ensures second { IfSome (slice_get (columns_by order) 1) (λ c. result.second.column ≡ c) }
{
    match order {
        Order::Unordered => Span::default(),
        Order::By(column) => Span {
            first: band_of(heads, limits, column),
            second: Band::default(),
        },
        Order::ByBoth(first, second) => Span {
            first: band_of(heads, limits, first),
            second: band_of(heads, limits, second),
        },
    }
}

/// The span becomes one with all atoms that these limits allow under these heads. Quick where there is no order, as in
/// most look-ups.
pub fn read_span(
    heads: &[Atom],
    order: Order,
    limits: &ArrayVec<Limit, MAX_COMPARISONS>,
    span: &mut Span,
)
    ensures all { (a : AtomValue) → list_all (allows heads.now a) limits.now.items ≡ true → Spans span.new a }
    ensures first { IfSome (slice_get (columns_by order) 0) (λ c. span.new.first.column ≡ c) }
    ensures second { IfSome (slice_get (columns_by order) 1) (λ c. span.new.second.column ≡ c) }
{
    if let Order::Unordered = order {
        *span = Span::default();
    } else {
        *span = limited_span(heads, order, limits);
    }
}
