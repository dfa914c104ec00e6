//! Tables of rows that are found by keys.
ghost use Rattle.std.specs.Prelude.{◌≡◌, ℕ, ◌<◌, ◌≤◌, List, Option, Some, IfSome, IfNone, IsTrue, is_some};
ghost use Rattle.std.specs.Bool.{OnTrue, OnFalse};
ghost use Rattle.chr_base.specs.declared.atom.Atom.{Atom as AtomValue};
ghost use Rattle.chr_plans.specs.Rows.{Tables, Columns, Ranks, HaveOwnRanks, HasKey, LiesIn};

use crate::key::Span;
use chr_base::atom::Atom;

/// Where an atom sits: a row of a table.
#[derive(Clone, Copy, Debug, Default, PartialEq, Eq)]
pub struct Seat {
    pub table: usize,
    pub row: usize,
}

/// Whether the two are one row.
pub(crate) fn is_same(left: Seat, right: Seat) -> bool
    ensures same { OnTrue result (left ≡ right) }
    ensures other { OnFalse result (left ≡ right → ⊥) }
{
    left.row == right.row && left.table == right.table
}

/// Tables whose rows are found by the values in some of their columns.
///
/// Each index puts the live rows into an order: it gives each a rank of its own, which neither look-ups nor other rows'
/// deaths change. A look-up goes from the greatest rank down. It gives each live row that has the key and lies in the
/// span; it may give other live rows as well.
pub trait Rows {
    /// The atom of each live row of each table.
    ghost rows: { Self → Tables };

    /// The columns of each index of each table.
    ghost columns: { Self → Columns };

    /// How many tables there are.
    ghost tables: { Self → ℕ };

    /// For each table and index the rank of each row.
    ghost rank: { Self → Ranks };

    /// The row of the greatest rank that a look-up of this key and span meets.
    fn first(&mut self, table: usize, index: usize, key: &[i64], span: &Span) -> Option<usize>
        requires { IsTrue (is_some (columns self.old table index)) }
        ensures rows { rows self.new ≡ rows self.old }
        ensures columns { columns self.new ≡ columns self.old }
        ensures tables { tables self.new ≡ tables self.old }
        ensures rank { rank self.new ≡ rank self.old }
        ensures lives { IfSome result (λ row. IsTrue (is_some (rows self.old table row))) }
        ensures greatest { IfSome result (λ row. (other : ℕ) →
            HasKey (columns self.old table index) key.now (rows self.old table other) →
            LiesIn span.now (rows self.old table other) →
            rank self.old table index other ≤ rank self.old table index row) }
        ensures none { IfNone result ((other : ℕ) →
            HasKey (columns self.old table index) key.now (rows self.old table other) →
            ¬ (LiesIn span.now (rows self.old table other))) };

    /// The row of the greatest rank below that of `row` that a look-up of this key and span meets.
    fn next(
        &mut self,
        table: usize,
        index: usize,
        key: &[i64],
        span: &Span,
        row: usize,
    ) -> Option<usize>
        requires { IsTrue (is_some (columns self.old table index)) }
        ensures rows { rows self.new ≡ rows self.old }
        ensures columns { columns self.new ≡ columns self.old }
        ensures tables { tables self.new ≡ tables self.old }
        ensures rank { rank self.new ≡ rank self.old }
        ensures own_ranks { HaveOwnRanks (rows self.old table) (rank self.old table index) }
        ensures below { IfSome result (λ next. rank self.old table index next < rank self.old table index row) }
        ensures lives { IfSome result (λ next. IsTrue (is_some (rows self.old table next))) }
        ensures greatest { IfSome result (λ next. (other : ℕ) →
            rank self.old table index other < rank self.old table index row →
            HasKey (columns self.old table index) key.now (rows self.old table other) →
            LiesIn span.now (rows self.old table other) →
            rank self.old table index other ≤ rank self.old table index next) }
        ensures none { IfNone result ((other : ℕ) → rank self.old table index other < rank self.old table index row →
            HasKey (columns self.old table index) key.now (rows self.old table other) →
            ¬ (LiesIn span.now (rows self.old table other))) };

    /// The row of the greatest rank, up to that of `row`, that a look-up of this key and span meets. `row` may be dead,
    /// or past the last.
    fn at_or_below(
        &mut self,
        table: usize,
        index: usize,
        key: &[i64],
        span: &Span,
        row: usize,
    ) -> Option<usize>
        requires { IsTrue (is_some (columns self.old table index)) }
        ensures rows { rows self.new ≡ rows self.old }
        ensures columns { columns self.new ≡ columns self.old }
        ensures tables { tables self.new ≡ tables self.old }
        ensures rank { rank self.new ≡ rank self.old }
        ensures at_or_below { IfSome result (λ next. rank self.old table index next ≤ rank self.old table index row) }
        ensures lives { IfSome result (λ next. IsTrue (is_some (rows self.old table next))) }
        ensures greatest { IfSome result (λ next. (other : ℕ) →
            rank self.old table index other ≤ rank self.old table index row →
            HasKey (columns self.old table index) key.now (rows self.old table other) →
            LiesIn span.now (rows self.old table other) →
            rank self.old table index other ≤ rank self.old table index next) }
        ensures none { IfNone result ((other : ℕ) → rank self.old table index other ≤ rank self.old table index row →
            HasKey (columns self.old table index) key.now (rows self.old table other) →
            ¬ (LiesIn span.now (rows self.old table other))) };

    /// `atom` becomes that of a live row. It is written where it stays, since an atom that was just made is slow to
    /// move.
    fn read(&self, table: usize, row: usize, atom: &mut Atom)
        requires { IsTrue (is_some (rows self.now table row)) }
        ensures { rows self.now table row ≡ Some atom.new };
}
