//! All atoms as the rows of one table, for the search for partners.
ghost use Rattle.std.specs.Prelude.{◌≡◌, ℕ, ◌<◌, ◌≤◌, ◌∷◌, [], length, get_or, None, IfSome, IfNone, IsTrue, is_some};
ghost use Rattle.chr_columns.specs.working.Listing.{rows_in_turn};
ghost use Rattle.chr_columns.specs.working.Finding.{rows_but, only_table, only_index, newest_first, Lives};

use crate::listing::atom_at;
use chr_base::atom::Atom;
use chr_plans::key::Span;
use chr_plans::rows::Rows;
use chr_tables::table::Table;

/// All atoms of a pool as one table, without the active atom.
#[derive(Drop)]
pub(crate) struct Everywhere<'a> {
    /// The tables, whose rows come first, one table after another.
    pub(crate) tables: &'a [Table],
    /// The fresh atoms, whose rows come next, one for each.
    pub(crate) fresh: &'a [Atom],
    /// The number of all rows.
    pub(crate) rows: usize,
    /// The row of the active atom, which is passed over.
    pub(crate) active: usize,
    /// `rows` is the number of all rows.
    ghost counted: { rows ≡ length (rows_in_turn tables.now fresh.now) },
}

impl Everywhere<'_> {
    /// The atom of a row, where it lives.
    fn get(&self, row: usize) -> Option<Atom>
        ensures { result ≡ get_or (rows_but self.now.tables.now self.now.fresh.now self.now.active) row None }
    {
        if row == self.active {
            None
        } else {
            atom_at(self.tables, self.fresh, row)
        }
    }

    /// The next live row below this one.
    fn below(&self, row: usize) -> Option<usize>
        ensures below { IfSome result (λ next. next < row) }
        ensures lives { IfSome result (λ next.
            Lives (rows_but self.now.tables.now self.now.fresh.now self.now.active) next) }
        ensures newest { IfSome result (λ next. (other : ℕ) → other < row →
            Lives (rows_but self.now.tables.now self.now.fresh.now self.now.active) other → other ≤ next) }
        ensures none { IfNone result ((other : ℕ) → other < row →
            ¬ (Lives (rows_but self.now.tables.now self.now.fresh.now self.now.active) other)) }
    {
        for next in (0..row).rev() {
            if self.get(next).is_some() {
                return Some(next);
            }
        }
        None
    }
}

impl Rows for Everywhere<'_> {
    ghost rows = { λ s. only_table (rows_but s.tables.now s.fresh.now s.active) };

    ghost columns = { λ s. only_index };

    ghost tables = { λ s. 1 };

    ghost rank = { λ s. newest_first };

    fn first(&mut self, _table: usize, _index: usize, key: &[i64], _span: &Span) -> Option<usize> {
        if !key.is_empty() {
            return None;
        }
        self.below(self.rows)
    }

    fn next(
        &mut self,
        _table: usize,
        _index: usize,
        _key: &[i64],
        _span: &Span,
        row: usize,
    ) -> Option<usize> {
        self.below(row)
    }

    fn at_or_below(
        &mut self,
        _table: usize,
        _index: usize,
        key: &[i64],
        _span: &Span,
        row: usize,
    ) -> Option<usize> {
        if !key.is_empty() {
            return None;
        }
        if row < self.rows {
            return self.below(row + 1);
        }
        self.below(self.rows)
    }

    fn read(&self, _table: usize, row: usize, atom: &mut Atom) {
        *atom = self.get(row).unwrap();
    }
}
