//! All tables.
use crate::table::Table;
use chr_base::atom::Atom;
use chr_plans::key::Span;
use chr_plans::rows::Rows;

/// Tables by their numbers, from 0.
#[derive(Drop)]
pub struct Tables {
    pub tables: Vec<Table>,
}

impl Rows for Tables {
    ghost use Rattle.std.specs.Prelude.{length};
    ghost use Rattle.chr_tables.specs.Contents.{rows_of, index_columns, ranks_of};

    ghost rows = { λ s. rows_of s.tables.items };

    ghost columns = { λ s. index_columns s.tables.items };

    ghost tables = { λ s. length s.tables.items };

    ghost rank = { λ s. ranks_of s.tables.items };

    fn first(&mut self, table: usize, index: usize, key: &[i64], span: &Span) -> Option<usize> {
        self.tables[table].first(index, key, span)
    }

    fn next(
        &mut self,
        table: usize,
        index: usize,
        key: &[i64],
        span: &Span,
        row: usize,
    ) -> Option<usize> {
        self.tables[table].next(index, key, span, row)
    }

    fn at_or_below(
        &mut self,
        table: usize,
        index: usize,
        key: &[i64],
        span: &Span,
        row: usize,
    ) -> Option<usize> {
        self.tables[table].at_or_below(index, key, span, row)
    }

    fn read(&self, table: usize, row: usize, atom: &mut Atom) {
        self.tables[table].read(row, atom);
    }
}
