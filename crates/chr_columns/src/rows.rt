//! The rows in which an instance sits.
ghost use Rattle.std.specs.Prelude.{◌≡◌, ◌+◌, ◌<◌, ◌≤◌, ◌^◌, length, map};
ghost use Rattle.chr_base.specs.declared.limits.TheConstants.{MAX_HEADS};
ghost use Rattle.chr_columns.specs.declared.rows.Row.TheVariants.{Fresh};
ghost use Rattle.chr_columns.specs.working.Sitting.{row_from};

use arrayvec::ArrayVec;
use chr_base::atom::Atom;
use chr_base::limits::MAX_HEADS;
use chr_plans::rows::Seat;
use chr_tables::table::Table;

/// A row of a pool.
#[derive(Clone, Copy, Debug, PartialEq, Eq)]
pub enum Row {
    /// This row of this table, in which an atom is at rest.
    AtRest(Seat),
    /// The fresh atom at this place, counted from 0.
    Fresh(usize),
}

impl Default for Row {
    fn default() -> Self
        ensures { result ≡ Fresh 0 }
    {
        Row::Fresh(0)
    }
}

/// The heads of an instance, in place order, and the row of each. A change of the pool may move atoms to other rows.
#[derive(Drop)]
pub struct Rows {
    pub heads: ArrayVec<Atom, MAX_HEADS>,
    pub rows: ArrayVec<Row, MAX_HEADS>,
}

/// The row with this number, where those of the tables come one after another, and then the fresh ones. The first of
/// the tables has this number.
fn row_from(tables: &[Table], table: usize, number: usize) -> Row
    requires { table + length tables.now < 2 ^ 64 }
    ensures { result ≡ row_from tables.now table number }
{
    let [first, others @ ..] = tables else {
        return Row::Fresh(number);
    };
    let rows = first.len();
    if number < rows {
        Row::AtRest(Seat { table, row: number })
    } else {
        row_from(others, table + 1, number - rows)
    }
}

/// The rows of the tables and the fresh atoms that have these numbers.
pub(crate) fn rows_at(tables: &[Table], numbers: &[Seat]) -> ArrayVec<Row, MAX_HEADS>
    requires few { length tables.now < 2 ^ 64 }
    requires heads { length numbers.now ≤ MAX_HEADS }
    ensures { result.items ≡ map (λ s. row_from tables.now 0 s.row) numbers.now }
{
    let mut rows = ArrayVec::new();
    for number in numbers {
        rows.push(row_from(tables, 0, number.row));
    }
    rows
}
