//! The atoms of rows, in columns.
ghost use Rattle.std.specs.Prelude.{◌≡◌, ℕ, ◌<◌, ◌≤◌, ◌∷◌, ◌++◌, [], get_or, slice_get, length, set, take, pos, Some};
ghost use Rattle.std.specs.Prelude.{OnOk, OnErr, IfSome, IfNone};
ghost use Rattle.chr_base.specs.declared.limits.TheConstants.{MAX_ARITY};
ghost use Rattle.chr_tables.specs.working.Cells.{cell_value, arguments, HoldsValues, NoneIs, NoneHasArgument};
ghost use Rattle.chr_base.specs.declared.atom.Atom.{Atom as AtomValue};

use crate::lanes::{Against, Test, first_row};
use crate::shape::Shape;
use arrayvec::ArrayVec;
use chr_base::atom::Atom;
use chr_base::limits::MAX_ARITY;
use chr_base::term::Cmp;
use std::alloc::{AllocError, Global};
use std::marker::Model;

/// One argument of the atoms of rows. A row past the last is read as 0.
#[derive(Drop)]
struct Column {
    values: Vec<i64>,
}

impl Model for Column {
    ghost use Rattle.std.specs.Prelude.{List, ℤ};
    ghost use Rattle.chr_tables.specs.working.Cells.{HoldsValues};

    ghost Value = { List ℤ };

    ghost view = { λ c. c.values.items };

    ghost invariant = { λ c. HoldsValues c.values.items };
}

/// The first place from `from` on that has the value. Eight places are compared at a time.
fn first_equal(values: &[i64], value: i64, from: usize) -> Option<usize>
    requires values { HoldsValues values.now }
    requires from { from ≤ length values.now }
    ensures from_on { IfSome result (λ row. from ≤ row) }
    ensures within { IfSome result (λ row. row < length values.now) }
    ensures least { IfSome result (NoneIs values.now value from) }
    ensures none { IfNone result (NoneIs values.now value from (length values.now)) }
{
    let test = Test {
        column: 0,
        cmp: Cmp::Equal,
        against: Against::Value(value),
    };
    first_row(values.len(), &[values], &[test], from)
}

impl Column {
    /// The column of no rows.
    fn new(alloc: Global) -> Column
        ensures { result ≡ [] }
    {
        Column {
            values: Vec::new(alloc),
        }
    }

    /// The value of a row.
    fn get(&self, row: usize) -> i64
        ensures { result ≡ get_or self.now row (pos 0) }
    {
        self.values.get(row).copied().unwrap_or(0)
    }

    /// The first row from `from` on, and before `rows`, with this value.
    fn first(&self, value: i64, from: usize, rows: usize) -> Option<usize>
        requires { from ≤ rows }
        ensures from_on { IfSome result (λ row. from ≤ row) }
        ensures within { IfSome result (λ row. row < rows) }
        ensures least { IfSome result (NoneIs self.now value from) }
        ensures none { IfNone result (NoneIs self.now value from rows) }
    {
        let kept = self.values.len().min(rows);
        if from < kept {
            let found = first_equal(&self.values[..kept], value, from);
            if found.is_some() {
                return found;
            }
        }
        let past = from.max(kept);
        if value == 0 && past < rows {
            Some(past)
        } else {
            None
        }
    }

    /// The value of a row moves to one that is no later. It takes no memory.
    fn move_down(&mut self, to: usize, from: usize)
        requires { to ≤ from }
        ensures moved { get_or self.new to (pos 0) ≡ get_or self.old from (pos 0) }
        ensures others { (i : ℕ) → ¬ (i ≡ to) → get_or self.new i (pos 0) ≡ get_or self.old i (pos 0) }
    {
        let value = self.get(from);
        if to < self.values.len() {
            self.values[to] = value;
        }
    }

    /// Puts a value into a row, which is then the last. Where memory is refused the rows before it stay the same.
    fn put(&mut self, row: usize, value: i64) -> Result<(), AllocError>
        ensures before { (i : ℕ) → i < row → get_or self.new i (pos 0) ≡ get_or self.old i (pos 0) }
        ensures ok { OnOk result (get_or self.new row (pos 0) ≡ value) }
    {
        self.values.truncate(row);
        self.values.resize(row, 0)?;
        self.values.push(value)?;
        Ok(())
    }
}

/// `args` become the first `count` arguments of a row.
fn read_arguments(columns: &[Column], row: usize, count: usize, args: &mut ArrayVec<i64, MAX_ARITY>)
    requires columns { count ≤ length columns.now }
    requires few { count ≤ MAX_ARITY }
    ensures { args.new.items ≡ arguments columns.now row 0 count }
{
    args.clear();
    for column in 0..count {
        args.push(columns[column].get(row));
    }
}

/// Puts the arguments of a row into the columns.
fn put_arguments(columns: &mut [Column], row: usize, values: &[i64]) -> Result<(), AllocError>
    requires { length values.now ≤ length columns.old }
    ensures count { length columns.new ≡ length columns.old }
    ensures before { (j i : ℕ) → i < row → cell_value columns.new j i ≡ cell_value columns.old j i }
    ensures ok { OnOk result ((j : ℕ) → j < length values.now →
        cell_value columns.new j row ≡ get_or values.now j (pos 0)) }
{
    for j in 0..values.len() {
        columns[j].put(row, values[j])?;
    }
    Ok(())
}

/// The arguments of a row move to one that is no later.
fn move_arguments(columns: &mut [Column], to: usize, from: usize)
    requires { to ≤ from }
    ensures count { length columns.new ≡ length columns.old }
    ensures moved { (j : ℕ) → cell_value columns.new j to ≡ cell_value columns.old j from }
    ensures others { (j i : ℕ) → ¬ (i ≡ to) → cell_value columns.new j i ≡ cell_value columns.old j i }
{
    for j in 0..columns.len() {
        columns[j].move_down(to, from);
    }
}

/// Atoms in rows: for each its symbol and number of arguments, and a column for each argument. A column grows only with
/// atoms that have the argument.
#[derive(Drop)]
pub(crate) struct Cells {
    shapes: Vec<Shape>,
    columns: [Column; MAX_ARITY],
}

impl Model for Cells {
    ghost use Rattle.std.specs.Prelude.{List};
    ghost use Rattle.chr_base.specs.declared.atom.Atom.{Atom};
    ghost use Rattle.chr_tables.specs.working.Cells.{atoms_of};

    ghost Value = { List Atom };

    ghost view = { λ c. atoms_of c.columns c.shapes.items };
}

impl Cells {
    /// The cells of no rows.
    pub(crate) fn new(alloc: Global) -> Cells
        ensures { result ≡ [] }
    {
        Cells {
            shapes: Vec::new(alloc),
            columns: [
                Column::new(alloc),
                Column::new(alloc),
                Column::new(alloc),
                Column::new(alloc),
                Column::new(alloc),
                Column::new(alloc),
            ],
        }
    }

    /// The number of rows.
    pub(crate) fn len(&self) -> usize
        ensures { result ≡ length self.now }
    {
        self.shapes.len()
    }

    /// The given atom becomes that of a row.
    pub(crate) fn read(&self, row: usize, atom: &mut Atom)
        requires { row < length self.now }
        ensures { (a : AtomValue) → atom.new ≡ get_or self.now row a }
    {
        let shape = self.shapes[row];
        atom.symbol = shape.symbol;
        read_arguments(&self.columns, row, usize::from(shape.arity), &mut atom.args);
    }

    /// The atom of a row.
    pub(crate) fn atom(&self, row: usize) -> Atom
        requires { row < length self.now }
        ensures { (a : AtomValue) → result ≡ get_or self.now row a }
    {
        let mut atom = Atom::default();
        self.read(row, &mut atom);
        atom
    }

    /// A row from `from` on that may have this value as its argument in a column, counted from 0; none with it was
    /// passed over.
    pub(crate) fn first(&self, column: usize, value: i64, from: usize) -> Option<usize>
        requires column { column < MAX_ARITY }
        requires from { from ≤ length self.now }
        ensures from_on { IfSome result (λ row. from ≤ row) }
        ensures within { IfSome result (λ row. row < length self.now) }
        ensures least { IfSome result (NoneHasArgument self.now column value from) }
        ensures none { IfNone result (NoneHasArgument self.now column value from (length self.now)) }
    {
        self.columns[column].first(value, from, self.shapes.len())
    }

    /// The atom of a row moves to one that is no later. It takes no memory.
    pub(crate) fn move_down(&mut self, to: usize, from: usize)
        requires order { to ≤ from }
        requires within { from < length self.old }
        ensures { (a : AtomValue) → self.new ≡ set self.old to (get_or self.old from a) }
    {
        self.shapes[to] = self.shapes[from];
        move_arguments(&mut self.columns, to, from);
    }

    /// Keeps only the first `count` rows.
    pub(crate) fn truncate(&mut self, count: usize)
        ensures { self.new ≡ take count self.old }
    {
        self.shapes.truncate(count);
    }

    /// Adds a row, the last. Where memory is refused nothing changes.
    pub(crate) fn push(&mut self, atom: &Atom) -> Result<(), AllocError>
        ensures ok { OnOk result (self.new ≡ self.old ++ atom.now ∷ []) }
        ensures err { OnErr result (self.new ≡ self.old) }
    {
        let shape = Shape {
            symbol: atom.symbol,
            arity: atom.args.len() as u8,
        };
        self.shapes.reserve(1)?;
        put_arguments(&mut self.columns, self.shapes.len(), &atom.args)?;
        self.shapes.push_reserved(shape);
        Ok(())
    }
}
