//! One table.
ghost use Rattle.std.specs.Prelude.{◌≡◌, ℕ, ◌+◌, ◌*◌, ◌<◌, ◌≤◌, ◌^◌, ◌∷◌, ◌++◌, [], length, filter, get_or};
ghost use Rattle.std.specs.Prelude.{◌↔◌, set, slice_get, Some, None, OnOk, OnErr, IfSome, IfNone, IsTrue, is_some};
ghost use Rattle.std.specs.Prelude.{false};
ghost use Rattle.std.specs.Bool.{OnTrue, OnFalse};
ghost use Rattle.chr_base.specs.declared.limits.TheConstants.{MAX_ARITY};
ghost use Rattle.chr_plans.specs.Rows.{HasKey, LiesIn};
ghost use Rattle.chr_plans.specs.Keys.{columns_by};
ghost use Rattle.chr_tables.specs.Contents.{HasArgument, LiesBy};
ghost use Rattle.chr_tables.specs.working.Indexes.{chosen, dead_in};

use crate::cells::Cells;
use crate::finder::Finder;
use crate::hash::key_hash;
use crate::indexes::{Keyed, clear_in, enter_all, kill_in, push_in, reserve_in};
use arrayvec::ArrayVec;
use chr_base::atom::Atom;
use chr_base::limits::MAX_ARITY;
use chr_plans::key::{Order, Span};
use std::alloc::{AllocError, Global};
use std::marker::Model;

/// The most rows of a table, dead ones among them: indexes number rows by 32 bits.
pub const MAX_ROWS: usize = 0xFFFF_FFFF;

/// Atoms in rows, each alive or dead, and indexes of them. A row's number is how many were inserted before it.
pub struct Table {
    // The atom of each row, dead ones among them.
    atoms: Cells,
    // Whether each row lives.
    alive: Vec<bool>,
    /// The number of dead rows.
    dead: usize,
    // The indexes of all rows, by their numbers.
    indexes: Vec<Keyed>,
}

/// What is derived would be proved again in each crate that lets a table go.
impl Drop for Table {
    fn drop(self) {
        let Table {
            atoms: _atoms,
            alive: _alive,
            dead: _dead,
            indexes: _indexes,
        } = self;
    }
}

impl Model for Table {
    ghost use Rattle.chr_tables.specs.Contents.{Contents};
    ghost use Rattle.chr_tables.specs.working.Indexes.{contents_code, key_columns, orders_of, live, IsTable};

    ghost Value = { Contents };

    ghost coded = { contents_code };

    ghost view = { λ t. record {
      rows = live t.atoms t.alive.items;
      keys = key_columns t.indexes.items;
      orders = orders_of t.indexes.items;
    } };

    ghost invariant = { λ t. IsTable t.atoms t.alive.items t.dead t.indexes.items };
}

/// The row that an index has found, if it has found one.
fn row_of(found: Option<u32>) -> Option<usize>
    ensures { result ≡ found }
{
    found.map(|row| row as usize)
}

/// The number of a row for an index; past all rows that there can be, the greatest.
fn number_of(row: usize) -> u32
    ensures low { result ≤ row }
    ensures same { (other : ℕ) → other ≤ row → other + 1 < 2 ^ 32 → other ≤ result }
    ensures below { (other : ℕ) → other < row → other + 1 < 2 ^ 32 → other < result }
{
    row.min(MAX_ROWS) as u32
}

/// Marks a row as dead. Answers how many rows died: one, or none where it was dead before.
fn mark_dead(alive: &mut Vec<bool>, row: usize) -> usize
    requires { row < length alive.old.items }
    ensures flags { alive.new.items ≡ set alive.old.items row false }
    ensures count { dead_in alive.new.items ≡ dead_in alive.old.items + result }
{
    let lived = alive[row];
    alive[row] = false;
    if lived { 1 } else { 0 }
}

/// The atoms of live rows move together, in their order, and the others go.
fn keep_live(atoms: &mut Cells, alive: &[bool])
    requires { length alive.now ≡ length atoms.old }
    ensures { atoms.new ≡ chosen atoms.old alive.now }
{
    let mut count = 0;
    for row in 0..alive.len() {
        if alive[row] {
            atoms.move_down(count, row);
            count += 1;
        }
    }
    atoms.truncate(count);
}

impl Table {
    /// The table of no rows and no indexes.
    pub fn new(alloc: Global) -> Table
        ensures { result ≡ record { rows = []; keys = []; orders = [] } }
    {
        Table {
            atoms: Cells::new(alloc),
            alive: Vec::new(alloc),
            dead: 0,
            indexes: Vec::new(alloc),
        }
    }

    /// The number of rows, dead ones among them.
    pub fn len(&self) -> usize
        ensures rows { result ≡ length self.now.rows }
        ensures few { result < 2 ^ 32 }
    {
        self.atoms.len()
    }

    /// Adds an index by these columns to a table without rows. Its number is how many there were. Look-ups by it leave
    /// out rows that lie outside a span by the order's columns. Keys are hashed under the seed, on which no answer
    /// depends.
    pub fn add_index(
        &mut self,
        alloc: Global,
        seed: u64,
        columns: ArrayVec<usize, MAX_ARITY>,
        order: Order,
    ) -> Result<(), AllocError>
        requires { self.old.rows ≡ [] }
        ensures rows { self.new.rows ≡ [] }
        ensures ok { OnOk result (self.new.keys ≡ self.old.keys ++ columns.items ∷ []) }
        ensures ordered { OnOk result (self.new.orders ≡ self.old.orders ++ columns_by order ∷ []) }
        ensures err { OnErr result (self.new.keys ≡ self.old.keys) }
        ensures err_ordered { OnErr result (self.new.orders ≡ self.old.orders) }
    {
        let index = Finder::new(alloc, order)?;
        self.indexes.reserve(1)?;
        self.indexes.push_reserved(Keyed {
            seed,
            columns,
            index,
        });
        Ok(())
    }

    /// The newest row that a look-up of this key and span by an index meets. It meets each live row that has the key
    /// and lies in the span, and may meet other live rows, whose keys have the same hash; each of them lies in those
    /// bands of the span whose columns are those of the index's order.
    pub fn first(&mut self, index: usize, key: &[i64], span: &Span) -> Option<usize>
        requires { index < length self.old.keys }
        ensures same { self.new ≡ self.old }
        ensures lives { IfSome result (λ row. IsTrue (is_some (get_or self.old.rows row None))) }
        ensures within { IfSome result (λ row.
            LiesBy (get_or self.old.orders index []) span.now (get_or self.old.rows row None)) }
        ensures newest { IfSome result (λ row. (other : ℕ) →
            HasKey (slice_get self.old.keys index) key.now (get_or self.old.rows other None) →
            LiesIn span.now (get_or self.old.rows other None) → other ≤ row) }
        ensures none { IfNone result ((other : ℕ) →
            HasKey (slice_get self.old.keys index) key.now (get_or self.old.rows other None) →
            ¬ (LiesIn span.now (get_or self.old.rows other None))) }
    {
        let keyed = &mut self.indexes[index];
        let hash = key_hash(keyed.seed, key);
        row_of(keyed.index.first(hash, span))
    }

    /// Like [`Table::first`], but below `row`. The search begins at the row where that has the hash of the key, and
    /// else at the newest.
    pub fn next(&mut self, index: usize, key: &[i64], span: &Span, row: usize) -> Option<usize>
        requires { index < length self.old.keys }
        ensures same { self.new ≡ self.old }
        ensures below { IfSome result (λ next. next < row) }
        ensures lives { IfSome result (λ next. IsTrue (is_some (get_or self.old.rows next None))) }
        ensures within { IfSome result (λ next.
            LiesBy (get_or self.old.orders index []) span.now (get_or self.old.rows next None)) }
        ensures newest { IfSome result (λ next. (other : ℕ) → other < row →
            HasKey (slice_get self.old.keys index) key.now (get_or self.old.rows other None) →
            LiesIn span.now (get_or self.old.rows other None) → other ≤ next) }
        ensures none { IfNone result ((other : ℕ) → other < row →
            HasKey (slice_get self.old.keys index) key.now (get_or self.old.rows other None) →
            ¬ (LiesIn span.now (get_or self.old.rows other None))) }
    {
        let keyed = &mut self.indexes[index];
        let hash = key_hash(keyed.seed, key);
        let row = number_of(row);
        row_of(keyed.index.next(hash, span, row))
    }

    /// Like [`Table::first`], but at `row` or below it. The row may be dead, or past the last. The search begins at the
    /// row where that has the hash of the key, and else at the newest.
    pub fn at_or_below(
        &mut self,
        index: usize,
        key: &[i64],
        span: &Span,
        row: usize,
    ) -> Option<usize>
        requires { index < length self.old.keys }
        ensures same { self.new ≡ self.old }
        ensures at_or_below { IfSome result (λ next. next ≤ row) }
        ensures lives { IfSome result (λ next. IsTrue (is_some (get_or self.old.rows next None))) }
        ensures within { IfSome result (λ next.
            LiesBy (get_or self.old.orders index []) span.now (get_or self.old.rows next None)) }
        ensures newest { IfSome result (λ next. (other : ℕ) → other ≤ row →
            HasKey (slice_get self.old.keys index) key.now (get_or self.old.rows other None) →
            LiesIn span.now (get_or self.old.rows other None) → other ≤ next) }
        ensures none { IfNone result ((other : ℕ) → other ≤ row →
            HasKey (slice_get self.old.keys index) key.now (get_or self.old.rows other None) →
            ¬ (LiesIn span.now (get_or self.old.rows other None))) }
    {
        let keyed = &mut self.indexes[index];
        let hash = key_hash(keyed.seed, key);
        let row = number_of(row);
        row_of(keyed.index.at_or_below(hash, span, row))
    }

    /// `atom` becomes that of a live row.
    pub fn read(&self, row: usize, atom: &mut Atom)
        requires { IsTrue (is_some (get_or self.now.rows row None)) }
        ensures { get_or self.now.rows row None ≡ Some atom.new }
    {
        self.atoms.read(row, atom);
    }

    /// Whether some row lives. It takes the same time however many are dead.
    pub fn has_atoms(&self) -> bool
        ensures { IsTrue result ↔ 0 < length (filter is_some self.now.rows) }
    {
        self.dead < self.alive.len()
    }

    /// Whether a row lives. A row past the last is dead.
    pub fn lives(&self, row: usize) -> bool
        ensures { result ≡ is_some (get_or self.now.rows row None) }
    {
        row < self.atoms.len() && self.alive[row]
    }

    /// The atom of a row, where the row lives. A row past the last is dead.
    pub fn get(&self, row: usize) -> Option<Atom>
        ensures { result ≡ get_or self.now.rows row None }
    {
        if self.lives(row) {
            Some(self.atoms.atom(row))
        } else {
            None
        }
    }

    /// Whether a row lives, and this is its atom's argument in a column.
    fn has_argument(&self, column: usize, value: i64, row: usize) -> bool
        ensures has { OnTrue result (HasArgument column value (get_or self.now.rows row None)) }
        ensures lacks { OnFalse result (¬ (HasArgument column value (get_or self.now.rows row None))) }
    {
        let Some(atom) = self.get(row) else {
            return false;
        };
        column < atom.args.len() && atom.args[column] == value
    }

    /// The first live row from `from` on whose atom has this value as its argument in a column, counted from 0; None
    /// where there is none. It takes no memory. Eight rows are compared at a time, with no index.
    pub fn first_with(&self, column: usize, value: i64, from: usize) -> Option<usize>
        requires { column < MAX_ARITY }
        ensures from_on { IfSome result (λ row. from ≤ row) }
        ensures has { IfSome result (λ row. HasArgument column value (get_or self.now.rows row None)) }
        ensures least { IfSome result (λ row. (other : ℕ) → from ≤ other → other < row →
            ¬ (HasArgument column value (get_or self.now.rows other None))) }
        ensures none { IfNone result ((other : ℕ) → from ≤ other →
            ¬ (HasArgument column value (get_or self.now.rows other None))) }
    {
        let mut at = from;
        while at < self.atoms.len() {
            let Some(row) = self.atoms.first(column, value, at) else {
                return None;
            };
            if self.has_argument(column, value, row) {
                return Some(row);
            }
            at = row + 1;
        }
        None
    }

    /// A row dies. It keeps its number.
    pub fn kill(&mut self, row: usize)
        requires { row < length self.old.rows }
        ensures rows { self.new.rows ≡ set self.old.rows row None }
        ensures keys { self.new.keys ≡ self.old.keys }
        ensures orders { self.new.orders ≡ self.old.orders }
    {
        self.dead += mark_dead(&mut self.alive, row);
        kill_in(&mut self.indexes, row as u32);
    }

    /// Whether there is no room for one row more and half of the rows or more are dead. Then `compact` pays.
    pub fn is_half_dead(&self) -> bool
        ensures { OnTrue result (2 * length (filter is_some self.now.rows) ≤ length self.now.rows) }
    {
        self.alive.len() == self.alive.capacity() && self.alive.len() <= 2 * self.dead
    }

    /// Dead rows go, and live ones get new numbers, in their order. It takes no memory.
    pub fn compact(&mut self)
        ensures rows { self.new.rows ≡ filter is_some self.old.rows }
        ensures keys { self.new.keys ≡ self.old.keys }
        ensures orders { self.new.orders ≡ self.old.orders }
    {
        clear_in(&mut self.indexes);
        keep_live(&mut self.atoms, &self.alive);
        self.alive.truncate(self.atoms.len());
        self.alive.fill(true);
        self.dead = 0;
        enter_all(&self.atoms, &mut self.indexes);
    }

    /// Adds a row, the newest. Nothing changes where memory is refused, or where the table has `MAX_ROWS` rows.
    pub fn insert(&mut self, atom: &Atom) -> Result<(), AllocError>
        ensures keys { self.new.keys ≡ self.old.keys }
        ensures orders { self.new.orders ≡ self.old.orders }
        ensures ok { OnOk result (self.new.rows ≡ self.old.rows ++ Some atom.now ∷ []) }
        ensures err { OnErr result (self.new.rows ≡ self.old.rows) }
    {
        if self.atoms.len() >= MAX_ROWS {
            return Err(AllocError);
        }
        self.alive.reserve(1)?;
        reserve_in(&mut self.indexes)?;
        self.atoms.push(atom)?;
        self.alive.push_reserved(true);
        push_in(&mut self.indexes, atom);
        Ok(())
    }
}
