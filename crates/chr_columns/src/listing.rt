//! The atoms in tables, and fresh atoms, as one list.
ghost use Rattle.std.specs.Prelude.{◌≡◌, ◌+◌, ◌*◌, ◌<◌, ◌≤◌, ◌^◌, ◌++◌, length, get_or, None, IfOk, OnOk, OnErr};
ghost use Rattle.chr_plans.specs.Grids.{live_atoms};
ghost use Rattle.chr_columns.specs.working.Listing.{live_in, rows_in_turn, all_of};

use chr_base::atom::Atom;
use chr_base::bag::Bag;
use chr_base::lists::push_copies;
use chr_tables::table::Table;
use std::alloc::{AllocError, Global};

/// Adds copies of the atoms that live in a table at the end: all of them, or none where memory is refused.
fn push_rows(atoms: &mut Vec<Atom>, table: &Table) -> Result<(), AllocError>
    ensures ok { OnOk result (atoms.new.items ≡ atoms.old.items ++ live_atoms table.now.rows) }
    ensures err { OnErr result (atoms.new.items ≡ atoms.old.items) }
{
    let before = atoms.len();
    for row in 0..table.len() {
        if let Some(atom) = table.get(row) {
            if atoms.push(atom).is_err() {
                atoms.truncate(before);
                return Err(AllocError);
            }
        }
    }
    Ok(())
}

/// Adds copies of all atoms that live in the tables at the end: all of them, or none where memory is refused.
pub(crate) fn push_live(atoms: &mut Vec<Atom>, tables: &[Table]) -> Result<(), AllocError>
    ensures ok { OnOk result (atoms.new.items ≡ atoms.old.items ++ live_in tables.now) }
    ensures err { OnErr result (atoms.new.items ≡ atoms.old.items) }
{
    let before = atoms.len();
    for table in tables {
        if push_rows(atoms, table).is_err() {
            atoms.truncate(before);
            return Err(AllocError);
        }
    }
    Ok(())
}

/// Adds copies of the atoms that live in the tables at the end, and then of the fresh ones: all of them, or none where
/// memory is refused.
pub(crate) fn push_stored(
    atoms: &mut Vec<Atom>,
    tables: &[Table],
    fresh: &[Atom],
) -> Result<(), AllocError>
    ensures ok { OnOk result (atoms.new.items ≡ atoms.old.items ++ live_in tables.now ++ fresh.now) }
    ensures err { OnErr result (atoms.new.items ≡ atoms.old.items) }
{
    let before = atoms.len();
    push_live(atoms, tables)?;
    if push_copies(atoms, fresh).is_err() {
        atoms.truncate(before);
        return Err(AllocError);
    }
    Ok(())
}

/// The atoms in the tables, and the fresh ones, as a bag.
pub(crate) fn bag_of(alloc: Global, tables: &[Table], fresh: &[Atom]) -> Result<Bag, AllocError>
    ensures { IfOk result (λ b. b ≡ all_of tables.now fresh.now) }
{
    let mut atoms = Vec::new(alloc);
    push_stored(&mut atoms, tables, fresh)?;
    Bag::of(atoms)
}

/// How many rows there are: those of the tables, dead ones among them, and one for each fresh atom.
pub(crate) fn row_count(tables: &[Table], fresh: &[Atom]) -> usize
    requires { length tables.now * 2 ^ 32 + length fresh.now < 2 ^ 64 }
    ensures rows { result ≡ length (rows_in_turn tables.now fresh.now) }
    ensures few { result ≤ length tables.now * 2 ^ 32 + length fresh.now }
{
    let [table, tables @ ..] = tables else {
        return fresh.len();
    };
    table.len() + row_count(tables, fresh)
}

/// The atom of one of these rows, where it lives. They are numbered from table to table, and then over the fresh
/// atoms.
pub(crate) fn atom_at(tables: &[Table], fresh: &[Atom], row: usize) -> Option<Atom>
    ensures { result ≡ get_or (rows_in_turn tables.now fresh.now) row None }
{
    let [table, tables @ ..] = tables else {
        return fresh.get(row).map(|atom| atom.copy());
    };
    let rows = table.len();
    if row < rows {
        table.get(row)
    } else {
        atom_at(tables, fresh, row - rows)
    }
}
