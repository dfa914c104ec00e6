//! Atoms of tables, symbol by symbol.
ghost use Rattle.std.specs.Prelude.{◌≡◌, ◌∷◌, [], ◌<◌, ◌≤◌, IfOk, IfSome, IsTrue, OnOk, length, get_or};
ghost use Rattle.std.specs.Bool.{OnTrue};
ghost use Rattle.chr_base.specs.FinBag.{◌⊕◌};
ghost use Rattle.chr_base.specs.Stores.{store_of};
ghost use Rattle.chr_plans.specs.Grids.{live_atoms};
ghost use Rattle.chr_printing.specs.declared.flat.Flat.{Flat as FlatValue};
ghost use Rattle.chr_printing.specs.declared.flat.TheConstants.{FLAT_ARITY};
ghost use Rattle.chr_printing.specs.working.Portions.{atoms_at, portion};
ghost use Rattle.chr_printing.specs.working.Printing.{flats_atoms, has_shape};

use crate::flat::{FLAT_ARITY, Flat};
use crate::portions::place_of;
use crate::turns::read_live;
use chr_base::atom::Atom;
use chr_tables::table::Table;
use std::alloc::{AllocError, Global};

/// The place of the atoms of the atom's symbol and number of arguments, where there are some.
fn place_for(flats: &[Flat], atom: &Atom) -> Option<usize>
    ensures within { IfSome result (λ place. place < length flats.now) }
    ensures shape { IfSome result (λ place. (f : FlatValue) → get_or flats.now place f ≡ f →
        IsTrue (has_shape f atom.now)) }
{
    for place in (0..flats.len()).rev() {
        if flats[place].is_for(atom) {
            return Some(place);
        }
    }
    None
}

/// Adds an atom to those in a place, which are of its symbol.
fn add_to(flats: &mut Vec<Flat>, place: usize, atom: &Atom) -> Result<(), AllocError>
    requires within { place < length flats.old.items }
    requires shape { (f : FlatValue) → get_or flats.old.items place f ≡ f → IsTrue (has_shape f atom.now) }
    requires few { length atom.now.args.items ≤ FLAT_ARITY }
    ensures { OnOk result
        (store_of (flats_atoms flats.new.items) ≡ store_of (flats_atoms flats.old.items) ⊕ store_of (atom.now ∷ [])) }
{
    flats[place].push(atom)
}

/// Adds an atom as the first one of its symbol.
fn add_new(alloc: Global, flats: &mut Vec<Flat>, atom: &Atom) -> Result<(), AllocError>
    requires { length atom.now.args.items ≤ FLAT_ARITY }
    ensures { OnOk result
        (store_of (flats_atoms flats.new.items) ≡ store_of (flats_atoms flats.old.items) ⊕ store_of (atom.now ∷ [])) }
{
    let mut flat = Flat::new(alloc, atom.symbol, atom.args.len());
    flat.push(atom)?;
    flats.push(flat)?;
    Ok(())
}

/// Adds an atom to those of its symbol. False where it has too many arguments for a row of its own.
fn add(alloc: Global, flats: &mut Vec<Flat>, atom: &Atom) -> Result<bool, AllocError>
    ensures { IfOk result (λ added. OnTrue added
        (store_of (flats_atoms flats.new.items) ≡ store_of (flats_atoms flats.old.items) ⊕ store_of (atom.now ∷ []))) }
{
    if atom.args.len() > FLAT_ARITY {
        return Ok(false);
    }
    match place_for(flats, atom) {
        Some(place) => add_to(flats, place, atom)?,
        None => add_new(alloc, flats, atom)?,
    }
    Ok(true)
}

/// Adds an atom to those of its symbol where it is of the portion at this place. False where it has too many arguments.
fn add_of(
    alloc: Global,
    flats: &mut Vec<Flat>,
    cuts: &[i64],
    place: usize,
    atom: &Atom,
) -> Result<bool, AllocError>
    ensures { IfOk result (λ added. OnTrue added (store_of (flats_atoms flats.new.items)
        ≡ store_of (flats_atoms flats.old.items) ⊕ store_of (portion cuts.now place (atom.now ∷ [])))) }
{
    if place_of(cuts, atom) != place {
        return Ok(true);
    }
    add(alloc, flats, atom)
}

/// Adds those atoms of a table that are of a portion, each to those of its symbol. False where one has too many
/// arguments.
fn add_rows(
    alloc: Global,
    flats: &mut Vec<Flat>,
    cuts: &[i64],
    place: usize,
    table: &Table,
) -> Result<bool, AllocError>
    ensures { IfOk result (λ added. OnTrue added (store_of (flats_atoms flats.new.items)
        ≡ store_of (flats_atoms flats.old.items) ⊕ store_of (portion cuts.now place (live_atoms table.now.rows)))) }
{
    let mut atom = Atom::default();
    for row in 0..table.len() {
        if read_live(table, row, &mut atom) {
            if !add_of(alloc, flats, cuts, place, &atom)? {
                return Ok(false);
            }
        }
    }
    Ok(true)
}

/// Those atoms of all tables that are of the portion at a place, symbol by symbol. None where one has too many
/// arguments.
pub(crate) fn flats_of(
    alloc: Global,
    tables: &[&Table],
    cuts: &[i64],
    place: usize,
) -> Result<Option<Vec<Flat>>, AllocError>
    ensures { IfOk result (λ found. IfSome found (λ flats.
        store_of (flats_atoms flats.items) ≡ store_of (portion cuts.now place (atoms_at tables.now)))) }
{
    let mut flats = Vec::new(alloc);
    for table in tables {
        if !add_rows(alloc, &mut flats, cuts, place, table)? {
            return Ok(None);
        }
    }
    Ok(Some(flats))
}

/// Puts the atoms of each symbol in order.
pub(crate) fn sort_each(flats: &mut Vec<Flat>)
    ensures { store_of (flats_atoms flats.new.items) ≡ store_of (flats_atoms flats.old.items) }
{
    for place in 0..flats.len() {
        flats[place].sort();
    }
}
