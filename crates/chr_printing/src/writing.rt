//! Portions of atoms that threads put in order and write.
ghost use Rattle.std.specs.Prelude.{◌≡◌, ◌++◌, IfOk, IfSome, IsTrue, string_bytes};
ghost use Rattle.std.specs.Bool.{OnTrue};
ghost use Rattle.std.specs.List.{All};
ghost use Rattle.chr_base.specs.FinBag.{is_rising};
ghost use Rattle.chr_base.specs.Programs.{declarations};
ghost use Rattle.chr_base.specs.Texts.{print_cmp};
ghost use Rattle.chr_printing.specs.working.Portions.{ArePortions, IsPortion, atoms_at};
ghost use Rattle.chr_printing.specs.working.Printing.{IsWrittenOut, flat_atoms, flats_atoms, joined_text};

use crate::flat::Flat;
use crate::flats::{flats_of, sort_each};
use crate::turns::{Source, follow_rows, push_rows};
use chr_base::atom::Atom;
use chr_base::program::Program;
use chr_tables::table::Table;
use rayon::prelude::*;
use std::alloc::{AllocError, Global};
use std::thread::Threads;

/// Adds the text of atoms of one symbol. False where they aren't in the order in which they are printed.
fn push_flat(out: &mut String, program: &Program, flat: &Flat) -> Result<bool, AllocError>
    ensures rises { IfOk result (λ written. OnTrue written
        (IsTrue (is_rising (print_cmp (declarations program.now)) (flat_atoms flat.now)))) }
    ensures text { IfOk result (λ written. OnTrue written (string_bytes out.new
        ≡ string_bytes out.old ++ joined_text (declarations program.now) (flat_atoms flat.now))) }
{
    let source = Source::Flat(flat);
    let mut last = None;
    if !follow_rows(program, &mut last, &source) {
        return Ok(false);
    }
    let mut started = false;
    push_rows(out, program, &mut started, &source)?;
    Ok(true)
}

/// Writes the text of atoms of one symbol. False where they aren't in the order in which they are printed.
fn write(alloc: Global, program: &Program, flat: &mut Flat) -> Result<bool, AllocError>
    ensures atoms { flat_atoms flat.new ≡ flat_atoms flat.old }
    ensures written { IfOk result (λ written. OnTrue written (IsWrittenOut (declarations program.now) flat.new)) }
{
    let mut text = String::new(alloc);
    if !push_flat(&mut text, program, flat)? {
        return Ok(false);
    }
    flat.text = text;
    Ok(true)
}

/// Writes the texts of the atoms of each symbol. False where some aren't in the order in which they are printed.
fn write_each(alloc: Global, program: &Program, flats: &mut Vec<Flat>) -> Result<bool, AllocError>
    ensures atoms { IfOk result (λ written. OnTrue written
        (flats_atoms flats.new.items ≡ flats_atoms flats.old.items)) }
    ensures written { IfOk result (λ written. OnTrue written
        (All (IsWrittenOut (declarations program.now)) flats.new.items)) }
{
    for place in 0..flats.len() {
        if !write(alloc, program, &mut flats[place])? {
            return Ok(false);
        }
    }
    Ok(true)
}

/// The atoms of the portion at a place in order, symbol by symbol, with their texts. None where an atom has too many
/// arguments, or some aren't in the order in which they are printed, or memory is refused.
fn portion_of(
    alloc: Global,
    program: &Program,
    tables: &[&Table],
    cuts: &[i64],
    place: usize,
) -> Option<Vec<Flat>>
    ensures { IfSome result (λ flats.
        IsPortion (declarations program.now) cuts.now (atoms_at tables.now) place flats.items) }
{
    let mut flats = flats_of(alloc, tables, cuts, place).ok()??;
    sort_each(&mut flats);
    match write_each(alloc, program, &mut flats) {
        Ok(true) => Some(flats),
        _ => None,
    }
}

/// The portions between these cuts, each by a thread.
pub(crate) fn portions_of<R: Threads + Sync>(
    rt: &R,
    alloc: Global,
    program: &Program,
    tables: &[&Table],
    cuts: &[i64],
) -> Result<Vec<Option<Vec<Flat>>>, AllocError>
    ensures { IfOk result (λ portions.
        ArePortions (declarations program.now) cuts.now (atoms_at tables.now) portions.items) }
{
    let Some(count) = cuts.len().checked_add(1) else {
        return Err(AllocError);
    };
    (0..count)
        .into_par_iter()
        .with_min_len(1)
        .map(
            |place: usize| -> Option<Vec<Flat>>
                ensures { IfSome result (λ flats. IsPortion (declarations program.entry.now) cuts.entry.now
                    (atoms_at tables.entry.now) place flats.items) }
            { portion_of(alloc, program, tables, cuts, place) },
        )
        .collect(rt, alloc)
}
