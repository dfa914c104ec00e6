//! The atoms of tables in portions, each of which one thread puts in order.
ghost use Rattle.std.specs.Prelude.{◌≡◌};
ghost use Rattle.chr_printing.specs.working.Portions.{first_argument, place_at};

use chr_base::atom::Atom;
use chr_tables::table::Table;
use std::alloc::{AllocError, Global};

/// How many rows are looked at for each portion, to make the portions about equally large.
const SAMPLES: usize = 256;

/// The least number of rows for which one more thread is begun.
const LEAST_ROWS: usize = 8192;

/// The first argument of an atom, or 0 where it has none.
fn first_argument(atom: &Atom) -> i64
    ensures { result ≡ first_argument atom.now }
{
    match atom.args.first() {
        Some(value) => *value,
        None => 0,
    }
}

/// The place of the portion of an atom: that of the first cut above its first argument, or the number of cuts where
/// none is.
pub(crate) fn place_of(cuts: &[i64], atom: &Atom) -> usize
    ensures { result ≡ place_at cuts.now atom.now }
{
    let value = first_argument(atom);
    for place in 0..cuts.len() {
        if value < cuts[place] {
            return place;
        }
    }
    cuts.len()
}

/// How many rows the tables have.
fn rows_in(tables: &[&Table]) -> usize {
    let mut rows: usize = 0;
    for table in tables {
        rows = rows.saturating_add(table.len());
    }
    rows
}

/// Adds the first arguments of rows of a table, `apart` rows from each other.
fn push_samples(samples: &mut Vec<i64>, table: &Table, apart: usize) -> Result<(), AllocError> {
    for sample in 0..table.len() / apart.max(1) {
        if let Some(atom) = table.get(sample.saturating_mul(apart)) {
            samples.push(first_argument(&atom))?;
        }
    }
    Ok(())
}

/// The first arguments of rows of the tables, `apart` rows from each other, in order.
fn samples_of(alloc: Global, tables: &[&Table], apart: usize) -> Result<Vec<i64>, AllocError> {
    let mut samples = Vec::new(alloc);
    for table in tables {
        push_samples(&mut samples, table, apart)?;
    }
    samples.sort_unstable();
    Ok(samples)
}

/// Cuts between portions of about as many atoms, for at most `threads` threads. There are none where one thread does as
/// well.
pub(crate) fn cuts_of(
    alloc: Global,
    tables: &[&Table],
    threads: usize,
) -> Result<Vec<i64>, AllocError> {
    let mut cuts = Vec::new(alloc);
    let rows = rows_in(tables);
    let count = threads.min(rows / LEAST_ROWS);
    if count < 2 {
        return Ok(cuts);
    }
    let samples = samples_of(alloc, tables, rows / count / SAMPLES)?;
    for place in 1..count {
        if let Some(value) = samples.get(samples.len() / count * place) {
            cuts.push(*value)?;
        }
    }
    Ok(cuts)
}
