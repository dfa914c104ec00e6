//! The text of a store whose atoms sit in tables: they are written from their rows, and no list of them is made.
ghost use Rattle.std.specs.Prelude.{◌≡◌, ◌++◌, ◌∷◌, [], List, ℕ, ℤ, None, Some, length, get_or, false};
ghost use Rattle.std.specs.Prelude.{IfOk, IfSome, OnOk, IsTrue, codes, map, string_bytes};
ghost use Rattle.std.specs.Bool.{OnTrue, OnFalse};
ghost use Rattle.std.specs.List.{All};
ghost use Rattle.std.specs.List.Sorted.{IsPermutation};
ghost use Rattle.std.specs.Ordering.{is_gt};
ghost use Rattle.chr_base.specs.declared.atom.Atom.{Atom as AtomValue};
ghost use Rattle.chr_base.specs.FinBag.{◌⊕◌, is_rising};
ghost use Rattle.chr_base.specs.Programs.{declarations};
ghost use Rattle.chr_base.specs.ProgramTests.{Declaration};
ghost use Rattle.chr_base.specs.Stores.{store_of};
ghost use Rattle.chr_base.specs.Texts.{print_cmp, atom_text, atoms_text, store_text};
ghost use Rattle.chr_plans.specs.Grids.{contents, live_atoms};
ghost use Rattle.chr_columns.specs.Tables.{stored_in};
ghost use Rattle.chr_printing.specs.working.Portions.{ArePortions};
ghost use Rattle.chr_printing.specs.working.Printing.{turn_rows, all_atoms, flat_atoms, flats_atoms, rows_at};
ghost use Rattle.chr_printing.specs.working.Printing.{Fit, Fits, IsWritten, IsWrittenOut, Rises};

use crate::flat::Flat;
use crate::flats::{flats_of, sort_each};
use crate::portions::cuts_of;
use crate::writing::portions_of;
use chr_base::atom::Atom;
use chr_base::program::Program;
use chr_base::text::{is_printed_after, push_atom};
use chr_tables::table::Table;
use std::alloc::{AllocError, Global};
use std::cmp::Ordering;
use std::thread::Threads;

/// Where the atoms of a turn are.
#[derive(Drop)]
pub(crate) enum Source<'a> {
    /// In the rows of a table.
    Table(&'a Table),
    /// In rows of their own.
    Flat(&'a Flat),
    /// In rows of their own, which are in order, and whose text is written.
    Written(&'a Flat),
}

/// Atoms that are written one after another, and the first of them.
#[derive(Drop)]
pub(crate) struct Turn<'a> {
    source: Source<'a>,
    first: Option<Atom>,
}

/// `atom` becomes that of a row of the table, where the row lives.
#[inline(always)]
pub(crate) fn read_live(table: &Table, row: usize, atom: &mut Atom) -> bool
    ensures there { OnTrue result (get_or table.now.rows row None ≡ Some atom.new) }
    ensures none { OnFalse result (get_or table.now.rows row None ≡ None) }
{
    if !table.lives(row) {
        return false;
    }
    table.read(row, atom);
    true
}

impl<'a> Source<'a> {
    /// The number of rows of the source.
    fn len(&self) -> usize
        ensures { result ≡ length (turn_rows self.now) }
    {
        match self {
            Source::Table(table) => table.len(),
            Source::Flat(flat) | Source::Written(flat) => flat.rows.len(),
        }
    }

    /// `atom` becomes that of a row, where one lives there.
    #[inline(always)]
    fn read(&self, row: usize, atom: &mut Atom) -> bool
        ensures there { OnTrue result (get_or (turn_rows self.now) row None ≡ Some atom.new) }
        ensures none { OnFalse result (get_or (turn_rows self.now) row None ≡ None) }
    {
        match self {
            Source::Table(table) => read_live(table, row, atom),
            Source::Flat(flat) | Source::Written(flat) => flat.read(row, atom),
        }
    }

    /// The first atom.
    fn first(&self) -> Option<Atom> {
        let mut atom = Atom::default();
        for row in 0..self.len() {
            if self.read(row, &mut atom) {
                return Some(atom);
            }
        }
        None
    }
}

/// The order of turns by their first atoms.
fn first_order(program: &Program, left: &Turn, right: &Turn) -> Ordering {
    match (&left.first, &right.first) {
        (Some(left), Some(right)) => {
            if is_printed_after(program, left, right) {
                Ordering::Greater
            } else if is_printed_after(program, right, left) {
                Ordering::Less
            } else {
                Ordering::Equal
            }
        }
        (left, right) => left.is_some().cmp(&right.is_some()),
    }
}

/// Whether an atom isn't printed before the last one, if there is one.
fn comes_after(program: &Program, last: &Option<Atom>, atom: &Atom) -> bool
    ensures { OnTrue result ((x : AtomValue) → last.now ≡ Some x →
        is_gt (print_cmp (declarations program.now) x atom.now) ≡ false) }
{
    match last {
        Some(last) => !is_printed_after(program, last, atom),
        None => true,
    }
}

/// The last atom becomes this one.
fn keep_last(last: &mut Option<Atom>, atom: &Atom)
    ensures { last.new ≡ Some atom.now }
{
    match last {
        Some(last) => last.copy_from(atom),
        None => *last = Some(atom.copy()),
    }
}

/// Whether the atoms are in the order in which they are printed, and none is printed before `last`, which becomes the
/// last of them.
pub(crate) fn follow_rows(program: &Program, last: &mut Option<Atom>, source: &Source) -> bool
    ensures { OnTrue result ((before : List AtomValue) → Rises (declarations program.now) before last.old →
        Rises (declarations program.now) (before ++ live_atoms (turn_rows source.now)) last.new) }
{
    let mut atom = Atom::default();
    for row in 0..source.len() {
        if source.read(row, &mut atom) {
            if !comes_after(program, last, &atom) {
                return false;
            }
            keep_last(last, &atom);
        }
    }
    true
}

/// Like [`follow_rows`], of atoms that are written, and so in order: only the first one is compared.
fn follow_written(program: &Program, last: &mut Option<Atom>, flat: &Flat) -> bool
    requires { IsWrittenOut (declarations program.now) flat.now }
    ensures { OnTrue result ((before : List AtomValue) → Rises (declarations program.now) before last.old →
        Rises (declarations program.now) (before ++ flat_atoms flat.now) last.new) }
{
    let Some((first, end)) = flat.ends() else {
        return true;
    };
    if !comes_after(program, last, &first) {
        return false;
    }
    *last = Some(end);
    true
}

/// Like [`follow_rows`], wherever the atoms are.
fn follow(program: &Program, last: &mut Option<Atom>, source: &Source) -> bool
    requires { Fits (declarations program.now) source.now }
    ensures { OnTrue result ((before : List AtomValue) → Rises (declarations program.now) before last.old →
        Rises (declarations program.now) (before ++ live_atoms (turn_rows source.now)) last.new) }
{
    match source {
        Source::Written(flat) => follow_written(program, last, flat),
        _ => follow_rows(program, last, source),
    }
}

/// Whether the atoms of all turns, one turn after another, are in the order in which they are printed.
fn are_in_order(program: &Program, turns: &[Turn]) -> bool
    requires { All (λ t. Fits (declarations program.now) t.source) turns.now }
    ensures { OnTrue result (IsTrue (is_rising (print_cmp (declarations program.now)) (all_atoms turns.now))) }
{
    let mut last = None;
    for turn in turns {
        if !follow(program, &mut last, &turn.source) {
            return false;
        }
    }
    true
}

/// Adds an atom behind others.
fn push_more(out: &mut String, program: &Program, atom: &Atom) -> Result<(), AllocError>
    ensures { OnOk result (string_bytes out.new
        ≡ string_bytes out.old ++ codes ", " ++ atom_text (declarations program.now) atom.now) }
{
    out.push_str(", ")?;
    push_atom(out, program, atom)
}

/// Adds an atom to the text of those before it, if there are some.
fn push_one(
    out: &mut String,
    program: &Program,
    started: &mut bool,
    atom: &Atom,
) -> Result<(), AllocError>
    ensures { OnOk result ((start : List ℕ) (before : List AtomValue) →
        IsWritten (declarations program.now) start before started.old (string_bytes out.old) →
        IsWritten (declarations program.now) start (before ++ atom.now ∷ []) started.new (string_bytes out.new)) }
{
    if *started {
        push_more(out, program, atom)
    } else {
        *started = true;
        push_atom(out, program, atom)
    }
}

/// Adds the atoms of a source to the text of those before it, if there are some.
pub(crate) fn push_rows(
    out: &mut String,
    program: &Program,
    started: &mut bool,
    source: &Source,
) -> Result<(), AllocError>
    ensures { OnOk result ((start : List ℕ) (before : List AtomValue) →
        IsWritten (declarations program.now) start before started.old (string_bytes out.old) →
        IsWritten (declarations program.now) start (before ++ live_atoms (turn_rows source.now)) started.new
        (string_bytes out.new)) }
{
    let mut atom = Atom::default();
    for row in 0..source.len() {
        if source.read(row, &mut atom) {
            push_one(out, program, started, &atom)?;
        }
    }
    Ok(())
}

/// Adds a text behind others.
fn push_more_text(out: &mut String, text: &str) -> Result<(), AllocError>
    ensures { OnOk result (string_bytes out.new ≡ string_bytes out.old ++ codes ", " ++ text.now) }
{
    out.push_str(", ")?;
    out.push_str(text)
}

/// Adds a text that is written to that of the atoms before it, if there are some.
fn push_written(out: &mut String, started: &mut bool, flat: &Flat) -> Result<(), AllocError>
    ensures { OnOk result ((ds : List Declaration) (start : List ℕ) (before : List AtomValue) →
        IsWrittenOut ds flat.now → IsWritten ds start before started.old (string_bytes out.old) →
        IsWritten ds start (before ++ flat_atoms flat.now) started.new (string_bytes out.new)) }
{
    if flat.rows.as_slice().is_empty() {
        return Ok(());
    }
    if *started {
        return push_more_text(out, flat.text.as_str());
    }
    *started = true;
    out.push_str(flat.text.as_str())
}

/// Adds the atoms of a source, wherever they are, to the text of those before it, if there are some.
fn push_source(
    out: &mut String,
    program: &Program,
    started: &mut bool,
    source: &Source,
) -> Result<(), AllocError>
    requires { Fits (declarations program.now) source.now }
    ensures { OnOk result ((start : List ℕ) (before : List AtomValue) →
        IsWritten (declarations program.now) start before started.old (string_bytes out.old) →
        IsWritten (declarations program.now) start (before ++ live_atoms (turn_rows source.now)) started.new
        (string_bytes out.new)) }
{
    match source {
        Source::Written(flat) => push_written(out, started, flat),
        _ => push_rows(out, program, started, source),
    }
}

/// Adds the atoms of all turns, joined.
fn push_turns(out: &mut String, program: &Program, turns: &[Turn]) -> Result<(), AllocError>
    requires { All (λ t. Fits (declarations program.now) t.source) turns.now }
    ensures { OnOk result (string_bytes out.new
        ≡ string_bytes out.old ++ atoms_text (declarations program.now) (all_atoms turns.now)) }
{
    let mut started = false;
    for turn in turns {
        push_source(out, program, &mut started, &turn.source)?;
    }
    if started {
        Ok(())
    } else {
        out.push_str("true")
    }
}

/// Adds those of these tables that have atoms to others. What is in the rest is dead, and isn't gone through.
pub(crate) fn add_all<'a>(list: &mut Vec<&'a Table>, tables: &'a [Table]) -> Result<(), AllocError>
    ensures { OnOk result
        (contents (map rows_at list.new.items) ≡ contents (map rows_at list.old.items) ⊕ stored_in tables.now) }
{
    for table in tables {
        if table.has_atoms() {
            list.push(table)?;
        }
    }
    Ok(())
}

/// Adds a turn.
fn push_turn<'a>(turns: &mut Vec<Turn<'a>>, source: Source<'a>) -> Result<(), AllocError>
    ensures atoms { OnOk result
        (all_atoms turns.new.items ≡ all_atoms turns.old.items ++ live_atoms (turn_rows source.entry)) }
    ensures fit { OnOk result ((ds : List Declaration) →
        Fits ds source.entry → Fit ds turns.old.items → Fit ds turns.new.items) }
{
    let first = source.first();
    turns.push(Turn { source, first })?;
    Ok(())
}

/// A turn for each table.
fn turns_of<'a>(alloc: Global, tables: &[&'a Table]) -> Result<Vec<Turn<'a>>, AllocError>
    ensures atoms { IfOk result (λ turns. store_of (all_atoms turns.items) ≡ contents (map rows_at tables.now)) }
    ensures fit { IfOk result (λ turns. (ds : List Declaration) → Fit ds turns.items) }
{
    let mut turns = Vec::new(alloc);
    for table in tables {
        push_turn(&mut turns, Source::Table(table))?;
    }
    Ok(turns)
}

/// A turn for the atoms of each symbol.
fn flat_turns<'a>(alloc: Global, flats: &'a [Flat]) -> Result<Vec<Turn<'a>>, AllocError>
    ensures atoms { IfOk result (λ turns. all_atoms turns.items ≡ flats_atoms flats.now) }
    ensures fit { IfOk result (λ turns. (ds : List Declaration) → Fit ds turns.items) }
{
    let mut turns = Vec::new(alloc);
    for flat in flats {
        push_turn(&mut turns, Source::Flat(flat))?;
    }
    Ok(turns)
}

/// Adds a turn for the atoms of each symbol, whose texts are written.
fn add_written<'a>(turns: &mut Vec<Turn<'a>>, flats: &'a [Flat]) -> Result<(), AllocError>
    ensures atoms { OnOk result (all_atoms turns.new.items ≡ all_atoms turns.old.items ++ flats_atoms flats.now) }
    ensures fit { OnOk result ((ds : List Declaration) → All (IsWrittenOut ds) flats.now →
        Fit ds turns.old.items → Fit ds turns.new.items) }
{
    for flat in flats {
        push_turn(turns, Source::Written(flat))?;
    }
    Ok(())
}

/// A turn for the atoms of each symbol in each portion. None where a portion couldn't be written.
fn portion_turns<'a>(
    alloc: Global,
    portions: &'a [Option<Vec<Flat>>],
) -> Result<Option<Vec<Turn<'a>>>, AllocError>
    ensures atoms { IfOk result (λ found. IfSome found (λ turns.
        (ds : List Declaration) (cuts : List ℤ) (atoms : List AtomValue) → ArePortions ds cuts atoms portions.now →
        store_of (all_atoms turns.items) ≡ store_of atoms)) }
    ensures fit { IfOk result (λ found. IfSome found (λ turns.
        (ds : List Declaration) (cuts : List ℤ) (atoms : List AtomValue) → ArePortions ds cuts atoms portions.now →
        Fit ds turns.items)) }
{
    let mut turns = Vec::new(alloc);
    for portion in portions {
        match portion {
            Some(flats) => add_written(&mut turns, flats)?,
            None => return Ok(None),
        }
    }
    Ok(Some(turns))
}

/// Puts turns in the order of their first atoms.
fn sort_turns(program: &Program, turns: &mut Vec<Turn>)
    ensures { IsPermutation turns.old.items turns.new.items }
{
    turns.sort_unstable_by(|left, right| first_order(program, left, right));
}

/// Adds the text of the store of all turns, where one after another they are in order; false where there is no such
/// order of them.
fn push_sorted(
    out: &mut String,
    program: &Program,
    turns: &mut Vec<Turn>,
) -> Result<bool, AllocError>
    requires { Fit (declarations program.now) turns.old.items }
    ensures text { IfOk result (λ written. OnTrue written (string_bytes out.new
        ≡ string_bytes out.old ++ store_text (declarations program.now) (store_of (all_atoms turns.old.items)))) }
    ensures same { IfOk result (λ written. OnFalse written (out.new ≡ out.old)) }
{
    sort_turns(program, turns);
    if !are_in_order(program, turns) {
        return Ok(false);
    }
    push_turns(out, program, turns)?;
    Ok(true)
}

/// Adds the text of the store in these tables by one thread, which puts the atoms of each symbol in order.
fn push_flats(
    alloc: Global,
    program: &Program,
    tables: &[&Table],
    out: &mut String,
) -> Result<bool, AllocError>
    ensures text { IfOk result (λ written. OnTrue written (string_bytes out.new
        ≡ string_bytes out.old ++ store_text (declarations program.now) (contents (map rows_at tables.now)))) }
    ensures same { IfOk result (λ written. OnFalse written (out.new ≡ out.old)) }
{
    let Some(mut flats) = flats_of(alloc, tables, &[], 0)? else {
        return Ok(false);
    };
    sort_each(&mut flats);
    let mut turns = flat_turns(alloc, &flats)?;
    push_sorted(out, program, &mut turns)
}

/// Adds the text of the store in these tables, which several threads write in portions.
fn push_portions<R: Threads + Sync>(
    rt: &R,
    alloc: Global,
    program: &Program,
    tables: &[&Table],
    cuts: &[i64],
    out: &mut String,
) -> Result<bool, AllocError>
    ensures text { IfOk result (λ written. OnTrue written (string_bytes out.new
        ≡ string_bytes out.old ++ store_text (declarations program.now) (contents (map rows_at tables.now)))) }
    ensures same { IfOk result (λ written. OnFalse written (out.new ≡ out.old)) }
{
    let portions = portions_of(rt, alloc, program, tables, cuts)?;
    let Some(mut turns) = portion_turns(alloc, &portions)? else {
        return Ok(false);
    };
    push_sorted(out, program, &mut turns)
}

/// Adds the text of the store in these tables. Where their rows are in order it is written from these; else the
/// arguments of the atoms of each symbol are put in order, by at most `threads` threads. False, and nothing is added,
/// where that can't be done: an atom has too many arguments, or the program doesn't declare some atom.
pub(crate) fn push_tables<R: Threads + Sync>(
    rt: &R,
    alloc: Global,
    threads: usize,
    program: &Program,
    tables: &[&Table],
    out: &mut String,
) -> Result<bool, AllocError>
    ensures text { IfOk result (λ written. OnTrue written (string_bytes out.new
        ≡ string_bytes out.old ++ store_text (declarations program.now) (contents (map rows_at tables.now)))) }
    ensures same { IfOk result (λ written. OnFalse written (out.new ≡ out.old)) }
{
    let mut turns = turns_of(alloc, tables)?;
    if push_sorted(out, program, &mut turns)? {
        return Ok(true);
    }
    let cuts = cuts_of(alloc, tables, threads)?;
    if cuts.is_empty() {
        push_flats(alloc, program, tables, out)
    } else {
        push_portions(rt, alloc, program, tables, &cuts, out)
    }
}
