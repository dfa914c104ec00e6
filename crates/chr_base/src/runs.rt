//! Runs of a store's atoms, put in the order in which they are printed.
ghost use Rattle.std.specs.Prelude.{◌≡◌, ℕ, ◌+◌, ◌<◌, ◌≤◌, ◌++◌, List, IsTrue, IfOk, IfSome, get_or, length, true};
ghost use Rattle.std.specs.Borrow.{Bor};
ghost use Rattle.std.specs.Bool.{OnTrue};
ghost use Rattle.std.specs.List.{All, flat_map};
ghost use Rattle.chr_base.specs.declared.atom.Atom.{Atom as AtomValue};
ghost use Rattle.chr_base.specs.Atoms.{atom_cmp};
ghost use Rattle.chr_base.specs.FinBag as bag;
ghost use Rattle.chr_base.specs.FinBag.{is_rising};
ghost use Rattle.chr_base.specs.Programs.{declarations};
ghost use Rattle.chr_base.specs.Texts.{print_cmp};
ghost use Rattle.chr_base.specs.working.Runs.{are_alike, IsRun, Precedes};

use crate::atom::Atom;
use crate::program::Program;
use std::alloc::{AllocError, Global};
use std::cmp::Ordering;

/// The order in which atoms are printed: by the bytes of the name, then by the number of arguments, then by the
/// arguments as numbers, the first first.
pub(crate) fn print_order(program: &Program, left: &Atom, right: &Atom) -> Ordering
    ensures { result ≡ print_cmp (declarations program.now) left.now right.now }
{
    program
        .name_or_none(left)
        .as_bytes()
        .cmp(program.name_or_none(right).as_bytes())
        .then(left.args.len().cmp(&right.args.len()))
        .then(left.args.as_slice().cmp(right.args.as_slice()))
        .then(left.symbol.0.cmp(&right.symbol.0))
}

/// Whether the two have one symbol and as many arguments.
pub(crate) fn are_alike(left: &Atom, right: &Atom) -> bool
    ensures { result ≡ are_alike left.now right.now }
{
    left.symbol.0 == right.symbol.0 && left.args.len() == right.args.len()
}

/// How many atoms the first run has.
fn run_len(atoms: &[Atom]) -> usize
    requires { 0 < length atoms.now }
    ensures some { 0 < result }
    ensures within { result ≤ length atoms.now }
    ensures alike { (k : ℕ) (d : AtomValue) → k + 1 < result
        → are_alike (get_or atoms.now k d) (get_or atoms.now (k + 1) d) ≡ true }
{
    for i in 1..atoms.len() {
        if !are_alike(&atoms[i - 1], &atoms[i]) {
            return i;
        }
    }
    atoms.len()
}

/// The first run, and the atoms after it.
fn first_run(atoms: &[Atom]) -> (&[Atom], &[Atom])
    requires some { 0 < length atoms.now }
    requires rising { IsTrue (is_rising atom_cmp atoms.now) }
    ensures whole { atoms.now ≡ result.0.now ++ result.1.now }
    ensures run { IsRun result.0.now }
    ensures rising { IsTrue (is_rising atom_cmp result.1.now) }
    ensures shorter { length result.1.now < length atoms.now }
{
    atoms.split_at(run_len(atoms))
}

/// The runs of atoms that are in order.
fn runs_of<'a>(alloc: Global, atoms: &'a [Atom]) -> Result<Vec<&'a [Atom]>, AllocError>
    requires { IsTrue (is_rising atom_cmp atoms.now) }
    ensures whole { IfOk result (λ v. flat_map (λ r. r.now) v.items ≡ atoms.now) }
    ensures runs { IfOk result (λ v. All (λ r. IsRun r.now) v.items) }
{
    let mut runs = Vec::new(alloc);
    let mut rest = atoms;
    while !rest.is_empty() {
        let (run, more) = first_run(rest);
        runs.push(run)?;
        rest = more;
    }
    Ok(runs)
}

/// Whether the one list's last atom isn't printed after the other's first.
fn precedes(program: &Program, left: &[Atom], right: &[Atom]) -> bool
    ensures { OnTrue result (Precedes (declarations program.now) left.now right.now) }
{
    match (left.last(), right.first()) {
        (Some(last), Some(first)) => !print_order(program, last, first).is_gt(),
        _ => true,
    }
}

/// Whether each of the lists precedes the next.
fn are_apart(program: &Program, runs: &[&[Atom]]) -> bool
    ensures { OnTrue result ((k : ℕ) (d : Bor (List AtomValue)) → k + 1 < length runs.now
        → Precedes (declarations program.now) (get_or runs.now k d).now (get_or runs.now (k + 1) d).now) }
{
    for i in 1..runs.len() {
        if !precedes(program, runs[i - 1], runs[i]) {
            return false;
        }
    }
    true
}

/// The order of lists by their first atoms.
fn first_order(program: &Program, left: &[Atom], right: &[Atom]) -> Ordering {
    match (left.first(), right.first()) {
        (Some(left), Some(right)) => print_order(program, left, right),
        _ => left.len().cmp(&right.len()),
    }
}

/// The runs of atoms that are in order, in the order in which they are printed. None where there is no such order:
/// atoms that the program doesn't declare may have a declared name.
pub(crate) fn runs_in_print_order<'a>(
    alloc: Global,
    program: &Program,
    atoms: &'a [Atom],
) -> Result<Option<Vec<&'a [Atom]>>, AllocError>
    requires { IsTrue (is_rising atom_cmp atoms.now) }
    ensures order { IfOk result (λ found. IfSome found (λ v. flat_map (λ r. r.now) v.items
        ≡ bag.items (bag.of_list {R = print_cmp (declarations program.now)} atoms.now))) }
    ensures runs { IfOk result (λ found. IfSome found (λ v. All (λ r. IsRun r.now) v.items)) }
{
    let mut runs = runs_of(alloc, atoms)?;
    runs.sort_unstable_by(|left, right| first_order(program, left, right));
    if are_apart(program, &runs) {
        Ok(Some(runs))
    } else {
        Ok(None)
    }
}
