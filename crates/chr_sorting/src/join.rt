//! Positions joined into sorts.
ghost use Rattle.std.specs.Prelude.{◌≡◌, ◌<◌, ◌≤◌, ◌++◌, ◌∷◌, [], List, IfOk, length, map};
ghost use Rattle.std.specs.List.{All, range_with_len};
ghost use Rattle.chr_sorting.specs.declared.notes.Note.{Note as NoteValue};
ghost use Rattle.chr_sorting.specs.declared.notes.Note.TheVariants.{Joined};
ghost use Rattle.chr_sorting.specs.working.Notes.{IsBelow, Joins, merged};

use crate::notes::Note;
use std::alloc::{AllocError, Global};

/// The bound, raised above all positions of which the note speaks.
fn raised(bound: usize, note: Note) -> usize
    ensures least { bound ≤ result }
    ensures below { IsBelow result note }
{
    match note {
        Note::Joined(one, other) => bound.max(one as usize + 1).max(other as usize + 1),
        Note::Stands(position, _) => bound.max(position as usize + 1),
        Note::Compared(position, _) => bound.max(position as usize + 1),
    }
}

/// A number that is greater than all positions of which the notes speak.
pub(crate) fn bound(notes: &[Note]) -> usize
    ensures { All (IsBelow result) notes.now }
{
    let mut bound = 0;
    for note in notes {
        bound = raised(bound, *note);
    }
    bound
}

/// The sorts with `low` in place of `high`.
fn merged(alloc: Global, sorts: &[usize], low: usize, high: usize) -> Result<Vec<usize>, AllocError>
    ensures { IfOk result (λ all. all.items ≡ map (merged low high) sorts.now) }
{
    sorts
        .iter()
        .map(|sort| if *sort == high { low } else { *sort })
        .collect(alloc)
}

/// A sort for each position, which is its own number.
fn alone(alloc: Global, positions: usize) -> Result<Vec<usize>, AllocError>
    ensures { IfOk result (λ all. all.items ≡ range_with_len 0 positions) }
{
    let mut all = Vec::new(alloc);
    for position in 0..positions {
        all.push(position)?;
    }
    Ok(all)
}

/// The sorts with those of two positions joined.
fn with_pair(alloc: Global, sorts: &[usize], one: u32, other: u32) -> Result<Vec<usize>, AllocError>
    requires one { one < length sorts.now }
    requires other { other < length sorts.now }
    ensures joins { IfOk result (λ all. (notes : List NoteValue) → Joins notes sorts.now
        → Joins (notes ++ Joined one other ∷ []) all.items) }
    ensures len { IfOk result (λ all. length all.items ≡ length sorts.now) }
{
    let left = sorts[one as usize];
    let right = sorts[other as usize];
    let all = merged(alloc, sorts, left.min(right), left.max(right))?;
    Ok(all)
}

/// The positions' sorts: of each position the least one of its sort.
pub(crate) fn joined(
    alloc: Global,
    notes: &[Note],
    positions: usize,
) -> Result<Vec<usize>, AllocError>
    requires { All (IsBelow positions) notes.now }
    ensures joins { IfOk result (λ sorts. Joins notes.now sorts.items) }
    ensures len { IfOk result (λ sorts. length sorts.items ≡ positions) }
{
    let mut sorts = alone(alloc, positions)?;
    for note in notes {
        if let Note::Joined(one, other) = *note {
            sorts = with_pair(alloc, &sorts, one, other)?;
        }
    }
    Ok(sorts)
}
