//! The kinds and the constants of sorts.
ghost use Rattle.std.specs.Prelude.{IfOk};
ghost use Rattle.std.specs.List.{All};
ghost use Rattle.std.specs.Prelude.{length};
ghost use Rattle.chr_overlaps.specs.working.Gathering.{AreConstantsIn};
ghost use Rattle.chr_sorting.specs.FinestSorts.{sort_in, kind_of};
ghost use Rattle.chr_sorting.specs.working.Notes.{IsBelow, IsLeastKind, terms_at};

use crate::kind::Kind;
use crate::notes::Note;
use chr_overlaps::constants::add_constant;
use std::alloc::{AllocError, Global};

/// The least kind of a sort.
pub(crate) fn least_kind(notes: &[Note], sorts: &[usize], sort: usize) -> Kind
    requires { All (IsBelow (length sorts.now)) notes.now }
    ensures { IsLeastKind notes.now (sort_in sorts.now) sort (kind_of result) }
{
    let mut kind = Kind::Free;
    for note in notes {
        if let Note::Compared(position, cmp) = *note {
            if sorts[position as usize] == sort {
                kind = kind.raised(cmp);
            }
        }
    }
    kind
}

/// The constants of a sort, rising.
pub(crate) fn constants_of(
    alloc: Global,
    notes: &[Note],
    sorts: &[usize],
    sort: usize,
) -> Result<Vec<i64>, AllocError>
    requires { All (IsBelow (length sorts.now)) notes.now }
    ensures { IfOk result (λ found. AreConstantsIn (terms_at (sort_in sorts.now) sort notes.now) found.items) }
{
    let mut found = Vec::new(alloc);
    for note in notes {
        if let Note::Stands(position, constant) = *note {
            if sorts[position as usize] == sort {
                add_constant(&mut found, constant)?;
            }
        }
    }
    Ok(found)
}
