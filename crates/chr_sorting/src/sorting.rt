//! The finest sorts of a program.
ghost use Rattle.std.specs.Prelude.{◌≡◌, ◌<◌, ℕ, IfOk, length, get_or, map, []};
ghost use Rattle.std.specs.List.{All};
ghost use Rattle.chr_base.specs.declared.limits.TheConstants.{MAX_ARITY};
ghost use Rattle.chr_base.specs.Programs.{rules_of};
ghost use Rattle.chr_overlaps.specs.working.Gathering.{AreConstantsIn};
ghost use Rattle.chr_sorting.specs.declared.kind.Kind.TheVariants.{Free};
ghost use Rattle.chr_sorting.specs.FinestSorts.{AreFinest, sorts_of, kind_of, sort_in};
ghost use Rattle.chr_sorting.specs.working.Notes.{IsBelow, IsLeastKind, terms_at};

use crate::gather::{constants_of, least_kind};
use crate::join::{bound, joined};
use crate::kind::Kind;
use crate::notes::{Note, all_notes, position};
use chr_base::atom::SymbolId;
use chr_base::program::Program;
use std::alloc::{AllocError, Global};

/// The sorts of a program's positions, each with its kind and its constants. A sort is told by the least of its
/// positions' numbers.
#[derive(Drop)]
pub struct Sorting {
    sorts: Vec<usize>,
    kinds: Vec<Kind>,
    constants: Vec<Vec<i64>>,
}

/// The least kind of each sort.
fn kinds(alloc: Global, notes: &[Note], sorts: &[usize]) -> Result<Vec<Kind>, AllocError>
    requires { All (IsBelow (length sorts.now)) notes.now }
    ensures len { IfOk result (λ kinds. length kinds.items ≡ length sorts.now) }
    ensures each { IfOk result (λ kinds. (n : ℕ) → n < length sorts.now
        → IsLeastKind notes.now (sort_in sorts.now) n (kind_of (get_or kinds.items n Free))) }
{
    let mut kinds = Vec::new(alloc);
    for sort in 0..sorts.len() {
        kinds.push(least_kind(notes, sorts, sort))?;
    }
    Ok(kinds)
}

/// The constants of each sort, rising.
fn constants(alloc: Global, notes: &[Note], sorts: &[usize]) -> Result<Vec<Vec<i64>>, AllocError>
    requires { All (IsBelow (length sorts.now)) notes.now }
    ensures len { IfOk result (λ found. length found.items ≡ length sorts.now) }
    ensures each { IfOk result (λ found. (n : ℕ) → n < length sorts.now
        → AreConstantsIn (terms_at (sort_in sorts.now) n notes.now)
        (get_or (map (λ cs. cs.items) found.items) n [])) }
{
    let mut found = Vec::new(alloc);
    for sort in 0..sorts.len() {
        found.push(constants_of(alloc, notes, sorts, sort)?)?;
    }
    Ok(found)
}

/// The finest sorts that fit the program's rules. Two positions are of one sort where one variable of a rule stands at
/// both, in heads or in the body, where variables at them are compared by a guard, and where this follows from such
/// pairs. A sort has the constants that stand at its positions, and those with which a guard compares its variables. It
/// has the least kind that tells the signs by which its values are compared.
///
/// # Errors
///
/// Where there is not enough memory.
pub fn finest_sorts(alloc: Global, program: &Program) -> Result<Sorting, AllocError>
    ensures { IfOk result (λ s. AreFinest (rules_of program.now) (sorts_of s)) }
{
    let notes = all_notes(alloc, program.rules())?;
    let sorts = joined(alloc, &notes, bound(&notes))?;
    let kinds = kinds(alloc, &notes, &sorts)?;
    let constants = constants(alloc, &notes, &sorts)?;
    Ok(Sorting {
        sorts,
        kinds,
        constants,
    })
}

impl Sorting {
    /// The sort of a position: a symbol with an argument number, from 0 and less than `MAX_ARITY`.
    pub fn sort(&self, symbol: SymbolId, argument: usize) -> usize
        requires { argument < MAX_ARITY }
        ensures { result ≡ (sorts_of self.now).sort symbol.0 argument }
    {
        self.sort_at(position(symbol, argument))
    }

    /// The sort of the position of this number.
    pub(crate) fn sort_at(&self, position: u32) -> usize
        ensures { result ≡ sort_in self.now.sorts.items position }
    {
        let position = position as usize;
        if position < self.sorts.len() {
            self.sorts[position]
        } else {
            position
        }
    }

    /// How the program compares the values of a sort.
    pub fn kind(&self, sort: usize) -> Kind
        ensures { kind_of result ≡ (sorts_of self.now).kind sort }
    {
        match self.kinds.get(sort) {
            Some(kind) => *kind,
            None => Kind::Free,
        }
    }

    /// The constants of a sort, rising.
    pub fn constants(&self, sort: usize) -> &[i64]
        ensures { result.now ≡ (sorts_of self.now).constants sort }
    {
        match self.constants.get(sort) {
            Some(constants) => constants,
            None => &[],
        }
    }
}
