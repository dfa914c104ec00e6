//! Combinations of one list at each sort, met class by class.
ghost use Rattle.std.specs.Prelude.{◌≡◌, ◌+◌, ℤ, List, [], ◌∷◌, ◌++◌, IfOk, OnOk, map, length, take};
ghost use Rattle.chr_types.specs.Visits.{Visited};
ghost use Rattle.chr_sorting.specs.working.Weaving.{each_once, firsts, tails, begun, held, woven};

use chr_types::Visit;
use std::alloc::{AllocError, Global};

/// Lists of values at a sort.
#[derive(Drop)]
pub(crate) struct SortLists {
    pub(crate) sort: usize,
    pub(crate) lists: Vec<Vec<i64>>,
}

/// The lists of a sort that are held last.
pub(crate) fn lists_held(all: &[SortLists], sort: usize) -> &[Vec<i64>]
    ensures { map (λ l. l.items) result.now ≡ held all.now sort }
{
    let mut found: &[Vec<i64>] = &[];
    for one in all {
        if one.sort == sort {
            found = &one.lists;
        }
    }
    found
}

/// The values with which the lists begin, each once.
fn beginnings(alloc: Global, lists: &[Vec<i64>]) -> Result<Vec<i64>, AllocError>
    ensures { IfOk result (λ found. found.items ≡ each_once (firsts (map (λ l. l.items) lists.now))) }
{
    let mut found = Vec::new(alloc);
    for list in lists {
        if let Some((first, _)) = list.split_first() {
            if !found.contains(first) {
                found.push(*first)?;
            }
        }
    }
    Ok(found)
}

/// What follows the value in the lists that begin with it.
fn tails_at(alloc: Global, lists: &[Vec<i64>], value: i64) -> Result<Vec<Vec<i64>>, AllocError>
    ensures { IfOk result (λ found. map (λ l. l.items) found.items ≡ tails value (map (λ l. l.items) lists.now)) }
{
    let mut found = Vec::new(alloc);
    for list in lists {
        if let Some((first, rest)) = list.split_first() {
            if *first == value {
                let mut tail = Vec::with_capacity(alloc, rest.len())?;
                tail.extend_from_slice(rest)?;
                found.push(tail)?;
            }
        }
    }
    Ok(found)
}

/// The values with one more.
fn extended(alloc: Global, values: &[i64], value: i64) -> Result<Vec<i64>, AllocError>
    ensures { IfOk result (λ longer. longer.items ≡ values.now ++ value ∷ []) }
{
    let mut longer = Vec::with_capacity(alloc, values.len() + 1)?;
    longer.extend_from_slice(values)?;
    longer.push(value)?;
    Ok(longer)
}

/// Holds for the sort what follows the value in its lists.
fn begin(alloc: Global, all: &mut Vec<SortLists>, sort: usize, value: i64) -> Result<(), AllocError>
    ensures begun { OnOk result (held all.new.items ≡ begun sort value (held all.old.items)) }
    ensures before { OnOk result (take (length all.old.items) all.new.items ≡ all.old.items) }
    ensures one { OnOk result (length all.new.items ≡ length all.old.items + 1) }
{
    let tails = tails_at(alloc, lists_held(all, sort), value)?;
    all.push(SortLists { sort, lists: tails })?;
    Ok(())
}

/// Visits the lists that begin with the prefix and go on with one list of each sort, woven by the classes' sorts, in
/// lexicographic order, up to the first that stops the walk. Tells whether one did.
pub(crate) fn weave<V: Visit>(
    alloc: Global,
    classes: &[usize],
    all: &mut Vec<SortLists>,
    prefix: &[i64],
    visitor: &mut V,
) -> Result<bool, AllocError>
    requires ready { V.ready visitor.old }
    ensures ready { IfOk result (λ _. V.ready visitor.new) }
    ensures same { IfOk result (λ _. all.new.items ≡ all.old.items) }
    ensures visited { IfOk result (λ stopped. Visited V.step visitor.old
        (woven classes.now (held all.old.items) prefix.now) stopped visitor.new) }
{
    let Some((sort, rest)) = classes.split_first() else {
        return visitor.visit(prefix);
    };
    let values = beginnings(alloc, lists_held(all, *sort))?;
    for value in &values {
        let longer = extended(alloc, prefix, *value)?;
        begin(alloc, all, *sort, *value)?;
        let stopped = weave(alloc, rest, all, &longer, visitor)?;
        all.pop();
        if stopped {
            return Ok(true);
        }
    }
    Ok(false)
}
