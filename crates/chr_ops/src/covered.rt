//! The ids of a set, as ranges.
ghost use Rattle.std.specs.Prelude.{◌≡◌, ◌+◌, ◌<◌, ◌≤◌, ◌||◌, false, true, [], ◌∷◌, Some};
ghost use Rattle.std.specs.Prelude.{IfOk, IfSome, IfNone, OnOk, OnErr};
ghost use Rattle.std.specs.FinMap as map;
ghost use Rattle.std.specs.List.{list_any};
ghost use Rattle.std.specs.Ordering.{eq_by_cmp};
ghost use Rattle.chr_ops.specs.declared.id.OpId.{OpId as OpIdValue};
ghost use Rattle.chr_ops.specs.Ids.{id_cmp};
ghost use Rattle.chr_ops.specs.News.{is_one_of};
ghost use Rattle.chr_ops.specs.Summaries.{in_range, covers, IsApart};
ghost use Rattle.chr_ops.specs.working.Walks.{first_id};
ghost use Rattle.chr_ops.specs.working.Joining.{IsWithout};
ghost use Rattle.chr_ops.specs.working.Covering.{AreAsLongAsPossible, AreDisjoint, AreJoined, EndsRightBefore, IsLaid};
ghost use Rattle.chr_ops.specs.working.Covering.{IsPutIn, IsSameBut, GainsWithin, end_ranges, first_ids, is_beside};

use crate::ends::Ends;
use crate::id::OpId;
use crate::range::IdRange;
use crate::runs::runs_of;
use std::alloc::{AllocError, Global};
use std::marker::Model;

/// The ids that some ranges cover. The ranges are kept as long as possible, so that no two touch.
#[derive(Drop)]
pub(crate) struct Covered {
    ends: Ends,
}

impl Model for Covered {
    ghost use Rattle.std.specs.Prelude.{List};
    ghost use Rattle.std.specs.Coded.{coded_list};
    ghost use Rattle.chr_ops.specs.declared.range.IdRange.{IdRange};
    ghost use Rattle.chr_ops.specs.working.Codes.{coded_range};
    ghost use Rattle.chr_ops.specs.working.Covering.{end_ranges, AreAsLongAsPossible};

    ghost Value = { List IdRange };

    ghost coded = { coded_list coded_range };

    ghost view = { λ c. end_ranges c.ends };

    ghost invariant = { λ c. AreAsLongAsPossible c.ends };
}

impl Covered {
    /// No ranges.
    pub(crate) fn new(alloc: Global) -> Self
        ensures { result ≡ [] }
    {
        Covered {
            ends: Ends::new(alloc),
        }
    }

    /// The ranges: by origin and by number, and each as long as possible, so that no two touch.
    pub(crate) fn ranges(&self, alloc: Global) -> Result<Vec<IdRange>, AllocError>
        ensures { IfOk result (λ ranges. ranges.items ≡ self.now) }
    {
        self.ends.ranges(alloc)
    }

    /// Whether an id is covered.
    pub(crate) fn has(&self, id: OpId) -> bool
        ensures { result ≡ covers self.now id }
    {
        match self.ends.last_up_to(id) {
            Some((first, last)) => first.origin == id.origin && id.number <= last,
            None => false,
        }
    }

    /// Covers an id that is not covered. Where it fails, nothing has changed.
    pub(crate) fn cover_one(&mut self, id: OpId) -> Result<(), AllocError>
        requires { covers self.old id ≡ false }
        ensures covers { OnOk result ((q : OpIdValue) → covers self.new q
            ≡ (covers self.old q || is_one_of (id ∷ []) q)) }
        ensures apart { IsApart self.new }
        ensures err { OnErr result (self.new ≡ self.old) }
    {
        put_in(&mut self.ends, id)?;
        if let Some(number) = id.number.checked_add(1) {
            join_at(&mut self.ends, OpId { number, ..id });
        }
        Ok(())
    }

    /// Covers some ids that are not covered. Where it fails, nothing has changed. Ids that follow each other in the
    /// list cost about as much as one.
    pub(crate) fn cover(&mut self, alloc: Global, ids: &[OpId]) -> Result<(), AllocError>
        requires { (id : OpIdValue) → is_one_of ids.now id ≡ true → covers self.old id ≡ false }
        ensures covers { OnOk result ((id : OpIdValue) → covers self.new id
            ≡ (covers self.old id || is_one_of ids.now id)) }
        ensures apart { IsApart self.new }
        ensures err { OnErr result (self.new ≡ self.old) }
    {
        cover_new(&mut self.ends, alloc, ids)
    }
}

/// Covers some ids that no range has. Where it fails, nothing has changed.
fn cover_new(ends: &mut Ends, alloc: Global, ids: &[OpId]) -> Result<(), AllocError>
    requires longest { AreAsLongAsPossible ends.old }
    requires new { (q : OpIdValue) → is_one_of ids.now q ≡ true → covers (end_ranges ends.old) q ≡ false }
    ensures longest { AreAsLongAsPossible ends.new }
    ensures covers { OnOk result ((q : OpIdValue) → covers (end_ranges ends.new) q
        ≡ (covers (end_ranges ends.old) q || is_one_of ids.now q)) }
    ensures err { OnErr result (ends.new ≡ ends.old) }
{
    let runs = runs_of(alloc, ids)?;
    // Only the first id of a run may need memory: its range can then reach on along the run without any.
    if let Err(error) = lay(ends, &runs) {
        lift(ends, &runs);
        return Err(error);
    }
    join_beside(ends, &runs);
    cover_runs(ends, &runs);
    Ok(())
}

/// Puts an id in that no range has: as the last of the range that ends right before it, or as a range of its own. Where
/// it fails, nothing has changed.
fn put_in(ends: &mut Ends, id: OpId) -> Result<(), AllocError>
    requires longest { AreAsLongAsPossible ends.old }
    requires new { covers (end_ranges ends.old) id ≡ false }
    ensures ok { OnOk result (IsPutIn ends.old id ends.new) }
    ensures err { OnErr result (ends.new ≡ ends.old) }
{
    match ending_before(ends, id) {
        Some(first) => ends.set(first, id.number),
        None => ends.insert(id, id.number)?,
    }
    Ok(())
}

/// Puts the first id of each of these runs in as a range of its own. Where it fails, some may be in.
fn lay(ends: &mut Ends, runs: &[IdRange]) -> Result<(), AllocError>
    ensures ok { OnOk result (IsLaid ends.old (first_ids runs.now) ends.new) }
    ensures others { IsSameBut ends.old (first_ids runs.now) ends.new }
{
    for run in runs {
        ends.insert(run.first(), run.lo)?;
    }
    Ok(())
}

/// Takes out the ranges that begin where these runs do.
fn lift(ends: &mut Ends, runs: &[IdRange])
    ensures { IsWithout ends.new (first_ids runs.now) ends.old }
{
    for run in runs {
        ends.remove(run.first());
    }
}

/// The first id of the range that ends right before an id.
fn ending_before(ends: &Ends, id: OpId) -> Option<OpId>
    requires { AreDisjoint ends.now }
    ensures some { IfSome result (EndsRightBefore ends.now id) }
    ensures none { IfNone result ((k : OpIdValue) → ¬ (EndsRightBefore ends.now id k)) }
{
    let (first, last) = ends.last_below(id)?;
    if first.origin == id.origin && last < id.number && id.number - last == 1 {
        Some(first)
    } else {
        None
    }
}

/// Joins the range that begins at an id to the one that ends right before it, where there are both.
fn join_at(ends: &mut Ends, id: OpId)
    requires { AreDisjoint ends.old }
    ensures { AreJoined ends.old (λ q. eq_by_cmp id_cmp q id) ends.new }
{
    let Some(last) = ends.get(id) else {
        return;
    };
    if let Some(first) = ending_before(ends, id) {
        ends.set(first, last);
        ends.remove(id);
    }
}

/// Joins the ranges that touch at an id, on either side of it.
fn join_around(ends: &mut Ends, id: OpId)
    requires { AreDisjoint ends.old }
    ensures { AreJoined ends.old (λ q. is_beside q id) ends.new }
{
    join_at(ends, id);
    if let Some(number) = id.number.checked_add(1) {
        join_at(ends, OpId { number, ..id });
    }
}

/// Joins the ranges that touch at the first id of one of these runs.
fn join_beside(ends: &mut Ends, runs: &[IdRange])
    requires { AreDisjoint ends.old }
    ensures { AreJoined ends.old (λ q. list_any (is_beside q) (first_ids runs.now)) ends.new }
{
    for run in runs {
        join_around(ends, run.first());
    }
}

/// Lets a range that ends within a run reach on, up to the run's end or to that of the next range, where it meets that
/// one first. Answers its last number.
fn reach_on(ends: &mut Ends, first: OpId, last: u64, run: IdRange) -> u64
    requires longest { AreAsLongAsPossible ends.old }
    requires there { map.get ends.old first ≡ Some last }
    requires along { first.origin ≡ run.origin }
    requires within { (run.lo ≤ last) × (last < run.hi) }
    ensures gains { GainsWithin ends.old run ends.new }
    ensures there { map.get ends.new first ≡ Some result }
    ensures further { last < result }
{
    let behind = OpId {
        number: last + 1,
        ..first
    };
    if let Some((next, end)) = ends.first_from(behind) {
        if next.origin == first.origin && next.number - 1 <= run.hi {
            ends.set(first, end);
            ends.remove(next);
            return end;
        }
    }
    ends.set(first, run.hi);
    run.hi
}

/// Covers a run whose first id is covered.
fn cover_run(ends: &mut Ends, run: IdRange)
    requires longest { AreAsLongAsPossible ends.old }
    requires first { covers (end_ranges ends.old) (first_id run) ≡ true }
    ensures longest { AreAsLongAsPossible ends.new }
    ensures covers { (q : OpIdValue) → covers (end_ranges ends.new) q
        ≡ (covers (end_ranges ends.old) q || in_range run q) }
{
    // Where it is that id alone, no look-up is needed.
    if run.lo == run.hi {
        return;
    }
    let Some((first, end)) = ends.last_up_to(run.first()) else {
        return;
    };
    let mut last = end;
    while last < run.hi {
        last = reach_on(ends, first, last, run);
    }
}

/// Covers runs whose first ids are covered.
fn cover_runs(ends: &mut Ends, runs: &[IdRange])
    requires longest { AreAsLongAsPossible ends.old }
    requires firsts { (q : OpIdValue) → is_one_of (first_ids runs.now) q ≡ true
        → covers (end_ranges ends.old) q ≡ true }
    ensures longest { AreAsLongAsPossible ends.new }
    ensures covers { (q : OpIdValue) → covers (end_ranges ends.new) q
        ≡ (covers (end_ranges ends.old) q || covers runs.now q) }
{
    for run in runs {
        cover_run(ends, *run);
    }
}
