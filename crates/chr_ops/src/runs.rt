//! Ids that follow each other in a list, as ranges.
ghost use Rattle.std.specs.Prelude.{◌≡◌, ◌≤◌, ◌||◌, All, IfOk, OnOk};
ghost use Rattle.std.specs.Ordering.{eq_by_cmp};
ghost use Rattle.chr_ops.specs.declared.id.OpId.{OpId as OpIdValue};
ghost use Rattle.chr_ops.specs.Ids.{id_cmp};
ghost use Rattle.chr_ops.specs.News.{is_one_of};
ghost use Rattle.chr_ops.specs.Summaries.{covers};

use crate::id::OpId;
use crate::range::IdRange;
use std::alloc::{AllocError, Global};

/// Adds an id: as the last of the run that ends right before it, where that is the last one, or as a run of its own.
fn push_id(runs: &mut Vec<IdRange>, id: OpId) -> Result<(), AllocError>
    requires { All (λ r. r.lo ≤ r.hi) runs.old.items }
    ensures ranges { OnOk result (All (λ r. r.lo ≤ r.hi) runs.new.items) }
    ensures covers { OnOk result ((q : OpIdValue) → covers runs.new.items q
        ≡ (covers runs.old.items q || eq_by_cmp id_cmp q id)) }
{
    if let Some(run) = runs.last_mut() {
        if run.ends_right_before(id) {
            run.hi = id.number;
            return Ok(());
        }
    }
    runs.push(IdRange {
        origin: id.origin,
        lo: id.number,
        hi: id.number,
    })?;
    Ok(())
}

/// The runs of some ids: those that follow each other in the list are one range.
pub(crate) fn runs_of(alloc: Global, ids: &[OpId]) -> Result<Vec<IdRange>, AllocError>
    ensures ranges { IfOk result (λ runs. All (λ r. r.lo ≤ r.hi) runs.items) }
    ensures covers { IfOk result (λ runs. (q : OpIdValue) → covers runs.items q ≡ is_one_of ids.now q) }
{
    let mut runs = Vec::new(alloc);
    for id in ids {
        push_id(&mut runs, *id)?;
    }
    Ok(runs)
}
