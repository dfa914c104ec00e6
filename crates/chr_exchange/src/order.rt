//! Operations in the order of their ids.

ghost use Rattle.std.specs.Prelude.{◌≡◌, IfOk, map};
ghost use Rattle.std.specs.FinMap as finite;
ghost use Rattle.chr_exchange.specs.Texts.{HaveDifferentIds};
ghost use Rattle.chr_ops.specs.Ids.{id_cmp};
ghost use Rattle.chr_ops.specs.Operations.{operations_of};

use chr_ops::{Op, OpId};
use std::alloc::{AllocError, Global};
use std::cmp::Ordering;

/// The order of ids: by origin, and then by number.
fn id_order(left: OpId, right: OpId) -> Ordering
    ensures { result ≡ id_cmp left right }
{
    left.origin
        .cmp(&right.origin)
        .then(left.number.cmp(&right.number))
}

/// The operations, each as one that is lent.
fn lent<'a>(alloc: Global, ops: &'a [Op]) -> Result<Vec<&'a Op>, AllocError>
    ensures { IfOk result (λ v. map (λ o. o.now) v.items ≡ ops.now) }
{
    let mut found = Vec::with_capacity(alloc, ops.len())?;
    for op in ops {
        found.push(op)?;
    }
    Ok(found)
}

/// The operations in the order of their ids.
pub(crate) fn in_id_order<'a>(alloc: Global, ops: &'a [Op]) -> Result<Vec<&'a Op>, AllocError>
    requires { HaveDifferentIds ops.now }
    ensures { IfOk result (λ v. map (λ o. o.now) v.items ≡ finite.entries (operations_of ops.now)) }
{
    let mut sorted = lent(alloc, ops)?;
    sorted.sort_unstable_by(|left, right| id_order(left.id(), right.id()));
    Ok(sorted)
}
