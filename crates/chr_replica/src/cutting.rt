//! A store is cut into parts of even sizes.
ghost use Rattle.std.specs.Prelude.{◌≡◌, ◌+◌, ◌<◌, ◌^◌, ◌/◌, length, All, IfOk};
ghost use Rattle.chr_base.specs.Stores.{store_of, size, stores_sum};
ghost use Rattle.chr_replica.specs.Leases.{parts_in, AreNumbered};
ghost use Rattle.chr_replica.specs.working.Cuts.{IsNear};

use chr_base::atom::Atom;
use chr_base::bag::Bag;
use chr_base::lists::push_copies;
use chr_join::Lease;
use std::alloc::{AllocError, Global};

/// The bag of atoms.
fn part_of(alloc: Global, atoms: &[Atom]) -> Result<Bag, AllocError>
    ensures bag { IfOk result (λ b. b ≡ store_of atoms.now) }
{
    let mut items = Vec::with_capacity(alloc, atoms.len())?;
    push_copies(&mut items, atoms)?;
    Bag::of(items)
}

/// Cuts atoms into `count` parts, each of the least size or of one atom more, and numbers them from a first number on.
pub(crate) fn cut(
    alloc: Global,
    atoms: &[Atom],
    count: usize,
    first: u64,
) -> Result<Vec<Lease>, AllocError>
    requires some { 0 < count }
    requires fits { first + count < 2 ^ 64 }
    ensures count { IfOk result (λ leases. length (parts_in leases.items) ≡ count) }
    ensures sum { IfOk result (λ leases. stores_sum (parts_in leases.items) ≡ store_of atoms.now) }
    ensures even { IfOk result (λ leases. All (IsNear (length atoms.now / count)) (parts_in leases.items)) }
    ensures numbered { IfOk result (λ leases. AreNumbered first leases.items) }
{
    let least = atoms.len() / count;
    let more = atoms.len() % count;
    let mut leases = Vec::with_capacity(alloc, count)?;
    let mut rest = atoms;
    for k in 0..count {
        let wanted = if k < more { least + 1 } else { least };
        let (part, after) = rest.split_at(wanted);
        leases.push(Lease {
            number: first + k as u64,
            part: part_of(alloc, part)?,
        })?;
        rest = after;
    }
    Ok(leases)
}
