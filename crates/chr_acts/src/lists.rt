//! Lists of operations and of leases.
ghost use Rattle.std.specs.Prelude.{◌≡◌, IfOk};

use chr_join::Lease;
use chr_ops::Op;
use std::alloc::{AllocError, Global};
use std::marker::Model;

/// Operations in a list.
#[derive(Drop)]
pub struct OpList {
    ops: Vec<Op>,
}

impl Model for OpList {
    ghost use Rattle.std.specs.Prelude.{List};
    ghost use Rattle.chr_ops.specs.Operations.{Operation};
    ghost use Rattle.chr_acts.specs.working.Codes.{coded_operations};

    ghost Value = { List Operation };

    ghost coded = { coded_operations };

    ghost view = { λ l. l.ops.items };
}

/// Leases in a list.
#[derive(Drop)]
pub struct LeaseList {
    leases: Vec<Lease>,
}

impl Model for LeaseList {
    ghost use Rattle.std.specs.Prelude.{List};
    ghost use Rattle.chr_join.specs.declared.lease.Lease.{Lease};
    ghost use Rattle.chr_acts.specs.working.Codes.{coded_lease_list};

    ghost Value = { List Lease };

    ghost coded = { coded_lease_list };

    ghost view = { λ l. l.leases.items };
}

/// Equal operations.
fn copies_of_ops(alloc: Global, ops: &[Op]) -> Result<Vec<Op>, AllocError>
    ensures { IfOk result (λ v. v.items ≡ ops.now) }
{
    let mut copies = Vec::with_capacity(alloc, ops.len())?;
    for op in ops {
        copies.push(op.copy(alloc)?)?;
    }
    Ok(copies)
}

/// Equal leases.
fn copies_of_leases(alloc: Global, leases: &[Lease]) -> Result<Vec<Lease>, AllocError>
    ensures { IfOk result (λ v. v.items ≡ leases.now) }
{
    let mut copies = Vec::with_capacity(alloc, leases.len())?;
    for lease in leases {
        copies.push(lease.copy(alloc)?)?;
    }
    Ok(copies)
}

impl OpList {
    /// The list of these operations.
    pub fn of(ops: Vec<Op>) -> OpList
        ensures { result ≡ ops.items }
    {
        OpList { ops }
    }

    /// All operations, in order.
    pub fn as_slice(&self) -> &[Op]
        ensures { result.now ≡ self.now }
    {
        &self.ops
    }

    /// All operations, in order.
    pub fn into_vec(self) -> Vec<Op>
        ensures { result.items ≡ self }
    {
        self.ops
    }

    /// An equal list.
    pub fn copy(&self, alloc: Global) -> Result<OpList, AllocError>
        ensures { IfOk result (λ list. list ≡ self.now) }
    {
        Ok(OpList {
            ops: copies_of_ops(alloc, &self.ops)?,
        })
    }
}

impl LeaseList {
    /// The list of these leases.
    pub fn of(leases: Vec<Lease>) -> LeaseList
        ensures { result ≡ leases.items }
    {
        LeaseList { leases }
    }

    /// All leases, in order.
    pub fn as_slice(&self) -> &[Lease]
        ensures { result.now ≡ self.now }
    {
        &self.leases
    }

    /// All leases, in order.
    pub fn into_vec(self) -> Vec<Lease>
        ensures { result.items ≡ self }
    {
        self.leases
    }

    /// An equal list.
    pub fn copy(&self, alloc: Global) -> Result<LeaseList, AllocError>
        ensures { IfOk result (λ list. list ≡ self.now) }
    {
        Ok(LeaseList {
            leases: copies_of_leases(alloc, &self.leases)?,
        })
    }
}
