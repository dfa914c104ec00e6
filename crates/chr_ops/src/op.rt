//! Operations.
ghost use Rattle.std.specs.Prelude.{◌≡◌, ◌≤◌, ◌↔◌, IfErr, IfOk, IfSome, IsSome};
ghost use Rattle.chr_ops.specs.Operations.{HasOperationSize, IsOperationBag};
ghost use Rattle.chr_ops.specs.working.Entries.{bag_of};
ghost use Rattle.chr_base.specs.Values.{HasValues};

use crate::id::OpId;
use crate::shared_bag::SharedBag;
use chr_base::bag::Bag;
use chr_base::limits::MAX_OPERATION;
use std::alloc::{AllocError, Global};
use std::marker::Model;

/// The bag of an operation: its own, until a set takes it in, or one that it shares.
#[derive(Drop)]
enum OpBag {
    Own(Bag),
    Shared(SharedBag),
}

impl OpBag {
    fn bag(&self) -> &Bag
        ensures { result.now ≡ bag_of self.now }
    {
        match self {
            OpBag::Own(bag) => bag,
            OpBag::Shared(shared) => shared.bag(),
        }
    }

    /// An equal bag. One that is shared gets one more owner, and is not copied.
    fn copy(&self, alloc: Global) -> Result<OpBag, AllocError>
        ensures { IfOk result (λ copy. bag_of copy ≡ bag_of self.now) }
    {
        match self {
            OpBag::Own(bag) => Ok(OpBag::Own(bag.copy(alloc)?)),
            OpBag::Shared(shared) => Ok(OpBag::Shared(shared.share()?)),
        }
    }

    /// An equal bag to be shared: a copy of an own one.
    fn share(&self, alloc: Global) -> Result<SharedBag, AllocError>
        ensures { IfOk result (λ shared. shared ≡ bag_of self.now) }
    {
        match self {
            OpBag::Own(bag) => Ok(SharedBag::of(alloc, bag.copy(alloc)?)?),
            OpBag::Shared(shared) => shared.share(),
        }
    }

    /// The bag, to be shared. Where memory is refused, the bag is handed back.
    fn into_shared(self, alloc: Global) -> Result<SharedBag, OpBag>
        ensures ok { IfOk result (λ shared. shared ≡ bag_of self) }
        ensures handed_back { IfErr result (λ back. bag_of back ≡ bag_of self) }
    {
        match self {
            OpBag::Shared(shared) => Ok(shared),
            OpBag::Own(bag) => match SharedBag::of(alloc, bag) {
                Ok(shared) => Ok(shared),
                Err(refused) => Err(OpBag::Own(refused.value)),
            },
        }
    }
}

/// An operation: an id, and the bag of 1 to [`MAX_OPERATION`] atoms that it tells. Sets that hold an operation, and
/// operations that come of them, share one bag.
#[derive(Drop)]
pub struct Op {
    id: OpId,
    bag: OpBag,
}

impl Model for Op {
    ghost use Rattle.std.specs.Coded.{coded×};
    ghost use Rattle.chr_base.specs.working.Codes.{code};
    ghost use Rattle.chr_base.specs.working.Codes.{coded_atom};
    ghost use Rattle.chr_ops.specs.working.Codes.{coded_id};
    ghost use Rattle.chr_ops.specs.Operations.{Operation, IsOperationBag};
    ghost use Rattle.chr_ops.specs.working.Entries.{bag_of};

    ghost Value = { Operation };

    ghost coded = { coded× coded_id (code coded_atom) };

    ghost view = { λ o. (o.id, bag_of o.bag) };

    ghost invariant = { λ o. IsOperationBag (bag_of o.bag) };
}

impl Op {
    /// The operation of an id and a bag, where the bag has 1 to [`MAX_OPERATION`] atoms. Its arguments are values of 64
    /// bits, which the operation keeps by its type. It takes no memory.
    pub fn of(id: OpId, bag: Bag) -> Option<Op>
        ensures sized { IsSome result ↔ HasOperationSize bag }
        ensures values { HasValues bag }
        ensures op { IfSome result (λ op. op ≡ (id, bag)) }
    {
        bag.has_values();
        let atoms = bag.len();
        if 1 <= atoms && atoms <= MAX_OPERATION {
            Some(Op {
                id,
                bag: OpBag::Own(bag),
            })
        } else {
            None
        }
    }

    /// The id, which tells the operation apart from others.
    pub fn id(&self) -> OpId
        ensures { result ≡ self.now.0 }
    {
        self.id
    }

    /// The atoms that it tells.
    pub fn bag(&self) -> &Bag
        ensures bag { result.now ≡ self.now.1 }
        ensures sized { IsOperationBag self.now.1 }
    {
        self.bag.bag()
    }

    /// An equal operation.
    pub fn copy(&self, alloc: Global) -> Result<Op, AllocError>
        ensures { IfOk result (λ op. op ≡ self.now) }
    {
        Ok(Op {
            id: self.id,
            bag: self.bag.copy(alloc)?,
        })
    }

    /// The same operation with a bag that sets share, so that a set that takes it in needs no memory for the bag.
    ///
    /// # Errors
    /// Where memory is refused.
    pub fn ready_to_share(self, alloc: Global) -> Result<Op, AllocError>
        ensures { IfOk result (λ op. op ≡ self) }
    {
        match self.into_shared(alloc) {
            Ok((id, bag)) => Ok(Op::from_shared(id, bag)),
            Err(_) => Err(AllocError),
        }
    }

    /// Its bag, to be shared: where it has one of its own, a copy.
    pub(crate) fn share(&self, alloc: Global) -> Result<SharedBag, AllocError>
        ensures bag { IfOk result (λ shared. shared ≡ self.now.1) }
        ensures sized { IsOperationBag self.now.1 }
    {
        self.bag.share(alloc)
    }

    /// The operation of an id and a shared bag that has the size of one.
    pub(crate) fn from_shared(id: OpId, bag: SharedBag) -> Op
        requires { IsOperationBag bag }
        ensures { result ≡ (id, bag) }
    {
        Op {
            id,
            bag: OpBag::Shared(bag),
        }
    }

    /// Its id and its bag, to be shared. Where memory is refused, the operation is handed back.
    pub(crate) fn into_shared(self, alloc: Global) -> Result<(OpId, SharedBag), Op>
        ensures ok { IfOk result (λ parts. parts ≡ self) }
        ensures handed_back { IfErr result (λ back. back ≡ self) }
        ensures sized { IsOperationBag self.1 }
    {
        let Op { id, bag } = self;
        match bag.into_shared(alloc) {
            Ok(shared) => Ok((id, shared)),
            Err(bag) => Err(Op { id, bag }),
        }
    }
}
