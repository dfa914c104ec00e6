//! Bags that operations and sets of them share.
ghost use Rattle.std.specs.Prelude.{◌≡◌, IfErr, IfOk};

use chr_base::bag::Bag;
use std::alloc::{AllocError, AllocFailed, Global};
use std::marker::Model;
use std::sync::Arc;

/// A bag that may have several owners, none of which changes it. One more costs no copy of its atoms.
#[derive(Drop)]
pub(crate) struct SharedBag {
    bag: Arc<Bag>,
}

impl Model for SharedBag {
    ghost use Rattle.std.specs.Arc.{arc_value};
    ghost use Rattle.chr_base.specs.Stores.{Store};
    ghost use Rattle.chr_base.specs.working.Codes.{code, coded_atom};

    ghost Value = { Store };

    ghost coded = { code coded_atom };

    ghost view = { λ s. arc_value s.bag };
}

impl SharedBag {
    /// A bag that has one owner so far. Where memory is refused, it is handed back.
    pub(crate) fn of(alloc: Global, bag: Bag) -> Result<SharedBag, AllocFailed<Bag>>
        ensures ok { IfOk result (λ shared. shared ≡ bag) }
        ensures handed_back { IfErr result (λ refused. refused.value ≡ bag) }
    {
        let bag = Arc::new(alloc, bag)?;
        Ok(SharedBag { bag })
    }

    /// The bag that is shared.
    pub(crate) fn bag(&self) -> &Bag
        ensures { result.now ≡ self.now }
    {
        &self.bag
    }

    /// The bag with one more owner.
    pub(crate) fn share(&self) -> Result<SharedBag, AllocError>
        ensures { IfOk result (λ shared. shared ≡ self.now) }
    {
        Ok(SharedBag {
            bag: self.bag.clone()?,
        })
    }
}
