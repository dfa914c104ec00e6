//! Parts of a store that are leased out, and what comes of them.
ghost use Rattle.std.specs.Prelude.{◌≡◌, IfOk};
ghost use Rattle.std.specs.Arc.{arc_value};
ghost use Rattle.chr_base.specs.Rules.{Step as RuleStep};
ghost use Rattle.chr_base.specs.Rewriting.{Reaches};
ghost use Rattle.chr_weights.specs.WeighedPrograms.{program_of, rules_in};

use chr_base::bag::Bag;
use chr_base::program::Program;
use chr_rewrite::replay::ReplayFault;
use chr_weights::Weighed;
use std::alloc::{AllocError, Global};
use std::marker::Model;
use std::sync::Arc;

/// A part of a store that is leased out under a number, so that it can be rewritten by itself.
#[derive(Drop)]
pub struct Lease {
    pub number: u64,
    pub part: Bag,
}

impl Lease {
    /// An equal lease.
    pub fn copy(&self, alloc: Global) -> Result<Lease, AllocError>
        ensures { IfOk result (λ lease. lease ≡ self.now) }
    {
        Ok(Lease {
            number: self.number,
            part: self.part.copy(alloc)?,
        })
    }
}

/// Why steps were not taken on a part.
pub type StepFault = ReplayFault;

/// A lease whose steps were not taken, handed back with the cause.
#[derive(Drop)]
pub struct NotStepped {
    pub lease: Lease,
    pub fault: StepFault,
}

/// What came of a lease: a store that its part reaches under an accepted program. Only `Accepted::rest_part` and
/// `Accepted::step_part` make one, and a copy is one.
#[derive(Drop)]
pub struct Done {
    // The program under which the part reaches the store.
    weighed: Arc<Weighed>,
    // The lease's number.
    number: u64,
    // The part that was leased out.
    part: Bag,
    // The store that it reaches.
    result: Bag,
}

impl Model for Done {
    ghost use Rattle.std.specs.Arc.{arc_value};
    ghost use Rattle.chr_base.specs.Rules.{Step};
    ghost use Rattle.chr_base.specs.Rewriting.{Reaches};
    ghost use Rattle.chr_weights.specs.WeighedPrograms.{rules_in};
    ghost use Rattle.chr_join.specs.Parts.{Finished};
    ghost use Rattle.chr_join.specs.working.Parts.{coded_finished};

    ghost Value = { Finished };

    ghost coded = { coded_finished };

    ghost view = { λ d. record { weighed = arc_value d.weighed; number = d.number; part = d.part; result = d.result } };

    ghost invariant = { λ d. Reaches (Step (rules_in (arc_value d.weighed))) d.part d.result };
}

impl Done {
    ghost use Rattle.chr_join.specs.Parts.{IsDoneOf};

    /// What came of a lease under a program.
    pub(crate) fn of(weighed: Arc<Weighed>, lease: Lease, end: Bag) -> Done
        requires { Reaches (RuleStep (rules_in (arc_value weighed))) lease.part end }
        ensures done { IsDoneOf (arc_value weighed) lease result }
        ensures end { result.result ≡ end }
    {
        Done {
            weighed,
            number: lease.number,
            part: lease.part,
            result: end,
        }
    }

    /// The lease's number.
    pub fn number(&self) -> u64
        ensures { result ≡ self.now.number }
    {
        self.number
    }

    /// The part that was leased out.
    pub fn part(&self) -> &Bag
        ensures { result.now ≡ self.now.part }
    {
        &self.part
    }

    /// The store that the part reaches.
    pub fn result(&self) -> &Bag
        ensures store { result.now ≡ self.now.result }
        ensures reached { Reaches (RuleStep (rules_in self.now.weighed)) self.now.part result.now }
    {
        &self.result
    }

    /// The program under which the part reaches the store.
    pub fn program(&self) -> &Program
        ensures { result.now ≡ program_of self.now.weighed }
    {
        self.weighed.program()
    }

    /// An equal value.
    pub fn copy(&self, alloc: Global) -> Result<Done, AllocError>
        ensures { IfOk result (λ done. done ≡ self.now) }
    {
        Ok(Done {
            weighed: self.weighed.clone()?,
            number: self.number,
            part: self.part.copy(alloc)?,
            result: self.result.copy(alloc)?,
        })
    }
}
