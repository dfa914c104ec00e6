//! Accepted programs.
ghost use Rattle.std.specs.Arc.{arc_value};
ghost use Rattle.chr_base.specs.Programs.{rules_of};
ghost use Rattle.chr_weights.specs.WeighedPrograms.{rules_in};
ghost use Rattle.chr_confluence.specs.Confluence.{Confluent};
ghost use Rattle.chr_confluence.proofs.Refuting.{Confluent-prop};
ghost use Rattle.chr_rewrite.specs.Derivations.{IsDerivation, IsFirstInapplicable};
ghost use Rattle.chr_rewrite.specs.declared.replay.ReplayFault.TheVariants.{NotThere as IsNotThere};
ghost use Rattle.chr_join.specs.Parts.{IsDoneOf, IsOnlyNormalForm};
ghost use Rattle.chr_join.specs.Verdicts.{IsAcceptedBy};

use crate::coverage::Coverage;
use crate::lease::{Done, Lease, NotStepped, StepFault};
use crate::once::accepted_are_confluent;
use crate::parts::{rested, stepped};
use chr_base::derivation::Step;
use chr_base::program::Program;
use chr_columns::columns::FIXED_SEED;
use chr_weights::Weighed;
use std::alloc::{AllocFailed, Global};
use std::sync::Arc;

/// A program that lowers, and of whose overlaps no case fails. It is confluent: a store of 64-bit values has one normal
/// form, however the rules are applied.
#[derive(Drop)]
pub struct Accepted {
    // The program with its weights.
    weighed: Arc<Weighed>,
    // Which cases were looked at.
    coverage: Coverage,
    // How many cases were looked at, of all overlaps.
    cases: u64,
    // The seed under which its stores hash the keys of their atoms.
    seed: u64,
    // The most pools in which each of its stores is kept.
    pools: usize,
    // No case fails that was looked at.
    ghost accepted: { ∥ IsAcceptedBy coverage (rules_in (arc_value weighed)) cases ∥₁ },
    // Each store of 64-bit values has one normal form.
    ghost confluent: { Confluent (rules_in (arc_value weighed)) } by { Confluent-prop (rules_in (arc_value weighed)) },
}

impl Accepted {
    ghost use Rattle.std.specs.Prelude.{◌≡◌, ℕ, IfOk, IfErr};
    ghost use Rattle.chr_join.specs.AcceptedPrograms.{weighed_of, program_in, coverage_of, cases_of};

    /// A program of whose overlaps no case fails, with the number of all cases. Its seed is `FIXED_SEED`, and each of
    /// its stores is kept in one pool. Where memory is refused, the program is handed back.
    pub(crate) fn new(
        alloc: Global,
        weighed: Weighed,
        coverage: Coverage,
        cases: u64,
    ) -> Result<Accepted, AllocFailed<Weighed>>
        requires { IsAcceptedBy coverage (rules_in weighed) cases }
        ensures weighed { IfOk result (λ a. weighed_of a ≡ weighed) }
        ensures coverage { IfOk result (λ a. coverage_of a ≡ coverage) }
        ensures cases { IfOk result (λ a. cases_of a ≡ cases) }
        ensures handed_back { IfErr result (λ e. e.value ≡ weighed) }
    {
        accepted_are_confluent();
        let weighed = Arc::new(alloc, weighed)?;
        Ok(Accepted {
            weighed,
            coverage,
            cases,
            seed: FIXED_SEED,
            pools: 1,
        })
    }

    /// The program with this seed, under which its stores hash keys. No answer depends on the seed. Who doesn't know it
    /// can't choose facts whose keys have one hash.
    pub fn seeded(mut self, seed: u64) -> Accepted
        ensures weighed { weighed_of result ≡ weighed_of self }
        ensures coverage { coverage_of result ≡ coverage_of self }
        ensures cases { cases_of result ≡ cases_of self }
    {
        self.seed = seed;
        self
    }

    /// The seed under which stores hash keys.
    pub fn seed(&self) -> u64 {
        self.seed
    }

    /// The program with stores that are kept in at most `most` pools, for as many threads. No answer depends on the
    /// number.
    pub fn in_pools(mut self, most: usize) -> Accepted
        ensures weighed { weighed_of result ≡ weighed_of self }
        ensures coverage { coverage_of result ≡ coverage_of self }
        ensures cases { cases_of result ≡ cases_of self }
    {
        self.pools = most;
        self
    }

    /// The most pools in which a store is kept.
    pub fn pools(&self) -> usize {
        self.pools
    }

    /// The shared program with its weights.
    pub fn shared(&self) -> &Arc<Weighed>
        ensures { arc_value result.now ≡ weighed_of self.now }
    {
        &self.weighed
    }

    /// The program with its weights.
    pub fn weighed(&self) -> &Weighed
        ensures weighed { result.now ≡ weighed_of self.now }
        ensures confluent { Confluent (rules_in result.now) }
    {
        &self.weighed
    }

    /// The program.
    pub fn program(&self) -> &Program
        ensures { result.now ≡ program_in self.now }
    {
        self.weighed.program()
    }

    /// Which cases were looked at.
    pub fn coverage(&self) -> Coverage
        ensures { result ≡ coverage_of self.now }
    {
        self.coverage
    }

    /// The number of all cases of the program's overlaps, of those that the coverage looks at.
    pub fn cases(&self) -> u64
        ensures number { result ≡ cases_of self.now }
        ensures accepted { ∥ IsAcceptedBy (coverage_of self.now) (rules_of (program_in self.now)) result ∥₁ }
    {
        self.cases
    }

    /// Rests the part of a lease by itself. What it comes to is the one normal form of the part.
    ///
    /// # Errors
    ///
    /// Where memory is refused the lease is handed back.
    pub fn rest_part(&self, alloc: Global, lease: Lease) -> Result<Done, AllocFailed<Lease>>
        ensures done { IfOk result (IsDoneOf (weighed_of self.now) lease) }
        ensures end { IfOk result (λ d. IsOnlyNormalForm (rules_of (program_in self.now)) lease.part d.result) }
        ensures handed_back { IfErr result (λ e. e.value ≡ lease) }
    {
        lease.part.has_values();
        let Ok(weighed) = self.weighed.clone() else {
            return Err(AllocFailed { value: lease });
        };
        match rested(alloc, self.seed, &weighed, &lease.part) {
            Ok(end) => Ok(Done::of(weighed, lease, end)),
            Err(_) => Err(AllocFailed { value: lease }),
        }
    }

    /// Takes exactly these steps on the part of a lease, one after the other.
    ///
    /// # Errors
    ///
    /// The lease is handed back with the place, counted from 0, of the first step that is no instance at its store, or
    /// where memory is refused.
    pub fn step_part(&self, alloc: Global, lease: Lease, steps: &[Step]) -> Result<Done, NotStepped>
        ensures done { IfOk result (IsDoneOf (weighed_of self.now) lease) }
        ensures end { IfOk result (λ d.
            IsDerivation (rules_of (program_in self.now)) steps.now lease.part d.result) }
        ensures not_there { IfErr result (λ e. (n : ℕ) → e.fault ≡ IsNotThere n →
            IsFirstInapplicable (rules_of (program_in self.now)) steps.now lease.part n) }
        ensures handed_back { IfErr result (λ e. e.lease ≡ lease) }
    {
        let Ok(weighed) = self.weighed.clone() else {
            let fault = StepFault::Memory;
            return Err(NotStepped { lease, fault });
        };
        match stepped(alloc, self.seed, &weighed, &lease.part, steps) {
            Ok(end) => Ok(Done::of(weighed, lease, end)),
            Err(fault) => Err(NotStepped { lease, fault }),
        }
    }
}
