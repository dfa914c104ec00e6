//! The laws of stores and of their steps. Each is a function that takes nothing and computes nothing: its contract is
//! the law.
ghost use Rattle.chr_base.specs.Laws.{EmptyCounts, NoAtomsAreEmpty, ListCountsItself, ListCountsNoOther, SumCounts};
ghost use Rattle.chr_base.specs.Laws.{DifferenceCounts, CountsDetermine, ItemsMakeStore, AddIsSum, WithinIsPart};
ghost use Rattle.chr_base.specs.Laws.{SameProgramsStepAlike, SameProgramsReachAlike, RunsGrow};

/// A store is a finite multiset of atoms: how often each atom stands in it determines it.
pub fn bag_is_multiset()
    ensures empty { EmptyCounts }
    ensures no_atoms { NoAtomsAreEmpty }
    ensures itself { ListCountsItself }
    ensures no_other { ListCountsNoOther }
    ensures sum { SumCounts }
    ensures difference { DifferenceCounts }
    ensures determine { CountsDetermine }
    ensures items { ItemsMakeStore }
    ensures add { AddIsSum }
    ensures within { WithinIsPart }
{}

/// Programs that are the same take the same steps.
pub fn same_programs_step_alike()
    ensures { SameProgramsStepAlike }
{}

/// Programs that are the same reach the same stores.
pub fn same_programs_reach_alike()
    ensures { SameProgramsReachAlike }
{}

/// A run goes on in every larger store.
pub fn runs_grow()
    ensures { RunsGrow }
{}
