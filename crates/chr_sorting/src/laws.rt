//! The laws of finest sorts, of lists at one sort and of their combinations. Nothing here computes: the contract is the
//! law.
ghost use Rattle.chr_sorting.specs.laws.FinestSorts.{FinestAreOne, FinestExist, FinestHaveAsMany, FinestHaveOneCases};
ghost use Rattle.chr_sorting.specs.laws.Combinations.{CombinationsAreOne, CombinationsAreValues};
ghost use Rattle.chr_sorting.specs.laws.Combinations.{CombinationsStandForAll};
ghost use Rattle.chr_sorting.specs.laws.Lists.{ListsAreOne, ListsExist};

use chr_confluence::sorted_laws::sorted_lists;

/// All combinations of one list at each sort cover: for each list of 64-bit values one of them stands, sort by sort.
/// Their values are 64-bit values, where the sorts' constants are. There is one list of them, where the constants rise.
pub fn combinations()
    ensures cover { CombinationsStandForAll }
    ensures values { CombinationsAreValues }
    ensures one { CombinationsAreOne }
{
    sorted_lists();
}

/// Each program has finest sorts, and any two of them are the same: by both an overlap has the same sorted cases, or
/// too many combinations.
pub fn finest()
    ensures exist { FinestExist }
    ensures one { FinestAreOne }
    ensures cases { FinestHaveOneCases }
    ensures many { FinestHaveAsMany }
{}

/// At a sort of each kind the lists of n values have one list, where its constants are rising 64-bit values.
pub fn lists()
    ensures exist { ListsExist }
    ensures one { ListsAreOne }
{}
