//! The laws of sorts. Each is a function that takes nothing and computes nothing: its contract is the law.
ghost use Rattle.chr_confluence.specs.laws.Carrying.{ListsHaveImages, ImagesAdd, ImagesAreWithin, ImagesSubtract};
ghost use Rattle.chr_confluence.specs.laws.Carrying.{StepsAreCarried, RunsAreCarried, JoinsAreCarried};
ghost use Rattle.chr_confluence.specs.laws.SortedMaps.{SortsStay, SortedStepsAreCarried, SortedRunsAreCarried};
ghost use Rattle.chr_confluence.specs.laws.SortedMaps.{SortedJoinsAreCarried};
ghost use Rattle.chr_confluence.specs.laws.SortedLists.{NewValuesCover, BlocksCover, OrderTypesCover};
ghost use Rattle.chr_confluence.specs.laws.SortedLists.{CombinationsCover};
ghost use Rattle.chr_confluence.specs.laws.SortedCases.{EveryCaseIsSorted, SortedAreCases, SortedHaveValues};
ghost use Rattle.chr_confluence.specs.laws.SortedCases.{SortedSuffice};
ghost use Rattle.chr_confluence.specs.laws.SortedCases.{SortedMakeConfluent, FailingSortedRefutes};

/// Images. A map of atoms gives each store an image, atom by atom, in which atoms that become equal are added up. It
/// carries a step to a step where it takes each head and body atom of the instance to that of another instance whose
/// guard holds. Maps that change each argument by its position and value can do this. They need not be injective.
pub fn carry()
    ensures lists { ListsHaveImages }
    ensures sums { ImagesAdd }
    ensures within { ImagesAreWithin }
    ensures differences { ImagesSubtract }
    ensures steps { StepsAreCarried }
    ensures runs { RunsAreCarried }
    ensures joins { JoinsAreCarried }
{}

/// Sorted maps. Sorts that fit rules join all positions at which one variable of a rule stands, in heads or in the
/// body, and those of two variables that a guard compares. A sorted map has a map of values for each sort. This fixes
/// the constants of the sort, and keeps of its values what the program compares: their order, or which of them are
/// equal, or nothing. A sorted map carries each step, and steps keep values within their sorts.
pub fn sorted_maps()
    ensures values { SortsStay }
    ensures steps { SortedStepsAreCarried }
    ensures runs { SortedRunsAreCarried }
    ensures joins { SortedJoinsAreCarried }
{}

/// Lists of values that cover. At a free sort one list covers, of different values that are no constants; at an equal
/// sort one list for each way to put the values into blocks, each block at a constant or at none; at an ordered sort
/// the representatives of the order types. All combinations of one list for each sort cover all sorts.
pub fn sorted_lists()
    ensures free { NewValuesCover }
    ensures equal { BlocksCover }
    ensures ordered { OrderTypesCover }
    ensures combinations { CombinationsCover }
{}

/// The sorted cases of an overlap are those at some lists of values of its free classes, at which both guards hold. The
/// classes are those of the matching's equations and of the `=:=` of both guards. The lists cover, sort by sort, all
/// lists of 64-bit values. So sorted cases suffice: every case of 64-bit values is the image of one of them under a
/// sorted map, with its store and both its sides. Each of them is a case, of 64-bit values where the listed values are.
pub fn sorted_cases()
    ensures every { EveryCaseIsSorted }
    ensures cases { SortedAreCases }
    ensures values { SortedHaveValues }
    ensures suffice { SortedSuffice }
{}

/// The sorted cases decide confluence of rules that lower a weight: the rules are confluent where each sorted case
/// joins, and are not where the sides of one have different normal forms.
pub fn sorted_confluence()
    ensures confluent { SortedMakeConfluent }
    ensures failing { FailingSortedRefutes }
{}
