//! The laws of steps and of confluence. Each is a function that takes nothing and computes nothing: its contract is
//! the law.
ghost use Rattle.chr_confluence.specs.laws.Grow.{InstancesGrow, StepsGrow, ReachingGrows};
ghost use Rattle.chr_confluence.specs.laws.Rising.{StepsRise, ValuesStay, TypesRise};
ghost use Rattle.chr_confluence.specs.laws.Peaks.{PeaksCommuteOrOverlap, CasesAreMatched, LeftSideIsStep};
ghost use Rattle.chr_confluence.specs.laws.Peaks.{RightSideIsStep};
ghost use Rattle.chr_confluence.specs.laws.Newman.{NormalFormsExist, LocalConfluenceSuffices};
ghost use Rattle.chr_confluence.specs.laws.Joinability.{ConfluentAreJoinable, JoinableAreConfluent};
ghost use Rattle.chr_confluence.specs.laws.Cases.{StepsKeepValues, LocallyConfluentAreConfluent};
ghost use Rattle.chr_confluence.specs.laws.Cases.{CasesMakeLocallyConfluent, CasesMakeConfluent, DifferentEndsRefute};
ghost use Rattle.chr_confluence.specs.laws.Cases.{FailingCaseRefutes};
ghost use Rattle.chr_confluence.specs.laws.Parts.{PartsReach, PartsDetermine};

/// Monotonicity: a step in a store is a step with the same effect in every larger store, and a run goes on there, too
/// (Frühwirth 2009).
pub fn grow()
    ensures instances { InstancesGrow }
    ensures steps { StepsGrow }
    ensures runs { ReachingGrows }
{}

/// Rising maps. A map keeps the order of the values in a set, and fixes the constants of a rule, which are in the set.
/// Then it carries each step of the rule, on a store of values of the set, to a step. By such a map each list of 64-bit
/// values is the image of the list that represents its order type.
pub fn rising()
    ensures steps { StepsRise }
    ensures values { ValuesStay }
    ensures types { TypesRise }
{}

/// Peaks. Of two steps from one store either each can still be taken after the other, and both ways end in one store;
/// or the store holds a case of their instances: the heads of both, matched so that a removed one is among the matched,
/// as overlaps are (after the critical pairs of Abdennadher, Frühwirth and Meuss 1999).
pub fn peak()
    ensures peaks { PeaksCommuteOrOverlap }
    ensures matched { CasesAreMatched }
    ensures left { LeftSideIsStep }
    ensures right { RightSideIsStep }
{}

/// Newman's lemma, for rules that lower a weight, and for the stores that pass a test which steps keep. Where the ends
/// of any two steps from one such store are joinable, any two normal forms of one such store are equal (Newman 1942).
pub fn newman()
    ensures rests { NormalFormsExist }
    ensures confluent { LocalConfluenceSuffices }
{}

/// Confluence by cases. Steps keep 64-bit values. Rules that lower a weight are confluent where the sides of each of
/// their cases are joinable (after Abdennadher, Frühwirth and Meuss 1999). They are not confluent where two steps from
/// one store, or the two sides of a case, lead to normal forms that differ.
pub fn confluence()
    ensures stay { StepsKeepValues }
    ensures local { LocallyConfluentAreConfluent }
    ensures peaks { CasesMakeLocallyConfluent }
    ensures confluent { CasesMakeConfluent }
    ensures refuted { DifferentEndsRefute }
    ensures failing { FailingCaseRefutes }
{}

/// Confluence in the usual sense: any two stores that one store of 64-bit values reaches are joinable (as Abdennadher,
/// Frühwirth and Meuss 1999 and Frühwirth 2009 say it). Rules that lower a weight are confluent in this sense just
/// where each such store has one normal form.
pub fn joinability()
    ensures joinable { ConfluentAreJoinable }
    ensures confluent { JoinableAreConfluent }
{}

/// Parts: the normal forms of parts of a store, summed and rested, give a normal form of the whole, and for confluent
/// rules its only one.
pub fn parts()
    ensures reached { PartsReach }
    ensures determined { PartsDetermine }
{}
