//! Why the listed cases suffice. Nothing here computes: the contracts are the laws.
ghost use Rattle.chr_confluence.specs.laws.Unification.{UnifiersExist, OneUnifier, TermsStand};
ghost use Rattle.chr_confluence.specs.laws.ListedCases.{ListedSuffice, EveryCaseIsListed, ListedAreCases};
ghost use Rattle.chr_confluence.specs.laws.ListedCases.{ListedHaveValues, ListedMakeConfluent, FailingListedRefutes};

/// Unification. Equations have a most general unifier, or no unifier. There is one only: it sends each variable to the
/// constant of its class, or else to the first variable of its class. Each term that stands for another variable stands
/// in the equations.
pub fn classes()
    ensures exist { UnifiersExist }
    ensures one { OneUnifier }
    ensures stand { TermsStand }
{}

/// The listed cases of an overlap are those at the representatives of its order types at which both guards hold. An
/// overlap whose equations no valuation meets has none.
///
/// They suffice: where the sides of each listed case are joinable, the sides of every case of 64-bit values are. For a
/// map that keeps the order of values and fixes the rules' constants makes each such case of a listed one. Each listed
/// case is a case of 64-bit values.
///
/// That finitely many overlaps suffice is the critical pair argument of Abdennadher, Frühwirth and Meuss 1999. That
/// finitely many values suffice, with guards that compare 64-bit numbers and so leave gaps of few whole numbers between
/// constants, is added here.
pub fn listed_cases()
    ensures suffice { ListedSuffice }
    ensures every { EveryCaseIsListed }
    ensures cases { ListedAreCases }
    ensures values { ListedHaveValues }
{}

/// The listed cases decide confluence of rules that lower a weight: the rules are confluent where each listed case
/// joins, and are not where the sides of one have different normal forms.
pub fn listed_confluence()
    ensures confluent { ListedMakeConfluent }
    ensures failing { FailingListedRefutes }
{}
