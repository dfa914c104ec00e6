//! The laws of active atoms: how a store is rested atom by atom, against rows in tables.
//!
//! A part of the store is at rest, and sits in rows. One atom beside it is active. Where it has no instance with that
//! part, both together are at rest; where it has one, a step is taken. Each law is a function that takes nothing and
//! computes nothing: its contract is the law.

ghost use Rattle.chr_plans.specs.Laws.{EmptyRests, PartsRest, Absorbs, RemovedReacts, KeptReacts, RowsAreEnough};
ghost use Rattle.chr_plans.specs.Laws.{RowsLeave, SameRulesRest, ApartRest};

/// The empty store is at rest under all rules, since each rule has a head.
pub fn empty_rests()
    ensures { EmptyRests }
{}

/// What is within a store at rest is at rest.
pub fn parts_rest()
    ensures { PartsRest }
{}

/// A store at rest with one atom more is at rest where the atom has no instance with it.
pub fn absorbs()
    ensures { Absorbs }
{}

/// An instance whose removed heads have the active atom makes a step: the other removed heads leave the store, and
/// the body comes beside it.
pub fn removed_reacts()
    ensures { RemovedReacts }
{}

/// An instance whose kept heads have the active atom makes a step: the removed heads leave the store, and the body
/// and the active atom come beside it.
pub fn kept_reacts()
    ensures { KeptReacts }
{}

/// An atom that at no head place of any rule has partners in different rows has no instance with the store in the
/// rows.
pub fn rows_are_enough()
    ensures { RowsAreEnough }
{}

/// Different rows are within the store in the rows, and where they die, just their atoms leave it.
pub fn rows_leave()
    ensures { RowsLeave }
{}

/// What is at rest under rules is at rest under rules that say the same.
pub fn same_rules_rest()
    ensures { SameRulesRest }
{}

/// Where in each rule all heads share a variable, which stands in one column for each symbol, two stores at rest that
/// share no value there are at rest together: no instance spans two values.
pub fn apart_rest()
    ensures { ApartRest }
{}
