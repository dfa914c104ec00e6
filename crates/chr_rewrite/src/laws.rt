//! A law of plain derivations. It is a function that takes nothing and computes nothing: its contract is the law.
ghost use Rattle.chr_rewrite.specs.Laws.{PlainComputationsExist};

/// Rules that lower a weight give each store a plain computation.
pub fn plain_computations_exist()
    ensures { PlainComputationsExist }
{}
