//! A law of ranks. It is a function that takes nothing and computes nothing: its contract is the law.
ghost use Rattle.chr_weights.specs.Ranks.{RanksAreBounded};

/// The rank of a store is at most 8,000,002,000,000 for each of its atoms. So the rank of a million atoms fits 64 bits.
pub fn ranks_are_bounded()
    ensures { RanksAreBounded }
{}
