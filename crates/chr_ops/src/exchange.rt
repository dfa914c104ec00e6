//! What sets come to when they exchange what they lack.
ghost use Rattle.chr_ops.specs.Exchange.{LackedLaw, NoClashLaw, ExchangeLaw, OneUnionLaw};

/// The laws of exchange. What another set holds beyond a set's summary is what it holds and the set does not. None of
/// that clashes with the set, and joined to it, it makes the union of the two. Where no id stands for two bags, both
/// sides come to one union.
pub fn exchange_laws()
    ensures lacked { LackedLaw }
    ensures no_clash { NoClashLaw }
    ensures exchange { ExchangeLaw }
    ensures one_union { OneUnionLaw }
{}
