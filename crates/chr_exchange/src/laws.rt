//! The laws of messages: what is written is read back, and what is lacked may be written.

ghost use Rattle.chr_exchange.specs.ReadBack.{Delta1TextsAreMeant, DeltaTextsAreRead, SummaryTextsAreMeant};
ghost use Rattle.chr_exchange.specs.Texts.{LackedIdsDiffer};

/// The text of a summary means its ranges. The text of a delta, of either version, means the operations of its set,
/// where the program declares their atoms.
pub fn messages_are_read_back()
    ensures summaries { SummaryTextsAreMeant }
    ensures deltas { DeltaTextsAreRead }
    ensures deltas_1 { Delta1TextsAreMeant }
{}

/// What a set holds beyond some ranges has different ids, as the texts of deltas ask.
pub fn lacked_ids_differ()
    ensures { LackedIdsDiffer }
{}
