//! A law: messages are read again from their texts.

ghost use Rattle.chr_json.specs.Messages.{Delta1TextsAreRead, Delta2TextsAreRead, SummaryTextsAreRead};

/// The ranges of a summary, and the operations of a delta of either version, are what their own texts say, as JSON
/// without white space.
pub fn message_texts_are_read()
    ensures summaries { SummaryTextsAreRead }
    ensures deltas_1 { Delta1TextsAreRead }
    ensures deltas_2 { Delta2TextsAreRead }
{}
