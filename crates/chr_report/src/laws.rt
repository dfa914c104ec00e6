//! A law of inputs and of their outputs. It is a function that takes nothing: its contract is the law.
ghost use Rattle.chr_report.specs.Laws.{ChecksBeginRuns};

/// What a run writes begins with what a check of the same input writes, with the same status.
pub fn checks_begin_runs()
    ensures { ChecksBeginRuns }
{}
