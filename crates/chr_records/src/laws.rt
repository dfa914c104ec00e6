//! The laws of records. Each is a function that takes nothing and computes nothing: its contract is the law.
ghost use Rattle.chr_records.specs.Laws.{AreReadBack, AreEnded, AllAreSplit, FrontsStand, ReadingGoesOn};
ghost use Rattle.chr_records.specs.Laws.{FadedAreFronts};
ghost use Rattle.chr_records.specs.Laws.{LinesAreRecords, ChangesAreTold};

/// Texts that are written are read back, up to a gate that is not open. All bytes are whole records, and an end that
/// stands for none.
pub fn records_are_read_back()
    ensures back { AreReadBack }
    ensures ended { AreEnded }
    ensures split { AllAreSplit }
{}

/// A front of the bytes stands for a front of the records. Bytes of which some are missing or blank stand for a front
/// of the records, too.
pub fn records_are_fronts()
    ensures fronts { FrontsStand }
    ensures faded { FadedAreFronts }
{}

/// Whoever has read a front needs only the bytes behind its whole records.
pub fn reading_goes_on()
    ensures { ReadingGoesOn }
{}

/// Whole records end one line each, whatever stands behind them.
pub fn lines_are_records()
    ensures { LinesAreRecords }
{}

/// A message of which one byte was changed has another sum.
pub fn changes_are_told()
    ensures { ChangesAreTold }
{}
