//! What the program of a text is, as laws above the functions that read it.

ghost use Rattle.chr_read.specs.NamesOfForms.{NamesAreNames, NamesAreText};
ghost use Rattle.chr_read.specs.Numberings.{HeadsAreOneList, OneNumberIsOneVariable};
ghost use Rattle.chr_read.specs.RoundTrips.{ProgramsComeBack};
ghost use Rattle.chr_read.specs.ProgramTexts.{MeaningsHavePrograms, ProgramsHaveOneMeaning, RefusedTextsAreNoPrograms};
ghost use Rattle.chr_read.specs.ProgramTexts.{TextsHaveOneFault, TextsHaveSomeAnswer};

/// The names of each clause are text and names of symbols and rules, so of them only their lengths are limited.
pub fn names_are_text()
    ensures text { NamesAreText }
    ensures names { NamesAreNames }
{}

/// Two places of a rule's heads have one number exactly where they have one variable, which is not `_`.
pub fn variables_are_numbered()
    ensures list { HeadsAreOneList }
    ensures same { OneNumberIsOneVariable }
{}

/// The canonical text of a program is read as the program, where it has at most 65,536 bytes.
pub fn programs_come_back()
    ensures { ProgramsComeBack }
{}

/// A text has one answer: it is a program of one meaning, or it has one fault at one clause, or it is too long, and no
/// two of these are so.
pub fn texts_have_one_answer()
    ensures some { TextsHaveSomeAnswer }
    ensures meaning { ProgramsHaveOneMeaning }
    ensures apart { RefusedTextsAreNoPrograms }
    ensures fault { TextsHaveOneFault }
{}

/// Each text that is a program has a value of the type `Program` with its meaning, which keeps all limits.
pub fn meanings_have_programs()
    ensures { MeaningsHavePrograms }
{}
