//! A law of lines. It is a function that takes nothing: its contract is the law.
ghost use Rattle.chr_answers.specs.Laws.{LinesAreTheInput};

/// The lines of an input, joined by line feeds, are the input.
pub fn lines_are_the_input()
    ensures { LinesAreTheInput }
{}
