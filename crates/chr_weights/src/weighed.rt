//! Programs that lower.
ghost use Rattle.chr_weights.specs.Weights.{ProgramLowers};
ghost use Rattle.chr_weights.specs.working.Weights.{ProgramLowers-prop};

use chr_base::program::Program;

/// A program each rule of which lowers the weight.
#[derive(Drop)]
pub struct Weighed {
    program: Program,
    ghost lowers: { ProgramLowers program } by { ProgramLowers-prop program },
}

impl Weighed {
    ghost use Rattle.std.specs.Prelude.{◌≡◌};
    ghost use Rattle.chr_weights.specs.WeighedPrograms.{program_of};

    /// A program that lowers.
    pub(crate) fn new(program: Program) -> Weighed
        requires { ProgramLowers program }
        ensures { program_of result ≡ program }
    {
        Weighed { program }
    }

    /// The program that lowers.
    pub fn program(&self) -> &Program
        ensures { result.now ≡ program_of self.now }
    {
        &self.program
    }
}
