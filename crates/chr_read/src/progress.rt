//! What the clauses of a text have made so far.

ghost use Rattle.std.specs.Prelude.{◌≡◌};
ghost use Rattle.chr_read.specs.Meanings.{nothing};
ghost use Rattle.chr_read.specs.working.Views.{progress_of};

use chr_base::atom::SymbolId;
use chr_base::program::Program;
use std::alloc::Global;

/// What the clauses so far have made.
#[derive(Drop)]
pub struct Reader {
    pub program: Program,
    /// The symbols that have had a weight clause.
    pub weighed: Vec<SymbolId>,
}

/// What no clause has made: the empty program.
pub fn start(alloc: Global) -> Reader
    ensures { progress_of result ≡ nothing }
{
    Reader {
        program: Program::empty(alloc),
        weighed: Vec::new(alloc),
    }
}
