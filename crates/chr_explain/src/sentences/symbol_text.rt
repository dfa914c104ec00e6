//! Symbols as they are told.

use crate::prose::Prose;
use chr_base::atom::SymbolId;
use chr_base::program::Program;

/// Adds the name and the number of arguments of a symbol of the program.
pub(crate) fn push_symbol(out: &mut Prose, program: &Program, symbol: SymbolId) {
    if usize::from(symbol.0) < program.symbols() {
        let name = program.name_of(symbol);
        let arity = program.arity_of(symbol);
        out.push_str(name);
        out.push_number("/", arity as u64, "");
    }
}
