//! What a row's atom is but for its arguments.
ghost use Rattle.std.specs.Prelude.{◌≤◌};
ghost use Rattle.chr_base.specs.declared.limits.TheConstants.{MAX_ARITY};

use chr_base::atom::SymbolId;
use chr_base::limits::MAX_ARITY;

/// The symbol of an atom, and its number of arguments.
#[derive(Clone, Copy, Debug, PartialEq, Eq)]
pub(crate) struct Shape {
    pub(crate) symbol: SymbolId,
    pub(crate) arity: u8,
    pub(crate) ghost few: { arity ≤ MAX_ARITY },
}
