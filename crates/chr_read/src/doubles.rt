//! Symbols that come twice in one clause.

ghost use Rattle.std.specs.Prelude.{◌≡◌, map, [], IfOk};
ghost use Rattle.chr_syntax.specs.Views.{symbol_view};
ghost use Rattle.chr_read.specs.working.RuleParts.{comes_again};

use crate::number::without_zeros;
use chr_syntax::RawSymbol;
use std::alloc::{AllocError, Global};
use std::collections::HashSet;

/// Whether some symbol comes twice, by its name and its arity's digits without leading zeros.
pub fn comes_again(alloc: Global, symbols: &[RawSymbol<'_>]) -> Result<bool, AllocError>
    ensures { IfOk result (λ b. b ≡ comes_again [] (map symbol_view symbols.now)) }
{
    let mut seen = HashSet::new(alloc);
    for symbol in symbols {
        if !seen.insert((symbol.name, without_zeros(symbol.arity)))? {
            return Ok(true);
        }
    }
    Ok(false)
}
