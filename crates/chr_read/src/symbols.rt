//! Names and symbols of a clause among those that are declared.

ghost use Rattle.std.specs.Prelude.{◌≡◌, option_map, map, is_some, Some, None, if◌then◌else◌};
ghost use Rattle.std.specs.List.{list_any};
ghost use Rattle.std.specs.Str.{is_utf8};
ghost use Rattle.chr_base.specs.Programs.{declarations};
ghost use Rattle.chr_syntax.specs.Views.{atom_view, symbol_view, rule_view};
ghost use Rattle.chr_read.specs.Faults.{is_long, place_of_symbol, is_undeclared, present};
ghost use Rattle.chr_read.specs.working.RuleParts.{place_of, place_of_atom, any_undeclared, rule_undeclared};
ghost use Rattle.chr_read.specs.working.RuleParts.{is_declared_already};

use crate::number::arity_of;
use chr_base::atom::SymbolId;
use chr_base::limits::MAX_NAME;
use chr_base::program::Program;
use chr_syntax::{RawAtom, RawRule, RawSymbol};

/// The bytes of a name as text. None where they are no UTF-8.
#[tactic(auto, using(crate::proofs::Names::text_is, crate::proofs::Names::no_text_is))]
pub fn name_in(word: &[u8]) -> Option<&str>
    ensures { option_map (λ s. s.now) result ≡ (if is_utf8 word.now then Some word.now else None) }
{
    str::from_utf8(word).ok()
}

/// Whether these are more bytes than a name or a variable may have.
pub fn is_long(word: &[u8]) -> bool
    ensures { result ≡ is_long word.now }
{
    MAX_NAME < word.len()
}

/// The declared symbol of this name and number of arguments. None where it is not declared.
#[tactic(auto, using(crate::proofs::Names::no_text_is_declared))]
pub fn place_of(program: &Program, name: &[u8], arity: usize) -> Option<SymbolId>
    ensures { option_map (λ s. s.0) result ≡ place_of (declarations program.now) name.now arity }
{
    program.symbol(name_in(name)?, arity)
}

/// The declared symbol of this atom. None where it is not declared.
pub fn place_of_atom(program: &Program, atom: &RawAtom<'_>) -> Option<SymbolId>
    ensures { option_map (λ s. s.0) result ≡ place_of_atom (declarations program.now) (atom_view atom.now) }
{
    place_of(program, atom.name, atom.args.as_slice().len())
}

/// The declared symbol of this name, with the arity that these digits give. None where it is not declared.
pub fn place_of_symbol(program: &Program, symbol: &RawSymbol<'_>) -> Option<SymbolId>
    ensures { option_map (λ s. s.0) result ≡ place_of_symbol (declarations program.now) (symbol_view symbol.now) }
{
    place_of(program, symbol.name, arity_of(symbol.arity)?)
}

fn is_undeclared(program: &Program, atom: &RawAtom<'_>) -> bool
    ensures { result ≡ is_undeclared (declarations program.now) (atom_view atom.now) }
{
    place_of_atom(program, atom).is_none()
}

fn any_undeclared(program: &Program, atoms: &[RawAtom<'_>]) -> bool
    ensures { result ≡ any_undeclared (declarations program.now) (map atom_view atoms.now) }
{
    for atom in atoms {
        if is_undeclared(program, atom) {
            return true;
        }
    }
    false
}

fn items_undeclared(program: &Program, items: &[Option<RawAtom<'_>>]) -> bool
    ensures { result ≡ any_undeclared (declarations program.now) (present (map (option_map atom_view) items.now)) }
{
    for item in items {
        if let Some(atom) = item {
            if is_undeclared(program, atom) {
                return true;
            }
        }
    }
    false
}

/// Whether some atom of the rule has a symbol that is not declared with as many arguments.
pub fn rule_undeclared(program: &Program, rule: &RawRule<'_>) -> bool
    ensures { result ≡ rule_undeclared (declarations program.now) (rule_view rule.now) }
{
    any_undeclared(program, &rule.kept)
        || any_undeclared(program, &rule.removed)
        || items_undeclared(program, &rule.body)
}

fn is_declared_already(program: &Program, symbol: &RawSymbol<'_>) -> bool
    ensures { result ≡ is_declared_already (declarations program.now) (symbol_view symbol.now) }
{
    match place_of_symbol(program, symbol) {
        Some(_) => true,
        None => false,
    }
}

/// Whether some of these symbols is declared already.
pub fn any_known(program: &Program, symbols: &[RawSymbol<'_>]) -> bool
    ensures { result ≡ list_any (is_declared_already (declarations program.now)) (map symbol_view symbols.now) }
{
    for symbol in symbols {
        if is_declared_already(program, symbol) {
            return true;
        }
    }
    false
}
