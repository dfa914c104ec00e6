//! The least fault of a clause that has a form.

ghost use Rattle.std.specs.Prelude.{◌≡◌, ◌+◌, nat_lt, nat_le, map, length, IfOk, option_map, Option};
ghost use Rattle.chr_base.specs.Programs.{declarations};
ghost use Rattle.chr_syntax.specs.Clauses.{declare, weight, rule};
ghost use Rattle.chr_syntax.specs.Views.{symbol_view, rule_view, clause_view};
ghost use Rattle.chr_read.specs.working.RuleParts.{is_among, declared_twice, weight_bad};
ghost use Rattle.chr_read.specs.working.TextsRead.{fault_in};
ghost use Rattle.chr_read.specs.working.Views.{places_view, progress_of};

use crate::binding::rule_unbound;
use crate::doubles::comes_again;
use crate::fault::Fault;
use crate::limits::{rule_outside, some_part_over, symbols_over};
use crate::number::{weight_named_by, weight_outside};
use crate::progress::Reader;
use crate::symbols::{any_known, place_of_symbol, rule_undeclared};
use chr_base::atom::SymbolId;
use chr_base::limits::{MAX_RULES, MAX_SYMBOLS};
use chr_base::program::Program;
use chr_syntax::{RawClause, RawRule, RawSymbol};
use std::alloc::{AllocError, Global};

fn declared_twice(
    alloc: Global,
    program: &Program,
    symbols: &[RawSymbol<'_>],
) -> Result<bool, AllocError>
    ensures { IfOk result (λ b. b ≡ declared_twice (declarations program.now) (map symbol_view symbols.now)) }
{
    if any_known(program, symbols) {
        return Ok(true);
    }
    comes_again(alloc, symbols)
}

/// Whether `more` symbols more are too many.
fn has_no_room(program: &Program, more: usize) -> bool
    ensures { result ≡ nat_lt MAX_SYMBOLS (length (declarations program.now) + more) }
{
    let symbols = program.symbols();
    MAX_SYMBOLS < symbols || MAX_SYMBOLS - symbols < more
}

fn declare_fault(
    alloc: Global,
    reader: &Reader,
    symbols: &[RawSymbol<'_>],
) -> Result<Option<Fault>, AllocError>
    ensures { IfOk result (λ o. o ≡ fault_in (progress_of reader.now) (declare (map symbol_view symbols.now))) }
{
    if declared_twice(alloc, &reader.program, symbols)? {
        return Ok(Some(Fault::DeclaredTwice));
    }
    if has_no_room(&reader.program, symbols.len()) || symbols_over(symbols) {
        return Ok(Some(Fault::Limit));
    }
    Ok(None)
}

fn is_among(symbols: &[SymbolId], symbol: Option<SymbolId>) -> bool
    ensures { result ≡ is_among (places_view symbols.now) (option_map (λ s. s.0) symbol) }
{
    let Some(symbol) = symbol else {
        return false;
    };
    for other in symbols {
        if symbol.0 == other.0 {
            return true;
        }
    }
    false
}

fn weight_bad(reader: &Reader, symbol: &RawSymbol<'_>, first: &[u8], second: Option<&[u8]>) -> bool
    ensures { result ≡ weight_bad (progress_of reader.now) (symbol_view symbol.now) first.now
        (option_map (λ w. w.now) second.entry) }
{
    weight_named_by(first, second).is_none()
        || is_among(&reader.weighed, place_of_symbol(&reader.program, symbol))
}

fn weight_fault(
    reader: &Reader,
    symbol: &RawSymbol<'_>,
    first: &[u8],
    second: Option<&[u8]>,
) -> Option<Fault>
    ensures { result ≡ fault_in (progress_of reader.now)
        (weight (symbol_view symbol.now) first.now (option_map (λ w. w.now) second.entry)) }
{
    if place_of_symbol(&reader.program, symbol).is_none() {
        Some(Fault::Undeclared)
    } else if weight_outside(first, second) {
        Some(Fault::NumberRange)
    } else if weight_bad(reader, symbol, first, second) {
        Some(Fault::WeightFault)
    } else {
        None
    }
}

/// Whether there are as many rules as there may be.
#[tactic(auto, using(crate::proofs::Lengths::length_of_map))]
fn is_full(reader: &Reader) -> bool
    ensures { result ≡ nat_le MAX_RULES (length (progress_of reader.now).meaning.rules) }
{
    MAX_RULES <= reader.program.rules().len()
}

fn rule_fault(reader: &Reader, raw: &RawRule<'_>) -> Option<Fault>
    ensures { result ≡ fault_in (progress_of reader.now) (rule (rule_view raw.now)) }
{
    if rule_undeclared(&reader.program, raw) {
        Some(Fault::Undeclared)
    } else if is_full(reader) || some_part_over(raw) {
        Some(Fault::Limit)
    } else if rule_unbound(raw) {
        Some(Fault::Unbound)
    } else if rule_outside(raw) {
        Some(Fault::NumberRange)
    } else {
        None
    }
}

/// The least fault of a clause that has a form, after what the clauses before it made.
pub fn fault_in(
    alloc: Global,
    reader: &Reader,
    clause: &RawClause<'_>,
) -> Result<Option<Fault>, AllocError>
    ensures { IfOk result (λ o. o ≡ fault_in (progress_of reader.now) (clause_view clause.now)) }
{
    match clause {
        RawClause::UseModule => Ok(None),
        RawClause::Declare(symbols) => declare_fault(alloc, reader, symbols),
        RawClause::Weight {
            symbol,
            first,
            second,
        } => Ok(weight_fault(reader, symbol, first, *second)),
        RawClause::Rule(rule) => Ok(rule_fault(reader, rule)),
        RawClause::Propagation(_) => Ok(Some(Fault::Propagation)),
    }
}
