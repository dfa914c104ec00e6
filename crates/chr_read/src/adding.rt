//! What a clause without faults adds to a program.

ghost use Rattle.std.specs.List.{list_all};
ghost use Rattle.std.specs.Prelude.{◌≡◌, ◌<◌, ◌++◌, [], ◌∷◌, map, option_map, length, Some, None, Option, OnOk, IfOk};
ghost use Rattle.std.specs.Prelude.{IsTrue, true, false, unwrap_or};
ghost use Rattle.chr_base.specs.Programs.{declarations, rules_of};
ghost use Rattle.chr_base.specs.ProgramTests.{with_weight};
ghost use Rattle.chr_base.specs.RuleTests.{is_in_bounds, is_rule};
ghost use Rattle.chr_base.specs.Names.{is_name};
ghost use Rattle.chr_syntax.specs.Clauses.{declare, weight, rule};
ghost use Rattle.chr_syntax.specs.Grammar.{IsForm};
ghost use Rattle.chr_syntax.specs.Views.{symbol_view, rule_view, clause_view};
ghost use Rattle.chr_read.specs.working.Adding.{can_declare, can_declare_all};
ghost use Rattle.chr_read.specs.working.RuleParts.{some_part_over, rule_unbound};
ghost use Rattle.chr_read.specs.working.TextsRead.{fault_in};
ghost use Rattle.chr_base.specs.Sameness.{parts_of};
ghost use Rattle.chr_read.specs.NamesOfForms.{has_names};
ghost use Rattle.chr_read.specs.Reading.{declared_symbol, with_form};
ghost use Rattle.chr_read.specs.Resolving.{resolved};
ghost use Rattle.chr_read.specs.working.Views.{progress_of};

use crate::number::{arity_of, weight_named_by};
use crate::progress::Reader;
use crate::resolve::{body, guard, heads, label};
use crate::symbols::{name_in, place_of_symbol};
use arrayvec::{ArrayString, ArrayVec};
use chr_base::limits::{MAX_BODY, MAX_COMPARISONS, MAX_HEADS, MAX_NAME};
use chr_base::program::Program;
use chr_base::rule::Rule;
use chr_base::term::{Comparison, Pattern};
use chr_syntax::{RawClause, RawRule, RawSymbol};
use std::alloc::{AllocError, Global};

/// Declares a symbol.
#[tactic(auto, using(crate::proofs::Names::name_is_text))]
fn add_symbol(program: &mut Program, symbol: &RawSymbol<'_>) -> Result<(), AllocError>
    requires can { can_declare (declarations program.old) (symbol_view symbol.now) ≡ true }
    requires word { is_name symbol.now.name.now ≡ true }
    ensures symbols { OnOk result (declarations program.new
        ≡ declarations program.old ++ declared_symbol (symbol_view symbol.now) ∷ []) }
    ensures rules { rules_of program.new ≡ rules_of program.old }
{
    let name = name_in(symbol.name).unwrap();
    let arity = arity_of(symbol.arity).unwrap();
    program.declare(name, arity)
}

/// Declares these symbols, one after another.
fn add_symbols(program: &mut Program, symbols: &[RawSymbol<'_>]) -> Result<(), AllocError>
    requires can { can_declare_all (declarations program.old) (map symbol_view symbols.now) ≡ true }
    requires words { has_names (declare (map symbol_view symbols.now)) ≡ true }
    ensures symbols { OnOk result (declarations program.new
        ≡ declarations program.old ++ map declared_symbol (map symbol_view symbols.now)) }
    ensures rules { rules_of program.new ≡ rules_of program.old }
{
    for symbol in symbols {
        add_symbol(program, symbol)?;
    }
    Ok(())
}

/// Gives a symbol its weight, and notes that it has one.
#[tactic(auto, using(crate::proofs::Numbers::named_is_weight))]
fn add_weight(
    reader: &mut Reader,
    symbol: &RawSymbol<'_>,
    first: &[u8],
    second: Option<&[u8]>,
) -> Result<(), AllocError>
    requires { fault_in (progress_of reader.old)
        (weight (symbol_view symbol.now) first.now (option_map (λ w. w.now) second)) ≡ None }
    ensures { OnOk result (progress_of reader.new ≡ with_form (progress_of reader.old)
        (weight (symbol_view symbol.now) first.now (option_map (λ w. w.now) second.entry))) }
{
    let place = place_of_symbol(&reader.program, symbol).unwrap();
    let weight = weight_named_by(first, second).unwrap();
    reader.weighed.push(place)?;
    reader.program.set_weight(place, weight);
    Ok(())
}

/// A rule of these parts.
fn make_rule(
    name: Option<ArrayString<MAX_NAME>>,
    kept: ArrayVec<Pattern, MAX_HEADS>,
    removed: ArrayVec<Pattern, MAX_HEADS>,
    guard: ArrayVec<Comparison, MAX_COMPARISONS>,
    body: ArrayVec<Pattern, MAX_BODY>,
) -> Rule
    requires parts { IsTrue (is_rule kept.items removed.items guard.items body.items) }
    requires bounds { IsTrue (is_in_bounds (option_map (λ n. n.bytes) name) (kept.items ++ removed.items)
        guard.items body.items) }
    ensures { parts_of result ≡ record {
      name = option_map (λ n. n.bytes) name;
      kept = kept.items;
      removed = removed.items;
      guard = guard.items;
      body = body.items;
    } }
{
    Rule {
        name,
        kept,
        removed,
        guard,
        body,
    }
}

/// The rule that a rule as written is.
fn resolved(alloc: Global, program: &Program, raw: &RawRule<'_>) -> Result<Rule, AllocError>
    requires over { some_part_over (rule_view raw.now) ≡ false }
    requires unbound { rule_unbound (rule_view raw.now) ≡ false }
    requires some { 0 < length (rule_view raw.now).removed }
    requires names { has_names (rule (rule_view raw.now)) ≡ true }
    ensures { IfOk result (λ r. parts_of r ≡ resolved (declarations program.now) (rule_view raw.now)) }
{
    let mut names = Vec::new(alloc);
    let kept = heads(program, &mut names, &raw.kept)?;
    let removed = heads(program, &mut names, &raw.removed)?;
    let guard = guard(&names, &raw.guard);
    let body = body(program, &names, &raw.body);
    Ok(make_rule(label(raw.label), kept, removed, guard, body))
}

/// Adds a rule.
fn add_rule(alloc: Global, reader: &mut Reader, raw: &RawRule<'_>) -> Result<(), AllocError>
    requires none { fault_in (progress_of reader.old) (rule (rule_view raw.now)) ≡ None }
    requires some { 0 < length (rule_view raw.now).removed }
    requires names { has_names (rule (rule_view raw.now)) ≡ true }
    ensures { OnOk result (progress_of reader.new ≡ with_form (progress_of reader.old) (rule (rule_view raw.now))) }
{
    let rule = resolved(alloc, &reader.program, raw)?;
    reader.program.push_rule(rule)
}

/// Adds what a clause without faults says.
pub fn add_clause(
    alloc: Global,
    reader: &mut Reader,
    clause: &RawClause<'_>,
) -> Result<(), AllocError>
    requires none { fault_in (progress_of reader.old) (clause_view clause.now) ≡ None }
    requires form { IsForm (clause_view clause.now) }
    requires names { has_names (clause_view clause.now) ≡ true }
    ensures { OnOk result (progress_of reader.new ≡ with_form (progress_of reader.old) (clause_view clause.now)) }
{
    match clause {
        RawClause::UseModule => Ok(()),
        RawClause::Declare(symbols) => add_symbols(&mut reader.program, symbols),
        RawClause::Weight {
            symbol,
            first,
            second,
        } => add_weight(reader, symbol, first, *second),
        RawClause::Rule(rule) => add_rule(alloc, reader, rule),
        RawClause::Propagation(_) => Ok(()),
    }
}
