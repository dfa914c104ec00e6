//! What the rules say of the sorts of positions, as a list of notes.
ghost use Rattle.std.specs.Prelude.{◌≡◌, ◌+◌, ◌<◌, ◌≤◌, ◌++◌, OnOk, IfOk, length, map};
ghost use Rattle.std.specs.List.{flat_map};
ghost use Rattle.chr_base.specs.declared.limits.TheConstants.{MAX_ARITY};
ghost use Rattle.chr_base.specs.Rules.{heads_of};
ghost use Rattle.chr_confluence.specs.Sorts.{terms_from, sorted_terms, first_sort};
ghost use Rattle.chr_sorting.specs.FinestSorts.{position_of};
ghost use Rattle.chr_sorting.specs.working.Notes.{numbering, placed_heads, term_note, comparison_notes, bound_notes};
ghost use Rattle.chr_sorting.specs.working.Notes.{guard_notes, rule_notes};

use chr_base::atom::SymbolId;
use chr_base::limits::MAX_ARITY;
use chr_base::rule::Rule;
use chr_base::term::{Cmp, Comparison, Pattern, Term};
use std::alloc::{AllocError, Global};

/// What a rule says of the sorts of positions, which are numbered.
#[derive(Clone, Copy, Debug)]
pub(crate) enum Note {
    /// The two are of one sort.
    Joined(u32, u32),
    /// The constant is one of the position's sort.
    Stands(u32, i64),
    /// Values of the position's sort are compared.
    Compared(u32, Cmp),
}

/// The number of a position.
pub(crate) fn position(symbol: SymbolId, argument: usize) -> u32
    requires { argument < MAX_ARITY }
    ensures { result ≡ position_of symbol.0 argument }
{
    MAX_ARITY as u32 * u32::from(symbol.0) + argument as u32
}

/// Adds the terms of an atom from an argument on, each with the number of its position.
fn add_terms(
    placed: &mut Vec<(u32, Term)>,
    symbol: SymbolId,
    argument: usize,
    terms: &[Term],
) -> Result<(), AllocError>
    requires { argument + length terms.now ≤ MAX_ARITY }
    ensures { OnOk result (placed.new.items ≡ placed.old.items ++
        terms_from (position_of symbol.0) argument terms.now) }
{
    let [term, rest @ ..] = terms else {
        return Ok(());
    };
    placed.push((position(symbol, argument), *term))?;
    add_terms(placed, symbol, argument + 1, rest)
}

/// Adds the terms of these atoms.
fn add_patterns(placed: &mut Vec<(u32, Term)>, patterns: &[Pattern]) -> Result<(), AllocError>
    ensures { OnOk result (placed.new.items ≡ placed.old.items ++ sorted_terms numbering patterns.now) }
{
    for pattern in patterns {
        add_terms(placed, pattern.symbol, 0, &pattern.args)?;
    }
    Ok(())
}

/// The position at which a variable stands first, and 0 where it stands at none.
pub(crate) fn first_position(placed: &[(u32, Term)], variable: u8) -> u32
    ensures { result ≡ first_sort placed.now variable }
{
    let [first, rest @ ..] = placed else {
        return 0;
    };
    match first.1 {
        Term::Variable(other) if other == variable => first.0,
        _ => first_position(rest, variable),
    }
}

/// What a term at a position says, where these are the terms of the rule's heads.
fn term_note(heads: &[(u32, Term)], position: u32, term: Term) -> Note
    ensures { result ≡ term_note heads.now (position, term) }
{
    match term {
        Term::Variable(variable) => Note::Joined(position, first_position(heads, variable)),
        Term::Constant(constant) => Note::Stands(position, constant),
    }
}

/// Adds what these terms say.
fn add_term_notes(
    notes: &mut Vec<Note>,
    heads: &[(u32, Term)],
    placed: &[(u32, Term)],
) -> Result<(), AllocError>
    ensures { OnOk result (notes.new.items ≡ notes.old.items ++ map (term_note heads.now) placed.now) }
{
    for (position, term) in placed {
        notes.push(term_note(heads, *position, *term))?;
    }
    Ok(())
}

/// Adds what a comparison of a variable with a constant says.
fn add_bound(
    notes: &mut Vec<Note>,
    position: u32,
    cmp: Cmp,
    constant: i64,
) -> Result<(), AllocError>
    ensures { OnOk result (notes.new.items ≡ notes.old.items ++ bound_notes position cmp constant) }
{
    notes.push(Note::Stands(position, constant))?;
    notes.push(Note::Compared(position, cmp))?;
    Ok(())
}

/// Adds what a comparison says.
fn add_comparison(
    notes: &mut Vec<Note>,
    heads: &[(u32, Term)],
    comparison: Comparison,
) -> Result<(), AllocError>
    ensures { OnOk result (notes.new.items ≡ notes.old.items ++
        comparison_notes heads.now comparison.cmp comparison.left comparison.right) }
{
    match (comparison.left, comparison.right) {
        (Term::Variable(one), Term::Variable(other)) => {
            let position = first_position(heads, one);
            notes.push(Note::Joined(position, first_position(heads, other)))?;
            if one != other {
                notes.push(Note::Compared(position, comparison.cmp))?;
            }
            Ok(())
        }
        (Term::Variable(variable), Term::Constant(constant)) => {
            let position = first_position(heads, variable);
            add_bound(notes, position, comparison.cmp, constant)
        }
        (Term::Constant(constant), Term::Variable(variable)) => {
            let position = first_position(heads, variable);
            add_bound(notes, position, comparison.cmp, constant)
        }
        (Term::Constant(_), Term::Constant(_)) => Ok(()),
    }
}

/// Adds what a guard says.
fn add_guard(
    notes: &mut Vec<Note>,
    heads: &[(u32, Term)],
    guard: &[Comparison],
) -> Result<(), AllocError>
    ensures { OnOk result (notes.new.items ≡ notes.old.items ++ guard_notes heads.now guard.now) }
{
    for comparison in guard {
        add_comparison(notes, heads, *comparison)?;
    }
    Ok(())
}

/// The terms of a rule's heads, each with the number of its position.
pub(crate) fn placed_heads(alloc: Global, rule: &Rule) -> Result<Vec<(u32, Term)>, AllocError>
    ensures { IfOk result (λ heads. heads.items ≡ placed_heads rule.now) }
{
    let mut heads = Vec::new(alloc);
    add_patterns(&mut heads, &rule.kept)?;
    add_patterns(&mut heads, &rule.removed)?;
    Ok(heads)
}

/// Adds what a rule says.
fn add_rule(alloc: Global, notes: &mut Vec<Note>, rule: &Rule) -> Result<(), AllocError>
    ensures { OnOk result (notes.new.items ≡ notes.old.items ++ rule_notes rule.now) }
{
    let heads = placed_heads(alloc, rule)?;
    let mut body = Vec::new(alloc);
    add_patterns(&mut body, &rule.body)?;
    add_term_notes(notes, &heads, &heads)?;
    add_term_notes(notes, &heads, &body)?;
    add_guard(notes, &heads, &rule.guard)?;
    Ok(())
}

/// What the rules say.
pub(crate) fn all_notes(alloc: Global, rules: &[Rule]) -> Result<Vec<Note>, AllocError>
    ensures { IfOk result (λ notes. notes.items ≡ flat_map rule_notes rules.now) }
{
    let mut notes = Vec::new(alloc);
    for rule in rules {
        add_rule(alloc, &mut notes, rule)?;
    }
    Ok(notes)
}
