//! The canonical text of a program.

ghost use Rattle.std.specs.Prelude.{◌≡◌, ◌<◌, ◌++◌, map, option_map, Some, codes, decimal, IfOk, OnOk, string_bytes};
ghost use Rattle.std.specs.Prelude.{length, slice_get, [], ◌∷◌};
ghost use Rattle.chr_base.specs.Programs.{declarations, rules_of};
ghost use Rattle.chr_base.specs.Texts.{name_at};
ghost use Rattle.chr_read.specs.CanonicalTexts.{separated, more, term_text, args_text, pattern_text, patterns_text};
ghost use Rattle.chr_read.specs.CanonicalTexts.{cmp_text, comparison_text, label_text, kept_text, guard_text};
ghost use Rattle.chr_read.specs.CanonicalTexts.{body_text, rule_clause, symbol_text, declaration_clauses};
ghost use Rattle.chr_read.specs.CanonicalTexts.{weight_clauses, ended_clauses, canonical};
ghost use Rattle.chr_read.specs.RoundTrips.{ComesBack};
ghost use Rattle.chr_read.specs.working.Views.{declared_view};

use arrayvec::ArrayString;
use chr_base::atom::SymbolId;
use chr_base::limits::MAX_NAME;
use chr_base::program::Program;
use chr_base::rule::Rule;
use chr_base::term::{Cmp, Comparison, Pattern, Term};
use chr_base::weight::{DEFAULT_WEIGHT, Weight};
use std::alloc::{AllocError, Global};
use std::fmt::Write;

fn push_term(out: &mut String, term: &Term) -> Result<(), AllocError>
    ensures { OnOk result (string_bytes out.new ≡ string_bytes out.old ++ term_text term.now) }
{
    match term {
        Term::Variable(variable) => write!(out, "V{variable}")?,
        Term::Constant(value) => write!(out, "{value}")?,
    }
    Ok(())
}

fn push_more_terms(out: &mut String, terms: &[Term]) -> Result<(), AllocError>
    ensures { OnOk result (string_bytes out.new ≡ string_bytes out.old ++ more (codes ",") term_text terms.now) }
{
    for term in terms {
        out.push_str(",")?;
        push_term(out, term)?;
    }
    Ok(())
}

fn push_args(out: &mut String, args: &[Term]) -> Result<(), AllocError>
    ensures { OnOk result (string_bytes out.new ≡ string_bytes out.old ++ args_text args.now) }
{
    if let Some((first, rest)) = args.split_first() {
        out.push_str("(")?;
        push_term(out, first)?;
        push_more_terms(out, rest)?;
        out.push_str(")")?;
    }
    Ok(())
}

/// The name of a symbol, or no text where it isn't declared.
fn name_at(program: &Program, symbol: SymbolId) -> &str
    ensures { result.now ≡ name_at (declarations program.now) symbol.0 }
{
    if usize::from(symbol.0) < program.symbols() {
        program.name_of(symbol)
    } else {
        ""
    }
}

/// Adds an atom of a rule, as the canonical text has it: its variables are `V1`, `V2`, ..
pub fn push_pattern(
    out: &mut String,
    program: &Program,
    pattern: &Pattern,
) -> Result<(), AllocError>
    ensures { OnOk result (string_bytes out.new
        ≡ string_bytes out.old ++ pattern_text (declarations program.now) pattern.now) }
{
    out.push_str(name_at(program, pattern.symbol))?;
    push_args(out, pattern.args.as_slice())
}

fn push_more_patterns(
    out: &mut String,
    program: &Program,
    patterns: &[Pattern],
) -> Result<(), AllocError>
    ensures { OnOk result (string_bytes out.new
        ≡ string_bytes out.old ++ more (codes ", ") (pattern_text (declarations program.now)) patterns.now) }
{
    for pattern in patterns {
        out.push_str(", ")?;
        push_pattern(out, program, pattern)?;
    }
    Ok(())
}

fn push_patterns(
    out: &mut String,
    program: &Program,
    patterns: &[Pattern],
) -> Result<(), AllocError>
    ensures { OnOk result (string_bytes out.new
        ≡ string_bytes out.old ++ patterns_text (declarations program.now) patterns.now) }
{
    if let Some((first, rest)) = patterns.split_first() {
        push_pattern(out, program, first)?;
        push_more_patterns(out, program, rest)?;
    }
    Ok(())
}

fn cmp_text(cmp: Cmp) -> &'static str
    ensures { result.now ≡ cmp_text cmp }
{
    match cmp {
        Cmp::Less => "<",
        Cmp::AtMost => "=<",
        Cmp::Greater => ">",
        Cmp::AtLeast => ">=",
        Cmp::Equal => "=:=",
        Cmp::NotEqual => "=\\=",
    }
}

fn push_comparison(out: &mut String, comparison: &Comparison) -> Result<(), AllocError>
    ensures { OnOk result (string_bytes out.new ≡ string_bytes out.old ++ comparison_text comparison.now) }
{
    push_term(out, &comparison.left)?;
    out.push_str(" ")?;
    out.push_str(cmp_text(comparison.cmp))?;
    out.push_str(" ")?;
    push_term(out, &comparison.right)
}

fn push_more_comparisons(out: &mut String, comparisons: &[Comparison]) -> Result<(), AllocError>
    ensures { OnOk result (string_bytes out.new
        ≡ string_bytes out.old ++ more (codes ", ") comparison_text comparisons.now) }
{
    for comparison in comparisons {
        out.push_str(", ")?;
        push_comparison(out, comparison)?;
    }
    Ok(())
}

/// The name of a rule, where it has one, and an at sign.
fn push_label(out: &mut String, name: &Option<ArrayString<MAX_NAME>>) -> Result<(), AllocError>
    ensures { OnOk result (string_bytes out.new
        ≡ string_bytes out.old ++ label_text (option_map (λ n. n.bytes) name.now)) }
{
    if let Some(name) = name {
        out.push_str(name.as_str())?;
        out.push_str(" @ ")?;
    }
    Ok(())
}

/// The kept heads, where there are some, and a backslash.
fn push_kept(out: &mut String, program: &Program, kept: &[Pattern]) -> Result<(), AllocError>
    ensures { OnOk result (string_bytes out.new
        ≡ string_bytes out.old ++ kept_text (declarations program.now) kept.now) }
{
    if !kept.is_empty() {
        push_patterns(out, program, kept)?;
        out.push_str(" \\ ")?;
    }
    Ok(())
}

/// The comparisons, where there are some, and a bar.
fn push_guard(out: &mut String, guard: &[Comparison]) -> Result<(), AllocError>
    ensures { OnOk result (string_bytes out.new ≡ string_bytes out.old ++ guard_text guard.now) }
{
    if let Some((first, rest)) = guard.split_first() {
        push_comparison(out, first)?;
        push_more_comparisons(out, rest)?;
        out.push_str(" | ")?;
    }
    Ok(())
}

/// The atoms of the body, or `true` where there are none.
fn push_body(out: &mut String, program: &Program, body: &[Pattern]) -> Result<(), AllocError>
    ensures { OnOk result (string_bytes out.new
        ≡ string_bytes out.old ++ body_text (declarations program.now) body.now) }
{
    if body.is_empty() {
        out.push_str("true")
    } else {
        push_patterns(out, program, body)
    }
}

/// Adds a rule, as the canonical text has it, without its full stop.
pub fn push_rule(out: &mut String, program: &Program, rule: &Rule) -> Result<(), AllocError>
    ensures { OnOk result (string_bytes out.new
        ≡ string_bytes out.old ++ rule_clause (declarations program.now) rule.now) }
{
    push_label(out, &rule.name)?;
    push_kept(out, program, &rule.kept)?;
    push_patterns(out, program, &rule.removed)?;
    out.push_str(" <=> ")?;
    push_guard(out, &rule.guard)?;
    push_body(out, program, &rule.body)
}

fn push_rules(out: &mut String, program: &Program, rules: &[Rule]) -> Result<(), AllocError>
    ensures { OnOk result (string_bytes out.new
        ≡ string_bytes out.old ++ ended_clauses (map (rule_clause (declarations program.now)) rules.now)) }
{
    for rule in rules {
        push_rule(out, program, rule)?;
        out.push_str(".\n")?;
    }
    Ok(())
}

/// A declared symbol with its weight.
#[derive(Clone, Copy)]
struct Declared<'a> {
    name: &'a str,
    arity: usize,
    weight: Weight,
}

fn declaration(program: &Program, symbol: SymbolId) -> Declared<'_>
    requires { symbol.0 < length (declarations program.now) }
    ensures { Some (declared_view result) ≡ slice_get (declarations program.now) symbol.0 }
{
    Declared {
        name: program.name_of(symbol),
        arity: program.arity_of(symbol),
        weight: program.weight_of(symbol),
    }
}

/// The declared symbols, in order.
fn all_declared(alloc: Global, program: &Program) -> Result<Vec<Declared<'_>>, AllocError>
    ensures { IfOk result (λ v. map declared_view v.items ≡ declarations program.now) }
{
    let mut all = Vec::new(alloc);
    for place in 0..program.symbols() {
        all.push(declaration(program, SymbolId(place as u16)))?;
    }
    Ok(all)
}

fn push_symbol(out: &mut String, declared: &Declared<'_>) -> Result<(), AllocError>
    ensures { OnOk result (string_bytes out.new ≡ string_bytes out.old ++ symbol_text (declared_view declared.now)) }
{
    out.push_str(declared.name)?;
    write!(out, "/{}", declared.arity)?;
    Ok(())
}

fn push_more_symbols(out: &mut String, all: &[Declared<'_>]) -> Result<(), AllocError>
    ensures { OnOk result (string_bytes out.new
        ≡ string_bytes out.old ++ more (codes ", ") symbol_text (map declared_view all.now)) }
{
    for declared in all {
        out.push_str(", ")?;
        push_symbol(out, declared)?;
    }
    Ok(())
}

fn push_declaration(out: &mut String, all: &[Declared<'_>]) -> Result<(), AllocError>
    ensures { OnOk result (string_bytes out.new
        ≡ string_bytes out.old ++ ended_clauses (declaration_clauses (map declared_view all.now))) }
{
    if let Some((first, rest)) = all.split_first() {
        out.push_str(":- chr_constraint ")?;
        push_symbol(out, first)?;
        push_more_symbols(out, rest)?;
        out.push_str(".\n")?;
    }
    Ok(())
}

fn push_weight(out: &mut String, declared: &Declared<'_>) -> Result<(), AllocError>
    ensures { OnOk result (string_bytes out.new
        ≡ string_bytes out.old ++ ended_clauses (weight_clauses (declared_view declared.now ∷ []))) }
{
    if declared.weight != DEFAULT_WEIGHT {
        out.push_str(":- chr_weight ")?;
        push_symbol(out, declared)?;
        out.push_str(" = ")?;
        declared.weight.push_text(out, declared.weight.is_paired())?;
        out.push_str(".\n")?;
    }
    Ok(())
}

fn push_weights(out: &mut String, all: &[Declared<'_>]) -> Result<(), AllocError>
    ensures { OnOk result (string_bytes out.new
        ≡ string_bytes out.old ++ ended_clauses (weight_clauses (map declared_view all.now))) }
{
    for declared in all {
        push_weight(out, declared)?;
    }
    Ok(())
}

/// The canonical text of a program. It has all declarations in one line, a line for each weight that isn't the default,
/// and a line for each rule. A weight's second number is left out where it is 0. The variables of a rule are `V1`,
/// `V2`, ..
///
/// Where the text has at most 65,536 bytes, reading it gives the same program.
pub fn write(alloc: Global, program: &Program) -> Result<String, AllocError>
    ensures text { IfOk result (λ s. string_bytes s ≡ canonical (declarations program.now) (rules_of program.now)) }
    ensures round_trip { IfOk result (λ s. ComesBack program.now (string_bytes s)) }
{
    let all = all_declared(alloc, program)?;
    let mut out = String::new(alloc);
    push_declaration(&mut out, &all)?;
    push_weights(&mut out, &all)?;
    push_rules(&mut out, program, program.rules())?;
    Ok(out)
}
