//! Rules which, applied together, give back at least what they take.
ghost use Rattle.std.specs.Prelude.{◌≡◌, ◌≤◌, ◌<◌, ℕ, IfSome, length, sum};
ghost use Rattle.std.specs.Bool.{OnTrue};
ghost use Rattle.chr_base.specs.Programs.{declarations, rules_of};
ghost use Rattle.chr_weighing.specs.declared.cycle.Side.TheVariants.{Removed, Body};
ghost use Rattle.chr_weighing.specs.Cycles.{IsCycle, count_of, side_of, total_of};

use chr_base::program::Program;
use chr_base::rule::Rule;
use chr_base::term::Pattern;

/// Rules which, each applied its number of times, give back of each symbol at least as many atoms as they take.
#[derive(Debug, Drop)]
pub struct Cycle {
    /// How often each rule of the program is applied, by the order of the rules.
    pub times: Vec<u64>,
}

/// A side of a rule.
#[derive(Clone, Copy, Debug, PartialEq, Eq)]
pub(crate) enum Side {
    Removed,
    Body,
}

/// The patterns on a side of the rule.
fn patterns_of(rule: &Rule, side: Side) -> &[Pattern]
    ensures { result.now ≡ side_of side rule.now }
{
    match side {
        Side::Removed => &rule.removed,
        Side::Body => &rule.body,
    }
}

/// How often the symbol stands among the patterns.
pub(crate) fn count_of(patterns: &[Pattern], symbol: usize) -> usize
    ensures { result ≡ count_of symbol patterns.now }
{
    patterns
        .iter()
        .filter(|pattern| usize::from(pattern.symbol.0) == symbol)
        .count()
}

/// How often the symbol stands on that side of the rules, each taken its number of `times`. None where the number
/// doesn't fit.
fn total_of(rules: &[Rule], times: &[u64], side: Side, symbol: usize) -> Option<u64>
    ensures { IfSome result (λ n. n ≡ total_of side symbol rules.now times.now) }
{
    let [rule, rules @ ..] = rules else {
        return Some(0);
    };
    let [first, times @ ..] = times else {
        return Some(0);
    };
    let count = count_of(patterns_of(rule, side), symbol);
    let here = first.checked_mul(count as u64)?;
    let more = total_of(rules, times, side, symbol)?;
    here.checked_add(more)
}

/// Whether the rules, each taken its number of `times`, are seen to give back the symbol at least as often as they take
/// it.
fn is_given_back(rules: &[Rule], times: &[u64], symbol: usize) -> bool
    ensures { OnTrue result
        (total_of Removed symbol rules.now times.now ≤ total_of Body symbol rules.now times.now) }
{
    let taken = total_of(rules, times, Side::Removed, symbol);
    let given = total_of(rules, times, Side::Body, symbol);
    match (taken, given) {
        (Some(taken), Some(given)) => taken <= given,
        _ => false,
    }
}

/// Whether the rules, each taken its number of `times`, are seen to give back each of the first `symbols` symbols.
fn are_given_back(rules: &[Rule], times: &[u64], symbols: usize) -> bool
    ensures { OnTrue result ((s : ℕ) → s < symbols
        → total_of Removed s rules.now times.now ≤ total_of Body s rules.now times.now) }
{
    for symbol in 0..symbols {
        if !is_given_back(rules, times, symbol) {
            return false;
        }
    }
    true
}

/// Whether some number is not 0.
fn has_some(times: &[u64]) -> bool
    ensures { OnTrue result (0 < sum times.now) }
{
    let [first, times @ ..] = times else {
        return false;
    };
    *first != 0 || has_some(times)
}

/// Whether the rules of the program, each applied its number of `times`, are seen to be a cycle.
pub(crate) fn is_cycle(program: &Program, times: &[u64]) -> bool
    ensures { OnTrue result (IsCycle program.now times.now) }
{
    let rules = program.rules();
    times.len() == rules.len() && has_some(times) && are_given_back(rules, times, program.symbols())
}
