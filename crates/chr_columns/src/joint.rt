//! The arguments by which the atoms of rules hang together.
ghost use Rattle.std.specs.Prelude.{◌≡◌, All};
ghost use Rattle.std.specs.Bool.{OnTrue};
ghost use Rattle.chr_base.specs.Rules.{heads_of};
ghost use Rattle.chr_plans.specs.Joined.{column_in, value_in, HasThere, IsLocal};

use arrayvec::ArrayVec;
use chr_base::atom::{Atom, SymbolId};
use chr_base::limits::MAX_SYMBOLS;
use chr_base::rule::Rule;
use chr_base::term::{Pattern, Term};

/// A column for each symbol, by its number, where one has been chosen.
type Choice = [Option<usize>; MAX_SYMBOLS];

/// For each symbol, by its number, the column of the argument by which rules are joined, counted from 0: in each of the
/// rules one variable stands there in all heads. A symbol past the last has the first column.
#[derive(Drop)]
pub struct Joint {
    pub columns: ArrayVec<usize, MAX_SYMBOLS>,
}

/// The column of a symbol, the first one where the symbol is past the last.
fn column_in(columns: &[usize], symbol: SymbolId) -> usize
    ensures { result ≡ column_in columns.now symbol }
{
    columns.get(symbol.0 as usize).copied().unwrap_or(0)
}

/// Whether the variable stands in the joining column of the pattern's symbol.
fn has_there(columns: &[usize], variable: u8, pattern: &Pattern) -> bool
    ensures { OnTrue result (HasThere columns.now variable pattern.now) }
{
    match pattern.args.get(column_in(columns, pattern.symbol)) {
        Some(Term::Variable(x)) => *x == variable,
        _ => false,
    }
}

/// Whether the variable stands in the joining column of each of these patterns.
fn all_have(columns: &[usize], variable: u8, patterns: &[Pattern]) -> bool
    ensures { OnTrue result (All (HasThere columns.now variable) patterns.now) }
{
    let [pattern, patterns @ ..] = patterns else {
        return true;
    };
    if !has_there(columns, variable, pattern) {
        return false;
    }
    all_have(columns, variable, patterns)
}

/// Whether the variable stands in the joining column of each head of the rule.
fn heads_have(columns: &[usize], variable: u8, rule: &Rule) -> bool
    ensures { OnTrue result (All (HasThere columns.now variable) (heads_of rule.now)) }
{
    if !all_have(columns, variable, &rule.kept) {
        return false;
    }
    all_have(columns, variable, &rule.removed)
}

/// The variable that stands in the joining column of the first head.
fn first_variable(columns: &[usize], rule: &Rule) -> Option<u8> {
    let head = rule.head_at(0);
    match head.args.get(column_in(columns, head.symbol)) {
        Some(Term::Variable(x)) => Some(*x),
        _ => None,
    }
}

/// Whether in each of the rules some variable stands in the joining column of every head.
fn are_joined(columns: &[usize], rules: &[Rule]) -> bool {
    rules.iter().all(|rule| match first_variable(columns, rule) {
        Some(variable) => heads_have(columns, variable, rule),
        None => false,
    })
}

/// Whether some variable stands in the joining column of each head, and of each atom of the body.
fn is_local(columns: &[usize], rule: &Rule) -> bool
    ensures { OnTrue result (IsLocal columns.now rule.now) }
{
    let Some(variable) = first_variable(columns, rule) else {
        return false;
    };
    if !heads_have(columns, variable, rule) {
        return false;
    }
    all_have(columns, variable, &rule.body)
}

/// Whether each of the rules is local.
fn are_local(columns: &[usize], rules: &[Rule]) -> bool
    ensures { OnTrue result (All (IsLocal columns.now) rules.now) }
{
    let [rule, rules @ ..] = rules else {
        return true;
    };
    if !is_local(columns, rule) {
        return false;
    }
    are_local(columns, rules)
}

/// The column that is chosen for a symbol.
fn chosen(choice: &Choice, symbol: SymbolId) -> Option<usize> {
    choice.get(symbol.0 as usize).copied().flatten()
}

/// Chooses a column for a symbol.
fn choose(choice: &mut Choice, symbol: SymbolId, column: usize) {
    if let Some(place) = choice.get_mut(symbol.0 as usize) {
        *place = Some(column);
    }
}

/// The first column in which the pattern has the variable.
fn column_of(pattern: &Pattern, variable: u8) -> Option<usize> {
    pattern.args.iter().position(|term| match term {
        Term::Variable(x) => *x == variable,
        Term::Constant(_) => false,
    })
}

/// The term by which a head is joined, where its symbol has a column.
fn joining_term(choice: &Choice, head: &Pattern) -> Option<Term> {
    let column = chosen(choice, head.symbol)?;
    head.args.get(column).copied()
}

/// The first term by which a head of the rule is joined.
fn first_term(choice: &Choice, rule: &Rule) -> Option<Term> {
    for place in 0..rule.places() {
        if let Some(term) = joining_term(choice, rule.head_at(place)) {
            return Some(term);
        }
    }
    None
}

/// Whether the term is this variable.
fn is_variable(term: Option<&Term>, variable: u8) -> bool {
    match term {
        Some(Term::Variable(x)) => *x == variable,
        _ => false,
    }
}

/// Chooses a column with the variable for a pattern whose symbol has none. Tells whether the variable stands in the
/// symbol's column then.
fn choose_for(choice: &mut Choice, pattern: &Pattern, variable: u8) -> bool {
    if let Some(column) = chosen(choice, pattern.symbol) {
        return is_variable(pattern.args.get(column), variable);
    }
    let Some(column) = column_of(pattern, variable) else {
        return false;
    };
    choose(choice, pattern.symbol, column);
    true
}

/// Chooses a column with the variable for each head, and each atom of the body, whose symbol has none. Tells whether
/// the variable stands in the columns of all heads then.
fn choose_all(choice: &mut Choice, rule: &Rule, variable: u8) -> bool {
    for place in 0..rule.places() {
        if !choose_for(choice, rule.head_at(place), variable) {
            return false;
        }
    }
    for pattern in &rule.body {
        choose_for(choice, pattern, variable);
    }
    true
}

/// Where a column is chosen for one head of a rule, chooses columns for its other heads. Tells whether one variable can
/// stand in all of them.
fn spread(choice: &mut Choice, rules: &[Rule]) -> bool {
    for rule in rules {
        match first_term(choice, rule) {
            Some(Term::Variable(variable)) => {
                if !choose_all(choice, rule, variable) {
                    return false;
                }
            }
            Some(Term::Constant(_)) => return false,
            None => {}
        }
    }
    true
}

/// Like [`spread`], but goes on through all rules that share symbols, however long the way from one to the other.
fn spread_far(choice: &mut Choice, rules: &[Rule]) -> bool {
    for _ in rules {
        if !spread(choice, rules) {
            return false;
        }
    }
    true
}

/// The choice with the first column of the rule's first head that suits all rules that share symbols with it.
fn chosen_with(choice: Choice, rules: &[Rule], rule: &Rule) -> Option<Choice> {
    let head = rule.head_at(0);
    for column in 0..head.args.len() {
        let mut next = choice;
        choose(&mut next, head.symbol, column);
        if spread_far(&mut next, rules) {
            return Some(next);
        }
    }
    None
}

/// A column for each symbol that suits all rules, where one is found.
fn choice_for(rules: &[Rule]) -> Option<Choice> {
    let mut choice = [None; MAX_SYMBOLS];
    for rule in rules {
        if first_term(&choice, rule).is_none() {
            choice = chosen_with(choice, rules, rule)?;
        }
    }
    Some(choice)
}

/// The columns of a choice, the first column where none was chosen.
fn columns_of(choice: &Choice) -> ArrayVec<usize, MAX_SYMBOLS> {
    let mut columns = ArrayVec::new();
    for number in 0..MAX_SYMBOLS {
        columns.push(choice.get(number).copied().flatten().unwrap_or(0));
    }
    columns
}

/// The columns by which all of these rules are joined, where they are found. None where there are no rules.
pub fn joint_of(rules: &[Rule]) -> Option<Joint> {
    if rules.is_empty() {
        return None;
    }
    let columns = columns_of(&choice_for(rules)?);
    if are_joined(&columns, rules) {
        Some(Joint { columns })
    } else {
        None
    }
}

impl Joint {
    /// The value by which an atom is joined: its argument in its symbol's column, 0 where it has none there.
    pub fn value(&self, atom: &Atom) -> i64
        ensures { result ≡ value_in self.now.columns.items atom.now }
    {
        let column = column_in(&self.columns, atom.symbol);
        atom.args.get(column).copied().unwrap_or(0)
    }

    /// Whether in each of the rules one variable stands in these columns in the atoms of the body too, so that steps
    /// lead from atoms of one value to atoms of that value.
    pub fn keeps_values(&self, rules: &[Rule]) -> bool
        ensures { OnTrue result (All (IsLocal self.now.columns.items) rules.now) }
    {
        are_local(&self.columns, rules)
    }
}
