//! The names that a program's text gives the variables of its rules and the columns of its symbols.
ghost use Rattle.std.specs.Prelude.{IfOk};
ghost use Rattle.std.specs.List.{All};
ghost use Rattle.chr_base.specs.Programs.{declarations};
ghost use Rattle.chr_faults.specs.ColumnNames.{AreNames};

use crate::columns::{ColumnNames, columns_in};
use crate::rule::{before, without_label};
use crate::token::{is_sign, is_variable};
use chr_base::program::Program;
use chr_syntax::{PlacedToken, Sign, next_clause, placed_tokens, without_comments};
use std::alloc::{AllocError, Global};

/// A variable without a name, which is a new one each time.
pub const ANONYMOUS: &str = "_";

/// The names of a rule's variables, in the order of their numbers.
#[derive(Drop)]
pub struct RuleNames {
    names: Vec<String>,
}

/// The names in the text of a program.
pub struct Names {
    /// Those of the variables of each rule, in the order of the rules.
    rules: Vec<RuleNames>,
    /// Those of columns.
    pub columns: Vec<ColumnNames>,
}

impl RuleNames {
    /// The name of the variable of this number, counted from 1.
    pub fn name_of(&self, variable: usize) -> Option<&str> {
        let name = self.names.get(variable.checked_sub(1)?)?;
        Some(name.as_str())
    }

    /// Whether a variable has this name.
    pub fn has(&self, name: &str) -> bool {
        self.names.iter().any(|other| other.as_str() == name)
    }

    /// Notes a variable, where it is met for the first time.
    fn meet(&mut self, alloc: Global, word: &[u8]) -> Result<(), AllocError> {
        let Ok(name) = str::from_utf8(word) else {
            return Ok(());
        };
        if name == ANONYMOUS || !self.has(name) {
            self.names.push(String::from_str(alloc, name)?)?;
        }
        Ok(())
    }
}

/// What is derived would be proved again in each crate that lets names go.
impl Drop for Names {
    fn drop(self) {
        let Names {
            rules: _rules,
            columns: _columns,
        } = self;
    }
}

/// The names of the variables of a rule with these tokens. They are numbered as they are met in its heads.
fn rule_names(alloc: Global, tokens: &[PlacedToken<'_>]) -> Result<RuleNames, AllocError> {
    let mut names = RuleNames {
        names: Vec::new(alloc),
    };
    for token in before(without_label(tokens), Sign::Simplify) {
        if is_variable(token) {
            names.meet(alloc, token.word)?;
        }
    }
    Ok(names)
}

/// Whether these are the tokens of a rule, in a text without bad clauses.
pub(crate) fn is_rule(tokens: &[PlacedToken<'_>]) -> bool {
    match tokens {
        [first, ..] => !is_sign(first, Sign::Directive),
        [] => false,
    }
}

/// Adds the names of the variables of a clause, where it is a rule.
fn push_rule_names(
    alloc: Global,
    rules: &mut Vec<RuleNames>,
    clause: &[u8],
) -> Result<(), AllocError> {
    let tokens = placed_tokens(alloc, clause)?;
    if is_rule(&tokens) {
        rules.push(rule_names(alloc, &tokens)?)?;
    }
    Ok(())
}

/// The names of the variables of each rule in the text of a program.
fn all_rule_names(alloc: Global, text: &[u8]) -> Result<Vec<RuleNames>, AllocError> {
    let plain = without_comments(alloc, text)?;
    let stops = plain.iter().filter(|byte| **byte == b'.').count();
    let mut rules = Vec::new(alloc);
    let mut rest = plain.as_slice();
    for _ in 0..stops {
        if let Some((clause, after)) = next_clause(rest) {
            push_rule_names(alloc, &mut rules, clause)?;
            rest = after;
        }
    }
    Ok(rules)
}

impl Names {
    /// The names in the text of a program.
    pub fn of(alloc: Global, text: &[u8], program: &Program) -> Result<Names, AllocError>
        ensures { IfOk result (λ n. All (AreNames (declarations program.now)) n.columns.items) }
    {
        let rules = all_rule_names(alloc, text)?;
        let columns = columns_in(alloc, text, program)?;
        Ok(Names { rules, columns })
    }

    /// Those of the rule of this number, counted from 1.
    pub fn of_rule(&self, number: usize) -> Option<&RuleNames> {
        self.rules.get(number.checked_sub(1)?)
    }
}
