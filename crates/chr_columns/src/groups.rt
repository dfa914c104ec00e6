//! Which table the atoms of a symbol are in.
ghost use Rattle.std.specs.Prelude.{◌≡◌, get_or, length, IfOk, OnOk};
ghost use Rattle.chr_base.specs.Rules.{heads_of};
ghost use Rattle.chr_columns.specs.working.Groups.{table_of, IsGrouped, AreGrouped, AllGrouped, StayGrouped};
ghost use Rattle.chr_columns.specs.working.Groups.{AreOthers, AreStarts, HaveNoPlans};

use chr_base::atom::SymbolId;
use chr_base::limits::MAX_SYMBOLS;
use chr_base::rule::Rule;
use chr_base::term::Pattern;
use chr_plans::plan::Plan;
use std::alloc::{AllocError, Global};

/// The atoms of one symbol and number of arguments, which are in one table, and the plans of the head places for them.
#[derive(Drop)]
pub(crate) struct Group {
    pub(crate) symbol: SymbolId,
    pub(crate) arity: usize,
    pub(crate) plans: Vec<Plan>,
}

/// The table of the atoms with this symbol and number of arguments. What is in no group is in the last table.
pub(crate) fn table_of(groups: &[Group], symbol: SymbolId, arity: usize) -> usize
    ensures { result ≡ table_of groups.now symbol arity }
{
    for (i, group) in groups.iter().enumerate() {
        if group.symbol.0 == symbol.0 && group.arity == arity {
            return i;
        }
    }
    groups.len()
}

/// The number of the first group of a symbol, or that of groups where there is none.
fn first_of(groups: &[Group], symbol: usize) -> usize
    ensures { AreOthers groups.now symbol result }
{
    for (i, group) in groups.iter().enumerate() {
        if usize::from(group.symbol.0) == symbol {
            return i;
        }
    }
    groups.len()
}

/// For each symbol of a program the number of its first group.
fn starts_of(alloc: Global, groups: &[Group]) -> Result<Vec<usize>, AllocError>
    ensures { IfOk result (λ starts. AreStarts starts.items groups.now) }
{
    let mut starts = Vec::with_capacity(alloc, MAX_SYMBOLS)?;
    for symbol in 0..MAX_SYMBOLS {
        starts.push(first_of(groups, symbol))?;
    }
    Ok(starts)
}

/// The number at which the groups of a symbol begin.
fn start_for(starts: &[usize], symbol: SymbolId) -> usize
    ensures { result ≡ get_or starts.now symbol.0 0 }
{
    let symbol = usize::from(symbol.0);
    if symbol < starts.len() {
        starts[symbol]
    } else {
        0
    }
}

/// Like [`table_of`], but quick where there are many groups.
fn table_from(starts: &[usize], groups: &[Group], symbol: SymbolId, arity: usize) -> usize
    requires { AreStarts starts.now groups.now }
    ensures { result ≡ table_of groups.now symbol arity }
{
    let start = start_for(starts, symbol).min(groups.len());
    for i in start..groups.len() {
        if groups[i].symbol.0 == symbol.0 && groups[i].arity == arity {
            return i;
        }
    }
    groups.len()
}

/// Groups, which are found by their symbols.
#[derive(Drop)]
pub(crate) struct Directory {
    pub(crate) groups: Vec<Group>,
    pub(crate) starts: Vec<usize>,
    pub(crate) ghost started: { AreStarts starts.items groups.items },
}

impl Directory {
    /// A directory of these groups.
    pub(crate) fn of(alloc: Global, groups: Vec<Group>) -> Result<Directory, AllocError>
        ensures { IfOk result (λ directory. directory.groups.items ≡ groups.items) }
    {
        let starts = starts_of(alloc, &groups)?;
        Ok(Directory { groups, starts })
    }

    /// The table of the atoms with this symbol and number of arguments. What is in no group is in the last table.
    pub(crate) fn table_of(&self, symbol: SymbolId, arity: usize) -> usize
        ensures { result ≡ table_of self.now.groups.items symbol arity }
    {
        table_from(&self.starts, &self.groups, symbol, arity)
    }
}

/// A group for a pattern's atoms, where they have none.
fn add_group(alloc: Global, groups: &mut Vec<Group>, pattern: &Pattern) -> Result<(), AllocError>
    ensures grouped { OnOk result (IsGrouped groups.new.items pattern.now) }
    ensures stay { StayGrouped groups.old.items groups.new.items }
    ensures no_plans { HaveNoPlans groups.old.items → HaveNoPlans groups.new.items }
{
    let arity = pattern.args.len();
    if table_of(groups, pattern.symbol, arity) == groups.len() {
        groups.push(Group {
            symbol: pattern.symbol,
            arity,
            plans: Vec::new(alloc),
        })?;
    }
    Ok(())
}

/// A group for the atoms of each head of a rule.
fn add_groups(alloc: Global, groups: &mut Vec<Group>, rule: &Rule) -> Result<(), AllocError>
    ensures grouped { OnOk result (AreGrouped groups.new.items rule.now (length (heads_of rule.now))) }
    ensures stay { StayGrouped groups.old.items groups.new.items }
    ensures no_plans { HaveNoPlans groups.old.items → HaveNoPlans groups.new.items }
{
    for place in 0..rule.places() {
        add_group(alloc, groups, rule.head_at(place))?;
    }
    Ok(())
}

/// A group for the atoms of each head of these rules, without plans.
pub(crate) fn groups_for(alloc: Global, rules: &[Rule]) -> Result<Vec<Group>, AllocError>
    ensures grouped { IfOk result (λ groups. AllGrouped groups.items rules.now) }
    ensures no_plans { IfOk result (λ groups. HaveNoPlans groups.items) }
{
    let mut groups = Vec::new(alloc);
    for rule in rules {
        add_groups(alloc, &mut groups, rule)?;
    }
    Ok(groups)
}
