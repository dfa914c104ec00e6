//! Facts and stores as they are told: with the names of their columns, where these have some.

use crate::rule_text::NamedProgram;
use chr_base::atom::Atom;
use chr_base::bag::Bag;
use chr_base::text::{in_print_order, push_atom};
use chr_faults::{ColumnNames, columns_of};
use std::alloc::{AllocError, Global};
use std::fmt::Write;

/// Adds a value.
pub(crate) fn push_value(out: &mut String, value: i64) -> Result<(), AllocError> {
    Ok(write!(out, "{value}")?)
}

/// Adds the arguments of a fact behind the names of their columns.
fn push_arguments(
    out: &mut String,
    columns: &ColumnNames,
    arguments: &[i64],
) -> Result<(), AllocError> {
    let mut before = "(";
    for (number, argument) in arguments.iter().enumerate() {
        out.push_str(before)?;
        out.push_str(columns.name(number).unwrap_or("_"))?;
        out.push_str("=")?;
        push_value(out, *argument)?;
        before = ", ";
    }
    out.push_str(if arguments.is_empty() { "" } else { ")" })
}

impl NamedProgram<'_> {
    /// Adds a fact: `seen(parcel=7, time=2)` where its columns have names, and `seen(7,2)` where they have none.
    pub fn push_fact(&self, out: &mut String, fact: &Atom) -> Result<(), AllocError> {
        let Some(columns) = columns_of(&self.names.columns, fact.symbol) else {
            return push_atom(out, self.program, fact);
        };
        if usize::from(fact.symbol.0) < self.program.symbols() {
            out.push_str(self.program.name_of(fact.symbol))?;
        }
        push_arguments(out, columns, fact.args.as_slice())
    }

    /// Adds facts in the order in which they stand, joined by commas.
    pub fn push_facts(&self, out: &mut String, facts: &[Atom]) -> Result<(), AllocError> {
        for (number, fact) in facts.iter().enumerate() {
            out.push_str(if number == 0 { "" } else { ", " })?;
            self.push_fact(out, fact)?;
        }
        Ok(())
    }

    /// Adds the facts of a store in the order in which stores are printed, or `true` for none.
    pub fn push_store(
        &self,
        alloc: Global,
        out: &mut String,
        store: &Bag,
    ) -> Result<(), AllocError> {
        let facts = in_print_order(alloc, self.program, store)?;
        if facts.is_empty() {
            return out.push_str("true");
        }
        self.push_facts(out, &facts)
    }

    /// The text of a store.
    pub fn store_text(&self, alloc: Global, store: &Bag) -> Result<String, AllocError> {
        let mut out = String::new(alloc);
        self.push_store(alloc, &mut out, store)?;
        Ok(out)
    }
}
