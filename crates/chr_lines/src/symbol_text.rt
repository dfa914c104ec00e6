//! What is wrong with an atom that a program doesn't declare, in sentences.

use crate::json_text::push_bytes;
use crate::limits::MAX_TOLD_DECLARED;
use crate::lines_text::Source;
use crate::mistake::Undeclared;
use chr_base::atom::SymbolId;
use chr_base::program::Program;
use chr_faults::{columns_of, push_number};
use std::alloc::AllocError;

/// Adds a name with a number of arguments.
fn push_symbol(out: &mut String, name: &str, arity: usize) -> Result<(), AllocError> {
    out.push_str("`")?;
    push_bytes(out, name.as_bytes())?;
    push_number(out, "/", arity as u64, "`")
}

/// Whether the program declares a symbol of this name.
fn declares_name(program: &Program, name: &str) -> bool {
    (0..program.symbols()).any(|number| program.name_of(SymbolId(number as u16)) == name)
}

/// Adds the names of a symbol's columns, where they have some.
fn push_columns(out: &mut String, source: Source<'_>, symbol: SymbolId) -> Result<(), AllocError> {
    match columns_of(source.columns, symbol) {
        Some(columns) => columns.push(out),
        None => Ok(()),
    }
}

/// Adds declared symbols, the first `MAX_TOLD_DECLARED`: those of the atom's name where there are some, else all.
fn push_declared(out: &mut String, source: Source<'_>, it: &Undeclared) -> Result<(), AllocError> {
    let program = source.program;
    let is_named = declares_name(program, it.name.as_str());
    let mut count: usize = 0;
    for number in 0..program.symbols() {
        let symbol = SymbolId(number as u16);
        let name = program.name_of(symbol);
        if is_named && name != it.name.as_str() {
            continue;
        }
        count = count.saturating_add(1);
        if count <= MAX_TOLD_DECLARED {
            out.push_str(if count == 1 { " " } else { ", " })?;
            push_symbol(out, name, program.arity_of(symbol))?;
            push_columns(out, source, symbol)?;
        }
    }
    out.push_str(if count > MAX_TOLD_DECLARED {
        ", .."
    } else {
        ""
    })
}

/// Tells that the program doesn't declare an atom.
pub(crate) fn push_undeclared(
    out: &mut String,
    source: Source<'_>,
    it: &Undeclared,
) -> Result<(), AllocError> {
    push_symbol(out, it.name.as_str(), it.arity)?;
    if source.program.symbols() == 0 {
        return out.push_str(" is not declared, and nothing else is");
    }
    out.push_str(" is not declared; declared are")?;
    push_declared(out, source, it)
}
