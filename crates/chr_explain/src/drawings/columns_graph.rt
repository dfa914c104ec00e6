//! The columns of an overlap with too many cases, as nodes and edges.

use crate::drawings::graph::{Edge, Graph, Meaning, Node, node_with};
use crate::prose::Prose;
use crate::sentences::{columns_text, has_head, push_column, push_symbol};
use chr_base::atom::SymbolId;
use chr_base::program::Program;
use chr_base::rule::Rule;
use chr_base::term::{Cmp, Comparison, Pattern, Term};
use chr_diagnosis::{NamedProgram, sign};
use chr_faults::{Names, push_text};
use chr_overlaps::Overlap;
use chr_sorting::{Sorting, finest_sorts};
use std::alloc::{AllocError, Global};

/// A column of a symbol, counted from 0.
#[derive(Clone, Copy, Debug, PartialEq, Eq)]
struct Column {
    symbol: SymbolId,
    number: usize,
}

/// A comparison of two columns.
#[derive(Clone, Copy, Debug, PartialEq, Eq)]
struct Compared {
    left: Column,
    cmp: Cmp,
    right: Column,
}

/// The column of an atom in which the term stands.
fn column_in(pattern: &Pattern, term: Term) -> Option<Column> {
    for (i, other) in pattern.args.iter().enumerate() {
        if *other == term {
            return Some(Column {
                symbol: pattern.symbol,
                number: i,
            });
        }
    }
    None
}

/// The first column of the rule's heads in which the variable stands. None of a constant.
fn column_of(rule: &Rule, term: Term) -> Option<Column> {
    if let Term::Constant(_) = term {
        return None;
    }
    for place in 0..rule.places() {
        let found = column_in(rule.head_at(place), term);
        if found.is_some() {
            return found;
        }
    }
    None
}

/// The columns that a comparison of the rule compares. None where it compares with a constant.
fn compared_by(rule: &Rule, comparison: &Comparison) -> Option<Compared> {
    let left = column_of(rule, comparison.left)?;
    let right = column_of(rule, comparison.right)?;
    Some(Compared {
        left,
        cmp: comparison.cmp,
        right,
    })
}

/// Adds the columns that the rule compares, but for those that are there.
fn push_compared(compared: &mut Vec<Compared>, rule: &Rule) -> Result<(), AllocError> {
    for comparison in rule.guard.iter() {
        if let Some(one) = compared_by(rule, comparison) {
            if !compared.iter().any(|other| *other == one) {
                compared.push(one)?;
            }
        }
    }
    Ok(())
}

/// The symbols of the heads of two rules, in the order of their declaration.
fn symbols_of(
    alloc: Global,
    program: &Program,
    overlap: &Overlap,
) -> Result<Vec<SymbolId>, AllocError> {
    let mut symbols = Vec::new(alloc);
    let first = program
        .rules()
        .get((overlap.first as usize).saturating_sub(1));
    let second = program
        .rules()
        .get((overlap.second as usize).saturating_sub(1));
    let (Some(first), Some(second)) = (first, second) else {
        return Ok(symbols);
    };
    for number in 0..program.symbols() {
        let symbol = SymbolId(u16::try_from(number).unwrap_or(u16::MAX));
        if has_head(first, symbol) || has_head(second, symbol) {
            symbols.push(symbol)?;
        }
    }
    Ok(symbols)
}

/// The node of a symbol: which of its columns are compared.
fn node_of(
    alloc: Global,
    source: NamedProgram<'_>,
    sorting: &Sorting,
    symbol: SymbolId,
) -> Result<Node, AllocError> {
    let mut name = Prose::new(alloc);
    name.push_number("symbol", u64::from(symbol.0), "");
    let mut text = Prose::new(alloc);
    push_symbol(&mut text, source.program, symbol);
    let columns = columns_text(alloc, source, sorting, symbol)?;
    let mut more = Prose::new(alloc);
    more.push_str(
        columns
            .as_str()
            .strip_prefix("; ")
            .unwrap_or("no column is compared"),
    );
    node_with(name, text, more)
}

/// Adds a further comparison to what an edge says.
fn push_more(out: &mut String, text: &str) -> Result<(), AllocError> {
    push_text(out, ", ", text, "")
}

/// Adds a comparison to the edge of these nodes, which may be a new one.
fn add_edge(
    alloc: Global,
    edges: &mut Vec<Edge>,
    from: usize,
    to: usize,
    text: &str,
) -> Result<(), AllocError> {
    let place = edges
        .iter()
        .take_while(|edge| edge.from != from || edge.to != to)
        .count();
    if let Some(edge) = edges.get_mut(place) {
        push_more(&mut edge.text, text)?;
        return push_more(&mut edge.mark, text);
    }
    let mark = String::from_str(alloc, text)?;
    let text = String::from_str(alloc, text)?;
    edges.push(Edge {
        from,
        to,
        text,
        mark,
    })?;
    Ok(())
}

/// The place of the symbol among these: their number where it is none of them.
fn place_of(symbols: &[SymbolId], symbol: SymbolId) -> usize {
    symbols.iter().take_while(|other| **other != symbol).count()
}

/// What an edge says of a comparison of two columns.
fn compared_text(
    alloc: Global,
    source: NamedProgram<'_>,
    compared: &Compared,
) -> Result<String, AllocError> {
    let mut text = Prose::new(alloc);
    push_column(
        &mut text,
        source,
        compared.left.symbol,
        compared.left.number,
    );
    text.push_text(" ", sign(compared.cmp), " ");
    push_column(
        &mut text,
        source,
        compared.right.symbol,
        compared.right.number,
    );
    text.finish()
}

/// Adds a comparison of two columns, where their symbols have nodes.
fn push_edge(
    alloc: Global,
    edges: &mut Vec<Edge>,
    source: NamedProgram<'_>,
    symbols: &[SymbolId],
    compared: &Compared,
) -> Result<(), AllocError> {
    let left = compared.left;
    let right = compared.right;
    let from = place_of(symbols, left.symbol);
    let to = place_of(symbols, right.symbol);
    if symbols.len() <= from || symbols.len() <= to {
        return Ok(());
    }
    let text = compared_text(alloc, source, compared)?;
    add_edge(alloc, edges, from, to, text.as_str())
}

/// The edges of all columns that rules compare, between these symbols.
fn edges_of(
    alloc: Global,
    source: NamedProgram<'_>,
    symbols: &[SymbolId],
) -> Result<Vec<Edge>, AllocError> {
    let mut compared = Vec::new(alloc);
    for rule in source.program.rules() {
        push_compared(&mut compared, rule)?;
    }
    let mut edges = Vec::new(alloc);
    for one in &compared {
        push_edge(alloc, &mut edges, source, symbols, one)?;
    }
    Ok(edges)
}

/// The symbols of an overlap's heads, with an edge between two of which rules compare columns. None where there are no
/// such rules.
pub(crate) fn columns_graph(
    alloc: Global,
    names: &Names,
    program: &Program,
    overlap: &Overlap,
) -> Result<Option<Graph>, AllocError> {
    let source = NamedProgram { program, names };
    let symbols = symbols_of(alloc, program, overlap)?;
    if symbols.is_empty() {
        return Ok(None);
    }
    let sorting = finest_sorts(alloc, program)?;
    let mut nodes = Vec::new(alloc);
    for symbol in &symbols {
        nodes.push(node_of(alloc, source, &sorting, *symbol)?)?;
    }
    let edges = edges_of(alloc, source, &symbols)?;
    Ok(Some(Graph {
        meaning: Meaning::Columns,
        nodes,
        edges,
        has_words: true,
    }))
}
