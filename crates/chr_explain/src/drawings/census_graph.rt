//! The rules of an accepted program and their cases, as nodes and edges.

use crate::drawings::graph::{Edge, Graph, Meaning, Node, node_with};
use crate::drawings::groups::{Group, groups_of, place_of_rule};
use crate::drawings::limits::MAX_TOLD_COPIES;
use crate::prose::Prose;
use crate::sentences::{ToldPair, pairs_of, push_numbers};
use chr_diagnosis::{Census, NamedProgram, told_rule};
use chr_faults::Names;
use chr_join::Coverage;
use std::alloc::{AllocError, Global};

/// Two groups of copies, by their places, with what their pairs of rules have together.
#[derive(Clone, Copy)]
struct Link {
    from: usize,
    to: usize,
    pair: ToldPair,
}

/// Tells of the copies of a group's first rule, where it has some.
fn push_copies(out: &mut Prose, group: &Group) {
    let copies = group.rules.len().saturating_sub(1);
    if copies == 0 {
        return;
    }
    out.push_number("and ", copies as u64, " more like it: rules");
    for (i, rule) in group.rules.iter().enumerate() {
        if 0 < i && i <= MAX_TOLD_COPIES {
            let before = if i == 1 { " " } else { ", " };
            out.push_number(before, u64::from(*rule), "");
        }
    }
    out.push_str(if MAX_TOLD_COPIES < copies { ", .." } else { "" })
}

/// The node of a group: its first rule.
fn node_of(alloc: Global, source: NamedProgram<'_>, group: &Group) -> Result<Node, AllocError> {
    let number = group.first();
    let mut name = Prose::new(alloc);
    name.push_number("rule", u64::from(number), "");
    let mut text = Prose::new(alloc);
    if let Some(rule) = told_rule(source, number as usize) {
        text.push_clause(alloc, rule);
    }
    let mut more = Prose::new(alloc);
    push_copies(&mut more, group);
    node_with(name, text, more)
}

/// The groups of a pair of rules.
fn link_of(groups: &[Group], pair: &ToldPair) -> Link {
    let first = place_of_rule(groups, pair.first);
    let second = place_of_rule(groups, pair.second);
    Link {
        from: first.min(second),
        to: first.max(second),
        pair: *pair,
    }
}

/// Adds a pair of rules to the link of its groups, which may be a new one.
fn add_link(links: &mut Vec<Link>, link: Link) -> Result<(), AllocError> {
    let place = links
        .iter()
        .take_while(|other| other.from != link.from || other.to != link.to)
        .count();
    if let Some(other) = links.get_mut(place) {
        other.pair = other.pair.plus(&link.pair);
        return Ok(());
    }
    links.push(link)?;
    Ok(())
}

/// Whether the pair has cases: sorted ones are not counted, so that each pair may have some.
fn has_cases(pair: &ToldPair, coverage: Coverage) -> bool {
    coverage == Coverage::Sorted || pair.cases != 0
}

/// The edge of two groups.
fn edge_of(alloc: Global, link: &Link, coverage: Coverage) -> Result<Edge, AllocError> {
    let mut text = Prose::new(alloc);
    push_numbers(&mut text, &link.pair, coverage);
    let number = match coverage {
        Coverage::Joint => link.pair.cases,
        Coverage::Sorted => link.pair.overlaps,
    };
    let mut mark = Prose::new(alloc);
    mark.push_number("", number as u64, "");
    Ok(Edge {
        from: link.from,
        to: link.to,
        text: text.finish()?,
        mark: mark.finish()?,
    })
}

/// The edges between groups, one for all pairs of rules of two groups.
fn edges_of(alloc: Global, groups: &[Group], census: &Census) -> Result<Vec<Edge>, AllocError> {
    let coverage = census.accepted.coverage();
    let pairs = pairs_of(alloc, &census.counts)?;
    let mut links = Vec::new(alloc);
    for pair in &pairs {
        if has_cases(pair, coverage) {
            add_link(&mut links, link_of(groups, pair))?;
        }
    }
    let mut edges = Vec::new(alloc);
    for link in &links {
        edges.push(edge_of(alloc, link, coverage)?)?;
    }
    Ok(edges)
}

/// The rules of an accepted program, copies as one node, with an edge where they have cases.
pub(crate) fn census_graph(
    alloc: Global,
    names: &Names,
    census: &Census,
) -> Result<Graph, AllocError> {
    let program = census.accepted.program();
    let groups = groups_of(alloc, program)?;
    let mut nodes = Vec::new(alloc);
    for group in &groups {
        nodes.push(node_of(alloc, NamedProgram { program, names }, group)?)?;
    }
    let edges = edges_of(alloc, &groups, census)?;
    Ok(Graph {
        meaning: Meaning::Overlaps,
        nodes,
        edges,
        has_words: false,
    })
}
