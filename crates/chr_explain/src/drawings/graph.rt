//! Nodes and edges that are drawn of a program: by Graphviz, or on a page.

use crate::prose::Prose;
use std::alloc::AllocError;

/// A node.
pub(crate) struct Node {
    /// Its name in the language of Graphviz.
    pub name: String,
    /// What it says in its first line.
    pub text: String,
    /// What it says below, if that is not empty.
    pub more: String,
}

/// A node with this name that says this.
pub(crate) fn node_with(name: Prose, text: Prose, more: Prose) -> Result<Node, AllocError> {
    Ok(Node {
        name: name.finish()?,
        text: text.finish()?,
        more: more.finish()?,
    })
}

/// An edge.
pub(crate) struct Edge {
    /// The places of its nodes, counted from 0.
    pub from: usize,
    pub to: usize,
    /// What it says.
    pub text: String,
    /// The same in a few characters.
    pub mark: String,
}

/// What the edges say.
#[derive(Clone, Copy, Debug, PartialEq, Eq)]
pub(crate) enum Meaning {
    /// Rules have cases in common.
    Overlaps,
    /// A rule gives what the next one takes.
    Cycle,
    /// Rules compare two columns.
    Columns,
}

/// What is drawn.
pub(crate) struct Graph {
    pub meaning: Meaning,
    pub nodes: Vec<Node>,
    pub edges: Vec<Edge>,
    /// Whether what is told of the program is to stand below, since the nodes and edges don't say all of it.
    pub has_words: bool,
}

// What is derived would be proved again at each end of a function that lets them go.
impl Drop for Node {
    fn drop(self) {
        let Node {
            name: _name,
            text: _text,
            more: _more,
        } = self;
    }
}

impl Drop for Edge {
    fn drop(self) {
        let Edge {
            from: _from,
            to: _to,
            text: _text,
            mark: _mark,
        } = self;
    }
}

impl Drop for Graph {
    fn drop(self) {
        let Graph {
            meaning: _meaning,
            nodes: _nodes,
            edges: _edges,
            has_words: _has_words,
        } = self;
    }
}
