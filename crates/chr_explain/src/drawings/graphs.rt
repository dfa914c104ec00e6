//! Which nodes and edges are drawn of what is to be told.

use crate::drawings::census_graph::census_graph;
use crate::drawings::columns_graph::columns_graph;
use crate::drawings::cycle_graph::cycle_graph;
use crate::drawings::graph::Graph;
use chr_diagnosis::{Census, Diagnosis, Throng, Unlowered};
use chr_faults::Names;
use chr_weighing::Weighing;
use std::alloc::{AllocError, Global};

/// The rules that keep the weight, where they are known.
fn unlowered_graph(
    alloc: Global,
    text: &[u8],
    told: &Unlowered,
) -> Result<Option<Graph>, AllocError> {
    let Weighing::Cycle(cycle) = &told.weighing else {
        return Ok(None);
    };
    let names = Names::of(alloc, text, &told.program)?;
    let graph = cycle_graph(alloc, &names, &told.program, cycle)?;
    Ok(Some(graph))
}

/// The rules of an accepted program, and their cases.
fn accepted_graph(
    alloc: Global,
    text: &[u8],
    census: &Census,
) -> Result<Option<Graph>, AllocError> {
    let names = Names::of(alloc, text, census.accepted.program())?;
    let graph = census_graph(alloc, &names, census)?;
    Ok(Some(graph))
}

/// The columns that are compared by an overlap with too many cases.
fn throng_graph(alloc: Global, text: &[u8], throng: &Throng) -> Result<Option<Graph>, AllocError> {
    let program = throng.weighed.program();
    let names = Names::of(alloc, text, program)?;
    columns_graph(alloc, &names, program, &throng.too_many.overlap)
}

/// The nodes and edges that are drawn of what is to be told. None where it is drawn in another way.
pub(crate) fn graph_of(
    alloc: Global,
    text: &[u8],
    diagnosis: &Diagnosis,
) -> Result<Option<Graph>, AllocError> {
    match diagnosis {
        Diagnosis::Accepted(census) => accepted_graph(alloc, text, census),
        Diagnosis::NotLowered(told) => unlowered_graph(alloc, text, told),
        Diagnosis::TooManyCombinations(throng) => throng_graph(alloc, text, throng),
        _ => Ok(None),
    }
}
