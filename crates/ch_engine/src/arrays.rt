//! Graphs of arrays: the ends and the weights of arcs, each in an array of its own.
ghost use Rattle.std.specs.Prelude.{◌≡◌, IfErr, IfOk, length};
ghost use Rattle.ch_engine.specs.Opened.{AreArcsOf, IsOfArrays};
ghost use Rattle.ch_engine.specs.Refusals.{IsArraysError};

use crate::fault::OpenError;
use ch_graph::limits::MOST_ARCS;
use ch_graph::{Graph, GraphFault, InArc};
use std::alloc::{AllocError, Global};

/// Returns the graph of `nodes` nodes where arc k leads from `tails[k]` to `heads[k]` and weighs `weights[k]`.
///
/// # Errors
/// `Lengths` if the lengths differ, otherwise `BadArrays` with the first fault of the graph; or `NoMemory`. Too many arcs are
/// refused before memory is asked for.
pub(crate) fn graph_of(
    alloc: Global,
    nodes: u32,
    tails: &[u32],
    heads: &[u32],
    weights: &[u64],
) -> Result<Graph, OpenError>
    ensures value { IfOk result (IsOfArrays nodes tails.now heads.now weights.now) }
    ensures error { IfErr result (IsArraysError nodes tails.now heads.now weights.now) }
{
    if heads.len() != tails.len() || weights.len() != tails.len() {
        return Err(OpenError::Lengths);
    }
    if tails.len() > MOST_ARCS {
        return Err(OpenError::BadArrays(GraphFault::Size));
    }
    let arcs = arcs_of(alloc, tails, heads, weights)?;
    match Graph::new(nodes, arcs) {
        Ok(roads) => Ok(roads),
        Err(fault) => Err(OpenError::BadArrays(fault)),
    }
}

/// Returns the arcs of arrays of one length, in their order.
fn arcs_of(
    alloc: Global,
    tails: &[u32],
    heads: &[u32],
    weights: &[u64],
) -> Result<Vec<InArc>, AllocError>
    requires heads { length heads.now ≡ length tails.now }
    requires weights { length weights.now ≡ length tails.now }
    ensures { IfOk result (λ arcs. AreArcsOf tails.now heads.now weights.now arcs.items) }
{
    let mut arcs = Vec::with_capacity(alloc, tails.len())?;
    for k in 0..tails.len() {
        arcs.push(InArc {
            from: tails[k],
            to: heads[k],
            weight: weights[k],
        })?;
    }
    Ok(arcs)
}
