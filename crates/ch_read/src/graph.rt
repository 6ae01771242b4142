//! Graph files.
ghost use Rattle.std.specs.Prelude.{IfOk};
ghost use Rattle.ch_graph.specs.Graph.{Network, IsWithinLimits};
ghost use Rattle.ch_read.specs.declared.fault.ReadFault.{ReadFault as FaultAt};
ghost use Rattle.ch_read.specs.Answers.{AnswersWhere};
ghost use Rattle.ch_read.specs.Checks.{IsFault};
ghost use Rattle.ch_read.specs.Names.{NamesGraph};

use crate::fault::ReadError;
use crate::form::{Form, Item};
use crate::reader::{FromItem, read_items};
use crate::sections::{SECTION, read_items_by};
use ch_graph::{Graph, InArc};
use ch_work::{Crew, Gate};
use std::alloc::Global;
use std::thread::Threads;

/// Reads the graph that the bytes of a `.gr` file name. The time is linear in the number of bytes. Memory grows
/// with the lines that were read, and not with the numbers in the problem line.
///
/// # Errors
/// The first fault of the first faulty line, or `NoMemory` if there is no memory for the arcs.
pub fn read_graph(alloc: Global, bytes: &[u8]) -> Result<Graph, ReadError>
    ensures value { (g : Network) → AnswersWhere result (Ok g) (NamesGraph bytes.now g) }
    ensures fault { (f : FaultAt) →
        AnswersWhere result (Err (ReadError.Fault f)) (IsFault Form.Graph bytes.now f.line f.kind) }
    ensures limits { IfOk result IsWithinLimits }
{
    let (heading, arcs, _) = read_items::<InArc, ()>(alloc, Form::Graph, bytes)?;
    Ok(Graph::from_judged(heading.nodes, arcs))
}

/// Does the same as [`read_graph`] with the workers of a crew, which share sections of the file. They pass no
/// gate.
///
/// # Errors
/// The errors of [`read_graph`].
pub fn read_graph_by<R: Threads + Sync, G: Gate>(
    crew: &Crew<'_, R, G>,
    bytes: &[u8],
) -> Result<Graph, ReadError>
    ensures value { (g : Network) → AnswersWhere result (Ok g) (NamesGraph bytes.now g) }
    ensures fault { (f : FaultAt) →
        AnswersWhere result (Err (ReadError.Fault f)) (IsFault Form.Graph bytes.now f.line f.kind) }
    ensures limits { IfOk result IsWithinLimits }
{
    read_graph_in_sections(crew, SECTION, bytes)
}

/// Does the same as [`read_graph_by`] in sections of more than `size` bytes each, except the last. The result
/// does not depend on the size.
///
/// # Errors
/// The errors of [`read_graph`].
pub fn read_graph_in_sections<R: Threads + Sync, G: Gate>(
    crew: &Crew<'_, R, G>,
    size: usize,
    bytes: &[u8],
) -> Result<Graph, ReadError>
    ensures value { (g : Network) → AnswersWhere result (Ok g) (NamesGraph bytes.now g) }
    ensures fault { (f : FaultAt) →
        AnswersWhere result (Err (ReadError.Fault f)) (IsFault Form.Graph bytes.now f.line f.kind) }
    ensures limits { IfOk result IsWithinLimits }
{
    let (heading, arcs, _) = read_items_by::<R, G, InArc, ()>(crew, size, Form::Graph, bytes)?;
    Ok(Graph::from_judged(heading.nodes, arcs))
}

impl FromItem for InArc {
    ghost from_item_gives = { λ item.
        record { from = item.first; to = item.second; weight = item.weight } };

    fn from_item(item: Item) -> InArc {
        InArc {
            from: item.first,
            to: item.second,
            weight: item.weight,
        }
    }
}
