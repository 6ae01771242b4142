//! Nested dissection: a graph is cut in two by a small separator, which comes last, and so are both sides.
ghost use Rattle.std.specs.Prelude.{◌≡◌, IfOk};
ghost use Rattle.ch_hierarchy.specs.Saved.{IsOrderOf};

use crate::chains::Chains;
use crate::core_rows::Core;
use crate::neighbours::Neighbours;
use crate::order::completed;
use crate::parts::Parts;
use crate::sharing::in_order;
use ch_graph::Graph;
use ch_work::{Crew, Gate};
use std::alloc::{AllocError, Global};
use std::thread::Threads;

/// Returns a nested dissection order of the nodes of a graph. Neither weights nor directions of arcs count.
///
/// Nodes with at most two neighbours come first. A part of what is left is cut by a greatest flow from three tenths of its
/// nodes to three tenths at its other end, where nodes are sorted by how much farther they are from one end of a walk
/// than from the other. It is cut once along that walk and once across, and the separator is kept that has the fewest
/// nodes for the size of the smaller side. At most eight nodes are not cut: of these the one with the fewest neighbours
/// comes first, and its neighbours are joined.
///
/// After the first cut the workers share the parts. The order is the same for each number of workers.
///
/// # Errors
/// `AllocError` if there is no memory.
pub fn dissect<R: Threads + Sync, G: Gate>(
    crew: &Crew<'_, R, G>,
    graph: &Graph,
) -> Result<Vec<u32>, AllocError>
    ensures { IfOk result (λ order. IsOrderOf graph.now.nodes order.items) }
{
    let Reduced { core, order } = Reduced::of(crew.alloc, graph)?;
    let parts = in_order(crew, &core.rows)?;
    joined(crew.alloc, graph, &core, &parts, order)
}

/// What is left of a graph once the nodes of chains are taken, and these nodes in order.
#[derive(Drop)]
pub(crate) struct Reduced {
    pub(crate) core: Core,
    pub(crate) order: Vec<u32>,
}

impl Reduced {
    /// Takes the nodes of chains out of a graph.
    ///
    /// # Errors
    /// `AllocError` if there is no memory.
    pub(crate) fn of(alloc: Global, graph: &Graph) -> Result<Reduced, AllocError> {
        let rows = Neighbours::of(alloc, graph)?;
        let chains = Chains::of(alloc, rows)?;
        let core = Core::of(alloc, &chains)?;
        Ok(Reduced {
            core,
            order: chains.order,
        })
    }
}

/// Returns the order of all nodes: first those of chains, and then those of the core in the order of its parts.
///
/// # Errors
/// `AllocError` if there is no memory.
pub(crate) fn joined(
    alloc: Global,
    graph: &Graph,
    core: &Core,
    parts: &Parts,
    chains: Vec<u32>,
) -> Result<Vec<u32>, AllocError>
    requires { parts.now.count ≡ core.now.rows.count }
    ensures { IfOk result (λ order. IsOrderOf graph.now.nodes order.items) }
{
    let mut order = chains;
    push_names(core, parts, &mut order)?;
    completed(alloc, graph.nodes(), order.as_slice())
}

/// Appends the nodes of a core in the order of its parts.
fn push_names(core: &Core, parts: &Parts, order: &mut Vec<u32>) -> Result<(), AllocError>
    requires { parts.now.count ≡ core.now.rows.count }
{
    for place in 0..parts.nodes.len() {
        order.push(core.names[parts.nodes[place] as usize])?;
    }
    Ok(())
}
