//! The legs of a graph before any contraction.
ghost use Rattle.std.specs.Prelude.{◌≡◌, ◌+◌, ◌<◌, ◌≤◌, [], length, replicate, All, IfOk};
ghost use Rattle.ch_graph.specs.declared.limits.TheConstants.{MOST_NODES};
ghost use Rattle.ch_contract.specs.Legs.{SameLegs, opening};
ghost use Rattle.ch_contract.specs.Remaining.{legs_of};

use crate::leg_lists::LegLists;
use crate::remaining::Remaining;
use crate::remaining::light::are_light_arcs;
use ch_graph::{Graph, InArc};
use std::alloc::{AllocError, Global};

impl Remaining {
    /// Returns the legs of a graph before any contraction: the lightest arc from each node to each other node.
    /// Loops give no leg.
    ///
    /// # Errors
    /// `AllocError` if there is no memory for the legs. The graph is as before.
    pub fn open(alloc: Global, graph: &Graph) -> Result<Remaining, AllocError>
        ensures nodes { IfOk result (λ r. r.nodes ≡ graph.now.nodes) }
        ensures legs { IfOk result (λ r. SameLegs (legs_of r) (opening graph.now)) }
        ensures aside { IfOk result (λ r. (r.ups ≡ replicate graph.now.nodes []) × (r.downs ≡ replicate graph.now.nodes [])) }
    {
        let nodes = graph.nodes();
        let rooms = Rooms::of(alloc, nodes, graph.arcs())?;
        let mut outs = LegLists::new(alloc, nodes, rooms.from.as_slice())?;
        let mut ins = LegLists::new(alloc, nodes, rooms.to.as_slice())?;
        drop(rooms);
        for arc in graph.arcs() {
            if arc.from != arc.to {
                outs.put_arc(arc.from, arc.to, arc.weight)?;
                ins.put_arc(arc.to, arc.from, arc.weight)?;
            }
        }
        Ok(Remaining {
            nodes,
            outs,
            ins,
            light: are_light_arcs(graph.arcs()),
            alloc,
        })
    }
}

/// The capacities of the lists of legs: first one for each node, from its number of arcs, and then one zero for
/// each node. The zeros are for the lists that are set aside, which take no room at first.
#[derive(Drop)]
struct Rooms {
    /// By node: the number of arcs from it. Then the zeros.
    from: Vec<u32>,
    /// By node: the number of arcs to it. Then the zeros.
    to: Vec<u32>,
}

impl Rooms {
    fn of(alloc: Global, nodes: u32, arcs: &[InArc]) -> Result<Rooms, AllocError>
        requires nodes { nodes ≤ MOST_NODES }
        requires arcs { All (λ a. (a.from < nodes) × (a.to < nodes)) arcs.now }
        ensures { IfOk result (λ r. (length r.from.items ≡ nodes + nodes) × (length r.to.items ≡ nodes + nodes)) }
    {
        let mut from = vec![in alloc; 0u32; 2 * nodes as usize]?;
        let mut to = vec![in alloc; 0u32; 2 * nodes as usize]?;
        for arc in arcs {
            count_one(&mut from, arc.from);
            count_one(&mut to, arc.to);
        }
        Ok(Rooms { from, to })
    }
}

/// Adds one to the count of a node.
fn count_one(counts: &mut [u32], node: u32)
    requires { node < length counts.old }
    ensures { length counts.new ≡ length counts.old }
{
    let count = &mut counts[node as usize];
    *count = count.saturating_add(1);
}
