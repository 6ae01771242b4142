//! Chains: nodes with at most two neighbours. They are contracted first, and no witness of more than one leg is looked for.
ghost use Rattle.std.specs.Prelude.{◌≡◌, ◌<◌, length, IfOk, IsTrue};
ghost use Rattle.ch_order.specs.Quick.{HasKey, IsUnderWay};

use super::Construction;
use ch_contract::HopBound;
use ch_graph::Graph;
use ch_hierarchy::Leg;
use ch_work::{Gate, Stage};
use std::alloc::{AllocError, Global};
use std::mem;

/// The most neighbours of a node in a chain.
const MOST_NEIGHBOURS: usize = 2;

/// Whether a leg of this list has this node.
fn has_node(legs: &[Leg], node: u32) -> bool {
    legs.iter().any(|leg| leg.node == node)
}

/// Whether these legs from a node and to it have at most two nodes.
fn have_two_nodes(up: &[Leg], down: &[Leg]) -> bool {
    if up.len() > MOST_NEIGHBOURS || down.len() > MOST_NEIGHBOURS {
        return false;
    }
    let mut count = up.len();
    for leg in down {
        if !has_node(up, leg.node) {
            count = count.saturating_add(1);
        }
    }
    count <= MOST_NEIGHBOURS
}

/// A round of contractions, in which no two neighbours are contracted.
#[derive(Drop)]
struct Round {
    /// How many nodes were contracted when the round began.
    number: u32,
    /// By node: the number of the last round in which a neighbour was contracted.
    marks: Vec<u32>,
    /// The nodes that the next round looks at.
    next: Vec<u32>,
}

impl Round {
    /// Makes the state before the first round, which looks at these nodes of a graph with `count` nodes.
    fn before(alloc: Global, nodes: &[u32], count: u32) -> Result<Round, AllocError> {
        let marks = vec![in alloc; u32::MAX; count as usize]?;
        let next = Vec::from_slice(alloc, nodes)?;
        Ok(Round {
            number: 0,
            marks,
            next,
        })
    }

    /// Begins a round when so many nodes are contracted. Returns the nodes that it looks at.
    fn begin(&mut self, alloc: Global, contracted: u32) -> Vec<u32> {
        self.number = contracted;
        mem::replace(&mut self.next, Vec::new(alloc))
    }

    /// Whether a neighbour of the node was contracted in this round.
    fn is_marked(&self, node: u32) -> bool {
        self.marks.get(node as usize) == Some(&self.number)
    }

    /// Marks these neighbours of a node that is contracted. The next round looks at them.
    fn mark_all(&mut self, nodes: &[u32]) -> Result<(), AllocError> {
        for node in nodes {
            if let Some(mark) = self.marks.get_mut(*node as usize) {
                *mark = self.number;
            }
            self.next.push(*node)?;
        }
        Ok(())
    }
}

impl Construction {
    /// Contracts the nodes with at most two neighbours, and again those that then have at most two, until no node has so few.
    /// They are taken in rounds. No two neighbours are contracted in one round, so that a chain is halved.
    ///
    /// A shortcut is put in for each pair of neighbours, unless a leg between the two costs at most as much.
    pub(super) fn without_chains<G: Gate>(
        self,
        alloc: Global,
        gate: &G,
        graph: &Graph,
        given: &[u32],
        nodes: &[u32],
        hops: HopBound,
    ) -> Result<Construction, AllocError>
        requires under_way { IsUnderWay graph.now hops.number given.now self }
        ensures { IfOk result (IsUnderWay graph.now hops.number given.now) }
    {
        let mut round = Round::before(alloc, nodes, graph.nodes())?;
        let mut construction = self;
        for _ in 0..graph.nodes() {
            let list = round.begin(alloc, construction.contracted);
            if list.is_empty() {
                break;
            }
            construction = construction.after_round(
                gate,
                graph,
                given,
                list.as_slice(),
                &mut round,
                hops,
            )?;
        }
        Ok(construction)
    }

    /// Contracts those of these nodes that are in chains and have no neighbour that was contracted in this round.
    fn after_round<G: Gate>(
        self,
        gate: &G,
        graph: &Graph,
        given: &[u32],
        nodes: &[u32],
        round: &mut Round,
        hops: HopBound,
    ) -> Result<Construction, AllocError>
        requires under_way { IsUnderWay graph.now hops.number given.now self }
        ensures { IfOk result (IsUnderWay graph.now hops.number given.now) }
    {
        let mut construction = self;
        for node in nodes {
            gate.watch(Stage::Building, construction.contracted, graph.nodes());
            construction = construction.after_node(graph, given, *node, round, hops)?;
        }
        Ok(construction)
    }

    /// Contracts a node if it is in a chain and has no neighbour that was contracted in this round. A node in a chain that
    /// has one is left to the next round.
    fn after_node(
        self,
        graph: &Graph,
        given: &[u32],
        node: u32,
        round: &mut Round,
        hops: HopBound,
    ) -> Result<Construction, AllocError>
        requires under_way { IsUnderWay graph.now hops.number given.now self }
        ensures { IfOk result (IsUnderWay graph.now hops.number given.now) }
    {
        if !self.is_in_chain(node) {
            return Ok(self);
        }
        if round.is_marked(node) {
            round.next.push(node)?;
            return Ok(self);
        }
        let alloc = *self.levels.allocator();
        let (taken, neighbours) = self.take_directly(alloc, node, hops)?;
        round.mark_all(neighbours.as_slice())?;
        Ok(taken)
    }

    /// Whether a node is in the queue and has at most two neighbours.
    fn is_in_chain(&self, node: u32) -> bool
        requires sizes { self.now.remaining.nodes ≡ length self.now.waiting }
        ensures { IsTrue result → HasKey self.now.waiting node }
    {
        self.waits(node)
            && have_two_nodes(self.remaining.out_legs(node), self.remaining.in_legs(node))
    }

    /// Whether a node is in the queue.
    pub(super) fn waits(&self, node: u32) -> bool
        requires sizes { self.now.remaining.nodes ≡ length self.now.waiting }
        ensures key { IsTrue result → HasKey self.now.waiting node }
        ensures node { IsTrue result → node < self.now.remaining.nodes }
    {
        node < self.remaining.nodes() && self.waiting.key(node).is_some()
    }
}
