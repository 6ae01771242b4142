//! Contractions in any order: of given nodes, and of the next node of the queue.
ghost use Rattle.std.specs.Prelude.{◌≡◌, ◌+◌, ◌<◌, ◌≤◌, false, IfOk, IsTrue, length, take};
ghost use Rattle.ch_contract.specs.Begun.{AreDifferentNodes};
ghost use Rattle.ch_contract.specs.Contraction.{count_touching};
ghost use Rattle.ch_contract.specs.Remaining.{legs_of};
ghost use Rattle.ch_order.specs.Quick.{IsBegunWith, IsTakenWithin};
ghost use Rattle.ch_order.specs.Construction.{IsReadyFor};

use super::Construction;
use super::estimates::Estimates;
use ch_contract::HopBound;
use ch_contract::order::Neighbours;
use ch_graph::Graph;
use ch_hierarchy::Leg;
use ch_work::{Gate, Stage};
use std::alloc::{AllocError, Global};

/// The most pairs of legs of a node that is judged. A node of more pairs waits with an estimate, because to judge it would
/// take much time, and memory for a shortcut of each pair.
const MOST_PAIRS: u64 = 1 << 14;

/// The most legs that touch the neighbours of a node that is judged, where those of each leg of the node count. A search for
/// witnesses looks at them more than once.
const MOST_AROUND: u64 = 1 << 15;

/// The most legs that touch a given node that is contracted when its turn comes. In a good order few nodes of the fresh part
/// have more, and hardly any before. In a bad one the legs of those that have more would soon join most nodes around them.
const MOST_GIVEN_LEGS: u64 = 16;

/// Returns the bound of witnesses of one leg.
fn direct() -> HopBound
    ensures { result.number ≡ 1 }
{
    HopBound { number: 1 }
}

impl Construction {
    /// Contracts those of these nodes that have few legs when their turn comes, in their order. The others wait.
    pub(super) fn take_given<G: Gate>(
        self,
        alloc: Global,
        gate: &G,
        graph: &Graph,
        given: &[u32],
        hops: HopBound,
    ) -> Result<Construction, AllocError>
        requires begun { IsBegunWith graph.now hops.number (take 0 given.now) self }
        requires given { AreDifferentNodes graph.now given.now }
        ensures { IfOk result (IsBegunWith graph.now hops.number given.now) }
    {
        let mut construction = self;
        for place in 0..given.len() {
            gate.watch(Stage::Building, construction.contracted, graph.nodes());
            construction = construction.take_if_small(alloc, graph, given, place, hops)?;
        }
        Ok(construction)
    }

    /// Contracts the node at this place if it has few legs.
    fn take_if_small(
        self,
        alloc: Global,
        graph: &Graph,
        given: &[u32],
        place: usize,
        hops: HopBound,
    ) -> Result<Construction, AllocError>
        requires begun { IsBegunWith graph.now hops.number (take place given.now) self }
        requires place { place < length given.now }
        requires given { AreDifferentNodes graph.now given.now }
        ensures { IfOk result (IsBegunWith graph.now hops.number (take (place + 1) given.now)) }
    {
        let node = given[place];
        if !self.is_small(node) {
            return Ok(self);
        }
        let (taken, _) = self.take_within(alloc, node, hops)?;
        Ok(taken)
    }

    /// Whether few legs touch a node.
    fn is_small(&self, node: u32) -> bool
        requires { node < self.now.remaining.nodes }
        ensures small { IsTrue result → count_touching self.now.remaining.nodes (legs_of self.now.remaining) node ≤ MOST_GIVEN_LEGS }
        ensures large { result ≡ false → MOST_GIVEN_LEGS < count_touching self.now.remaining.nodes (legs_of self.now.remaining) node }
    {
        self.remaining.count_touching(node) <= MOST_GIVEN_LEGS
    }

    /// Contracts a node of the queue, and gives its neighbours keys by estimates.
    pub(super) fn take_next(
        self,
        alloc: Global,
        node: u32,
        hops: HopBound,
        estimates: &mut Estimates,
    ) -> Result<Construction, AllocError>
        requires next { IsReadyFor hops.number self node }
        ensures { IfOk result (IsTakenWithin hops.number self node) }
    {
        let (taken, neighbours) = self.take_within(alloc, node, hops)?;
        Ok(taken.estimate_all(neighbours.as_slice(), estimates))
    }

    /// Contracts a node. Returns its neighbours too. If it has many legs around it, no witness is looked for but a leg.
    fn take_within(
        self,
        alloc: Global,
        node: u32,
        hops: HopBound,
    ) -> Result<(Construction, Neighbours), AllocError>
        requires next { IsReadyFor hops.number self node }
        ensures { IfOk result (λ r. IsTakenWithin hops.number self node r.0) }
    {
        if !self.is_judged(node) && self.is_heavy(node) {
            return self.take_directly(alloc, node, hops);
        }
        self.take_judged(alloc, node, hops)
    }

    /// Contracts a node with the shortcuts that have no witness of at most `hops` legs.
    fn take_judged(
        self,
        alloc: Global,
        node: u32,
        hops: HopBound,
    ) -> Result<(Construction, Neighbours), AllocError>
        requires next { IsReadyFor hops.number self node }
        ensures { IfOk result (λ r. IsTakenWithin hops.number self node r.0) }
    {
        let (taken, neighbours) = self.take(alloc, node, hops)?;
        Ok((taken, neighbours))
    }

    /// Contracts a node with the shortcuts that have no witness of one leg. Returns its neighbours too.
    pub(super) fn take_directly(
        mut self,
        alloc: Global,
        node: u32,
        hops: HopBound,
    ) -> Result<(Construction, Neighbours), AllocError>
        requires next { IsReadyFor hops.number self node }
        ensures { IfOk result (λ r. IsTakenWithin hops.number self node r.0) }
    {
        self.room.forget();
        let (mut taken, neighbours) = self.take(alloc, node, direct())?;
        taken.room.forget();
        Ok((taken, neighbours))
    }

    /// Whether a node was judged since the last contraction, or is not judged because it has many legs around it.
    pub(super) fn is_settled(&self, node: u32) -> bool
        requires { node < self.now.remaining.nodes }
    {
        self.is_judged(node) || self.is_heavy(node)
    }

    /// Whether a node was judged since the last contraction. Then it has few legs around it.
    fn is_judged(&self, node: u32) -> bool {
        self.room.judged.iter().any(|other| *other == node)
    }

    /// Whether a node has many pairs of legs, or its neighbours have many legs.
    pub(super) fn is_heavy(&self, node: u32) -> bool
        requires { node < self.now.remaining.nodes }
    {
        if self.remaining.pairs(node) > MOST_PAIRS {
            return true;
        }
        let from = self.count_around(self.remaining.in_legs(node));
        let to = self.count_around(self.remaining.out_legs(node));
        from.saturating_add(to) > MOST_AROUND
    }

    /// Returns the number of legs that touch the nodes of these legs.
    fn count_around(&self, legs: &[Leg]) -> u64 {
        let mut count = 0u64;
        for leg in legs {
            if leg.node < self.remaining.nodes() {
                count = count.saturating_add(self.remaining.count_touching(leg.node));
            }
        }
        count
    }
}
