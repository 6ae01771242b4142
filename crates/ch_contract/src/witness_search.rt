//! The search for witnesses that have one end in common. It goes back from this end in rounds, and then adds
//! one or two legs from each start.
//!
//! It is written for chains that lead to the end. The lists that it is lent decide which chains these are. If
//! each list has the legs to its node, they are chains of the graph. If each list has the legs from its node,
//! each leg is seen in the other direction, and the chains of the graph begin at the end.
ghost use Rattle.std.specs.Prelude.{◌≡◌, ◌≢◌, ◌<◌, ◌≤◌, ◌↔◌, length, IfOk, OnOk, IsTrue, All};
ghost use Rattle.ch_graph.specs.declared.limits.TheConstants.{MOST_HOPS, MOST_NODES};
ghost use Rattle.ch_graph.specs.Cost.{IsAtMost};
ghost use Rattle.ch_contract.specs.Legs.{AreLegsWithin};

use crate::held_cost::HeldCost;
use crate::known_costs::{KnownCosts, Step};
use crate::leg_lists::LegLists;
use ch_graph::Cost;
use ch_hierarchy::Leg;
use std::alloc::{AllocError, Global};
use std::mem;

/// The chains that a search looks for: they lead to `end`, never touch `avoided`, and cost at most `most`.
#[derive(Clone, Copy, Debug)]
pub(crate) struct Wanted {
    pub(crate) end: u32,
    pub(crate) avoided: u32,
    pub(crate) most: Cost,
}

/// The search for the chains to one end, with its memory.
#[derive(Drop)]
pub(crate) struct WitnessSearch<K> {
    pub(crate) known: KnownCosts<K>,
    /// The nodes whose costs were lowered in the last round, with these costs.
    pub(crate) front: Vec<Step<K>>,
}

impl<K: HeldCost> WitnessSearch<K> {
    ghost use Rattle.ch_contract.specs.HeldCosts.{IsLight, IsHeld};
    ghost use Rattle.ch_contract.specs.LegLists.{AreRows, legs_into};
    ghost use Rattle.ch_contract.specs.KnownCosts.{known_at, known_of, AreTouched, IsClean, IsIdle, AreLeastCosts, AreLegsUpTo, IsLegLight};
    ghost use Rattle.ch_contract.specs.Meeting.{AreListsWithin, AreSmall, IsMet, IsMetAt, IsMetBeyond};

    /// Makes a search with room for `nodes` nodes.
    pub(crate) fn new(alloc: Global, nodes: u32) -> Result<WitnessSearch<K>, AllocError>
        ensures { IfOk result (λ s. IsClean nodes (known_of K.cost s.known)) }
    {
        Ok(WitnessSearch {
            known: KnownCosts::new(alloc, nodes)?,
            front: Vec::new(alloc),
        })
    }

    /// Makes a search without room. It takes no memory.
    pub(crate) fn idle(alloc: Global) -> WitnessSearch<K>
        ensures { IsIdle (known_of K.cost result.known) }
    {
        WitnessSearch {
            known: KnownCosts {
                costs: Vec::new(alloc),
                touched: Vec::new(alloc),
                next: Vec::new(alloc),
            },
            front: Vec::new(alloc),
        }
    }

    /// Gives an idle search room for exactly `nodes` nodes, unless it has that already.
    pub(crate) fn fit(&mut self, alloc: Global, nodes: u32) -> Result<(), AllocError>
        requires { IsIdle (known_of K.cost self.old.known) }
        ensures { OnOk result (IsClean nodes (known_of K.cost self.new.known)) }
    {
        if self.known.costs.len() != nodes as usize {
            self.known = KnownCosts::new(alloc, nodes)?;
        }
        Ok(())
    }

    /// Learns the least costs of chains of at most `rounds` legs to the wanted end. Each list has the legs to its node.
    pub(crate) fn reach(
        &mut self,
        lists: &LegLists,
        wanted: Wanted,
        rounds: u32,
    ) -> Result<(), AllocError>
        requires rounds { rounds ≤ MOST_HOPS }
        requires clean { IsClean (length lists.now.rows) (known_of K.cost self.old.known) }
        requires rows { AreRows lists.now.rows }
        requires limits { AreLegsWithin (length lists.now.rows) (legs_into lists.now.rows) }
        requires light { AreLegsUpTo K.limit (legs_into lists.now.rows) }
        requires nodes { length lists.now.rows ≤ MOST_NODES }
        requires end { (wanted.end < length lists.now.rows) × (wanted.end ≢ wanted.avoided) }
        requires most { IsHeld K.limit wanted.most }
        ensures least { OnOk result (AreLeastCosts (legs_into lists.now.rows) wanted rounds (known_of K.cost self.new.known)) }
        ensures touched { OnOk result (AreTouched (known_of K.cost self.new.known)) }
        ensures size { OnOk result (length (known_of K.cost self.new.known).costs ≡ length lists.now.rows) }
    {
        self.known.next.clear();
        let none = K::of(Cost { weight: 0, arcs: 0 });
        self.known.reserve(1)?;
        self.known.lower(wanted.end, none, true);
        for _round in 0..rounds {
            mem::swap(&mut self.front, &mut self.known.next);
            self.known.next.clear();
            self.known.spread_all(lists, self.front.as_slice(), wanted)?;
        }
        Ok(())
    }

    /// Whether a chain is known from a node that costs at most `most`.
    pub(crate) fn knows(&self, node: u32, most: Cost) -> bool
        requires node { node < length self.now.known.costs.items }
        requires most { IsHeld K.limit most }
        ensures { IsTrue result ↔ IsAtMost (known_at (known_of K.cost self.now.known) node) most }
    {
        self.known.costs[node as usize].is_at_most(K::of(most))
    }

    /// Whether a chain of at most `hops` legs leads from `start` to the wanted end, never touches the avoided
    /// node, and costs at most `most`. The lists are the other ones: if those of `reach` have the legs to their
    /// nodes, these have the legs from them.
    pub(crate) fn meets(
        &self,
        lists: &LegLists,
        avoided: u32,
        start: u32,
        most: Cost,
        hops: u32,
    ) -> bool
        requires start { start < length lists.now.rows }
        requires size { length self.now.known.costs.items ≡ length lists.now.rows }
        requires limits { AreListsWithin K.limit (length lists.now.rows) lists.now.rows }
        requires small { AreSmall K.limit (known_of K.cost self.now.known) }
        requires most { IsHeld K.limit most }
        ensures { IsTrue result ↔ IsMet (known_of K.cost self.now.known) lists.now.rows avoided start most hops }
    {
        let most = K::of(most);
        for leg in lists.at(start) {
            if leg.node != avoided && self.meets_at(lists, *leg, most, hops) {
                return true;
            }
        }
        false
    }

    /// Whether this leg and a known chain cost at most `most`, or this leg, one more leg and a known chain do.
    #[inline]
    fn meets_at(&self, lists: &LegLists, leg: Leg, most: K, hops: u32) -> bool
        requires leg { IsLegLight K.limit (length lists.now.rows) leg }
        requires size { length self.now.known.costs.items ≡ length lists.now.rows }
        requires limits { AreListsWithin K.limit (length lists.now.rows) lists.now.rows }
        requires small { AreSmall K.limit (known_of K.cost self.now.known) }
        requires most { IsHeld K.limit (K.cost most) }
        ensures { IsTrue result ↔ IsMetAt (known_of K.cost self.now.known) lists.now.rows leg (K.cost most) hops }
    {
        let first = K::of(leg.cost);
        first.is_at_most(most)
            && (self.known.costs[leg.node as usize]
                .plus(first)
                .is_at_most(most)
                || (hops > 1 && self.meets_beyond(lists.at(leg.node), first, most)))
    }

    /// Whether a leg of the cost `first`, one of these legs and a known chain together cost at most `most`.
    #[inline]
    fn meets_beyond(&self, legs: &[Leg], first: K, most: K) -> bool
        requires legs { All (IsLegLight K.limit (length self.now.known.costs.items)) legs.now }
        requires first { IsLight K.limit (K.cost first) }
        requires small { AreSmall K.limit (known_of K.cost self.now.known) }
        requires most { IsHeld K.limit (K.cost most) }
        ensures { IsTrue result ↔ IsMetBeyond (known_of K.cost self.now.known) legs.now (K.cost first) (K.cost most) }
    {
        for leg in legs {
            let cost = K::of(leg.cost).plus(first);
            if self.known.costs[leg.node as usize]
                .plus(cost)
                .is_at_most(most)
            {
                return true;
            }
        }
        false
    }

    /// Forgets all known costs.
    pub(crate) fn clear(&mut self)
        requires { AreTouched (known_of K.cost self.old.known) }
        ensures { IsClean (length (known_of K.cost self.old.known).costs) (known_of K.cost self.new.known) }
    {
        self.known.clear();
    }
}
