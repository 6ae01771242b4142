//! Witnesses among the remaining legs.
ghost use Rattle.std.specs.Prelude.{◌≡◌, ◌≢◌, ◌<◌, ◌≤◌, ◌↔◌, IfOk, OnOk, IsTrue};
ghost use Rattle.ch_graph.specs.declared.limits.TheConstants.{MOST_HOPS, MOST_WEIGHT};
ghost use Rattle.ch_graph.specs.Cost.{IsAtMost};
ghost use Rattle.ch_contract.specs.Legs.{HasWitness};
ghost use Rattle.ch_contract.specs.HeldCosts.{IsHeld};
ghost use Rattle.ch_contract.specs.KnownCosts.{known_of, IsClean, AreTouched, AreLegsUpTo};
ghost use Rattle.ch_contract.specs.Candidates.{IsKnown, known_legs};
ghost use Rattle.ch_contract.specs.Remaining.{legs_of};

use crate::held_cost::{HeldCost, MOST_CHAIN_ARCS};
use crate::hop_bound::HopBound;
use crate::remaining::Remaining;
use crate::witness_search::{Wanted, WitnessSearch};
use ch_graph::Cost;
use std::alloc::AllocError;

/// Returns the most legs of the chains that are learned before witnesses of at most `hops` legs are looked for: two legs less,
/// because these are looked for from the other end. The only leg of a witness is learned, because with it each end is looked
/// up in one step.
fn known_legs(hops: HopBound) -> u32
    ensures legs { result ≡ known_legs hops.number }
    ensures few { result ≤ MOST_HOPS }
{
    if hops.number == 1 {
        return 1;
    }
    hops.number.saturating_sub(2)
}

impl Remaining {
    /// Whether a chain of 1 to `hops` legs leads from `u` to `w`, avoids `v`, and costs at most `cost`.
    /// The search goes forward from `u` until two legs are left, and then these two legs back from `w`.
    ///
    /// # Errors
    /// `AllocError` if there is no memory for the search. The legs are as before.
    pub fn has_witness(
        &self,
        v: u32,
        u: u32,
        w: u32,
        cost: Cost,
        hops: HopBound,
    ) -> Result<bool, AllocError>
        requires nodes { (v < self.now.nodes) × (u < self.now.nodes) × (w < self.now.nodes) }
        requires apart { (v ≢ u) × (v ≢ w) × (u ≢ w) }
        requires cost { cost.weight ≤ MOST_WEIGHT }
        ensures { IfOk result (λ found. IsTrue found ↔ HasWitness (legs_of self.now) v u w cost hops.number) }
    {
        let nodes = self.nodes();
        let most = Cost {
            weight: cost.weight,
            arcs: cost.arcs.min(MOST_CHAIN_ARCS),
        };
        let wanted = Wanted {
            end: u,
            avoided: v,
            most,
        };
        let mut search: WitnessSearch<Cost> = WitnessSearch::new(self.alloc, nodes)?;
        self.reach(&mut search, wanted, hops)?;
        Ok(self.is_witnessed(&search, wanted, w, most, hops))
    }

    /// Learns the costs of the chains of at most [`known_legs`] legs from the wanted end. A witness may add two legs to
    /// them, or none if it has only one.
    ///
    /// The search is written for chains to the end, over the legs to each node. This call lends it the legs
    /// from each node instead, so it sees each leg in the other direction. The chains that it finds start at
    /// the end.
    pub(super) fn reach<K: HeldCost>(
        &self,
        search: &mut WitnessSearch<K>,
        wanted: Wanted,
        hops: HopBound,
    ) -> Result<(), AllocError>
        requires light { AreLegsUpTo K.limit (legs_of self.now) }
        requires clean { IsClean self.now.nodes (known_of K.cost search.old.known) }
        requires end { (wanted.end < self.now.nodes) × (wanted.end ≢ wanted.avoided) }
        requires most { IsHeld K.limit wanted.most }
        ensures known { OnOk result (IsKnown self.now wanted hops.number (known_of K.cost search.new.known)) }
        ensures touched { OnOk result (AreTouched (known_of K.cost search.new.known)) }
    {
        search.reach(&self.outs, wanted, known_legs(hops))
    }

    /// Whether there is a witness from the wanted end to `w`, of at most `hops` legs and at most this
    /// cost. `search` knows the first legs, as `reach` learned them. This call lends it the legs to each node
    /// as the legs from it, in the other direction as in `reach`. A witness of one leg is looked up in one step.
    pub(super) fn is_witnessed<K: HeldCost>(
        &self,
        search: &WitnessSearch<K>,
        wanted: Wanted,
        w: u32,
        cost: Cost,
        hops: HopBound,
    ) -> bool
        requires light { AreLegsUpTo K.limit (legs_of self.now) }
        requires known { IsKnown self.now wanted hops.number (known_of K.cost search.now.known) }
        requires node { w < self.now.nodes }
        requires end { wanted.end < self.now.nodes }
        requires apart { (w ≢ wanted.avoided) × (w ≢ wanted.end) }
        requires cost { IsHeld K.limit cost × IsAtMost cost wanted.most }
        requires most { IsHeld K.limit wanted.most }
        ensures { IsTrue result ↔ HasWitness (legs_of self.now) wanted.avoided wanted.end w cost hops.number }
    {
        let ins = &self.ins;
        if hops.number == 1 {
            return search.knows(w, cost);
        }
        search.meets(ins, wanted.avoided, w, cost, hops.number)
    }
}
