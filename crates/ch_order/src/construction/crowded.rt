//! Given nodes that are contracted as they come, unless too many legs touch one of them.
ghost use Rattle.std.specs.Prelude.{◌≡◌, ℕ, ◌<◌, false, Err, IfOk, IsTrue};
ghost use Rattle.ch_contract.specs.Begun.{AreDifferentNodes};
ghost use Rattle.ch_contract.specs.Remaining.{legs_of};
ghost use Rattle.ch_order.specs.Construction.{HasGiven};
ghost use Rattle.ch_order.specs.Crowded.{HasCrowded, IsCrowded};
ghost use Rattle.ch_order.specs.declared.construction.like.LikeError.TheVariants as LikeError;

use super::Construction;
use super::like::LikeError;
use ch_contract::HopBound;
use ch_graph::Graph;
use ch_work::{Gate, Stage};
use std::alloc::Global;

/// The most legs that touch a given node in its turn, if its contraction is named. In a good order of a road network no node
/// has so many before the last hundredth. In a bad one the legs of those that have more would soon join most nodes around them.
const MOST_NAMED_LEGS: u64 = 128;

/// The nodes that are looked at are all but one in so many.
const LAST_PART: u32 = 100;

impl Construction {
    /// Starts the construction of the hierarchy of a graph, in which these nodes are contracted as they come. The others have
    /// no priorities yet.
    ///
    /// # Errors
    /// `Crowded` with the first of these nodes that too many legs touch in its turn, and `NoMemory` if there is no memory.
    pub(super) fn after_uncrowded<G: Gate>(
        alloc: Global,
        gate: &G,
        graph: &Graph,
        nodes: &[u32],
        hops: HopBound,
    ) -> Result<Construction, LikeError>
        requires nodes { AreDifferentNodes graph.now nodes.now }
        ensures given { IfOk result (HasGiven graph.now hops.number nodes.now) }
        ensures few { IfOk result (λ _. (v : ℕ) → HasCrowded graph.now hops.number nodes.now v → ⊥) }
        ensures crowded { (v : ℕ) → result ≡ Err (LikeError.Crowded v) → HasCrowded graph.now hops.number nodes.now v }
        ensures different { result ≡ Err LikeError.Order → ⊥ }
    {
        let mut construction = Construction::open(alloc, graph)?;
        for node in nodes {
            gate.watch(Stage::Building, construction.contracted, graph.nodes());
            if construction.is_crowded(*node) {
                return Err(LikeError::Crowded(*node));
            }
            let (taken, _) = construction.take(alloc, *node, hops)?;
            construction = taken;
        }
        Ok(construction)
    }

    /// Whether too many legs touch a node, and more than the last hundredth of the nodes are left.
    fn is_crowded(&self, node: u32) -> bool
        requires { node < self.now.remaining.nodes }
        ensures crowded { IsTrue result → IsCrowded self.now.remaining.nodes self.now.contracted (legs_of self.now.remaining) node }
        ensures few { result ≡ false → IsCrowded self.now.remaining.nodes self.now.contracted (legs_of self.now.remaining) node → ⊥ }
    {
        let nodes = self.remaining.nodes();
        self.contracted < nodes - nodes / LAST_PART
            && self.remaining.count_touching(node) > MOST_NAMED_LEGS
    }
}
