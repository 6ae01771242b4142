//! Legs by rank, as searches read them. Both directions of a node are side by side, in an array of their
//! own.
ghost use Rattle.std.specs.Prelude.{◌≡◌, ◌≤◌, Contains, IfOk, OnOk, length, map};
ghost use Rattle.ch_graph.specs.declared.limits.TheConstants.{MOST_NODES};
ghost use Rattle.ch_hierarchy.specs.declared.leg.Leg.{Leg as AnyLeg};
ghost use Rattle.ch_hierarchy.specs.Hierarchy.{AreLevels, IsLevelled};
ghost use Rattle.ch_hierarchy.specs.Ranked.{ranked_in, AreByRank, AreRankedRows, IsRankable};

use crate::leg::Leg;
use ch_graph::{Cost, Rows};
use ch_lists::Lists;
use std::alloc::{AllocError, Global};

/// A leg as searches read it, with its other node by rank. It takes 16 bytes.
#[derive(Clone, Copy, Debug, PartialEq, Eq)]
pub struct RankedLeg {
    /// The rank of the other node, which is the number of nodes higher than it.
    pub rank: u32,
    /// The number of input arcs that the leg stands for.
    pub arcs: u32,
    /// The sum of the weights of these arcs.
    pub weight: u64,
}

impl RankedLeg {
    /// The cost of the walk of input arcs that the leg stands for.
    #[inline]
    pub fn cost(self) -> Cost
        ensures { result ≡ record { weight = self.weight; arcs = self.arcs } }
    {
        Cost {
            weight: self.weight,
            arcs: u64::from(self.arcs),
        }
    }
}

/// Returns the node of each rank.
pub(crate) fn nodes_by_rank(alloc: Global, levels: &[u32]) -> Result<Vec<u32>, AllocError>
    requires count { length levels.now ≤ MOST_NODES }
    requires levels { AreLevels levels.now }
    ensures { IfOk result (λ nodes. AreByRank levels.now nodes.items) }
{
    let mut nodes = vec![in alloc; 0u32; levels.len()]?;
    for (node, level) in levels.iter().enumerate() {
        nodes[levels.len() - *level as usize] = node as u32;
    }
    Ok(nodes)
}

/// Returns the legs by rank of these nodes, in two rows for each node: its legs up, and then its legs down.
pub(crate) fn ranked_rows(
    alloc: Global,
    levels: &[u32],
    nodes: &[u32],
    ups: &Lists<Leg>,
    downs: &Lists<Leg>,
) -> Result<Rows<RankedLeg>, AllocError>
    requires levelled { IsLevelled (record { level = levels.now; up = ups.now; down = downs.now }) }
    requires nodes { AreByRank levels.now nodes.now }
    ensures { IfOk result (AreRankedRows levels.now nodes.now ups.now downs.now) }
{
    let mut rows = Rows::with_room(alloc, 2 * nodes.len() as u32, ups.room() + downs.room())?;
    let mut row = Vec::new(alloc);
    for node in nodes {
        rank_legs(levels, ups.at(*node), &mut row)?;
        rows.push(&row)?;
        rank_legs(levels, downs.at(*node), &mut row)?;
        rows.push(&row)?;
    }
    Ok(rows)
}

/// Replaces the row by these legs, by rank.
fn rank_legs(levels: &[u32], legs: &[Leg], row: &mut Vec<RankedLeg>) -> Result<(), AllocError>
    requires count { length levels.now ≤ MOST_NODES }
    requires legs { (l : AnyLeg) → Contains legs.now l → IsRankable levels.now l }
    ensures { OnOk result (row.new.items ≡ map (ranked_in levels.now) legs.now) }
{
    row.clear();
    for leg in legs {
        row.push(rank_leg(levels, *leg))?;
    }
    Ok(())
}

/// Returns a leg by rank.
fn rank_leg(levels: &[u32], leg: Leg) -> RankedLeg
    requires count { length levels.now ≤ MOST_NODES }
    requires leg { IsRankable levels.now leg }
    ensures { result ≡ ranked_in levels.now leg }
{
    RankedLeg {
        rank: levels.len() as u32 - levels[leg.node as usize],
        arcs: leg.cost.arcs as u32,
        weight: leg.cost.weight,
    }
}
