//! Levels, and the legs of each node to and from higher nodes.
ghost use Rattle.std.specs.Prelude.{◌≡◌, ◌<◌, ℕ, IfOk, map, reverse, slice_index};
ghost use Rattle.ch_hierarchy.specs.Rows.{row};
ghost use Rattle.ch_hierarchy.specs.Hierarchy.{nodes_of, IsLevelled};
ghost use Rattle.ch_hierarchy.specs.Ranked.{rank_of, ranked_leg};
ghost use Rattle.ch_hierarchy.specs.Side.{rows_of};
ghost use Rattle.ch_hierarchy.specs.Saved.{IsOrderOf, AreLevelsOf};

use crate::leg::Leg;
use crate::ranked::{RankedLeg, nodes_by_rank, ranked_rows};
use crate::side::Side;
use ch_graph::Rows;
use ch_lists::Lists;
use std::alloc::{AllocError, Global};
use std::marker::Model;

/// A contraction hierarchy. Each node has a level, from 1 to the number of nodes, and legs to and from
/// nodes of higher levels.
///
/// Searches find the legs by rank. The rank of a node is the number of higher nodes.
#[derive(Drop)]
pub struct Hierarchy {
    levels: Vec<u32>,
    /// A list of legs for each node.
    ups: Lists<Leg>,
    downs: Lists<Leg>,
    /// The node of each rank.
    nodes: Vec<u32>,
    /// For each rank, the legs up of its node and then its legs down.
    ranked: Rows<RankedLeg>,
}

impl Model for Hierarchy {
    ghost use Rattle.ch_hierarchy.specs.Hierarchy.{LevelsAndLegs, IsLevelled};
    ghost use Rattle.ch_hierarchy.specs.Ranked.{AreRanked};

    ghost Value = { LevelsAndLegs };

    ghost view = { λ h. record { level = h.levels.items; up = h.ups; down = h.downs } };

    ghost invariant = { λ h. IsLevelled (record { level = h.levels.items; up = h.ups; down = h.downs })
        × AreRanked (record { level = h.levels.items; up = h.ups; down = h.downs }) h.nodes.items h.ranked };
}

impl Hierarchy {
    /// Makes the hierarchy of these levels and rows. Steps and memory are those of writing each leg once by
    /// rank.
    ///
    /// # Errors
    /// `AllocError` if there is no memory for the nodes by rank or the legs by rank.
    pub fn from_rows(
        alloc: Global,
        levels: Vec<u32>,
        ups: Lists<Leg>,
        downs: Lists<Leg>,
    ) -> Result<Hierarchy, AllocError>
        requires { IsLevelled (record { level = levels.items; up = ups; down = downs }) }
        ensures { IfOk result (λ h. h ≡ record { level = levels.items; up = ups; down = downs }) }
    {
        let nodes = nodes_by_rank(alloc, levels.as_slice())?;
        let ranked = ranked_rows(alloc, levels.as_slice(), nodes.as_slice(), &ups, &downs)?;
        Ok(Hierarchy {
            levels,
            ups,
            downs,
            nodes,
            ranked,
        })
    }

    /// The number of nodes, at most [`MOST_NODES`](ch_graph::limits::MOST_NODES).
    pub fn nodes(&self) -> u32
        ensures nodes { result ≡ nodes_of self.now }
        ensures levelled { IsLevelled self.now }
    {
        self.levels.len() as u32
    }

    /// The level of `v`. It is the place of `v` in the order of contraction, counted from 1.
    pub fn level(&self, v: u32) -> u32
        requires { v < nodes_of self.now }
        ensures level { result ≡ slice_index self.now.level v }
        ensures levelled { IsLevelled self.now }
    {
        self.levels[v as usize]
    }

    /// The legs from `v` to higher nodes, ordered by node.
    pub fn up(&self, v: u32) -> &[Leg]
        requires { v < nodes_of self.now }
        ensures row { result.now ≡ row self.now.up v }
        ensures levelled { IsLevelled self.now }
    {
        self.ups.at(v)
    }

    /// The legs from higher nodes to `v`, ordered by node.
    pub fn down(&self, v: u32) -> &[Leg]
        requires { v < nodes_of self.now }
        ensures row { result.now ≡ row self.now.down v }
        ensures levelled { IsLevelled self.now }
    {
        self.downs.at(v)
    }

    /// The number of nodes that are higher than `v`.
    pub fn rank(&self, v: u32) -> u32
        requires { v < nodes_of self.now }
        ensures rank { result ≡ rank_of self.now v }
        ensures within { result < nodes_of self.now }
        ensures levelled { IsLevelled self.now }
    {
        self.nodes() - self.level(v)
    }

    /// The node of this rank.
    pub fn node_at(&self, rank: u32) -> u32
        requires { rank < nodes_of self.now }
        ensures node { result < nodes_of self.now }
        ensures rank { rank_of self.now result ≡ rank }
        ensures levelled { IsLevelled self.now }
    {
        self.nodes[rank as usize]
    }

    /// Returns the nodes in order of level, as they were contracted.
    ///
    /// # Errors
    /// `AllocError` if there is no memory for the list.
    pub fn order(&self, alloc: Global) -> Result<Vec<u32>, AllocError>
        ensures order { IfOk result (λ list. IsOrderOf (nodes_of self.now) list.items) }
        ensures levels { IfOk result (λ list. AreLevelsOf list.items self.now.level) }
        ensures levelled { IsLevelled self.now }
    {
        reversed(alloc, self.nodes.as_slice())
    }

    /// The legs of `v` in one direction, ordered by node.
    pub fn legs(&self, side: Side, v: u32) -> &[Leg]
        requires { v < nodes_of self.now }
        ensures row { result.now ≡ row (rows_of self.now side) v }
        ensures levelled { IsLevelled self.now }
    {
        match side {
            Side::Up => self.up(v),
            Side::Down => self.down(v),
        }
    }

    /// The legs by rank of the node of this rank in one direction, in the order of `legs`.
    #[inline]
    pub fn ranked_legs(&self, side: Side, rank: u32) -> &[RankedLeg]
        requires { rank < nodes_of self.now }
        ensures row { (v : ℕ) → v < nodes_of self.now → rank_of self.now v ≡ rank → result.now ≡ map (ranked_leg self.now) (row (rows_of self.now side) v) }
        ensures levelled { IsLevelled self.now }
    {
        self.ranked.row(side.state(rank))
    }
}

/// Returns the nodes from the last to the first.
fn reversed(alloc: Global, nodes: &[u32]) -> Result<Vec<u32>, AllocError>
    ensures { IfOk result (λ list. list.items ≡ reverse nodes.now) }
{
    nodes.iter().rev().copied().collect(alloc)
}
