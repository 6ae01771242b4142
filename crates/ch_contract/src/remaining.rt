//! The legs among the remaining nodes.

mod candidates;
mod contraction;
pub(crate) mod judging;
mod light;
mod near;
mod opening;
mod shortcuts;
mod witnesses;

ghost use Rattle.std.specs.Prelude.{◌≡◌, ◌<◌, ◌≤◌, IsTrue, IfOk};
ghost use Rattle.ch_graph.specs.declared.limits.TheConstants.{MOST_NODES};
ghost use Rattle.ch_contract.specs.declared.held_cost.TheConstants.{MOST_LIGHT};
ghost use Rattle.ch_hierarchy.specs.Rows.{row};
ghost use Rattle.ch_contract.specs.Legs.{AreLegsWithin};
ghost use Rattle.ch_contract.specs.LegRows.{AreLegsFrom, AreLegsTo};
ghost use Rattle.ch_contract.specs.KnownCosts.{AreLegsUpTo};
ghost use Rattle.ch_contract.specs.Remaining.{legs_of};

use crate::leg_lists::LegLists;
use ch_hierarchy::Leg;
use ch_lists::Lists;
pub use contraction::Removed;
use std::alloc::{AllocError, Global};
use std::marker::Model;

/// The legs among the remaining nodes, which are not contracted yet. There is at most one from each node to
/// each other node.
///
/// A leg weighs at most [`MOST_WEIGHT`](ch_graph::limits::MOST_WEIGHT), and stands for fewer arcs than the
/// input graph has nodes.
#[derive(Drop)]
pub struct Remaining {
    nodes: u32,
    /// The legs from each node.
    outs: LegLists,
    /// The same legs again: the legs to each node.
    ins: LegLists,
    /// Whether all legs that were put in so far weigh at most `MOST_LIGHT`. If not, it is false for good.
    light: bool,
    alloc: Global,
}

impl Model for Remaining {
    ghost use Rattle.std.specs.Prelude.{IsTrue};
    ghost use Rattle.ch_contract.specs.declared.held_cost.TheConstants.{MOST_LIGHT};
    ghost use Rattle.ch_contract.specs.Remaining.{RemainingLegs};
    ghost use Rattle.ch_contract.specs.KnownCosts.{AreLegsUpTo};
    ghost use Rattle.ch_contract.specs.LegLists.{IsWithinLimits, legs_from};

    ghost Value = { RemainingLegs };

    ghost view = { λ r. record { nodes = r.nodes; rows = r.outs.rows; ups = r.outs.aside; downs = r.ins.aside } };

    ghost invariant = { λ r. IsWithinLimits r.nodes r.outs.rows r.ins.rows × (IsTrue r.light → AreLegsUpTo MOST_LIGHT (legs_from r.outs.rows)) };
}

impl Remaining {
    /// Returns the number of nodes of the input graph.
    pub fn nodes(&self) -> u32
        ensures nodes { result ≡ self.now.nodes }
        ensures count { self.now.nodes ≤ MOST_NODES }
        ensures limits { AreLegsWithin self.now.nodes (legs_of self.now) }
    {
        self.nodes
    }

    /// Whether all legs that were put in so far are light enough for searches over words.
    pub(crate) fn is_light(&self) -> bool
        ensures { IsTrue result → AreLegsUpTo MOST_LIGHT (legs_of self.now) }
    {
        self.light
    }

    /// Returns the legs from `v`, ordered by their ends. It takes no memory.
    pub fn out_legs(&self, v: u32) -> &[Leg]
        requires { v < self.now.nodes }
        ensures legs { AreLegsFrom (legs_of self.now) v result.now }
        ensures count { self.now.nodes ≤ MOST_NODES }
        ensures limits { AreLegsWithin self.now.nodes (legs_of self.now) }
    {
        self.outs.at(v)
    }

    /// Returns the legs to `v`, ordered by their starts. It takes no memory.
    pub fn in_legs(&self, v: u32) -> &[Leg]
        requires { v < self.now.nodes }
        ensures legs { AreLegsTo (legs_of self.now) v result.now }
        ensures count { self.now.nodes ≤ MOST_NODES }
        ensures limits { AreLegsWithin self.now.nodes (legs_of self.now) }
    {
        self.ins.at(v)
    }

    /// Returns the legs from `v` when it was contracted.
    pub fn up_legs(&self, v: u32) -> &[Leg]
        requires { v < self.now.nodes }
        ensures { result.now ≡ row self.now.ups v }
    {
        self.outs.aside(v)
    }

    /// Returns the legs to `v` when it was contracted.
    pub fn down_legs(&self, v: u32) -> &[Leg]
        requires { v < self.now.nodes }
        ensures { result.now ≡ row self.now.downs v }
    {
        self.ins.aside(v)
    }

    /// Returns the legs from each node when it was contracted, and the legs to it. They stay in their arrays.
    pub fn into_rows(self) -> Result<BothRows, AllocError>
        ensures up { IfOk result (λ r. r.ups ≡ self.ups) }
        ensures down { IfOk result (λ r. r.downs ≡ self.downs) }
    {
        let ups = self.outs.into_aside()?;
        let downs = self.ins.into_aside()?;
        Ok(BothRows { ups, downs })
    }
}

/// The rows of a hierarchy: the legs from each node to higher nodes, and the legs from higher nodes to it.
#[derive(Drop)]
pub struct BothRows {
    pub ups: Lists<Leg>,
    pub downs: Lists<Leg>,
}
