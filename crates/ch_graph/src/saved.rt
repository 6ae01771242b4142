//! Contraction hierarchies as files hold them.

use crate::cost::Cost;
use std::marker::Model;

/// A contraction hierarchy as it was saved, of any origin. Nothing is known of its contents. Contracts see
/// its order and its legs as lists.
#[derive(Debug, Drop)]
pub struct Saved {
    /// The nodes in order of level, from level 1 on. Nodes are numbered from 0.
    pub order: Vec<u32>,
    /// The legs between a node and a node of a higher level, in both directions.
    pub legs: Vec<SavedLeg>,
}

impl Model for Saved {
    ghost use Rattle.ch_graph.specs.Saved.{OrderAndLegs};

    ghost Value = { OrderAndLegs };

    ghost view = { λ s. record { order = s.order.items; legs = s.legs.items } };
}

/// A leg of a saved hierarchy.
#[derive(Clone, Copy, Debug, PartialEq, Eq)]
pub struct SavedLeg {
    /// The node where it begins.
    pub from: u32,
    /// The node where it ends.
    pub to: u32,
    /// The cost of the walk of input arcs that the leg stands for.
    pub cost: Cost,
    /// The node that the leg was made through, or `None` if the leg is an input arc.
    pub middle: Option<u32>,
}
