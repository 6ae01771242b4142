//! The label of each node in a search: a cost, if the node is reached, and a parent.
ghost use Rattle.std.specs.Prelude.{◌≡◌, ◌^◌, ◌<◌, ◌≤◌, length, replicate, slice_index, slice_set, Some, None, IfOk};
ghost use Rattle.ch_graph.specs.declared.limits.TheConstants.{MOST_WEIGHT};
ghost use Rattle.ch_graph.specs.Cost.{cost_at};

use ch_graph::Cost;
use std::alloc::{AllocError, Global};
use std::marker::Model;

/// The weight of a label without a cost. It is greater than the weight of any path.
pub(crate) const NO_WEIGHT: u64 = u64::MAX;

/// The least number of arcs that needs a multiple beside the label. Such paths are rare, but within the
/// limits.
pub(crate) const MANY: u64 = 1 << 31;

/// The label of a node, in 16 bytes.
#[derive(Clone, Copy)]
pub(crate) struct Label {
    /// The weight of the node's cost, or [`NO_WEIGHT`] if the node is not reached.
    weight: u64,
    /// The number of arcs of the node's cost, if it is below [`MANY`]. Otherwise the number less a multiple
    /// of [`MANY`], which is kept apart. It is then at least [`MANY`] and below twice [`MANY`].
    arcs: u32,
    parent: u32,
}

/// The label of a node that is not reached.
const UNREACHED: Label = Label {
    weight: NO_WEIGHT,
    arcs: 0,
    parent: 0,
};

/// A cost or none, and a parent, for each node. Contracts see two lists. The parent of a node that is not
/// reached is the last one that was written.
#[derive(Drop)]
pub(crate) struct Labels {
    labels: Vec<Label>,
    /// For each node whose label has at least [`MANY`] arcs: how many times [`MANY`] is added to them.
    multiples: Vec<u32>,
}

impl Model for Labels {
    ghost use Rattle.std.specs.Prelude.{◌≡◌, length, map};
    ghost use Rattle.std.specs.List.{zip};
    ghost use Rattle.ch_query.specs.declared.sides.labels.Label.{Label};
    ghost use Rattle.ch_query.specs.Labels.{CostsAndParents, cost_of};

    ghost Value = { CostsAndParents };

    ghost view = { λ l. record { costs = map cost_of (zip l.labels.items l.multiples.items); parents = map (λ (k : Label). k.parent) l.labels.items } };

    ghost invariant = { λ l. length l.multiples.items ≡ length l.labels.items };
}

impl Labels {
    /// Makes labels for `nodes` nodes, none of them reached.
    pub(crate) fn new(alloc: Global, nodes: u32) -> Result<Labels, AllocError>
        ensures { IfOk result (λ labels. labels ≡ record { costs = replicate nodes None; parents = replicate nodes 0 }) }
    {
        let labels = vec![in alloc; UNREACHED; nodes as usize]?;
        let multiples = vec![in alloc; 0; nodes as usize]?;
        Ok(Labels { labels, multiples })
    }

    /// The cost of `node`, if the node is reached.
    #[inline]
    pub(crate) fn get(&self, node: u32) -> Option<Cost>
        requires { node < length self.now.costs }
        ensures { result ≡ cost_at self.now.costs node }
    {
        let label = self.labels[node as usize];
        if label.weight == NO_WEIGHT {
            return None;
        }
        let weight = label.weight;
        let arcs = label.arcs as u64;
        if arcs < MANY {
            return Some(Cost { weight, arcs });
        }
        let multiple = self.multiples[node as usize] as u64;
        Some(Cost {
            weight,
            arcs: arcs + multiple * MANY,
        })
    }

    /// The parent of `node`.
    #[inline]
    pub(crate) fn parent(&self, node: u32) -> u32
        requires { node < length self.now.parents }
        ensures { result ≡ slice_index self.now.parents node }
    {
        self.labels[node as usize].parent
    }

    /// Gives `node` this cost and this parent.
    #[inline]
    pub(crate) fn set(&mut self, node: u32, cost: Cost, parent: u32)
        requires node { node < length self.old.costs }
        requires weight { cost.weight ≤ MOST_WEIGHT }
        requires arcs { cost.arcs < 2 ^ 63 }
        ensures costs { self.new.costs ≡ slice_set self.old.costs node (Some cost) }
        ensures parents { self.new.parents ≡ slice_set self.old.parents node parent }
    {
        let mut arcs = cost.arcs;
        if arcs >= MANY {
            self.multiples[node as usize] = (arcs / MANY - 1) as u32;
            arcs = MANY + arcs % MANY;
        }
        self.labels[node as usize] = Label {
            weight: cost.weight,
            arcs: arcs as u32,
            parent,
        };
    }

    /// Gives `node` this parent.
    #[inline]
    pub(crate) fn set_parent(&mut self, node: u32, parent: u32)
        requires { node < length self.old.parents }
        ensures costs { self.new.costs ≡ self.old.costs }
        ensures parents { self.new.parents ≡ slice_set self.old.parents node parent }
    {
        self.labels[node as usize].parent = parent;
    }

    /// Removes the cost of `node`.
    #[inline]
    pub(crate) fn clear(&mut self, node: u32)
        requires { node < length self.old.costs }
        ensures costs { self.new.costs ≡ slice_set self.old.costs node None }
        ensures parents { self.new.parents ≡ self.old.parents }
    {
        self.labels[node as usize].weight = NO_WEIGHT;
    }
}
