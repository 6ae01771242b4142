//! The request whose lists are being read, or the new weights.
ghost use Rattle.std.specs.Prelude.{◌≡◌, ◌≤◌, [], None, length, OnErr, OnOk};
ghost use Rattle.ch_graph.specs.declared.limits.TheConstants.{MOST_LISTED};
ghost use Rattle.ch_read.specs.declared.begun.Purpose.TheVariants as PurposeOf;
ghost use Rattle.ch_read.specs.Requests.{asked_by, at_most_one, is_whole, nothing, settled, wanted, with_node, with_weight};

use crate::new_weights::{NewWeight, NewWeights};
use crate::request::{Asked, NearPlaces, Request, TableLists};
use std::alloc::{AllocFailed, Global};
use std::marker::Model;
use std::mem;

/// The purpose of the lists that are being read.
#[derive(Clone, Copy, Debug, PartialEq, Eq)]
pub(crate) enum Purpose {
    /// A table, with its own limit, if it has one.
    Table(Option<u64>),
    /// Places, with the greatest number of them in a near row, or `None` for all.
    Places(Option<u32>),
    /// New weights, with the number of the line that begins their list.
    Weights(u64),
}

/// A request whose lists are being read, or new weights, or none of these. Contracts see the purpose of the lists,
/// their sizes, and what is listed so far.
#[derive(Drop)]
pub(crate) struct BegunLists {
    purpose: Purpose,
    sources: u64,
    targets: u64,
    listed: Vec<u32>,
    weights: u64,
    weighed: Vec<NewWeight>,
}

impl Model for BegunLists {
    ghost use Rattle.std.specs.Prelude.{◌≤◌};
    ghost use Rattle.ch_graph.specs.declared.limits.TheConstants.{MOST_LISTED};
    ghost use Rattle.ch_read.specs.Requests.{Begun};

    ghost Value = { Begun };

    ghost view = { λ t. record { purpose = t.purpose; sources = t.sources; targets = t.targets; listed = t.listed.items; weights = t.weights; weighed = t.weighed.items } };

    ghost invariant = { λ t. (t.sources ≤ MOST_LISTED) × (t.targets ≤ MOST_LISTED) };
}

impl BegunLists {
    /// Makes a value with no request.
    pub(crate) fn none(alloc: Global) -> BegunLists
        ensures { result ≡ nothing }
    {
        BegunLists {
            purpose: Purpose::Table(None),
            sources: 0,
            targets: 0,
            listed: Vec::new(alloc),
            weights: 0,
            weighed: Vec::new(alloc),
        }
    }

    /// Returns the number of nodes in its lists.
    pub(crate) fn wanted(&self) -> u64
        ensures { result ≡ wanted self.now }
    {
        self.sources + self.targets
    }

    /// Returns the number of nodes listed so far.
    pub(crate) fn count(&self) -> u64
        ensures { result ≡ length self.now.listed }
    {
        self.listed.len() as u64
    }

    /// Returns the number of new weights in its list.
    pub(crate) fn weights(&self) -> u64
        ensures { result ≡ self.now.weights }
    {
        self.weights
    }

    /// Returns the number of new weights listed so far.
    pub(crate) fn weight_count(&self) -> u64
        ensures { result ≡ length self.now.weighed }
    {
        self.weighed.len() as u64
    }

    /// Whether the lists have all their nodes, or all their new weights.
    pub(crate) fn is_whole(&self) -> bool
        ensures { result ≡ is_whole self.now }
    {
        self.wanted() <= self.count() && self.weights <= self.weight_count()
    }

    /// Begins a request with lists of these sizes. The nodes listed before are dropped.
    pub(crate) fn begin(&mut self, purpose: Purpose, sources: u64, targets: u64)
        requires { (sources ≤ MOST_LISTED) × (targets ≤ MOST_LISTED) }
        ensures { self.new ≡ record { purpose = purpose; sources = sources; targets = targets; listed = []; weights = 0; weighed = [] } }
    {
        self.purpose = purpose;
        self.sources = sources;
        self.targets = targets;
        self.listed.clear();
        self.weights = 0;
        self.weighed.clear();
    }

    /// Begins a list of this many new weights at this line. What was listed before is dropped.
    pub(crate) fn begin_weights(&mut self, line: u64, weights: u64)
        ensures { self.new ≡ record { purpose = PurposeOf.Weights line; sources = 0; targets = 0; listed = []; weights = weights; weighed = [] } }
    {
        self.begin(Purpose::Weights(line), 0, 0);
        self.weights = weights;
    }

    /// Lists a node.
    pub(crate) fn push(&mut self, node: u32) -> Result<(), AllocFailed<u32>>
        ensures pushed { OnOk result (self.new ≡ with_node self.old node) }
        ensures same { OnErr result (self.new ≡ self.old) }
    {
        self.listed.push(node)
    }

    /// Lists a new weight.
    pub(crate) fn push_weight(&mut self, weight: NewWeight) -> Result<(), AllocFailed<NewWeight>>
        ensures pushed { OnOk result (self.new ≡ with_weight self.old weight) }
        ensures same { OnErr result (self.new ≡ self.old) }
    {
        self.weighed.push(weight)
    }

    /// Returns the request if it has all its nodes, or the new weights if they are all there, and `None` otherwise.
    /// After something is returned, no list is being read.
    pub(crate) fn settle(&mut self, alloc: Global) -> Option<Asked>
        requires { length self.old.listed ≤ wanted self.old }
        ensures { settled self.old ≡ record { given = at_most_one result; begun = self.new } }
    {
        if !self.is_whole() {
            return None;
        }
        let purpose = self.purpose;
        let sources = self.sources as usize;
        let listed = mem::replace(&mut self.listed, Vec::new(alloc));
        let weighed = mem::replace(&mut self.weighed, Vec::new(alloc));
        self.purpose = Purpose::Table(None);
        self.sources = 0;
        self.targets = 0;
        self.weights = 0;
        Some(asked_by(purpose, sources, listed, weighed))
    }
}

/// Makes the request of these lists, or the new weights.
fn asked_by(purpose: Purpose, sources: usize, listed: Vec<u32>, weighed: Vec<NewWeight>) -> Asked
    requires { sources ≤ length listed.items }
    ensures { result ≡ asked_by purpose sources listed.items weighed.items }
{
    match purpose {
        Purpose::Table(within) => {
            Asked::Request(Request::Table(TableLists::new(listed, sources, within)))
        }
        Purpose::Places(count) => Asked::Request(Request::Places(NearPlaces::new(listed, count))),
        Purpose::Weights(line) => Asked::Weights(NewWeights::new(line, weighed)),
    }
}
