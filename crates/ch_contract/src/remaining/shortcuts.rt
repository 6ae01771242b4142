//! The shortcuts that the contraction of a node would put in, and its priority.
ghost use Rattle.std.specs.Prelude.{◌≡◌, ◌<◌, ◌≤◌, ◌^◌, length, IfOk, OnOk};
ghost use Rattle.ch_graph.specs.declared.limits.TheConstants.{MOST_NODES};
ghost use Rattle.ch_contract.specs.Legs.{AreLegsWithin};
ghost use Rattle.ch_contract.specs.Contraction.{AreShortcuts, IsPriority, count_touching};
ghost use Rattle.ch_contract.specs.LegRows.{AreLegsFrom, AreLegsTo};
ghost use Rattle.ch_contract.specs.Measures.{IsMeasureUpTo};
ghost use Rattle.ch_contract.specs.ShortcutLists.{AreUpTo};
ghost use Rattle.ch_contract.specs.KnownCosts.{known_of, IsClean, AreLegsUpTo};
ghost use Rattle.ch_contract.specs.Remaining.{legs_of};

use crate::held_cost::HeldCost;
use crate::hop_bound::HopBound;
use crate::measure::{Measure, OrderBy};
use crate::remaining::Remaining;
use crate::remaining::judging::{Judging, Touching};
use crate::shortcut::Shortcut;
use crate::witness_search::WitnessSearch;
use ch_graph::Cost;
use std::alloc::AllocError;
use std::marker::PhantomData;

impl Remaining {
    /// Returns the shortcuts that the contraction of `v` would put in, ordered by their ends. A shortcut is the
    /// sum of a leg to `v` and a leg from it, if the sum keeps the limits and has no witness of at most `hops`
    /// legs.
    ///
    /// # Errors
    /// `AllocError` if there is no memory for the search or for the list. The legs are as before.
    pub fn shortcuts(&self, v: u32, hops: HopBound) -> Result<Vec<Shortcut>, AllocError>
        requires node { v < self.now.nodes }
        ensures { IfOk result (λ list. AreShortcuts self.now.nodes hops.number (legs_of self.now) v list.items) }
    {
        let mut search: WitnessSearch<Cost> = WitnessSearch::new(self.alloc, self.nodes())?;
        let mut list = Vec::new(self.alloc);
        let touching = self.touching(v);
        let judging = Judging {
            remaining: self,
            touching,
            hops,
            form: PhantomData,
        };
        judging.fill(&mut search, &mut list, u64::MAX)?;
        Ok(list)
    }

    /// Returns the priority of `v`: the number of its shortcuts less the number of legs that touch it.
    ///
    /// # Errors
    /// `AllocError` if there is no memory for the search or for the list of shortcuts. The legs are as before.
    pub fn priority(&self, v: u32, hops: HopBound) -> Result<i64, AllocError>
        requires node { v < self.now.nodes }
        ensures { IfOk result (λ p. IsPriority self.now.nodes hops.number (legs_of self.now) v p) }
    {
        let mut search: WitnessSearch<Cost> = WitnessSearch::new(self.alloc, self.nodes())?;
        let mut list = Vec::new(self.alloc);
        let measure = self.measure_in(&mut search, &mut list, v, hops, u64::MAX)?;
        Ok(OrderBy::Difference.key(measure, 0))
    }

    /// Returns the number of shortcuts of `v` and the number of legs that touch it. The search is made in
    /// `search`, and `list` becomes the list of the shortcuts. If they are more than `most`, more than `most` of them are
    /// counted, and they are not all in the list.
    pub(crate) fn measure_in<K: HeldCost>(
        &self,
        search: &mut WitnessSearch<K>,
        list: &mut Vec<Shortcut>,
        v: u32,
        hops: HopBound,
        most: u64,
    ) -> Result<Measure, AllocError>
        requires node { v < self.now.nodes }
        requires light { AreLegsUpTo K.limit (legs_of self.now) }
        requires clean { IsClean self.now.nodes (known_of K.cost search.old.known) }
        ensures measure { IfOk result (IsMeasureUpTo most self.now.nodes hops.number (legs_of self.now) v) }
        ensures count { IfOk result (λ m. m.shortcuts ≡ length list.new.items) }
        ensures list { OnOk result (AreUpTo most (AreShortcuts self.now.nodes hops.number (legs_of self.now) v) list.new.items) }
        ensures clean { OnOk result (IsClean self.now.nodes (known_of K.cost search.new.known)) }
    {
        let touching = self.touching(v);
        let judging = Judging {
            remaining: self,
            touching,
            hops,
            form: PhantomData,
        };
        judging.fill(search, list, most)?;
        let legs = touching.up.len() + touching.down.len();
        Ok(Measure {
            shortcuts: list.len() as u64,
            legs: legs as u64,
        })
    }

    /// Returns the number of legs that touch a node now.
    pub fn count_touching(&self, node: u32) -> u64
        requires { node < self.now.nodes }
        ensures count { result ≡ count_touching self.now.nodes (legs_of self.now) node }
        ensures small { result ≤ 2 ^ 26 }
    {
        let legs = self.out_legs(node).len() + self.in_legs(node).len();
        legs as u64
    }

    /// Returns the number of legs to a node times the number of legs from it.
    pub fn pairs(&self, node: u32) -> u64
        requires { node < self.now.nodes }
        ensures count { self.now.nodes ≤ MOST_NODES }
        ensures limits { AreLegsWithin self.now.nodes (legs_of self.now) }
    {
        let out = self.out_legs(node).len() as u64;
        out.saturating_mul(self.in_legs(node).len() as u64)
    }

    /// Returns a node with the legs that touch it now.
    fn touching(&self, node: u32) -> Touching<'_>
        requires { node < self.now.nodes }
        ensures node { result.node ≡ node }
        ensures up { AreLegsFrom (legs_of self.now) result.node result.up.now }
        ensures down { AreLegsTo (legs_of self.now) result.node result.down.now }
        ensures count { self.now.nodes ≤ MOST_NODES }
        ensures limits { AreLegsWithin self.now.nodes (legs_of self.now) }
    {
        Touching {
            node,
            up: self.out_legs(node),
            down: self.in_legs(node),
        }
    }
}
