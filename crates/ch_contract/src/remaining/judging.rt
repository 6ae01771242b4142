//! The search for the shortcuts of one node.
ghost use Rattle.std.specs.Prelude.{◌≤◌};
ghost use Rattle.ch_contract.specs.ShortcutLists.{AreTouching};
ghost use Rattle.ch_contract.specs.KnownCosts.{AreLegsUpTo};
ghost use Rattle.ch_contract.specs.Legs.{AreLegsWithin};
ghost use Rattle.ch_contract.specs.Remaining.{legs_of};

use crate::held_cost::HeldCost;
use crate::hop_bound::HopBound;
use crate::remaining::Remaining;
use crate::remaining::candidates::{candidate_cost, most_cost};
use crate::shortcut::Shortcut;
use crate::witness_search::{Wanted, WitnessSearch};
use ch_hierarchy::Leg;
use std::alloc::AllocError;
use std::marker::PhantomData;

/// A node, with the legs from it and the legs to it.
#[derive(Clone, Copy)]
pub(crate) struct Touching<'a> {
    pub(crate) node: u32,
    pub(crate) up: &'a [Leg],
    pub(crate) down: &'a [Leg],
}

/// The legs and the bound of a search for the shortcuts of one node.
///
/// Witnesses consist of remaining legs, and have at most `hops` legs. All these legs are light enough for searches that
/// hold costs in the form `K`.
#[derive(Drop)]
pub(crate) struct Judging<'a, K: HeldCost> {
    pub(crate) remaining: &'a Remaining,
    pub(crate) touching: Touching<'a>,
    pub(crate) hops: HopBound,
    pub(crate) form: PhantomData<K>,
    ghost within: { AreLegsWithin remaining.now.nodes (legs_of remaining.now) },
    ghost light: { AreLegsUpTo K.limit (legs_of remaining.now) },
    ghost touches: { AreTouching remaining.now.nodes K.limit touching.node touching.up.now touching.down.now },
}

impl<'a, K: HeldCost> Judging<'a, K> {
    ghost use Rattle.std.specs.Prelude.{◌≡◌, ◌+◌, Some, OnOk};
    ghost use Rattle.ch_contract.specs.Legs.{Legs, IsLegWithin};
    ghost use Rattle.ch_contract.specs.LegRows.{label_of};
    ghost use Rattle.ch_contract.specs.ShortcutLists.{legs_touching, AreShortcutsAmong, AreShortcutsBefore, AreUpTo, IsShortcutBetween};
    ghost use Rattle.ch_contract.specs.HeldCosts.{IsHeld};
    ghost use Rattle.ch_contract.specs.KnownCosts.{known_of, IsClean};
    ghost use Rattle.ch_contract.specs.Candidates.{IsKnown, IsMostFor};

    /// Fills `list` with the shortcuts of the node, or with some of them if they are more than `most`: then it ends with the
    /// first leg to the node at which the list is longer. The searches are made in `search`. It takes memory only if
    /// `search` or `list` has to grow.
    pub(crate) fn fill(
        &self,
        search: &mut WitnessSearch<K>,
        list: &mut Vec<Shortcut>,
        most: u64,
    ) -> Result<(), AllocError>
        requires clean { IsClean self.now.remaining.now.nodes (known_of K.cost search.old.known) }
        ensures list { OnOk result (AreUpTo most (AreShortcutsAmong self.now.remaining.now.nodes self.now.hops.number
            (legs_touching self.now.touching.node self.now.touching.up.now self.now.touching.down.now) (legs_of self.now.remaining.now) self.now.touching.node) list.new.items) }
        ensures clean { OnOk result (IsClean self.now.remaining.now.nodes (known_of K.cost search.new.known)) }
    {
        list.clear();
        for first in self.touching.down {
            if list.len() as u64 > most {
                return Ok(());
            }
            self.push(search, list, *first)?;
        }
        Ok(())
    }

    /// Appends the shortcuts of the node that begin with this leg to it. One search finds all of them.
    fn push(
        &self,
        search: &mut WitnessSearch<K>,
        list: &mut Vec<Shortcut>,
        first: Leg,
    ) -> Result<(), AllocError>
        requires first { legs_touching self.now.touching.node self.now.touching.up.now self.now.touching.down.now first.node self.now.touching.node ≡ Some (label_of first) }
        requires clean { IsClean self.now.remaining.now.nodes (known_of K.cost search.old.known) }
        requires list { AreShortcutsBefore self.now.remaining.now.nodes self.now.hops.number (legs_touching self.now.touching.node self.now.touching.up.now self.now.touching.down.now)
            (legs_of self.now.remaining.now) self.now.touching.node first.node 0 list.old.items }
        ensures list { OnOk result
            (AreShortcutsBefore self.now.remaining.now.nodes self.now.hops.number (legs_touching self.now.touching.node self.now.touching.up.now self.now.touching.down.now)
            (legs_of self.now.remaining.now) self.now.touching.node (first.node + 1) 0 list.new.items) }
        ensures clean { OnOk result (IsClean self.now.remaining.now.nodes (known_of K.cost search.new.known)) }
    {
        let nodes = self.remaining.nodes();
        let Some(most) = most_cost(nodes, first, self.touching.up) else {
            return Ok(());
        };
        let wanted = Wanted {
            end: first.node,
            avoided: self.touching.node,
            most,
        };
        self.remaining.reach(search, wanted, self.hops)?;
        for second in self.touching.up {
            if let Some(shortcut) = self.shortcut(search, wanted, first, *second) {
                list.push(shortcut)?;
            }
        }
        search.clear();
        Ok(())
    }

    /// Returns the shortcut for a leg to the avoided node and a leg from it, or `None` if there is none.
    /// `search` knows the chains from the first node.
    fn shortcut(
        &self,
        search: &WitnessSearch<K>,
        wanted: Wanted,
        first: Leg,
        second: Leg,
    ) -> Option<Shortcut>
        requires end { wanted.end ≡ first.node }
        requires first { IsLegWithin self.now.remaining.now.nodes first.node wanted.avoided (label_of first) × (first.cost.weight ≤ K.limit) }
        requires second { IsLegWithin self.now.remaining.now.nodes wanted.avoided second.node (label_of second) × (second.cost.weight ≤ K.limit) }
        requires known { IsKnown self.now.remaining.now wanted self.now.hops.number (known_of K.cost search.now.known) }
        requires held { IsHeld K.limit wanted.most }
        requires most { IsMostFor self.now.remaining.now.nodes first wanted.most second }
        ensures { (L : Legs) → L first.node wanted.avoided ≡ Some (label_of first) → L wanted.avoided second.node ≡ Some (label_of second) →
            IsShortcutBetween self.now.remaining.now.nodes self.now.hops.number L (legs_of self.now.remaining.now) wanted.avoided first.node second.node result }
    {
        let nodes = self.remaining.nodes();
        let cost = candidate_cost(nodes, first, second)?;
        if self
            .remaining
            .is_witnessed(search, wanted, second.node, cost, self.hops)
        {
            return None;
        }
        Some(Shortcut {
            from: first.node,
            to: second.node,
            cost,
        })
    }
}
