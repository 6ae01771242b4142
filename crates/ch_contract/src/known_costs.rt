//! The least known costs of chains from each node. A search lowers them.
ghost use Rattle.std.specs.Prelude.{◌≡◌, ℕ, ◌+◌, ◌<◌, ◌≤◌, if◌then◌else◌, length, map, vec_len, vec_capacity, IfOk, OnOk, [], ◌∷◌, ◌++◌, All};
ghost use Rattle.ch_hierarchy.specs.Rows.{row};

use crate::held_cost::HeldCost;
use crate::leg_lists::LegLists;
use crate::witness_search::Wanted;
use ch_hierarchy::Leg;
use std::alloc::{AllocError, Global};

/// A node, and the cost of a chain from it.
#[derive(Clone, Copy, Debug)]
pub(crate) struct Step<K> {
    pub(crate) node: u32,
    pub(crate) cost: K,
}

/// The least known costs of chains from each node.
#[derive(Drop)]
pub(crate) struct KnownCosts<K> {
    /// By node: the least known cost of a chain from it.
    pub(crate) costs: Vec<K>,
    /// The nodes whose costs were lowered.
    pub(crate) touched: Vec<u32>,
    /// The nodes whose costs were lowered in this round, with these costs.
    pub(crate) next: Vec<Step<K>>,
}

impl<K: HeldCost> KnownCosts<K> {
    ghost use Rattle.ch_contract.specs.HeldCosts.{IsHeld};
    ghost use Rattle.ch_contract.specs.KnownCosts.{known_of, chain_start_of, AreTouched, IsClean, HasRoom, Lowers, IsOnlyWhere, IsOneMore, IsOneMoreOf, IsLegLight, IsRoomFor};

    /// Makes room for searches among `nodes` nodes. No chain is known.
    pub(crate) fn new(alloc: Global, nodes: u32) -> Result<KnownCosts<K>, AllocError>
        ensures { IfOk result (λ h. IsClean nodes (known_of K.cost h)) }
    {
        let mut costs = Vec::with_capacity(alloc, nodes as usize)?;
        for _ in 0..nodes {
            costs.push(K::never())?;
        }
        Ok(KnownCosts {
            costs,
            touched: Vec::new(alloc),
            next: Vec::new(alloc),
        })
    }

    /// Makes room for `more` nodes whose costs are lowered.
    #[inline]
    pub(crate) fn reserve(&mut self, more: usize) -> Result<(), AllocError>
        ensures known { known_of K.cost self.new ≡ known_of K.cost self.old }
        ensures room { OnOk result (HasRoom more self.new) }
    {
        self.touched.reserve(more)?;
        self.next.reserve(more)
    }

    /// Stores the cost if it is wanted and a greater one is known. It does so without a branch, because no
    /// processor could predict that branch.
    #[inline]
    pub(crate) fn lower(&mut self, node: u32, cost: K, is_wanted: bool)
        requires node { node < length self.old.costs.items }
        requires room { HasRoom 1 self.old }
        ensures lowers { Lowers (IsOnlyWhere is_wanted node (K.cost cost)) (known_of K.cost self.old) (known_of K.cost self.new) }
        ensures room { (k : ℕ) → HasRoom (k + 1) self.old → HasRoom k self.new }
    {
        let known = self.costs[node as usize];
        let is_less = is_wanted & !known.is_at_most(cost);
        push_where(is_less, &mut self.touched, node);
        push_where(is_less, &mut self.next, Step { node, cost });
        self.costs[node as usize] = if is_less { cost } else { known };
    }

    /// Puts a leg in front of the chain of this step, if the result is wanted.
    #[inline]
    fn spread_leg(&mut self, leg: Leg, step: Step<K>, wanted: Wanted)
        requires leg { IsLegLight K.limit (length self.old.costs.items) leg }
        requires step { IsHeld K.limit (K.cost step.cost) }
        requires most { IsHeld K.limit wanted.most }
        requires room { HasRoom 1 self.old }
        ensures lowers { Lowers (IsOneMore (leg ∷ []) (chain_start_of K.cost step) wanted) (known_of K.cost self.old) (known_of K.cost self.new) }
        ensures room { (k : ℕ) → HasRoom (k + 1) self.old → HasRoom k self.new }
    {
        let cost = K::of(leg.cost).plus(step.cost);
        let is_wanted = cost.is_at_most(K::of(wanted.most)) & (leg.node != wanted.avoided);
        self.lower(leg.node, cost, is_wanted);
    }

    /// Puts each leg in front of the chain of this step.
    #[inline]
    fn spread(&mut self, legs: &[Leg], step: Step<K>, wanted: Wanted) -> Result<(), AllocError>
        requires room { IsRoomFor K.limit (length self.old.costs.items) legs.now (chain_start_of K.cost step) }
        requires most { IsHeld K.limit wanted.most }
        ensures { OnOk result (Lowers (IsOneMore legs.now (chain_start_of K.cost step) wanted) (known_of K.cost self.old) (known_of K.cost self.new)) }
    {
        self.reserve(legs.len())?;
        for leg in legs {
            self.spread_leg(*leg, step, wanted);
        }
        Ok(())
    }

    /// Puts each leg in front of the chain of each step.
    pub(crate) fn spread_all(
        &mut self,
        lists: &LegLists,
        front: &[Step<K>],
        wanted: Wanted,
    ) -> Result<(), AllocError>
        requires size { length self.old.costs.items ≡ length lists.now.rows }
        requires nodes { All (λ f. f.node < length lists.now.rows) front.now }
        requires room { All (λ f. IsRoomFor K.limit (length lists.now.rows) (row lists.now.rows f.node) (chain_start_of K.cost f)) front.now }
        requires most { IsHeld K.limit wanted.most }
        ensures { OnOk result (Lowers (IsOneMoreOf lists.now.rows (map (chain_start_of K.cost) front.now) wanted) (known_of K.cost self.old) (known_of K.cost self.new)) }
    {
        for step in front {
            self.spread(lists.at(step.node), *step, wanted)?;
        }
        Ok(())
    }

    /// Forgets all known costs.
    pub(crate) fn clear(&mut self)
        requires { AreTouched (known_of K.cost self.old) }
        ensures { IsClean (length (known_of K.cost self.old).costs) (known_of K.cost self.new) }
    {
        while let Some(node) = self.touched.pop() {
            self.costs[node as usize] = K::never();
        }
        self.next.clear();
    }
}

/// Appends a value to a list if it is wanted, without a branch.
#[inline]
fn push_where<T: Copy + Drop>(is_wanted: bool, list: &mut Vec<T>, value: T)
    requires { vec_len list.old < vec_capacity list.old }
    ensures items { list.new.items ≡ (if is_wanted then list.old.items ++ value ∷ [] else list.old.items) }
    ensures len { vec_len list.new ≤ vec_len list.old + 1 }
    ensures capacity { vec_capacity list.new ≡ vec_capacity list.old }
{
    let len = list.len();
    list.push_reserved(value);
    list.truncate(len + is_wanted as usize);
}
