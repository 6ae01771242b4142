//! Rooms for judging nodes. To judge a node is to find its shortcuts, and to count them and the legs that touch
//! it.
ghost use Rattle.std.specs.Prelude.{◌≡◌, ℕ, ◌<◌, ◌++◌, ◌∷◌, [], length, IfOk, IfSome, OnOk, slice_index};
ghost use Rattle.ch_contract.specs.Legs.{Legs, turned_legs};
ghost use Rattle.ch_contract.specs.Contraction.{Contracts};
ghost use Rattle.ch_contract.specs.Measures.{IsMeasure, IsMeasureUpTo};
ghost use Rattle.ch_contract.specs.Remaining.{legs_of, IsSetAside};
ghost use Rattle.ch_contract.specs.Rooms.{AreIdle};

use crate::hop_bound::HopBound;
use crate::measure::Measure;
use crate::remaining::Remaining;
use crate::shortcut::Shortcut;
use crate::witness_searches::WitnessSearches;
use std::alloc::{AllocError, Global};

/// The most nodes whose shortcuts are kept for their contraction, which often comes next.
const MOST_KEPT: usize = 256;

/// The most pairs of legs of a node whose shortcuts are kept. A node of more pairs is judged again when it is contracted,
/// because to keep a shortcut of each pair at each neighbour of a hub would take much memory.
const MOST_KEPT_PAIRS: u64 = 1 << 14;

/// The room in which one worker judges nodes. It keeps the shortcuts of the nodes that it judged with the legs
/// that remain now.
#[derive(Drop)]
pub struct Room {
    pub searches: WitnessSearches,
    /// The nodes that were judged.
    pub judged: Vec<u32>,
    /// The shortcuts of these nodes, at the same places. The lists after them are spare.
    pub lists: Vec<Vec<Shortcut>>,
    /// Shortcuts of a node that are counted and not kept.
    pub spare: Vec<Shortcut>,
}

impl Room {
    ghost use Rattle.ch_contract.specs.Rooms.{IsReady, list_at};

    /// Makes a room in which no node was judged yet. It takes no memory.
    pub fn new(alloc: Global) -> Room
        ensures { (n h : ℕ) (L : Legs) → IsReady n h L result }
    {
        Room {
            searches: WitnessSearches::new(alloc),
            judged: Vec::new(alloc),
            lists: Vec::new(alloc),
            spare: Vec::new(alloc),
        }
    }

    /// Forgets the shortcuts. This is needed when the legs have changed.
    pub fn forget(&mut self)
        ensures { (n h : ℕ) (L : Legs) → AreIdle self.old.searches → IsReady n h L self.new }
    {
        self.judged.clear();
    }

    /// Judges a node. Returns the number of its shortcuts, and the number of legs that touch it. It keeps the shortcuts, unless
    /// the node has many pairs of legs. If such a node has more than `most` shortcuts, more than `most` of them are counted,
    /// and maybe not all, so that a hub takes little time and memory. Those between near neighbours are counted first, without a search.
    #[tactic(auto, using(crate::proofs::code::Counted::measure_up_to))]
    pub fn judge_up_to(
        &mut self,
        alloc: Global,
        remaining: &Remaining,
        node: u32,
        hops: HopBound,
        most: u64,
    ) -> Result<Measure, AllocError>
        requires node { node < remaining.now.nodes }
        requires ready { IsReady remaining.now.nodes hops.number (legs_of remaining.now) self.old }
        ensures measure { IfOk result (IsMeasureUpTo most remaining.now.nodes hops.number (legs_of remaining.now) node) }
        ensures ready { OnOk result (IsReady remaining.now.nodes hops.number (legs_of remaining.now) self.new) }
    {
        if self.judged.len() < MOST_KEPT && remaining.pairs(node) <= MOST_KEPT_PAIRS {
            let measure = self.judge(alloc, remaining, node, hops)?;
            return Ok(measure);
        }
        if let Some(measure) = remaining.near_measure(node, most) {
            return Ok(measure);
        }
        let list = &mut self.spare;
        self.searches
            .measure(alloc, remaining, list, node, hops, most)
    }

    /// Judges a node, and keeps its shortcuts. Returns their number, and the number of legs that touch the
    /// node.
    pub fn judge(
        &mut self,
        alloc: Global,
        remaining: &Remaining,
        node: u32,
        hops: HopBound,
    ) -> Result<Measure, AllocError>
        requires node { node < remaining.now.nodes }
        requires ready { IsReady remaining.now.nodes hops.number (legs_of remaining.now) self.old }
        ensures measure { IfOk result (IsMeasure remaining.now.nodes hops.number (legs_of remaining.now) node) }
        ensures ready { OnOk result (IsReady remaining.now.nodes hops.number (legs_of remaining.now) self.new) }
        ensures judged { OnOk result (self.new.judged.items ≡ self.old.judged.items ++ node ∷ []) }
    {
        let place = self.judged.len();
        if place == self.lists.len() {
            self.lists.push(Vec::new(alloc))?;
        }
        let list = &mut self.lists[place];
        let measure = self
            .searches
            .measure(alloc, remaining, list, node, hops, u64::MAX)?;
        self.judged.push(node)?;
        Ok(measure)
    }

    /// Contracts a node with its shortcuts. Then it forgets the shortcuts of all nodes, because the legs have
    /// changed.
    pub fn contract(
        &mut self,
        alloc: Global,
        remaining: Remaining,
        node: u32,
        hops: HopBound,
    ) -> Result<Remaining, AllocError>
        requires node { node < remaining.nodes }
        requires ready { IsReady remaining.nodes hops.number (legs_of remaining) self.old }
        ensures nodes { IfOk result (λ r. r.nodes ≡ remaining.nodes) }
        ensures legs { IfOk result (λ r. Contracts remaining.nodes hops.number (legs_of remaining) node (legs_of r)) }
        ensures up { IfOk result (λ r. IsSetAside (legs_of remaining) node remaining.ups r.ups) }
        ensures down { IfOk result (λ r. IsSetAside (turned_legs (legs_of remaining)) node remaining.downs r.downs) }
        ensures ready { IfOk result (λ r. IsReady r.nodes hops.number (legs_of r) self.new) }
    {
        let place = self.place_of(alloc, &remaining, node, hops)?;
        let contracted = remaining.contract_with(node, self.shortcuts(place))?;
        self.forget();
        Ok(contracted)
    }

    /// Returns the place of a node among the judged nodes. If the node was not judged yet, it is judged first.
    fn place_of(
        &mut self,
        alloc: Global,
        remaining: &Remaining,
        node: u32,
        hops: HopBound,
    ) -> Result<usize, AllocError>
        requires node { node < remaining.now.nodes }
        requires ready { IsReady remaining.now.nodes hops.number (legs_of remaining.now) self.old }
        ensures ready { OnOk result (IsReady remaining.now.nodes hops.number (legs_of remaining.now) self.new) }
        ensures place { IfOk result (λ k. (k < length self.new.judged.items) × (slice_index self.new.judged.items k ≡ node)) }
    {
        if let Some(place) = place_in(self.judged.as_slice(), node) {
            return Ok(place);
        }
        let place = self.judged.len();
        self.judge(alloc, remaining, node, hops)?;
        Ok(place)
    }

    /// Returns the shortcuts of the judged node at this place.
    fn shortcuts(&self, place: usize) -> &[Shortcut]
        requires { place < length self.now.lists.items }
        ensures { result.now ≡ list_at self.now place }
    {
        self.lists[place].as_slice()
    }
}

/// Returns the place of a node in a list, or `None` if it is not there.
fn place_in(nodes: &[u32], node: u32) -> Option<usize>
    ensures { IfSome result (λ k. (k < length nodes.now) × (slice_index nodes.now k ≡ node)) }
{
    nodes.iter().position(|other| *other == node)
}
