//! The construction of a hierarchy whose first nodes come in a given order, and the others in an order that takes little
//! time to find.
ghost use Rattle.std.specs.Prelude.{◌≡◌, ℕ, ◌^◌, ◌<◌, ◌≤◌, ◌++◌, ◌∷◌, [], if◌then◌else◌, All, Err, IfOk, IsTrue, OnOk, length, take};
ghost use Rattle.ch_graph.specs.Graph.{IsWithinLimits};
ghost use Rattle.ch_contract.specs.Begun.{AreDifferentNodes};
ghost use Rattle.ch_contract.specs.Like.{given_count as count_of};
ghost use Rattle.ch_order.specs.Quick.{IsHierarchyAfter, IsHierarchyAfterSmall, IsUnderWay, HaveKeys};
ghost use Rattle.ch_order.specs.declared.construction.like.OrderError.TheVariants as OrderError;
ghost use Rattle.ch_hierarchy.specs.Kept.{IsKept};
ghost use Rattle.ch_hierarchy.specs.Saved.{IsOrderOf};

use super::Construction;
use super::estimates::Estimates;
use super::like::{OrderError, split_given};
use crate::keys::Keys;
use ch_contract::memory::ask_ahead;
use ch_contract::order::all_nodes;
use ch_contract::{HopBound, OrderBy, Percent};
use ch_graph::Graph;
use ch_hierarchy::Hierarchy;
use ch_queue::KeyQueue;
use ch_work::{Crew, Gate, Open, Stage};
use std::alloc::{AllocError, Global};
use std::thread::Threads;

/// The numbers of nodes below are so many tenths of those that remain.
const PARTS: usize = 10;

/// When so many tenths are left, the nodes are judged whose legs have changed.
const DUE_PARTS: usize = 3;

/// The key of the first node that is not judged yet. No priority of a road network comes near it.
const UNJUDGED: i64 = 1 << 60;

/// How much less than its priority the key of a node is that was judged alone. Such a node often comes first
/// although another has a slightly lesser key, and its searches are then not made in vain.
const PREFERENCE: i64 = 4;

/// How often nodes are judged whose legs have changed. Of the most nodes that a graph may have, none is left then.
const MOST_RANKINGS: u32 = 16;

/// The most nodes that are judged before one of them is contracted.
const MOST_JUDGED: u32 = 16;

/// Builds a contraction hierarchy of a graph that begins like [`build_like`](crate::build_like): all nodes but the last
/// `fresh` per cent come in the given order, except for those that more than 16 legs touch when their turn comes. These wait
/// for the fresh part, because a bad order would join all nodes around the given ones by legs. It is for answers that do not
/// depend on the order, because it takes less time to find the order of the fresh nodes.
///
/// When the last given node is contracted, chains are contracted first: nodes with at most two neighbours, for which no
/// witness is looked for but a leg. Then the other fresh nodes get priorities by depth, which workers share. To take less
/// time, their witnesses have one leg less. When a neighbour is contracted, a node gets a key by an estimate. Its priority
/// is computed again only when it is the first in the queue, and it is contracted if it is still the first (*lazy
/// updates*). Once three tenths of the nodes are left, those whose legs have changed get priorities again, and so on. A
/// node with many legs around it is never judged: it is contracted by its estimate, and no witness is looked for but a leg.
///
/// # Errors
/// `Order` if the given order does not have each node of the graph exactly once, and `NoMemory` if the call or a piece
/// is refused memory. All workers are joined before the call returns. Everything that it made is dropped, and the graph
/// and the order are as before.
pub fn build_like_quickly<R: Threads + Sync, G: Gate>(
    crew: &Crew<'_, R, G>,
    graph: &Graph,
    given: &[u32],
    fresh: Percent,
    hops: HopBound,
) -> Result<Hierarchy, OrderError>
    ensures hierarchy { IfOk result (IsHierarchyAfterSmall graph.now hops.number (take (count_of graph.now.nodes fresh.number) given.now)) }
    ensures kept { IfOk result (IsKept graph.now) }
    ensures order { IfOk result (λ _. IsOrderOf graph.now.nodes given.now) }
    ensures refused { result ≡ Err OrderError.Order → IsOrderOf graph.now.nodes given.now → ⊥ }
    ensures limits { IsWithinLimits graph.now }
{
    let (first, _) = split_given(crew.alloc, graph, given, fresh)?;
    Ok(contract_quickly(crew, graph, first, given, hops)?)
}

/// Builds a contraction hierarchy of a graph in an order that takes little time to find. It is for answers that do not depend
/// on the order. See [`build_like_quickly`].
///
/// # Errors
/// `AllocError` if the call or a piece is refused memory. All workers are joined before the call returns. Everything that it
/// made is dropped, and the graph is as before.
pub fn build_quickly<R: Threads + Sync, G: Gate>(
    crew: &Crew<'_, R, G>,
    graph: &Graph,
    hops: HopBound,
) -> Result<Hierarchy, AllocError>
    ensures hierarchy { IfOk result (IsHierarchyAfter graph.now hops.number []) }
    ensures kept { IfOk result (IsKept graph.now) }
    ensures limits { IsWithinLimits graph.now }
{
    ask_ahead(crew.alloc, graph)?;
    let nodes = all_nodes(crew.alloc, graph.nodes())?;
    contract_quickly(crew, graph, &[], nodes.as_slice(), hops)
}

/// Builds the hierarchy that [`build_quickly`] builds. The caller builds it alone: no thread is started, and no progress is
/// reported.
///
/// # Errors
/// `AllocError` if there is no memory. What was made is dropped, and the graph is as it was.
pub fn build_quickly_alone(
    alloc: Global,
    graph: &Graph,
    hops: HopBound,
) -> Result<Hierarchy, AllocError>
    ensures hierarchy { IfOk result (IsHierarchyAfter graph.now hops.number []) }
    ensures kept { IfOk result (IsKept graph.now) }
    ensures limits { IsWithinLimits graph.now }
{
    ask_ahead(alloc, graph)?;
    let nodes = all_nodes(alloc, graph.nodes())?;
    let order = nodes.as_slice();
    let mut estimates = Estimates::new(alloc, graph.nodes())?;
    let mut construction = begin(alloc, &Open, graph, &[], order, hops, &mut estimates)?;
    for _ in 0..MOST_RANKINGS {
        if construction.waiting.is_empty() {
            break;
        }
        let ranked = construction.rank_stale_alone(graph, &[], order, hops, &mut estimates)?;
        construction = ranked.contract_part(&Open, graph, &[], hops, &mut estimates)?;
    }
    construction.finish_in_turn(&Open, graph, &[], hops, &mut estimates)
}

/// Builds a contraction hierarchy of a graph. The given nodes that have few legs when their turn comes are contracted first,
/// as they come, and then the others. The order has each node once.
fn contract_quickly<R: Threads + Sync, G: Gate>(
    crew: &Crew<'_, R, G>,
    graph: &Graph,
    given: &[u32],
    order: &[u32],
    hops: HopBound,
) -> Result<Hierarchy, AllocError>
    requires order { IsOrderOf graph.now.nodes order.now }
    requires given { AreDifferentNodes graph.now given.now }
    ensures { IfOk result (IsHierarchyAfterSmall graph.now hops.number given.now) }
{
    let gate = crew.gate;
    let alloc = crew.alloc;
    let mut estimates = Estimates::new(alloc, graph.nodes())?;
    let mut construction = begin(alloc, gate, graph, given, order, hops, &mut estimates)?;
    for _ in 0..MOST_RANKINGS {
        if construction.waiting.is_empty() {
            break;
        }
        let ranked = construction.rank_stale(crew, graph, given, order, hops, &mut estimates)?;
        construction = ranked.contract_part(gate, graph, given, hops, &mut estimates)?;
    }
    construction.finish_in_turn(gate, graph, given, hops, &mut estimates)
}

/// Contracts the given nodes that have few legs, and then chains. The others are in the queue with estimates, in which each
/// pair of legs counts as a shortcut, so that a hub comes after the nodes around it.
fn begin<G: Gate>(
    alloc: Global,
    gate: &G,
    graph: &Graph,
    given: &[u32],
    order: &[u32],
    hops: HopBound,
    estimates: &mut Estimates,
) -> Result<Construction, AllocError>
    requires order { IsOrderOf graph.now.nodes order.now }
    requires given { AreDifferentNodes graph.now given.now }
    ensures { IfOk result (IsUnderWay graph.now hops.number given.now) }
{
    let opened = Construction::after(alloc, gate, graph, &[], hops)?;
    let begun = opened
        .queue(order)
        .take_given(alloc, gate, graph, given, hops)?;
    let open = begun.without_chains(alloc, gate, graph, given, order, hops)?;
    Ok(open.estimate_all(order, estimates))
}

/// Gives these nodes keys in their order. No node that is judged has a greater key.
fn put_in_order(waiting: &mut KeyQueue<i64>, nodes: &[u32])
    requires nodes { All (λ x. x < length waiting.old) nodes.now }
    requires count { length nodes.now < 2 ^ 32 }
    ensures { HaveKeys nodes.now waiting.old waiting.new }
{
    for (place, node) in nodes.iter().enumerate() {
        waiting.set(*node, UNJUDGED + place as i64);
    }
}

/// Appends a node if `wanted` is true.
fn push_if(list: &mut Vec<u32>, node: u32, wanted: bool) -> Result<(), AllocError>
    ensures { OnOk result (list.new.items ≡ (if wanted then list.old.items ++ node ∷ [] else list.old.items)) }
{
    if wanted {
        list.push(node)?;
    }
    Ok(())
}

/// Returns priorities by depth as keys.
fn all_exact() -> Keys {
    Keys {
        by: OrderBy::Depth,
        exact: i64::MAX,
    }
}

/// Returns the most legs of a witness while nodes are judged together: one less than otherwise, if that is not none.
fn hops_together(hops: HopBound) -> HopBound {
    HopBound {
        number: (hops.number - 1).max(1),
    }
}

impl Construction {
    ghost use Rattle.std.specs.Prelude.{MatchOption};
    ghost use Rattle.ch_queue.specs.Queue.{HasNone};
    ghost use Rattle.ch_order.specs.Quick.{AreQueued, HasKey, IsRekeyed};
    ghost use Rattle.ch_order.specs.Construction.{IsSized, IsJudging, progress_of};

    /// Puts these nodes into the queue, in their order, behind all nodes that are judged.
    fn queue(mut self, nodes: &[u32]) -> Construction
        requires sizes { IsSized self }
        requires nodes { All (λ x. x < self.remaining.nodes) nodes.now }
        requires count { length nodes.now < 2 ^ 32 }
        ensures sizes { IsSized result }
        ensures nodes { result.remaining.nodes ≡ self.remaining.nodes }
        ensures queued { AreQueued nodes.now (progress_of self) (progress_of result) }
        ensures ready { (h : ℕ) → IsJudging h self → IsJudging h result }
    {
        put_in_order(&mut self.waiting, nodes);
        self
    }

    /// Judges the first node of the queue, and then the node that is the first with the new priority, until it is one that
    /// was judged since the last contraction, or one that is not judged because it has many legs around it. Returns this node.
    /// After [`MOST_JUDGED`] nodes it returns the first one. The queue keeps its nodes.
    fn judge_first(
        mut self,
        alloc: Global,
        first: u32,
        hops: HopBound,
        estimates: &mut Estimates,
    ) -> Result<(Construction, u32), AllocError>
        requires sizes { IsSized self }
        requires first { HasKey self.waiting first }
        requires ready { IsJudging hops.number self }
        ensures sizes { IfOk result (λ r. IsSized r.0) }
        ensures nodes { IfOk result (λ r. r.0.remaining.nodes ≡ self.remaining.nodes) }
        ensures rekeyed { IfOk result (λ r. IsRekeyed (progress_of self) (progress_of r.0)) }
        ensures node { IfOk result (λ r. HasKey r.0.waiting r.1) }
        ensures ready { IfOk result (λ r. IsJudging hops.number r.0) }
    {
        let mut node = first;
        for _ in 0..MOST_JUDGED {
            if self.is_settled(node) {
                break;
            }
            node = self.judge(alloc, node, hops, estimates)?;
        }
        Ok((self, node))
    }

    /// Gives a node of the queue a key that is [`PREFERENCE`] less than the priority by depth that it has now. Returns the
    /// node that is then the first.
    fn judge(
        &mut self,
        alloc: Global,
        node: u32,
        hops: HopBound,
        estimates: &mut Estimates,
    ) -> Result<u32, AllocError>
        requires sizes { IsSized self.old }
        requires node { HasKey self.old.waiting node }
        requires ready { IsJudging hops.number self.old }
        ensures sizes { OnOk result (IsSized self.new) }
        ensures nodes { OnOk result (self.new.remaining.nodes ≡ self.old.remaining.nodes) }
        ensures rekeyed { OnOk result (IsRekeyed (progress_of self.old) (progress_of self.new)) }
        ensures first { IfOk result (HasKey self.new.waiting) }
        ensures ready { OnOk result (IsJudging hops.number self.new) }
    {
        let measure = self.room.judge(alloc, &self.remaining, node, hops)?;
        let priority = OrderBy::Depth.key(measure, self.depths[node as usize]);
        estimates.note(node, measure.shortcuts, self.remaining.pairs(node));
        self.waiting.set(node, priority.saturating_sub(PREFERENCE));
        match self.next() {
            Some(first) => Ok(first),
            None => Ok(node),
        }
    }

    /// Gives those of these nodes that wait keys by estimates.
    pub(super) fn estimate_all(mut self, nodes: &[u32], estimates: &mut Estimates) -> Construction
        requires sizes { IsSized self }
        ensures sizes { IsSized result }
        ensures nodes { result.remaining.nodes ≡ self.remaining.nodes }
        ensures rekeyed { IsRekeyed (progress_of self) (progress_of result) }
        ensures ready { (h : ℕ) → IsJudging h self → IsJudging h result }
    {
        for node in nodes {
            self.estimate(*node, estimates);
        }
        self
    }

    /// Gives a node a key by an estimate, if it waits.
    fn estimate(&mut self, node: u32, estimates: &mut Estimates)
        requires sizes { IsSized self.old }
        ensures sizes { IsSized self.new }
        ensures nodes { self.new.remaining.nodes ≡ self.old.remaining.nodes }
        ensures rekeyed { IsRekeyed (progress_of self.old) (progress_of self.new) }
        ensures ready { (h : ℕ) → IsJudging h self.old → IsJudging h self.new }
    {
        if !self.waits(node) {
            return;
        }
        estimates.touch(node);
        let legs = self.remaining.count_touching(node);
        let measure = estimates.measure(node, self.remaining.pairs(node), legs);
        let key = OrderBy::Depth.key(measure, self.depths[node as usize]);
        self.waiting.set(node, key);
    }

    /// Gives those of these nodes whose legs have changed the priorities by depth that they have now, except for nodes with many
    /// legs around them. Workers share them.
    fn rank_stale<R: Threads + Sync, G: Gate>(
        self,
        crew: &Crew<'_, R, G>,
        graph: &Graph,
        given: &[u32],
        nodes: &[u32],
        hops: HopBound,
        estimates: &mut Estimates,
    ) -> Result<Construction, AllocError>
        requires under_way { IsUnderWay graph.now hops.number given.now self }
        requires count { length nodes.now < 2 ^ 32 }
        ensures { IfOk result (IsUnderWay graph.now hops.number given.now) }
    {
        let stale = self.stale_among(crew.alloc, nodes, estimates)?;
        let ranked = self.rank(crew, stale.as_slice(), hops_together(hops), all_exact())?;
        ranked.note_all(stale.as_slice(), estimates);
        Ok(ranked)
    }

    /// Gives the same nodes the same priorities without any thread.
    fn rank_stale_alone(
        self,
        graph: &Graph,
        given: &[u32],
        nodes: &[u32],
        hops: HopBound,
        estimates: &mut Estimates,
    ) -> Result<Construction, AllocError>
        requires under_way { IsUnderWay graph.now hops.number given.now self }
        ensures { IfOk result (IsUnderWay graph.now hops.number given.now) }
    {
        let alloc = *self.levels.allocator();
        let stale = self.stale_among(alloc, nodes, estimates)?;
        let ranked = self.rank_alone(alloc, stale.as_slice(), hops_together(hops), all_exact())?;
        ranked.note_all(stale.as_slice(), estimates);
        Ok(ranked)
    }

    /// Contracts nodes one after the other until three tenths of those in the queue are left.
    fn contract_part<G: Gate>(
        self,
        gate: &G,
        graph: &Graph,
        given: &[u32],
        hops: HopBound,
        estimates: &mut Estimates,
    ) -> Result<Construction, AllocError>
        requires under_way { IsUnderWay graph.now hops.number given.now self }
        ensures { IfOk result (IsUnderWay graph.now hops.number given.now) }
    {
        let due = self.waiting.len() / PARTS * DUE_PARTS;
        self.contract_until(gate, graph, given, due, hops, estimates)
    }

    /// Contracts all nodes that are left, and returns the hierarchy.
    fn finish_in_turn<G: Gate>(
        self,
        gate: &G,
        graph: &Graph,
        given: &[u32],
        hops: HopBound,
        estimates: &mut Estimates,
    ) -> Result<Hierarchy, AllocError>
        requires under_way { IsUnderWay graph.now hops.number given.now self }
        ensures { IfOk result (IsHierarchyAfterSmall graph.now hops.number given.now) }
    {
        let all = self.contract_until(gate, graph, given, 0, hops, estimates)?;
        all.finish()
    }

    /// Contracts nodes one after the other until the queue has at most `due`.
    fn contract_until<G: Gate>(
        self,
        gate: &G,
        graph: &Graph,
        given: &[u32],
        due: usize,
        hops: HopBound,
        estimates: &mut Estimates,
    ) -> Result<Construction, AllocError>
        requires under_way { IsUnderWay graph.now hops.number given.now self }
        ensures under_way { IfOk result (IsUnderWay graph.now hops.number given.now) }
        ensures none { IfOk result (λ c. due ≡ 0 → HasNone c.waiting) }
    {
        let alloc = *self.levels.allocator();
        let mut construction = self;
        while let Some(least) = construction.next_above(due) {
            gate.watch(Stage::Building, construction.contracted, graph.nodes());
            let (judged, node) = construction.judge_first(alloc, least, hops, estimates)?;
            construction = judged.take_next(alloc, node, hops, estimates)?;
        }
        Ok(construction)
    }

    /// Returns the first node of the queue, or `None` if it has at most `due` nodes.
    fn next_above(&self, due: usize) -> Option<u32>
        ensures { MatchOption result (due ≡ 0 → HasNone self.now.waiting) (HasKey self.now.waiting) }
    {
        let node = self.next()?;
        if due > 0 && self.waiting.len() <= due {
            return None;
        }
        Some(node)
    }

    /// Returns those of these nodes that are in the queue, whose legs have changed since they were judged, and that have few
    /// legs around them.
    fn stale_among(
        &self,
        alloc: Global,
        nodes: &[u32],
        estimates: &Estimates,
    ) -> Result<Vec<u32>, AllocError>
        requires sizes { self.now.remaining.nodes ≡ length self.now.waiting }
        ensures keys { IfOk result (λ list. All (HasKey self.now.waiting) list.items) }
        ensures count { IfOk result (λ list. length list.items ≤ length nodes.now) }
    {
        let mut list = Vec::new(alloc);
        for node in nodes {
            let stale = self.is_stale(*node, estimates);
            push_if(&mut list, *node, stale)?;
        }
        Ok(list)
    }

    /// Whether a node is in the queue, its legs have changed since it was judged, and it has few legs around it.
    fn is_stale(&self, node: u32, estimates: &Estimates) -> bool
        requires sizes { self.now.remaining.nodes ≡ length self.now.waiting }
        ensures { IsTrue result → HasKey self.now.waiting node }
    {
        self.waits(node) && estimates.is_stale(node) && !self.is_heavy(node)
    }

    /// Notes that these nodes were judged. Their keys tell the numbers of their shortcuts.
    fn note_all(&self, nodes: &[u32], estimates: &mut Estimates)
        requires sizes { IsSized self.now }
    {
        for node in nodes {
            self.note(*node, estimates);
        }
    }

    /// Notes that a node was judged, if it waits.
    fn note(&self, node: u32, estimates: &mut Estimates)
        requires sizes { IsSized self.now }
    {
        if !self.waits(node) {
            return;
        }
        if let Some(key) = self.waiting.key(node) {
            let legs = self.remaining.count_touching(node) as i64;
            let depth = i64::from(self.depths[node as usize]);
            let twice = key.saturating_add(legs).saturating_sub(depth).max(0) as u64;
            estimates.note(node, twice / 2, self.remaining.pairs(node));
        }
    }
}
