//! Builds the hierarchy of a graph: its nodes are contracted one after the other.
mod alone;
mod chains;
mod crowded;
mod estimates;
mod like;
mod quick;
mod steps;

ghost use Rattle.std.specs.Prelude.{◌≡◌, ◌≢◌, ℕ, ◌<◌, ◌^◌, ◌++◌, pos, All, IfOk, IfSome, None, length, slice_set};
ghost use Rattle.ch_graph.specs.Graph.{IsWithinLimits};
ghost use Rattle.ch_contract.specs.Built.{IsHierarchy, IsHierarchyInTurn};
ghost use Rattle.ch_contract.specs.Like.{IsHierarchyFrom};
ghost use Rattle.ch_contract.specs.Begun.{AreDifferentNodes};
ghost use Rattle.ch_hierarchy.specs.Kept.{IsKept};
ghost use Rattle.ch_hierarchy.specs.Saved.{IsOrderOf};
ghost use Rattle.ch_order.specs.Construction.{HasGiven};

use crate::keys::{FIRST_EXACT, GROWTH, Keys, TRIES};
use crate::priority::PriorityJob;
pub use alone::{build_alone, build_like_alone};
use ch_contract::memory::ask_ahead;
use ch_contract::order::{Neighbours, all_nodes, deepen, neighbours};
use ch_contract::{BothRows, HopBound, OrderBy, Remaining, Room};
use ch_graph::Graph;
use ch_hierarchy::Hierarchy;
use ch_queue::KeyQueue;
use ch_work::{Crew, Gate, Stage};
pub use like::{LikeError, OrderError, build_like};
pub use quick::{build_like_quickly, build_quickly, build_quickly_alone};
use std::alloc::{AllocError, Global};
use std::thread::Threads;

/// Builds the contraction hierarchy of a graph by the difference, where a witness has at most `hops` legs. For
/// workers and errors see [`build_in_turn`].
pub fn build<R: Threads + Sync, G: Gate>(
    crew: &Crew<'_, R, G>,
    graph: &Graph,
    hops: HopBound,
) -> Result<Hierarchy, AllocError>
    ensures hierarchy { IfOk result (IsHierarchy graph.now hops.number) }
    ensures kept { IfOk result (IsKept graph.now) }
    ensures limits { IsWithinLimits graph.now }
{
    build_in_turn(crew, graph, hops, OrderBy::Difference)
}

/// Builds the contraction hierarchy of a graph, one node after the other, where a witness has at most `hops`
/// legs. The next node to be contracted is always the one of the least key in this order; at equal keys it has
/// the least number. Only the neighbours of a contracted node get new keys.
///
/// Workers share the first keys of all nodes. They also share the new keys of the neighbours of a contracted
/// node if these are at least `crew.plan.wide()` nodes. Each of these batches is a job of its own
/// (see [`run_pieces`](ch_work::run_pieces)), and workers pass the gate with the numbers of its pieces. Before
/// each contraction the gate's `watch` receives the number of contracted nodes. The hierarchy does not depend
/// on the crew.
///
/// # Errors
/// `AllocError` if the call or a piece is refused memory. All workers are joined before the call returns.
/// Everything that it made is dropped, and the graph is as before.
pub fn build_in_turn<R: Threads + Sync, G: Gate>(
    crew: &Crew<'_, R, G>,
    graph: &Graph,
    hops: HopBound,
    by: OrderBy,
) -> Result<Hierarchy, AllocError>
    ensures hierarchy { IfOk result (IsHierarchyInTurn by graph.now hops.number) }
    ensures kept { IfOk result (IsKept graph.now) }
    ensures limits { IsWithinLimits graph.now }
{
    ask_ahead(crew.alloc, graph)?;
    let nodes = all_nodes(crew.alloc, graph.nodes())?;
    contract_in_turn(crew, graph, &[], nodes.as_slice(), hops, by)
}

/// Builds the contraction hierarchy of a graph, one node after the other. The nodes `given` are contracted first, as they
/// come, and then the others in this order. The two lists together have each node once.
fn contract_in_turn<R: Threads + Sync, G: Gate>(
    crew: &Crew<'_, R, G>,
    graph: &Graph,
    given: &[u32],
    others: &[u32],
    hops: HopBound,
    by: OrderBy,
) -> Result<Hierarchy, AllocError>
    requires order { IsOrderOf graph.now.nodes (given.now ++ others.now) }
    ensures { IfOk result (IsHierarchyFrom by graph.now hops.number given.now) }
{
    let mut exact = FIRST_EXACT;
    for _ in 0..TRIES {
        let keys = Keys { by, exact };
        if let Some(hierarchy) = contract_by(crew, graph, given, others, hops, keys)? {
            return Ok(hierarchy);
        }
        exact = exact.saturating_mul(GROWTH);
    }
    let exact = i64::MAX;
    match contract_by(crew, graph, given, others, hops, Keys { by, exact })? {
        Some(hierarchy) => Ok(hierarchy),
        None => unreachable!(),
    }
}

/// Builds the contraction hierarchy of a graph by these keys, or returns `None` if a key comes first that is not exact. The
/// nodes `given` are contracted first, as they come. The two lists together have each node once.
fn contract_by<R: Threads + Sync, G: Gate>(
    crew: &Crew<'_, R, G>,
    graph: &Graph,
    given: &[u32],
    others: &[u32],
    hops: HopBound,
    keys: Keys,
) -> Result<Option<Hierarchy>, AllocError>
    requires order { IsOrderOf graph.now.nodes (given.now ++ others.now) }
    ensures hierarchy { IfOk result (λ o. IfSome o (IsHierarchyFrom keys.by graph.now hops.number given.now)) }
    ensures none { IfOk result (λ o. o ≡ None → keys.exact ≢ pos 9223372036854775807) }
{
    let begun = Construction::after(crew.alloc, crew.gate, graph, given, hops)?;
    contract_others(crew, graph, begun, given, others, hops, keys)
}

/// Goes on with a construction in which the nodes `given` are contracted, as they come. Contracts the others in this order,
/// and returns the hierarchy. The two lists together have each node once.
fn contract_begun<R: Threads + Sync, G: Gate>(
    crew: &Crew<'_, R, G>,
    graph: &Graph,
    begun: Construction,
    given: &[u32],
    others: &[u32],
    hops: HopBound,
    by: OrderBy,
) -> Result<Hierarchy, AllocError>
    requires order { IsOrderOf graph.now.nodes (given.now ++ others.now) }
    requires begun { HasGiven graph.now hops.number given.now begun }
    ensures { IfOk result (IsHierarchyFrom by graph.now hops.number given.now) }
{
    let exact = FIRST_EXACT;
    let keys = Keys { by, exact };
    if let Some(hierarchy) = contract_others(crew, graph, begun, given, others, hops, keys)? {
        return Ok(hierarchy);
    }
    contract_in_turn(crew, graph, given, others, hops, by)
}

/// Goes on with a construction in which the nodes `given` are contracted, as they come. Contracts the others by these keys,
/// and returns the hierarchy, or `None` if a key comes first that is not exact. The two lists together have each node once.
fn contract_others<R: Threads + Sync, G: Gate>(
    crew: &Crew<'_, R, G>,
    graph: &Graph,
    begun: Construction,
    given: &[u32],
    others: &[u32],
    hops: HopBound,
    keys: Keys,
) -> Result<Option<Hierarchy>, AllocError>
    requires order { IsOrderOf graph.now.nodes (given.now ++ others.now) }
    requires begun { HasGiven graph.now hops.number given.now begun }
    ensures hierarchy { IfOk result (λ o. IfSome o (IsHierarchyFrom keys.by graph.now hops.number given.now)) }
    ensures none { IfOk result (λ o. o ≡ None → keys.exact ≢ pos 9223372036854775807) }
{
    let mut construction = begun.rank(crew, others, hops, keys)?;
    while let Some(node) = construction.next() {
        if !construction.is_exact(node, keys) {
            return Ok(None);
        }
        crew.gate
            .watch(Stage::Building, construction.contracted, graph.nodes());
        construction = construction.contract(crew, node, hops, keys)?;
    }
    let hierarchy = construction.finish()?;
    Ok(Some(hierarchy))
}

/// Reports that a ranking begins, unless it has no piece.
fn tell_ranking<G: Gate>(gate: &G, pieces: u32) {
    if pieces > 0 {
        gate.watch(Stage::Ranking, 0, pieces);
    }
}

/// Takes a node out of the queue. While no node waits, as before the first priorities, this reads no memory for the node.
fn leave(waiting: &mut KeyQueue<i64>, node: u32)
    requires { node < length waiting.old }
    ensures { waiting.new ≡ slice_set waiting.old node None }
{
    if !waiting.is_empty() {
        let _ = waiting.remove(node);
    }
}

/// A hierarchy that is being built: some of its nodes are contracted.
#[derive(Drop)]
struct Construction {
    remaining: Remaining,
    /// The caller's room, which each step uses. It keeps the shortcuts of the nodes that the last step judged.
    /// The next node is often one of these.
    room: Room,
    /// The workers' rooms. They are used if several workers judge the neighbours of a node.
    rooms: Vec<Room>,
    /// The remaining nodes, by their priorities.
    waiting: KeyQueue<i64>,
    /// The depth of each node.
    depths: Vec<u32>,
    /// The level of each contracted node, and 0 for each remaining node.
    levels: Vec<u32>,
    /// The number of contracted nodes.
    contracted: u32,
}

impl Construction {
    ghost use Rattle.std.specs.Prelude.{◌≤ℤ◌, ℤ, Some, false, IsTrue, MatchOption};
    ghost use Rattle.ch_queue.specs.Queue.{HasNone, key_of};
    ghost use Rattle.ch_contract.specs.Rooms.{IsIdleRoom};
    ghost use Rattle.ch_hierarchy.specs.Hierarchy.{LevelsAndLegs, IsLevelled};
    ghost use Rattle.ch_order.specs.Progress.{AreAll, IsNext, IsOpen, IsStep};
    ghost use Rattle.ch_order.specs.Priorities.{IsRanked};
    ghost use Rattle.ch_order.specs.Construction.{IsSized, IsJudging, IsReadyFor, IsTaken, progress_of};

    /// Starts the construction of the hierarchy of a graph. No node is contracted yet, and none has a priority.
    fn open(alloc: Global, graph: &Graph) -> Result<Construction, AllocError>
        ensures sizes { IfOk result IsSized }
        ensures nodes { IfOk result (λ c. c.remaining.nodes ≡ graph.now.nodes) }
        ensures begun { IfOk result (λ c. IsOpen graph.now (progress_of c)) }
        ensures ready { IfOk result (λ c. (h : ℕ) → IsJudging h c) }
    {
        let remaining = Remaining::open(alloc, graph)?;
        let nodes = remaining.nodes();
        let waiting = KeyQueue::new(alloc, nodes)?;
        let depths = vec![in alloc; 0; nodes as usize]?;
        let levels = vec![in alloc; 0; nodes as usize]?;
        let room = Room::new(alloc);
        let rooms = Vec::new(alloc);
        Ok(Construction {
            remaining,
            room,
            rooms,
            waiting,
            depths,
            levels,
            contracted: 0,
        })
    }

    /// Starts the construction of the hierarchy of a graph, in which these nodes are contracted as they come, whatever
    /// their priorities. The others have no priorities yet.
    fn after<G: Gate>(
        alloc: Global,
        gate: &G,
        graph: &Graph,
        nodes: &[u32],
        hops: HopBound,
    ) -> Result<Construction, AllocError>
        requires nodes { AreDifferentNodes graph.now nodes.now }
        ensures { IfOk result (HasGiven graph.now hops.number nodes.now) }
    {
        let mut construction = Construction::open(alloc, graph)?;
        for node in nodes {
            gate.watch(Stage::Building, construction.contracted, graph.nodes());
            let (taken, _) = construction.take(alloc, *node, hops)?;
            construction = taken;
        }
        Ok(construction)
    }

    /// Gives these nodes the keys that they have now. Workers share them.
    fn rank<R: Threads + Sync, G: Gate>(
        mut self,
        crew: &Crew<'_, R, G>,
        nodes: &[u32],
        hops: HopBound,
        keys: Keys,
    ) -> Result<Construction, AllocError>
        requires sizes { IsSized self }
        requires nodes { All (λ x. x < self.remaining.nodes) nodes.now }
        requires count { length nodes.now < 2 ^ 32 }
        requires rooms { All IsIdleRoom self.rooms.items }
        ensures sizes { IfOk result IsSized }
        ensures nodes { IfOk result (λ c. c.remaining.nodes ≡ self.remaining.nodes) }
        ensures ranked { IfOk result (λ c. IsRanked keys self.remaining.nodes hops.number nodes.now (progress_of self) (progress_of c)) }
        ensures ready { IfOk result (λ c. (h : ℕ) → IsJudging h self → IsJudging h c) }
    {
        let job = PriorityJob {
            remaining: &self.remaining,
            depths: self.depths.as_slice(),
            hops,
            keys,
        };
        tell_ranking(crew.gate, crew.plan.pieces(nodes.len() as u32));
        job.set_by_all(crew, nodes, &mut self.rooms, &mut self.waiting)?;
        Ok(self)
    }

    /// Returns the node that is contracted next, or `None` if no node remains.
    fn next(&self) -> Option<u32>
        ensures { MatchOption result (HasNone self.now.waiting) (IsNext self.now.waiting) }
    {
        let (_, node) = self.waiting.least()?;
        Some(node)
    }

    /// Whether the key of a node is its priority.
    fn is_exact(&self, node: u32, keys: Keys) -> bool
        requires { node < length self.now.waiting }
        ensures exact { IsTrue result → (p : ℤ) → key_of self.now.waiting node ≡ Some p → p ≤ℤ keys.exact }
        ensures above { result ≡ false → keys.exact ≢ pos 9223372036854775807 }
    {
        match self.waiting.key(node) {
            Some(key) => key <= keys.exact,
            None => true,
        }
    }

    /// Contracts a node, and keeps its level and its legs.
    fn contract<R: Threads + Sync, G: Gate>(
        self,
        crew: &Crew<'_, R, G>,
        node: u32,
        hops: HopBound,
        keys: Keys,
    ) -> Result<Construction, AllocError>
        requires next { IsReadyFor hops.number self node }
        ensures sizes { IfOk result IsSized }
        ensures nodes { IfOk result (λ c. c.remaining.nodes ≡ self.remaining.nodes) }
        ensures step { IfOk result (λ c. IsStep keys self.remaining.nodes hops.number (progress_of self) node (progress_of c)) }
        ensures ready { IfOk result (IsJudging hops.number) }
    {
        let (mut taken, neighbours) = self.take(crew.alloc, node, hops)?;
        let job = PriorityJob {
            remaining: &taken.remaining,
            depths: taken.depths.as_slice(),
            hops,
            keys,
        };
        job.refresh(
            crew,
            neighbours.as_slice(),
            &mut taken.room,
            &mut taken.rooms,
            &mut taken.waiting,
        )?;
        Ok(taken)
    }

    /// Contracts a node, keeps its level and its legs, takes it out of the queue, and raises the depths of its
    /// neighbours. Returns the neighbours too. Their priorities are unchanged.
    fn take(
        mut self,
        alloc: Global,
        node: u32,
        hops: HopBound,
    ) -> Result<(Construction, Neighbours), AllocError>
        requires next { IsReadyFor hops.number self node }
        ensures sizes { IfOk result (λ r. IsSized r.0) }
        ensures taken { IfOk result (λ r. IsTaken hops.number self node r.1.items r.0) }
    {
        let remaining = self.remaining;
        self.remaining = self.room.contract(alloc, remaining, node, hops)?;
        leave(&mut self.waiting, node);
        let neighbours = neighbours(
            alloc,
            self.remaining.up_legs(node),
            self.remaining.down_legs(node),
        )?;
        deepen(&mut self.depths, neighbours.as_slice(), node);
        self.contracted += 1;
        self.levels[node as usize] = self.contracted;
        Ok((self, neighbours))
    }

    /// Returns the hierarchy when every node is contracted. It first frees the memory that the hierarchy does
    /// not need.
    fn finish(self) -> Result<Hierarchy, AllocError>
        requires sizes { IsSized self }
        requires levelled { (H : LevelsAndLegs) → AreAll self.remaining.nodes (progress_of self) H → IsLevelled H }
        ensures { IfOk result (AreAll self.remaining.nodes (progress_of self)) }
    {
        let Construction {
            remaining,
            room,
            rooms,
            waiting,
            depths,
            levels,
            contracted: _,
        } = self;
        drop(room);
        drop(rooms);
        drop(waiting);
        drop(depths);
        let BothRows { ups, downs } = remaining.into_rows()?;
        Hierarchy::from_rows(*levels.allocator(), levels, ups, downs)
    }
}
