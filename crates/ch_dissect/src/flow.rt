//! The greatest flow between the two ends of a part, where each edge takes one unit (Dinitz 1970).
ghost use Rattle.std.specs.Prelude.{◌≡◌, ◌+◌, ◌<◌, ◌≤◌, length, vec_len, IfOk, MatchOption, OnOk, ⊤};
ghost use Rattle.ch_dissect.specs.Rows.{AreBelow};
ghost use Rattle.ch_dissect.specs.Flows.{IsFlowOf, IsLabelled};

use crate::nodes::push_node;
use crate::part::Part;
use crate::shares::Share;
use crate::walk::UNREACHED;
use std::alloc::{AllocError, Global};

/// A flow through a part.
#[derive(Drop)]
pub(crate) struct Flow {
    /// How many more units each arc takes: 0, 1 or 2.
    pub(crate) free: Vec<u8>,
    /// By node: the number of arcs of a shortest way from the first end along which each arc takes more.
    pub(crate) levels: Vec<u32>,
    /// By node: the arc that is tried next.
    cursors: Vec<u32>,
    queue: Vec<u32>,
    /// The arcs of a way that is sought.
    way: Vec<u32>,
}

impl Flow {
    /// Makes room for no nodes.
    pub(crate) fn new(alloc: Global) -> Flow {
        Flow {
            free: Vec::new(alloc),
            levels: Vec::new(alloc),
            cursors: Vec::new(alloc),
            queue: Vec::new(alloc),
            way: Vec::new(alloc),
        }
    }

    /// Finds the greatest flow from the first end to the last, and returns how much flows, or `None` if that is more than
    /// `most`. Afterwards the levels are those of the nodes to which one more unit could come.
    ///
    /// # Errors
    /// `AllocError` if there is no memory.
    pub(crate) fn run(
        &mut self,
        part: &Part,
        shares: &[Share],
        most: usize,
    ) -> Result<Option<usize>, AllocError>
        requires { length shares.now ≡ part.now.count }
        ensures { IfOk result (λ total. MatchOption total ⊤ (λ _. IsLabelled part.now self.new)) }
    {
        self.free.clear();
        self.free.resize(part.heads.len(), 1)?;
        let mut total = 0usize;
        // Each phase adds a unit, and the flow is at most the number of edges.
        for _ in 0..part.heads.len() {
            if !self.label(part, shares)? {
                return Ok(Some(total));
            }
            let added = self.block(part, shares, most.saturating_sub(total))?;
            total = total.saturating_add(added);
            if total > most {
                return Ok(None);
            }
        }
        Ok(None)
    }

    /// Labels the nodes that one more unit can come to with their levels. Says whether the last end is reached.
    fn label(&mut self, part: &Part, shares: &[Share]) -> Result<bool, AllocError>
        requires shares { length shares.now ≡ part.now.count }
        requires free { vec_len self.old.free ≡ vec_len part.now.heads }
        ensures { OnOk result (IsLabelled part.now self.new) }
    {
        self.levels.clear();
        self.levels.resize(part.count as usize, UNREACHED)?;
        self.queue.clear();
        label_first(part, shares, &mut self.levels, &mut self.queue)?;
        let is_reached = label_on(part, shares, &self.free, &mut self.levels, &mut self.queue)?;
        Ok(is_reached)
    }

    /// Adds ways of rising levels until there are no more. Returns how many, and stops once they are more than `most`.
    fn block(&mut self, part: &Part, shares: &[Share], most: usize) -> Result<usize, AllocError>
        requires shares { length shares.now ≡ part.now.count }
        requires labelled { IsLabelled part.now self.old }
        ensures { OnOk result (IsLabelled part.now self.new) }
    {
        self.cursors.clear();
        self.cursors.extend_from_slice(part.starts.as_slice())?;
        self.way.clear();
        let mut total = 0usize;
        for node in 0..part.count {
            if shares[node as usize] == Share::First && total <= most {
                let added = self.add_ways(part, shares, node)?;
                total = total.saturating_add(added);
            }
        }
        Ok(total)
    }

    /// Adds ways from a node until there are no more, and returns how many.
    fn add_ways(&mut self, part: &Part, shares: &[Share], from: u32) -> Result<usize, AllocError>
        requires shares { length shares.now ≡ part.now.count }
        requires from { from < part.now.count }
        requires flow { IsFlowOf part.now self.old }
        ensures { OnOk result (IsFlowOf part.now self.new) }
    {
        let mut total = 0usize;
        // Each way fills an arc of the node, which takes two units at most.
        for _ in 0..part.heads.len() {
            if !self.find_way(part, shares, from)? {
                break;
            }
            fill_way(part, &self.way, &mut self.free);
            total = total.saturating_add(1);
        }
        Ok(total)
    }

    /// Finds a way of rising levels from a node to the last end along which each arc takes more.
    fn find_way(&mut self, part: &Part, shares: &[Share], from: u32) -> Result<bool, AllocError>
        requires shares { length shares.now ≡ part.now.count }
        requires from { from < part.now.count }
        requires flow { IsFlowOf part.now self.old }
        ensures { OnOk result (IsFlowOf part.now self.new) }
    {
        self.way.clear();
        let mut node = from;
        // Each step takes an arc, or gives up one for good.
        for _ in 0..part.heads.len().saturating_mul(2).saturating_add(1) {
            if shares[node as usize] == Share::Last {
                return Ok(true);
            }
            node = match self.step_on(part, node)? {
                Some(head) => head,
                None => match self.step_back(part) {
                    Some(tail) => tail,
                    None => return Ok(false),
                },
            };
        }
        Ok(false)
    }

    /// Takes the next arc of a node, and returns the node that it leads to, or `None` if no arc takes more.
    #[inline]
    fn step_on(&mut self, part: &Part, node: u32) -> Result<Option<u32>, AllocError>
        requires node { node < part.now.count }
        requires flow { IsFlowOf part.now self.old }
        ensures flow { OnOk result (IsFlowOf part.now self.new) }
        ensures node { IfOk result (λ next. MatchOption next ⊤ (λ head. head < part.now.count)) }
    {
        let next = next_arc(part, &self.free, &self.levels, &mut self.cursors, node);
        let Some(arc) = next else {
            return Ok(None);
        };
        self.way.push(arc)?;
        Ok(Some(part.heads[arc as usize]))
    }

    /// Gives up the last arc of the way for good, and returns the node that it leaves, or `None` if there is no arc.
    #[inline]
    fn step_back(&mut self, part: &Part) -> Option<u32>
        requires { IsFlowOf part.now self.old }
        ensures flow { IsFlowOf part.now self.new }
        ensures node { MatchOption result ⊤ (λ tail. tail < part.now.count) }
    {
        let Some(arc) = self.way.pop() else {
            return None;
        };
        let tail = part.heads[part.twins[arc as usize] as usize];
        self.cursors[tail as usize] = arc.saturating_add(1);
        Some(tail)
    }
}

/// Labels the nodes of the first end, and puts them into the queue.
fn label_first(
    part: &Part,
    shares: &[Share],
    levels: &mut [u32],
    queue: &mut Vec<u32>,
) -> Result<(), AllocError>
    requires shares { length shares.now ≡ part.now.count }
    requires levels { length levels.old ≡ part.now.count }
    requires queue { AreBelow part.now.count queue.old.items }
    ensures { AreBelow part.now.count queue.new.items }
{
    for node in 0..part.count {
        let is_first = shares[node as usize] == Share::First;
        if !is_first {
            continue;
        }
        levels[node as usize] = 0;
        push_node(part.count, node, queue)?;
    }
    Ok(())
}

/// Goes on from the nodes in the queue until it reaches no more. Says whether the last end is reached.
fn label_on(
    part: &Part,
    shares: &[Share],
    free: &[u8],
    levels: &mut [u32],
    queue: &mut Vec<u32>,
) -> Result<bool, AllocError>
    requires shares { length shares.now ≡ part.now.count }
    requires free { length free.now ≡ vec_len part.now.heads }
    requires levels { length levels.old ≡ part.now.count }
    requires queue { AreBelow part.now.count queue.old.items }
{
    let mut is_reached = false;
    for place in 0..part.count as usize {
        if place >= queue.len() {
            break;
        }
        let is_here = label_from(part, shares, queue[place], free, levels, queue)?;
        is_reached = is_reached || is_here;
    }
    Ok(is_reached)
}

/// Labels the neighbours to which one more unit can come from a node. Says whether one of them is at the last end.
#[inline]
fn label_from(
    part: &Part,
    shares: &[Share],
    node: u32,
    free: &[u8],
    levels: &mut [u32],
    queue: &mut Vec<u32>,
) -> Result<bool, AllocError>
    requires shares { length shares.now ≡ part.now.count }
    requires node { node < part.now.count }
    requires free { length free.now ≡ vec_len part.now.heads }
    requires levels { length levels.old ≡ part.now.count }
    requires queue { AreBelow part.now.count queue.old.items }
    ensures { AreBelow part.now.count queue.new.items }
{
    let next = levels[node as usize].saturating_add(1);
    let mut is_reached = false;
    for arc in part.starts[node as usize]..part.starts[node as usize + 1] {
        let head = part.heads[arc as usize];
        if free[arc as usize] == 0 || levels[head as usize] != UNREACHED {
            continue;
        }
        levels[head as usize] = next;
        if shares[head as usize] == Share::Last {
            is_reached = true;
            continue;
        }
        push_node(part.count, head, queue)?;
    }
    Ok(is_reached)
}

/// Returns the next arc of a node that takes more and leads one level up.
#[inline]
fn next_arc(part: &Part, free: &[u8], levels: &[u32], cursors: &mut [u32], node: u32) -> Option<u32>
    requires free { length free.now ≡ vec_len part.now.heads }
    requires levels { length levels.now ≡ part.now.count }
    requires cursors { part.now.count ≤ length cursors.old }
    requires node { node < part.now.count }
    ensures { MatchOption result ⊤ (λ arc. arc < vec_len part.now.heads) }
{
    let next = levels[node as usize].saturating_add(1);
    let end = part.starts[node as usize + 1];
    for arc in cursors[node as usize]..end {
        if free[arc as usize] > 0 && levels[part.heads[arc as usize] as usize] == next {
            cursors[node as usize] = arc;
            return Some(arc);
        }
    }
    cursors[node as usize] = end;
    None
}

/// Sends a unit along a way.
fn fill_way(part: &Part, way: &[u32], free: &mut [u8])
    requires way { AreBelow (vec_len part.now.heads) way.now }
    requires free { length free.old ≡ vec_len part.now.heads }
{
    for place in 0..way.len() {
        let arc = way[place] as usize;
        let twin = part.twins[arc] as usize;
        free[arc] = free[arc].saturating_sub(1);
        free[twin] = free[twin].saturating_add(1);
    }
}
