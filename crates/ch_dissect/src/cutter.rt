//! The cuts of parts: how one part is put in order, or cut into parts.
ghost use Rattle.std.specs.Prelude.{◌≡◌, ◌+◌, ◌<◌, ◌≤◌, length, vec_len, OnOk};

use crate::flow::Flow;
use crate::neighbours::Neighbours;
use crate::part::Part;
use crate::parts::Parts;
use crate::separator::{GROUPS, Separators};
use crate::shares::Dealing;
use crate::small::{Few, MOST_FEW};
use crate::walk::{components, walk};
use std::alloc::{AllocError, Global};
use std::mem;

/// The most nodes of a part that is not cut.
const MOST_UNCUT: u32 = 8;

/// A part, and room to cut it.
#[derive(Drop)]
pub(crate) struct Cutter {
    part: Part,
    cursors: Vec<u32>,
    queue: Vec<u32>,
    /// By node: the number of edges from one end of a walk.
    first: Vec<u32>,
    /// By node: the number of edges from the other end.
    second: Vec<u32>,
    /// By node: the number of its component, or of its neighbours.
    groups: Vec<u32>,
    dealing: Dealing,
    flow: Flow,
    separators: Separators,
    few: Few,
}

impl Cutter {
    /// Makes room for no nodes.
    ///
    /// # Errors
    /// `AllocError` if there is no memory.
    pub(crate) fn new(alloc: Global) -> Result<Cutter, AllocError> {
        Ok(Cutter {
            part: Part::none(alloc)?,
            cursors: Vec::new(alloc),
            queue: Vec::new(alloc),
            first: Vec::new(alloc),
            second: Vec::new(alloc),
            groups: Vec::new(alloc),
            dealing: Dealing::new(alloc),
            flow: Flow::new(alloc),
            separators: Separators::new(alloc),
            few: Few::new(alloc),
        })
    }

    /// Puts the pending parts in order. Those with at most `least` nodes are left: they are returned.
    ///
    /// # Errors
    /// `AllocError` if there is no memory.
    pub(crate) fn cut_all(
        &mut self,
        alloc: Global,
        rows: &Neighbours,
        parts: &mut Parts,
        least: u32,
    ) -> Result<Vec<(u32, u32)>, AllocError>
        requires { parts.old.count ≡ rows.now.count }
        ensures { parts.new.count ≡ parts.old.count }
    {
        let mut left = Vec::new(alloc);
        // Each part is in order or left once it is taken, or is cut into two parts or more.
        for _ in 0..rows.count as u64 * 2 {
            let Some((start, end)) = parts.take() else {
                break;
            };
            if end.saturating_sub(start) > least {
                self.cut(alloc, rows, parts, start, end)?;
            } else {
                left.push((start, end))?;
            }
        }
        Ok(left)
    }

    /// Puts the part between two places in order, or cuts it into parts that are not yet in order.
    ///
    /// # Errors
    /// `AllocError` if there is no memory.
    fn cut(
        &mut self,
        alloc: Global,
        rows: &Neighbours,
        parts: &mut Parts,
        start: u32,
        end: u32,
    ) -> Result<(), AllocError>
        requires { parts.old.count ≡ rows.now.count }
        ensures { parts.new.count ≡ parts.old.count }
    {
        if start >= end || end > parts.count {
            return Ok(());
        }
        self.lay(alloc, rows, parts, start, end)?;
        if self.part.count <= MOST_UNCUT {
            return self.put_few(parts, start);
        }
        let last = walk(&self.part, 0, &mut self.first, &mut self.queue)?;
        if self.queue.len() < self.part.count as usize {
            return self.put_components(parts, start);
        }
        self.separators.begin(&self.part)?;
        self.find_separator(last)?;
        self.put_separator(parts, start)
    }

    /// Lays out the part between two places.
    fn lay(
        &mut self,
        alloc: Global,
        rows: &Neighbours,
        parts: &Parts,
        start: u32,
        end: u32,
    ) -> Result<(), AllocError>
        requires rows { parts.now.count ≡ rows.now.count }
        requires start { start < end }
        requires end { end ≤ parts.now.count }
        ensures { OnOk result (start + self.new.part.count ≡ end) }
    {
        let part = mem::replace(&mut self.part, Part::none(alloc)?);
        self.part = part.laid(
            rows,
            &parts.nodes.as_slice()[start as usize..end as usize],
            end - start,
            parts.places.as_slice(),
            start,
            &mut self.cursors,
        )?;
        Ok(())
    }

    /// Cuts the part along a walk from this node, and across.
    fn find_separator(&mut self, from: u32) -> Result<(), AllocError>
        requires from { from < self.old.part.count }
        requires best { vec_len self.old.separators.best ≡ self.old.part.count }
        ensures part { self.new.part.count ≡ self.old.part.count }
        ensures best { OnOk result (vec_len self.new.separators.best ≡ self.old.part.count) }
    {
        let other = walk(&self.part, from, &mut self.first, &mut self.queue)?;
        walk(&self.part, other, &mut self.second, &mut self.queue)?;
        self.try_flow()?;
        let middle = farthest_from_both(self.part.count, &self.first, &self.second);
        let opposite = walk(&self.part, middle, &mut self.first, &mut self.queue)?;
        walk(&self.part, opposite, &mut self.second, &mut self.queue)?;
        self.try_flow()
    }

    /// Tries the separators of a greatest flow between both ends of the last walk.
    fn try_flow(&mut self) -> Result<(), AllocError>
        requires first { vec_len self.old.first ≡ self.old.part.count }
        requires second { vec_len self.old.second ≡ self.old.part.count }
        requires best { vec_len self.old.separators.best ≡ self.old.part.count }
        ensures part { self.new.part.count ≡ self.old.part.count }
        ensures first { self.new.first ≡ self.old.first }
        ensures second { self.new.second ≡ self.old.second }
        ensures best { OnOk result (vec_len self.new.separators.best ≡ self.old.part.count) }
    {
        self.dealing
            .deal(self.first.as_slice(), self.second.as_slice())?;
        // A flow that is much greater than the best separator gives no better one.
        let most = match self.separators.size {
            Some(size) => (size as usize).saturating_mul(3).saturating_add(10),
            None => usize::MAX,
        };
        let shares = self.dealing.shares.as_slice();
        if let Some(_units) = self.flow.run(&self.part, shares, most)? {
            self.separators.try_both(&self.part, shares, &self.flow)?;
        }
        Ok(())
    }

    /// Makes parts of the components.
    fn put_components(&mut self, parts: &mut Parts, start: u32) -> Result<(), AllocError>
        requires { start + self.old.part.count ≤ parts.old.count }
        ensures { parts.new.count ≡ parts.old.count }
    {
        let count = components(&self.part, &mut self.groups, &mut self.queue)?;
        parts.arrange(start, self.groups.as_slice(), count)?;
        parts.split(start, count)
    }

    /// Puts the separator that was found last, and makes parts of both sides.
    fn put_separator(&mut self, parts: &mut Parts, start: u32) -> Result<(), AllocError>
        requires part { start + self.old.part.count ≤ parts.old.count }
        requires best { vec_len self.old.separators.best ≡ self.old.part.count }
        ensures { parts.new.count ≡ parts.old.count }
    {
        if self.separators.size.is_none() {
            return self.put_few(parts, start);
        }
        parts.arrange(start, self.separators.best.as_slice(), GROUPS)?;
        parts.split(start, GROUPS - 1)
    }

    /// Puts a part that is not cut in order.
    fn put_few(&mut self, parts: &mut Parts, start: u32) -> Result<(), AllocError>
        requires { start + self.old.part.count ≤ parts.old.count }
        ensures { parts.new.count ≡ parts.old.count }
    {
        if self.part.count <= MOST_FEW {
            self.few.rank(&self.part)?;
            return parts.arrange(start, self.few.ranks.as_slice(), self.part.count);
        }
        self.groups.clear();
        push_degrees(&self.part, &mut self.groups)?;
        parts.arrange(start, self.groups.as_slice(), self.part.count)
    }
}

/// Appends the number of neighbours of each node.
fn push_degrees(part: &Part, degrees: &mut Vec<u32>) -> Result<(), AllocError>
    requires { vec_len degrees.old ≡ 0 }
    ensures { OnOk result (vec_len degrees.new ≡ part.now.count) }
{
    for node in 0..part.count {
        let start = part.starts[node as usize];
        degrees.push(part.starts[node as usize + 1].saturating_sub(start))?;
    }
    Ok(())
}

/// Returns the first node that is farthest from both ends of a walk.
fn farthest_from_both(count: u32, first: &[u32], second: &[u32]) -> u32
    requires some { 0 < count }
    requires first { length first.now ≡ count }
    requires second { length second.now ≡ count }
    ensures { result < count }
{
    let mut farthest = 0;
    let mut most = 0;
    for node in 0..count {
        let distance = first[node as usize].min(second[node as usize]);
        if distance > most {
            most = distance;
            farthest = node;
        }
    }
    farthest
}
