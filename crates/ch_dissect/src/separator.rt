//! Separators: nodes whose removal leaves no edge between two sides.
ghost use Rattle.std.specs.Prelude.{◌≡◌, ◌+◌, ◌<◌, length, vec_len, OnOk};
ghost use Rattle.ch_dissect.specs.Rows.{AreBelow};
ghost use Rattle.ch_dissect.specs.Flows.{IsLabelled};

use crate::flow::Flow;
use crate::nodes::push_node;
use crate::part::Part;
use crate::shares::Share;
use crate::walk::UNREACHED;
use std::alloc::{AllocError, Global};
use std::mem;

/// The group of the nodes on the side of the last end, of those on the side of the first end, and of the separator.
const LAST_SIDE: u32 = 0;

const FIRST_SIDE: u32 = 1;

const SEPARATOR: u32 = 2;

/// The number of groups of nodes that a separator makes. The separator is the last.
pub(crate) const GROUPS: u32 = 3;

/// The best separator of a part so far.
#[derive(Drop)]
pub(crate) struct Separators {
    /// By node: its group in the best separator.
    pub(crate) best: Vec<u32>,
    /// The number of nodes of the best separator, or `None` if there is none.
    pub(crate) size: Option<u32>,
    score: f64,
    /// By node: whether it is on the side of the first end.
    sides: Vec<bool>,
    /// By node: its group in the separator that is tried.
    groups: Vec<u32>,
    queue: Vec<u32>,
}

impl Separators {
    /// Makes room for no nodes.
    pub(crate) fn new(alloc: Global) -> Separators {
        Separators {
            best: Vec::new(alloc),
            size: None,
            score: 0.0,
            sides: Vec::new(alloc),
            groups: Vec::new(alloc),
            queue: Vec::new(alloc),
        }
    }

    /// Begins the separators of a part, of which none is known, with its nodes in one group.
    ///
    /// # Errors
    /// `AllocError` if there is no memory.
    pub(crate) fn begin(&mut self, part: &Part) -> Result<(), AllocError>
        ensures { OnOk result (vec_len self.new.best ≡ part.now.count) }
    {
        self.size = None;
        self.best.clear();
        self.best.resize(part.count as usize, LAST_SIDE)?;
        Ok(())
    }

    /// Tries both separators of a greatest flow: at the cut next to the first end, and at that next to the last.
    ///
    /// # Errors
    /// `AllocError` if there is no memory.
    pub(crate) fn try_both(
        &mut self,
        part: &Part,
        shares: &[Share],
        flow: &Flow,
    ) -> Result<(), AllocError>
        requires best { vec_len self.old.best ≡ part.now.count }
        requires shares { length shares.now ≡ part.now.count }
        requires flow { IsLabelled part.now flow.now }
        ensures { OnOk result (vec_len self.new.best ≡ part.now.count) }
    {
        self.sides.clear();
        push_reached(flow.levels.as_slice(), &mut self.sides)?;
        self.try_cut(part)?;
        self.sides.clear();
        self.queue.clear();
        push_last(part, shares, &mut self.sides, &mut self.queue)?;
        turn_all(part, flow.free.as_slice(), &mut self.sides, &mut self.queue)?;
        self.try_cut(part)
    }

    /// Makes a separator of the ends of cut edges on the side that has fewer, and keeps it if it is better than the best.
    ///
    /// A separator of s nodes is the better the less s^2 / n is, where n is the number of nodes on the smaller side.
    fn try_cut(&mut self, part: &Part) -> Result<(), AllocError>
        requires best { vec_len self.old.best ≡ part.now.count }
        requires sides { vec_len self.old.sides ≡ part.now.count }
        ensures { OnOk result (vec_len self.new.best ≡ part.now.count) }
    {
        self.groups.clear();
        let is_first = first_has_fewer(part, self.sides.as_slice());
        let sizes = push_groups(part, self.sides.as_slice(), is_first, &mut self.groups)?;
        let smaller = sizes.last_side.min(sizes.first_side);
        if smaller == 0 {
            return Ok(());
        }
        let size = sizes.separator as f64;
        let score = size * size / smaller as f64;
        if self.size.is_none() || score < self.score {
            self.size = Some(sizes.separator);
            self.score = score;
            mem::swap(&mut self.best, &mut self.groups);
        }
        Ok(())
    }
}

/// The numbers of nodes on both sides of a separator, and in it.
#[derive(Clone, Copy)]
struct Sizes {
    last_side: u32,
    first_side: u32,
    separator: u32,
}

impl Sizes {
    /// Counts a node of this group.
    fn add(&mut self, group: u32) {
        match group {
            LAST_SIDE => self.last_side = self.last_side.saturating_add(1),
            FIRST_SIDE => self.first_side = self.first_side.saturating_add(1),
            _ => self.separator = self.separator.saturating_add(1),
        }
    }
}

/// Appends for each node whether it is reached.
fn push_reached(levels: &[u32], sides: &mut Vec<bool>) -> Result<(), AllocError>
    requires { vec_len sides.old ≡ 0 }
    ensures { OnOk result (vec_len sides.new ≡ length levels.now) }
{
    for node in 0..levels.len() {
        sides.push(levels[node] != UNREACHED)?;
    }
    Ok(())
}

/// Appends for each node whether it is not at the last end, and those that are to the queue.
fn push_last(
    part: &Part,
    shares: &[Share],
    sides: &mut Vec<bool>,
    queue: &mut Vec<u32>,
) -> Result<(), AllocError>
    requires shares { length shares.now ≡ part.now.count }
    requires sides { vec_len sides.old ≡ 0 }
    requires queue { vec_len queue.old ≡ 0 }
    ensures sides { OnOk result (vec_len sides.new ≡ part.now.count) }
    ensures queue { OnOk result (AreBelow part.now.count queue.new.items) }
{
    for node in 0..part.count {
        let is_last = shares[node as usize] == Share::Last;
        sides.push(!is_last)?;
        if !is_last {
            continue;
        }
        push_node(part.count, node, queue)?;
    }
    Ok(())
}

/// Takes the nodes from which a unit can come to the last end off the side of the first end.
fn turn_all(
    part: &Part,
    free: &[u8],
    sides: &mut [bool],
    queue: &mut Vec<u32>,
) -> Result<(), AllocError>
    requires free { length free.now ≡ vec_len part.now.heads }
    requires sides { length sides.old ≡ part.now.count }
    requires queue { AreBelow part.now.count queue.old.items }
{
    for place in 0..part.count as usize {
        if place >= queue.len() {
            break;
        }
        turn_from(part, free, queue[place], sides, queue)?;
    }
    Ok(())
}

/// Takes the neighbours from which a unit can come to a node off the side of the first end.
#[inline]
fn turn_from(
    part: &Part,
    free: &[u8],
    node: u32,
    sides: &mut [bool],
    queue: &mut Vec<u32>,
) -> Result<(), AllocError>
    requires free { length free.now ≡ vec_len part.now.heads }
    requires node { node < part.now.count }
    requires sides { length sides.old ≡ part.now.count }
    requires queue { AreBelow part.now.count queue.old.items }
    ensures { AreBelow part.now.count queue.new.items }
{
    for arc in part.starts[node as usize]..part.starts[node as usize + 1] {
        let head = part.heads[arc as usize];
        if !sides[head as usize] || free[part.twins[arc as usize] as usize] == 0 {
            continue;
        }
        sides[head as usize] = false;
        push_node(part.count, head, queue)?;
    }
    Ok(())
}

/// Whether fewer nodes on the side of the first end have a cut edge than on the other side.
fn first_has_fewer(part: &Part, sides: &[bool]) -> bool
    requires { length sides.now ≡ part.now.count }
{
    let mut firsts = 0u32;
    let mut lasts = 0u32;
    for node in 0..part.count {
        if is_at_cut(part, sides, node) {
            if sides[node as usize] {
                firsts = firsts.saturating_add(1);
            } else {
                lasts = lasts.saturating_add(1);
            }
        }
    }
    firsts < lasts
}

/// Appends the group of each node, and returns how many nodes there are of each. The separator is on the side of the first
/// end or on the other side.
fn push_groups(
    part: &Part,
    sides: &[bool],
    is_first: bool,
    groups: &mut Vec<u32>,
) -> Result<Sizes, AllocError>
    requires sides { length sides.now ≡ part.now.count }
    requires groups { vec_len groups.old ≡ 0 }
    ensures { OnOk result (vec_len groups.new ≡ part.now.count) }
{
    let mut sizes = Sizes {
        last_side: 0,
        first_side: 0,
        separator: 0,
    };
    for node in 0..part.count {
        let group = group_of(part, sides, node, is_first);
        sizes.add(group);
        groups.push(group)?;
    }
    Ok(sizes)
}

/// Returns the group of a node, where the separator is on the side of the first end or on the other side.
#[inline]
fn group_of(part: &Part, sides: &[bool], node: u32, is_first: bool) -> u32
    requires sides { length sides.now ≡ part.now.count }
    requires node { node < part.now.count }
{
    let side = sides[node as usize];
    if side == is_first && is_at_cut(part, sides, node) {
        SEPARATOR
    } else if side {
        FIRST_SIDE
    } else {
        LAST_SIDE
    }
}

/// Whether an edge leads from a node to the other side.
#[inline]
fn is_at_cut(part: &Part, sides: &[bool], node: u32) -> bool
    requires sides { length sides.now ≡ part.now.count }
    requires node { node < part.now.count }
{
    let side = sides[node as usize];
    for arc in part.starts[node as usize]..part.starts[node as usize + 1] {
        if sides[part.heads[arc as usize] as usize] != side {
            return true;
        }
    }
    false
}
