//! Chains: nodes with at most two neighbours. They come first in the order, and cost no more than one edge each.
ghost use Rattle.std.specs.Prelude.{◌≡◌, ◌+◌, ◌<◌, ◌≤◌, vec_len, IfOk, MatchOption, ⊤};
ghost use Rattle.ch_dissect.specs.Rows.{AreBelow};

use crate::neighbours::Neighbours;
use std::alloc::{AllocError, Global};
use std::mem;

/// The most neighbours of a node in a chain.
const MOST_NEIGHBOURS: u32 = 2;

/// The most neighbours of a neighbour of a node that is taken. So no row that is searched is long.
const MOST_OF_NEIGHBOUR: u32 = 64;

/// Nodes that are taken out of a graph in rounds, in which no two neighbours are taken. So a chain is halved.
#[derive(Drop)]
pub(crate) struct Chains {
    pub(crate) rows: Neighbours,
    /// By node: whether it is taken.
    pub(crate) taken: Vec<bool>,
    /// The nodes that are taken, in order.
    pub(crate) order: Vec<u32>,
    /// By node: the last round in which a neighbour was taken.
    marks: Vec<u32>,
    /// By node: the last round that put it on the list of the next.
    listed: Vec<u32>,
    /// The nodes that the next round looks at.
    next: Vec<u32>,
    round: u32,
    ghost taken_count: { vec_len taken ≡ rows.count },
    ghost marks_count: { vec_len marks ≡ rows.count },
    ghost listed_count: { vec_len listed ≡ rows.count },
    ghost next_nodes: { AreBelow rows.count next.items },
}

impl Chains {
    /// Takes the nodes with at most two neighbours, and again those that then have at most two, until no node has so few.
    /// The neighbours of a node that is taken are joined.
    ///
    /// # Errors
    /// `AllocError` if there is no memory.
    pub(crate) fn of(alloc: Global, rows: Neighbours) -> Result<Chains, AllocError>
        ensures { IfOk result (λ chains. chains.rows.count ≡ rows.count) }
    {
        let count = rows.count;
        let mut chains = Chains::before(alloc, rows)?;
        for _ in 0..count {
            if chains.next.is_empty() {
                break;
            }
            chains.take_round(alloc)?;
        }
        Ok(chains)
    }

    /// Makes the state before the first round, which looks at all nodes.
    fn before(alloc: Global, rows: Neighbours) -> Result<Chains, AllocError>
        ensures { IfOk result (λ chains. chains.rows.count ≡ rows.count) }
    {
        let count = rows.count;
        let next = numbers_below(alloc, count)?;
        Ok(Chains {
            taken: vec![in alloc; false; count as usize]?,
            order: Vec::with_capacity(alloc, count as usize)?,
            marks: vec![in alloc; 0; count as usize]?,
            listed: vec![in alloc; 0; count as usize]?,
            rows,
            next,
            round: 0,
        })
    }

    /// Looks at the nodes of the list.
    fn take_round(&mut self, alloc: Global) -> Result<(), AllocError>
        ensures { self.new.rows.count ≡ self.old.rows.count }
    {
        self.round = self.round.saturating_add(1);
        let list = mem::replace(&mut self.next, Vec::new(alloc));
        for place in 0..list.len() {
            self.visit(list[place])?;
        }
        Ok(())
    }

    /// Takes a node if it is in a chain. If a neighbour was taken in this round, it is left to the next.
    fn visit(&mut self, node: u32) -> Result<(), AllocError>
        requires { node < self.old.rows.count }
        ensures { self.new.rows.count ≡ self.old.rows.count }
    {
        if self.taken[node as usize] || !self.is_in_chain(node) {
            return Ok(());
        }
        if self.marks[node as usize] == self.round {
            return self.list(node);
        }
        self.taken[node as usize] = true;
        self.order.push(node)?;
        self.leave(node)
    }

    /// Whether a node has at most two neighbours, none of which has many.
    fn is_in_chain(&self, node: u32) -> bool
        requires { node < self.now.rows.count }
    {
        if self.rows.degree(node) > MOST_NEIGHBOURS {
            return false;
        }
        let mut is_near_many = false;
        for place in self.rows.starts[node as usize]..self.rows.ends[node as usize] {
            let head = self.rows.heads[place as usize];
            is_near_many = is_near_many || self.rows.degree(head) > MOST_OF_NEIGHBOUR;
        }
        !is_near_many
    }

    /// Takes a node out of the rows of its neighbours, and joins these.
    fn leave(&mut self, node: u32) -> Result<(), AllocError>
        requires { node < self.old.rows.count }
        ensures { self.new.rows.count ≡ self.old.rows.count }
    {
        let start = self.rows.starts[node as usize] as usize;
        match self.rows.degree(node) {
            0 => Ok(()),
            1 => {
                let head = self.rows.heads[start];
                self.rows.replace(head, node, node);
                self.touch(head)
            }
            _ => {
                let first = self.rows.heads[start];
                let second = self.rows.heads[start + 1];
                self.rows.replace(first, node, second);
                self.rows.replace(second, node, first);
                self.touch(first)?;
                self.touch(second)
            }
        }
    }

    /// Marks a node of which a neighbour was taken. The next round looks at it.
    fn touch(&mut self, node: u32) -> Result<(), AllocError>
        requires { node < self.old.rows.count }
        ensures { self.new.rows.count ≡ self.old.rows.count }
    {
        self.marks[node as usize] = self.round;
        self.list(node)
    }

    /// Puts a node on the list of the next round, unless it is there.
    fn list(&mut self, node: u32) -> Result<(), AllocError>
        requires { node < self.old.rows.count }
        ensures { self.new.rows.count ≡ self.old.rows.count }
    {
        if self.listed[node as usize] != self.round {
            self.listed[node as usize] = self.round;
            self.next.push(node)?;
        }
        Ok(())
    }
}

impl Neighbours {
    /// Puts a node in the place of another in a row. If the row has it already, the other only leaves the row.
    fn replace(&mut self, row: u32, other: u32, node: u32)
        requires row { row < self.old.count }
        requires node { node < self.old.count }
        ensures { self.new.count ≡ self.old.count }
    {
        let start = self.starts[row as usize];
        let end = self.ends[row as usize];
        let Some(place) = self.place_of(start, end, other) else {
            return;
        };
        if self.place_of(start, end, node).is_none() {
            self.heads[place as usize] = node;
        } else {
            self.heads[place as usize] = self.heads[end as usize - 1];
            self.ends[row as usize] = end - 1;
        }
    }

    /// Returns the place of a node between two places of the rows.
    fn place_of(&self, start: u32, end: u32, node: u32) -> Option<u32>
        requires { end ≤ vec_len self.now.heads }
        ensures { MatchOption result ⊤ (λ place. place < end) }
    {
        for place in start..end {
            if self.heads[place as usize] == node {
                return Some(place);
            }
        }
        None
    }
}

/// Returns the numbers below `count`, in order.
///
/// # Errors
/// `AllocError` if there is no memory.
pub(crate) fn numbers_below(alloc: Global, count: u32) -> Result<Vec<u32>, AllocError>
    ensures count { IfOk result (λ numbers. vec_len numbers ≡ count) }
    ensures below { IfOk result (λ numbers. AreBelow count numbers.items) }
{
    let mut numbers = Vec::with_capacity(alloc, count as usize)?;
    for number in 0..count {
        numbers.push(number)?;
    }
    Ok(numbers)
}
