//! Orders of few nodes: a node with the fewest neighbours comes first, and its neighbours are joined (Markowitz 1957).
ghost use Rattle.std.specs.Prelude.{◌≡◌, ◌<◌, vec_len, OnOk};

use crate::part::Part;
use std::alloc::{AllocError, Global};

/// The most nodes that are put in order so.
pub(crate) const MOST_FEW: u32 = 64;

/// Room to put few nodes in order.
#[derive(Drop)]
pub(crate) struct Few {
    /// By node: the set of its neighbours.
    sets: Vec<u64>,
    /// By node: its place in the order.
    pub(crate) ranks: Vec<u32>,
}

impl Few {
    /// Makes room for no nodes.
    pub(crate) fn new(alloc: Global) -> Few {
        Few {
            sets: Vec::new(alloc),
            ranks: Vec::new(alloc),
        }
    }

    /// Finds the place of each node of a part with few nodes in the order.
    ///
    /// # Errors
    /// `AllocError` if there is no memory.
    pub(crate) fn rank(&mut self, part: &Part) -> Result<(), AllocError>
        ensures { OnOk result (vec_len self.new.ranks ≡ part.now.count) }
    {
        self.sets.clear();
        push_sets(part, &mut self.sets)?;
        self.ranks.clear();
        self.ranks.resize(part.count as usize, u32::MAX)?;
        rank_all(part.count, &mut self.sets, &mut self.ranks);
        Ok(())
    }
}

/// Appends the set of the neighbours of each node.
fn push_sets(part: &Part, sets: &mut Vec<u64>) -> Result<(), AllocError> {
    for node in 0..part.count {
        sets.push(set_of(part, node))?;
    }
    Ok(())
}

/// Returns the set of the neighbours of a node.
fn set_of(part: &Part, node: u32) -> u64
    requires { node < part.now.count }
{
    let mut set = 0u64;
    for arc in part.starts[node as usize]..part.starts[node as usize + 1] {
        set |= bit(part.heads[arc as usize] as usize);
    }
    set
}

/// Gives the nodes their ranks.
fn rank_all(count: u32, sets: &mut [u64], ranks: &mut [u32]) {
    for rank in 0..count {
        let node = least(sets, ranks);
        if let Some(place) = ranks.get_mut(node) {
            *place = rank;
        }
        join_neighbours(sets, node);
    }
}

/// Returns the first node without a rank that has the fewest neighbours.
fn least(sets: &[u64], ranks: &[u32]) -> usize {
    let mut least = 0;
    let mut fewest = u32::MAX;
    for node in 0..sets.len() {
        let count = sets[node].count_ones();
        if count < fewest && ranks.get(node) == Some(&u32::MAX) {
            least = node;
            fewest = count;
        }
    }
    least
}

/// Returns the set of one node, or none if its number is too great.
fn bit(node: usize) -> u64 {
    if node < MOST_FEW as usize {
        1 << node
    } else {
        0
    }
}

/// Joins the neighbours of a node with each other, and leaves the node out.
fn join_neighbours(sets: &mut [u64], node: usize) {
    let Some(neighbours) = sets.get(node).copied() else {
        return;
    };
    for other in 0..sets.len() {
        if neighbours & bit(other) != 0 {
            sets[other] = (sets[other] | neighbours) & !bit(node) & !bit(other);
        }
    }
}
