//! Walks through a part, breadth first.
ghost use Rattle.std.specs.Prelude.{◌≡◌, ◌+◌, ◌<◌, length, vec_len, IfOk, OnOk};
ghost use Rattle.ch_dissect.specs.Rows.{AreBelow};

use crate::nodes::push_node;
use crate::part::Part;
use std::alloc::{AllocError, Global};

/// The distance of a node that is not reached.
pub(crate) const UNREACHED: u32 = u32::MAX;

/// Writes the number of edges from one node to each, and returns a node that is farthest. The nodes that are reached are left
/// in the queue, in order of their distance.
///
/// # Errors
/// `AllocError` if there is no memory.
pub(crate) fn walk(
    part: &Part,
    from: u32,
    distances: &mut Vec<u32>,
    queue: &mut Vec<u32>,
) -> Result<u32, AllocError>
    requires { from < part.now.count }
    ensures farthest { IfOk result (λ node. node < part.now.count) }
    ensures distances { OnOk result (vec_len distances.new ≡ part.now.count) }
{
    distances.clear();
    distances.resize(part.count as usize, UNREACHED)?;
    distances[from as usize] = 0;
    queue.clear();
    queue.push(from)?;
    walk_on(part, distances, queue)?;
    Ok(match queue.last() {
        Some(last) => *last,
        None => from,
    })
}

/// Goes on from the nodes in the queue until it reaches no more.
fn walk_on(part: &Part, distances: &mut [u32], queue: &mut Vec<u32>) -> Result<(), AllocError>
    requires distances { length distances.old ≡ part.now.count }
    requires queue { AreBelow part.now.count queue.old.items }
    ensures { AreBelow part.now.count queue.new.items }
{
    for place in 0..part.count as usize {
        if place >= queue.len() {
            break;
        }
        let node = queue[place];
        let next = distances[node as usize].saturating_add(1);
        reach_from(part, node, next, distances, queue)?;
    }
    Ok(())
}

/// Gives this label to the neighbours of a node that have none, and puts them into the queue.
#[inline]
fn reach_from(
    part: &Part,
    node: u32,
    label: u32,
    labels: &mut [u32],
    queue: &mut Vec<u32>,
) -> Result<(), AllocError>
    requires node { node < part.now.count }
    requires labels { length labels.old ≡ part.now.count }
    requires queue { AreBelow part.now.count queue.old.items }
    ensures { AreBelow part.now.count queue.new.items }
{
    for arc in part.starts[node as usize]..part.starts[node as usize + 1] {
        let head = part.heads[arc as usize];
        if labels[head as usize] != UNREACHED {
            continue;
        }
        labels[head as usize] = label;
        push_node(part.count, head, queue)?;
    }
    Ok(())
}

/// Writes for each node the number of its component, from 0 on, and returns how many there are.
///
/// # Errors
/// `AllocError` if there is no memory.
pub(crate) fn components(
    part: &Part,
    groups: &mut Vec<u32>,
    queue: &mut Vec<u32>,
) -> Result<u32, AllocError>
    ensures { OnOk result (vec_len groups.new ≡ part.now.count) }
{
    groups.clear();
    groups.resize(part.count as usize, UNREACHED)?;
    let mut count = 0u32;
    for node in 0..part.count {
        if groups[node as usize] == UNREACHED {
            flood(part, node, count, groups, queue)?;
            count = count.saturating_add(1);
        }
    }
    Ok(count)
}

/// Writes this number for each node of a component.
fn flood(
    part: &Part,
    from: u32,
    group: u32,
    groups: &mut [u32],
    queue: &mut Vec<u32>,
) -> Result<(), AllocError>
    requires from { from < part.now.count }
    requires groups { length groups.old ≡ part.now.count }
{
    queue.clear();
    queue.push(from)?;
    groups[from as usize] = group;
    for place in 0..part.count as usize {
        if place >= queue.len() {
            break;
        }
        reach_from(part, queue[place], group, groups, queue)?;
    }
    Ok(())
}
