//! What is left of a graph without its chains, with numbers of its own.
ghost use Rattle.std.specs.Prelude.{◌≡◌, ◌<◌, length, vec_len, IfOk};
ghost use Rattle.ch_dissect.specs.Rows.{AreBelow};

use crate::chains::Chains;
use crate::neighbours::Neighbours;
use crate::nodes::push_node;
use std::alloc::{AllocError, Global};

/// The nodes that are left, and their neighbours by number.
#[derive(Drop)]
pub(crate) struct Core {
    /// The node of each number, in order.
    pub(crate) names: Vec<u32>,
    /// The neighbours of each number, in order.
    pub(crate) rows: Neighbours,
    ghost names_count: { vec_len names ≡ rows.count },
}

impl Core {
    /// Numbers the nodes that are not taken.
    ///
    /// # Errors
    /// `AllocError` if there is no memory.
    pub(crate) fn of(alloc: Global, chains: &Chains) -> Result<Core, AllocError> {
        let mut numbers = vec![in alloc; 0; chains.rows.count as usize]?;
        let mut names = Vec::new(alloc);
        let mut counts = Vec::new(alloc);
        let count = number_left(chains, &mut numbers, &mut names, &mut counts)?;
        let mut rows = Neighbours::with_counts(alloc, count, counts.as_slice())?;
        for number in 0..count {
            turn_row(
                chains,
                numbers.as_slice(),
                names[number as usize],
                number,
                &mut rows,
            );
        }
        Ok(Core { names, rows })
    }
}

/// Numbers the nodes that are not taken, and returns how many there are. Appends each, and the number of its neighbours.
fn number_left(
    chains: &Chains,
    numbers: &mut [u32],
    names: &mut Vec<u32>,
    counts: &mut Vec<u32>,
) -> Result<u32, AllocError>
    requires numbers { length numbers.old ≡ chains.now.rows.count }
    requires names { vec_len names.old ≡ 0 }
    requires counts { vec_len counts.old ≡ 0 }
    ensures names { IfOk result (λ count. vec_len names.new ≡ count) }
    ensures counts { IfOk result (λ count. vec_len counts.new ≡ count) }
    ensures nodes { IfOk result (λ count. AreBelow chains.now.rows.count names.new.items) }
{
    let mut count = 0;
    for node in 0..chains.rows.count {
        if chains.taken[node as usize] {
            continue;
        }
        numbers[node as usize] = count;
        push_node(chains.rows.count, node, names)?;
        counts.push(chains.rows.degree(node))?;
        count += 1;
    }
    Ok(count)
}

/// Puts a number into the row of each neighbour of its node. So rows get their numbers in order.
fn turn_row(chains: &Chains, numbers: &[u32], node: u32, number: u32, rows: &mut Neighbours)
    requires numbers { length numbers.now ≡ chains.now.rows.count }
    requires node { node < chains.now.rows.count }
    requires number { number < rows.old.count }
    ensures { rows.new.count ≡ rows.old.count }
{
    for place in chains.rows.starts[node as usize]..chains.rows.ends[node as usize] {
        let other = numbers[chains.rows.heads[place as usize] as usize];
        if other < rows.count {
            rows.put(other, number);
        }
    }
}
