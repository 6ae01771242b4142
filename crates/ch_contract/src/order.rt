//! Lists of nodes: all of them, and the neighbours of a contracted node with their depths.
ghost use Rattle.std.specs.Prelude.{◌≡◌, ◌+◌, ◌++◌, ◌∷◌, [], ◌<◌, ◌^◌, if◌then◌else◌, All, IfOk, OnOk, length, slice_index};
ghost use Rattle.std.specs.List.{range_with_len};
ghost use Rattle.ch_contract.specs.Neighbours.{has_node, neighbours_in, other_nodes};
ghost use Rattle.ch_contract.specs.Measures.{AreDeepened};

use ch_hierarchy::Leg;
use smallvec::SmallVec;
use std::alloc::{AllocError, Global};

/// The neighbours of a node. In a road network few nodes have more than 16 of them, so most lists take no memory.
pub type Neighbours = SmallVec<u32, 16>;

/// Returns the nodes in order of number.
pub fn all_nodes(alloc: Global, nodes: u32) -> Result<Vec<u32>, AllocError>
    ensures { IfOk result (λ list. list.items ≡ range_with_len 0 nodes) }
{
    (0..nodes).collect(alloc)
}

/// Returns the nodes of the legs from a node and of the legs to it, each once.
pub fn neighbours(alloc: Global, up: &[Leg], down: &[Leg]) -> Result<Neighbours, AllocError>
    ensures { IfOk result (λ list. list.items ≡ neighbours_in up.now down.now) }
{
    let mut list = SmallVec::new(alloc);
    push_neighbours(&mut list, up, down)?;
    Ok(list)
}

/// Appends the nodes of the legs from a node and of the legs to it, each node once.
fn push_neighbours(list: &mut Neighbours, up: &[Leg], down: &[Leg]) -> Result<(), AllocError>
    ensures { OnOk result (list.new.items ≡ list.old.items ++ neighbours_in up.now down.now) }
{
    push_nodes(list, up, &up[0..0])?;
    push_nodes(list, down, up)?;
    Ok(())
}

/// Appends the nodes of these legs that are not nodes of the other legs.
fn push_nodes(list: &mut Neighbours, legs: &[Leg], others: &[Leg]) -> Result<(), AllocError>
    ensures { OnOk result (list.new.items ≡ list.old.items ++ other_nodes others.now legs.now) }
{
    list.reserve(legs.len())?;
    for leg in legs {
        push_unless(list, leg.node, has_node(others, leg.node))?;
    }
    Ok(())
}

/// Appends a node if `is_there` is false.
#[inline]
fn push_unless(list: &mut Neighbours, node: u32, is_there: bool) -> Result<(), AllocError>
    ensures { OnOk result (list.new.items ≡ (if is_there then list.old.items else list.old.items ++ node ∷ [])) }
{
    if is_there {
        return Ok(());
    }
    list.push(node)?;
    Ok(())
}

/// Whether a leg of the list has this node.
fn has_node(legs: &[Leg], node: u32) -> bool
    ensures { result ≡ has_node legs.now node }
{
    legs.iter().any(|leg| leg.node == node)
}

/// Raises the depth of each of these nodes to at least one more than that of the contracted node.
pub fn deepen(depths: &mut [u32], nodes: &[u32], contracted: u32)
    requires nodes { All (λ x. x < length depths.old) nodes.now }
    requires contracted { contracted < length depths.old }
    requires room { slice_index depths.old contracted + 1 < 2 ^ 32 }
    ensures { AreDeepened nodes.now (slice_index depths.old contracted + 1) depths.old depths.new }
{
    let deep = depths[contracted as usize] + 1;
    for node in nodes {
        let place = *node as usize;
        depths[place] = depths[place].max(deep);
    }
}
