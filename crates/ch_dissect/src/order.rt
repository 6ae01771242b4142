//! Orders of all nodes, made of a list of nodes.
ghost use Rattle.std.specs.Prelude.{◌≡◌, ◌<◌, IfOk, OnOk};
ghost use Rattle.ch_hierarchy.specs.Saved.{IsOrderOf};
ghost use Rattle.ch_dissect.specs.Orders.{IsBegun, IsPut};

use std::alloc::{AllocError, Global};

/// Returns an order of the nodes below `n`: first those of the list in turn, each where the list has it first, and then those
/// that the list lacks.
///
/// # Errors
/// `AllocError` if there is no memory for the order.
pub(crate) fn completed(alloc: Global, n: u32, list: &[u32]) -> Result<Vec<u32>, AllocError>
    ensures order { IfOk result (λ order. IsOrderOf n order.items) }
    ensures same { IsOrderOf n list.now → IfOk result (λ order. order.items ≡ list.now) }
{
    let mut nodes = Vec::with_capacity(alloc, n as usize)?;
    let mut taken = vec![in alloc; false; n as usize]?;
    for place in 0..list.len() {
        take(n, list[place], &mut nodes, &mut taken)?;
    }
    for node in 0..n {
        take(n, node, &mut nodes, &mut taken)?;
    }
    Ok(nodes)
}

/// Puts a node at the end of an order, unless it is there or is not below `n`.
fn take(n: u32, node: u32, nodes: &mut Vec<u32>, taken: &mut Vec<bool>) -> Result<(), AllocError>
    requires { IsBegun n nodes.old.items taken.old.items }
    ensures begun { OnOk result (IsBegun n nodes.new.items taken.new.items) }
    ensures put { OnOk result (IsPut n node nodes.old.items nodes.new.items) }
{
    if node < n && !taken[node as usize] {
        taken[node as usize] = true;
        nodes.push(node)?;
    }
    Ok(())
}
