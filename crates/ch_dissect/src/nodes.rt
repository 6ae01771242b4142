//! Lists of nodes.
ghost use Rattle.std.specs.Prelude.{◌≡◌, ◌+◌, ◌<◌, vec_len, OnOk};
ghost use Rattle.ch_dissect.specs.Rows.{AreBelow};

use std::alloc::AllocError;

/// Appends a node to a list of the nodes below `count`.
#[inline]
pub(crate) fn push_node(count: u32, node: u32, nodes: &mut Vec<u32>) -> Result<(), AllocError>
    requires node { node < count }
    requires nodes { AreBelow count nodes.old.items }
    ensures nodes { AreBelow count nodes.new.items }
    ensures len { OnOk result (vec_len nodes.new ≡ vec_len nodes.old + 1) }
{
    prove!(node < count);
    nodes.push(node)?;
    Ok(())
}
