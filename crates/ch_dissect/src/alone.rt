//! Nested dissection orders that the caller finds alone.
ghost use Rattle.std.specs.Prelude.{IfOk};
ghost use Rattle.ch_hierarchy.specs.Saved.{IsOrderOf};

use crate::dissection::{Reduced, joined};
use crate::sharing::in_order_alone;
use ch_graph::Graph;
use std::alloc::{AllocError, Global};

/// Returns the order that [`dissect`](crate::dissect) finds. The caller finds it alone: no thread is started.
///
/// # Errors
/// `AllocError` if there is no memory.
pub fn dissect_alone(alloc: Global, graph: &Graph) -> Result<Vec<u32>, AllocError>
    ensures { IfOk result (λ order. IsOrderOf graph.now.nodes order.items) }
{
    let Reduced { core, order } = Reduced::of(alloc, graph)?;
    let parts = in_order_alone(alloc, &core.rows)?;
    joined(alloc, graph, &core, &parts, order)
}
