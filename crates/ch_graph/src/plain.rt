//! The distance between two nodes by rounds of relaxation (Bellman 1958, Ford 1956).
ghost use Rattle.std.specs.Prelude.{◌≡◌, ℕ, ◌+◌, ◌^◌, ◌<◌, length, replicate, slice_set, All, IfOk, true, false};
ghost use Rattle.std.specs.Option.{ForSome};
ghost use Rattle.ch_graph.specs.Walk.{IsAnswer};
ghost use Rattle.ch_graph.specs.Relaxing.{IsPartial, IsRelaxed, IsLowered, IsRound, weight_at};

use crate::arc::InArc;
use crate::graph::Graph;
use std::alloc::{AllocError, Global};

/// Returns the least weight of a walk from `start` to `end`, or `None` if there is no walk. Both are nodes
/// of the graph.
///
/// Each round takes time proportional to the number of arcs. There is at most one round more than
/// a walk of least weight from `start` has arcs.
///
/// # Errors
/// `AllocError` if there is no memory for one label for each node.
pub fn plain_distance(
    alloc: Global,
    graph: &Graph,
    start: u32,
    end: u32,
) -> Result<Option<u64>, AllocError>
    requires start { start < graph.now.nodes }
    requires end { end < graph.now.nodes }
    ensures { IfOk result (IsAnswer graph.now start end) }
{
    let mut best = first_labels(alloc, graph.nodes(), start)?;
    relax_to_rest(&mut best, graph);
    Ok(best[end as usize])
}

/// Returns the labels before any arc is relaxed: `start` is reached at weight 0, and no other node is
/// reached.
fn first_labels(alloc: Global, nodes: u32, start: u32) -> Result<Vec<Option<u64>>, AllocError>
    requires { start < nodes }
    ensures { IfOk result (λ best. best.items ≡ slice_set (replicate nodes None) start (Some 0)) }
{
    let mut best = vec![in alloc; None; nodes as usize]?;
    best[start as usize] = Some(0);
    Ok(best)
}

/// Relaxes the arcs in rounds until nothing changes.
fn relax_to_rest(best: &mut [Option<u64>], graph: &Graph)
    requires { (s : ℕ) × IsPartial graph.now s best.old }
    ensures known { (s : ℕ) → IsPartial graph.now s best.old → IsPartial graph.now s best.new }
    ensures relaxed { All (IsRelaxed best.new) graph.now.arcs }
{
    while relax_all(best, graph) {}
}

/// Relaxes each arc once, and returns whether a label changed.
fn relax_all(best: &mut [Option<u64>], graph: &Graph) -> bool
    requires { (s : ℕ) × IsPartial graph.now s best.old }
    ensures known { (s : ℕ) → IsPartial graph.now s best.old → IsPartial graph.now s best.new }
    ensures round { IsRound result best.old best.new graph.now.arcs }
{
    let mut changed = false;
    for arc in graph.arcs() {
        changed |= relax(best, *arc);
    }
    changed
}

/// Lowers the label of the arc's end if the arc shows a lighter walk. Returns whether it did.
fn relax(best: &mut [Option<u64>], arc: InArc) -> bool
    requires from { arc.from < length best.old }
    requires to { arc.to < length best.old }
    requires sum { ForSome (weight_at best.old arc.from) (λ before. before + arc.weight < 2 ^ 64) }
    ensures lowered { result ≡ true → IsLowered best.old best.new arc }
    ensures same { result ≡ false → (best.new ≡ best.old) × IsRelaxed best.old arc }
{
    let Some(before) = best[arc.from as usize] else {
        return false;
    };
    let sum = before + arc.weight;
    if let Some(now) = best[arc.to as usize] {
        if now <= sum {
            return false;
        }
    }
    best[arc.to as usize] = Some(sum);
    true
}
