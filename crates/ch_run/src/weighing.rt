//! Graphs with new weights.
ghost use Rattle.std.specs.Prelude.{◌≡◌, ℕ, All, IfOk, IfErr, IsTrue, MatchOption, Some, false, map, slice_get, take};
ghost use Rattle.std.specs.Ordering.{nat_cmp};
ghost use Rattle.std.specs.BTreeSet.{contains};
ghost use Rattle.ch_read.specs.declared.new_weights.NewWeight.{NewWeight as NewWeightOf};
ghost use Rattle.ch_run.specs.declared.weighing.WeighingError.TheVariants as WeighingError;
ghost use Rattle.ch_read.specs.Requests.{IsNewWeight};
ghost use Rattle.ch_run.specs.Weighing.{AreLatest, AreMet, HasArc, IsFirstWithoutArc, key_of, reweighed, weighed_by};

use ch_graph::{Graph, InArc};
use ch_read::NewWeight;
use std::alloc::{AllocError, AllocFailed, Global};
use std::collections::{BTreeMap, BTreeSet};

/// Why a graph does not get new weights.
#[derive(Clone, Copy, Debug, PartialEq, Eq)]
pub(crate) enum WeighingError {
    /// The new weight on this line is the first one that is for no arc of the graph.
    NoArc(u64),
    /// There is no memory.
    NoMemory,
}

impl From<AllocError> for WeighingError {
    ghost from_gives = { λ _ error. error ≡ WeighingError.NoMemory };

    fn from(_refused: AllocError) -> WeighingError {
        WeighingError::NoMemory
    }
}

/// Returns the graph after these new weights. Each holds for all arcs between its nodes, and the later of two for the
/// same nodes holds. The time is that of a look at each arc in a map of the new weights.
///
/// # Errors
/// `NoArc` with the line of the first new weight that is for no arc, and `NoMemory` if there is no memory. The graph is
/// as before.
pub(crate) fn weigh(
    alloc: Global,
    graph: &Graph,
    listed: &[NewWeight],
) -> Result<Graph, WeighingError>
    requires each { All (IsNewWeight graph.now.nodes) listed.now }
    ensures graph { IfOk result (λ g. g ≡ reweighed graph.now listed.now) }
    ensures arcs { IfOk result (λ _. All (HasArc graph.now) listed.now) }
    ensures none { IfErr result (λ e. (line : ℕ) → e ≡ WeighingError.NoArc line → IsFirstWithoutArc graph.now listed.now line) }
{
    let nodes = graph.nodes();
    let found = latest_of(alloc, listed)?;
    let (arcs, met) = weigh_arcs(alloc, graph.arcs(), &found)?;
    match first_unmet(listed, &met) {
        Some(line) => Err(WeighingError::NoArc(line)),
        None => Ok(Graph::from_judged(nodes, arcs)),
    }
}

/// Returns one number for two nodes.
fn key_of(from: u32, to: u32) -> u64
    ensures { result ≡ key_of from to }
{
    u64::from(from) * (1 << 32) + u64::from(to)
}

/// Returns the last new weight for each two nodes.
fn latest_of(alloc: Global, listed: &[NewWeight]) -> Result<BTreeMap<u64, u64>, AllocError>
    ensures { IfOk result (AreLatest listed.now) }
{
    let mut found = BTreeMap::new(alloc);
    for new in listed {
        found.insert(key_of(new.from, new.to), new.weight)?;
    }
    Ok(found)
}

/// Returns the arcs with the weights that the map has for them, and those of its keys that have an arc.
fn weigh_arcs(
    alloc: Global,
    arcs: &[InArc],
    found: &BTreeMap<u64, u64>,
) -> Result<(Vec<InArc>, BTreeSet<u64>), AllocError>
    ensures arcs { IfOk result (λ made. made.0.items ≡ map (weighed_by found.now) arcs.now) }
    ensures met { IfOk result (λ made. AreMet found.now arcs.now made.1) }
{
    let mut weighed = Vec::with_capacity(alloc, arcs.len())?;
    let mut met = BTreeSet::new(alloc);
    for arc in arcs {
        let key = key_of(arc.from, arc.to);
        let mut weight = arc.weight;
        if let Some(new) = found.get(&key) {
            weight = *new;
            met.insert(key)?;
        }
        weighed.push(InArc {
            from: arc.from,
            to: arc.to,
            weight,
        })?;
    }
    Ok((weighed, met))
}

/// Returns the line of the first new weight whose key is not in the set.
fn first_unmet(listed: &[NewWeight], met: &BTreeSet<u64>) -> Option<u64>
    ensures { MatchOption result (All (λ new. IsTrue (contains nat_cmp met.now (key_of new.from new.to))) listed.now)
        (λ line. (place : ℕ) × (new : NewWeightOf) × (slice_get listed.now place ≡ Some new) × (line ≡ new.line)
        × (contains nat_cmp met.now (key_of new.from new.to) ≡ false)
        × All (λ new. IsTrue (contains nat_cmp met.now (key_of new.from new.to))) (take place listed.now)) }
{
    for new in listed {
        if !met.contains(&key_of(new.from, new.to)) {
            return Some(new.line);
        }
    }
    None
}
