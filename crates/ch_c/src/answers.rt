//! The answers of an engine, as C sees them.
ghost use Rattle.std.specs.Prelude.{◌≡◌, [], IfErr, IfOk, None, Some};
ghost use Rattle.ch_engine.specs.Held.{KeepsNothing, without_places};
ghost use Rattle.ch_hierarchy.specs.Hierarchy.{nodes_of};
ghost use Rattle.ch_engine.specs.Opened.{IsOpened, IsOpenedLike, IsOpenedOfArrays, IsOpenedQuickly};
ghost use Rattle.ch_engine.specs.Refusals.{IsArraysOpenError, IsLikeError, IsOpenError};
ghost use Rattle.ch_c.specs.Calls.{AreFlowsAnswered, AreKeptSumsAnswered, AreTableFlowsAnswered, ArePairsAnswered, ArePairSumsAnswered, AreValuesKept, AreRoutesAnswered, IsSaved, IsTableAnswered};

use crate::near::{status_of_end, status_of_sums};
use crate::status::{NO_MEMORY, OK, SUM_TOO_LARGE, TOO_SHORT, status_of};
use ch_engine::{Engine, Flowed, OpenError};
use std::alloc::Global;

/// Opens an engine on the heap, from the bytes of a graph and of its saved hierarchy.
///
/// # Errors
/// The errors of [`Engine::open`].
pub(crate) fn opened(
    alloc: Global,
    graph: &[u8],
    saved: &[u8],
) -> Result<Box<Engine, Global>, OpenError>
    ensures value { IfOk result (λ engine. KeepsNothing engine.value × IsOpened graph.now saved.now engine.value.hierarchy engine.value.lines) }
    ensures error { IfErr result (IsOpenError graph.now saved.now) }
{
    let engine = Engine::open(alloc, graph, saved)?;
    match Box::new(alloc, engine) {
        Ok(engine) => Ok(engine),
        Err(_) => Err(OpenError::NoMemory),
    }
}

/// Opens an engine on the heap, from the arrays of a graph and the bytes of its saved hierarchy.
///
/// # Errors
/// The errors of [`Engine::open_arrays`].
pub(crate) fn opened_of_arrays(
    alloc: Global,
    nodes: u32,
    tails: &[u32],
    heads: &[u32],
    weights: &[u64],
    saved: &[u8],
) -> Result<Box<Engine, Global>, OpenError>
    ensures value { IfOk result (λ engine. KeepsNothing engine.value × IsOpenedOfArrays nodes tails.now heads.now weights.now saved.now engine.value.hierarchy engine.value.lines) }
    ensures error { IfErr result (IsArraysOpenError nodes tails.now heads.now weights.now saved.now) }
{
    let engine = Engine::open_arrays(alloc, nodes, tails, heads, weights, saved)?;
    match Box::new(alloc, engine) {
        Ok(engine) => Ok(engine),
        Err(_) => Err(OpenError::NoMemory),
    }
}

/// Opens an engine on the heap, from the bytes of a graph alone, in an order that takes little time to find.
///
/// # Errors
/// The errors of [`Engine::open_quickly`].
pub(crate) fn opened_quickly(alloc: Global, graph: &[u8]) -> Result<Box<Engine, Global>, OpenError>
    ensures value { IfOk result (λ engine. KeepsNothing engine.value × IsOpenedQuickly graph.now engine.value.hierarchy engine.value.lines) }
    ensures error { IfErr result (IsOpenError graph.now []) }
{
    let engine = Engine::open_quickly(alloc, graph)?;
    match Box::new(alloc, engine) {
        Ok(engine) => Ok(engine),
        Err(_) => Err(OpenError::NoMemory),
    }
}

/// Opens an engine on the heap, from the bytes of a graph, in the order of another engine's hierarchy.
///
/// # Errors
/// The errors of [`Engine::open_like`].
pub(crate) fn opened_like(
    alloc: Global,
    graph: &[u8],
    other: &Engine,
    fresh: u32,
) -> Result<Box<Engine, Global>, OpenError>
    ensures value { IfOk result (λ engine. KeepsNothing engine.value × IsOpenedLike graph.now other.now.hierarchy fresh engine.value.hierarchy engine.value.lines) }
    ensures error { IfErr result (IsLikeError graph.now (nodes_of other.now.hierarchy) fresh) }
{
    let engine = other.open_like(alloc, graph, fresh)?;
    match Box::new(alloc, engine) {
        Ok(engine) => Ok(engine),
        Err(_) => Err(OpenError::NoMemory),
    }
}

/// Makes a second engine on the heap in the same network, or returns `None` if there is no memory.
pub(crate) fn shared(alloc: Global, engine: &Engine) -> Option<Box<Engine, Global>>
    ensures { (second : _) → result ≡ Some second → second.value ≡ without_places engine.now }
{
    let Ok(second) = engine.share(alloc) else {
        return None;
    };
    match Box::new(alloc, second) {
        Ok(second) => Some(second),
        Err(_) => None,
    }
}

/// Writes the distance from each source to the target at the same place. Returns a status.
pub(crate) fn write_distances(
    engine: &mut Engine,
    sources: &[u32],
    targets: &[u32],
    out: &mut [u64],
) -> u32
    ensures answered { ArePairsAnswered engine.old.hierarchy sources.now targets.now out.old out.new result }
    ensures same { engine.new ≡ engine.old }
{
    match engine.distances(sources, targets, out) {
        Ok(()) => OK,
        Err(refusal) => status_of(refusal),
    }
}

/// Writes the distances from each source to each target, row after row. A distance above the limit is written as
/// none. Returns a status.
pub(crate) fn write_table(
    alloc: Global,
    engine: &mut Engine,
    sources: &[u32],
    targets: &[u32],
    limit: u64,
    out: &mut [u64],
) -> u32
    ensures answered { IsTableAnswered engine.old.hierarchy limit sources.now targets.now out.old out.new result }
    ensures same { engine.new ≡ engine.old }
{
    match engine.table(alloc, sources, targets, Some(limit), out) {
        Ok(()) => OK,
        Err(refusal) => status_of(refusal),
    }
}

/// Writes the routes of pairs as far as there is room and memory. Returns a status.
pub(crate) fn write_routes(
    alloc: Global,
    engine: &mut Engine,
    sources: &[u32],
    targets: &[u32],
    routes: &mut u64,
    weights: &mut [u64],
    ends: &mut [u64],
    nodes: &mut [u32],
    lines: &mut [u32],
) -> u32
    ensures answered { AreRoutesAnswered engine.old sources.now targets.now (record { routes = routes.old; weights = weights.old; ends = ends.old; nodes = nodes.old; lines = lines.old }) (record { routes = routes.new; weights = weights.new; ends = ends.new; nodes = nodes.new; lines = lines.new }) result }
    ensures same { engine.new ≡ engine.old }
{
    match engine.routes(alloc, sources, targets, weights, ends, nodes, lines) {
        Ok(written) => {
            *routes = written.count;
            status_of_end(written.end)
        }
        Err(refusal) => status_of(refusal),
    }
}

/// Writes sums along the routes of pairs as far as they fit and there is memory. Returns a status.
pub(crate) fn write_route_sums(
    alloc: Global,
    engine: &mut Engine,
    sources: &[u32],
    targets: &[u32],
    values: &[u64],
    pairs: &mut u64,
    weights: &mut [u64],
    sums: &mut [u64],
) -> u32
    ensures answered { ArePairSumsAnswered engine.old sources.now targets.now values.now (record { pairs = pairs.old; weights = weights.old; sums = sums.old }) (record { pairs = pairs.new; weights = weights.new; sums = sums.new }) result }
    ensures same { engine.new ≡ engine.old }
{
    match engine.route_sums(alloc, sources, targets, values, weights, sums) {
        Ok(summed) => {
            *pairs = summed.count;
            status_of_sums(summed.end)
        }
        Err(refusal) => status_of(refusal),
    }
}

/// Keeps values of lines. Returns a status.
pub(crate) fn keep_values(alloc: Global, engine: &mut Engine, values: &[u64]) -> u32
    ensures { AreValuesKept values.now engine.old (Some engine.new) result }
{
    match engine.keep_values(alloc, values) {
        Ok(()) => OK,
        Err(refusal) => status_of(refusal),
    }
}

/// Writes sums of the kept values along the routes of the cells of a table as far as they fit and there is memory. Returns a
/// status.
pub(crate) fn write_kept_sums(
    alloc: Global,
    engine: &mut Engine,
    sources: &[u32],
    targets: &[u32],
    cells: &mut u64,
    weights: &mut [u64],
    sums: &mut [u64],
) -> u32
    ensures answered { AreKeptSumsAnswered engine.old sources.now targets.now (record { pairs = cells.old; weights = weights.old; sums = sums.old }) (record { pairs = cells.new; weights = weights.new; sums = sums.new }) result }
    ensures same { engine.new ≡ engine.old }
{
    match engine.kept_table_sums(alloc, sources, targets, weights, sums) {
        Ok(summed) => {
            *cells = summed.count;
            status_of_sums(summed.end)
        }
        Err(refusal) => status_of(refusal),
    }
}

/// Writes the flows of pairs on all lines, and the number of pairs without a walk, or nothing. Returns a status.
pub(crate) fn write_flows(
    alloc: Global,
    engine: &mut Engine,
    sources: &[u32],
    targets: &[u32],
    demands: &[u64],
    missed: &mut u64,
    flows: &mut [u64],
) -> u32
    ensures answered { AreFlowsAnswered engine.old sources.now targets.now demands.now (record { missed = missed.old; flows = flows.old }) (record { missed = missed.new; flows = flows.new }) result }
    ensures same { engine.new ≡ engine.old }
{
    match engine.flows(alloc, sources, targets, demands, flows) {
        Ok(Flowed::All(count)) => {
            *missed = count;
            OK
        }
        Ok(Flowed::TooLarge) => SUM_TOO_LARGE,
        Ok(Flowed::NoMemory) => NO_MEMORY,
        Err(refusal) => status_of(refusal),
    }
}

/// Writes the flows of the cells of a table on all lines, and the number of cells without a walk, or nothing. Returns a status.
pub(crate) fn write_table_flows(
    alloc: Global,
    engine: &mut Engine,
    sources: &[u32],
    targets: &[u32],
    demands: &[u64],
    missed: &mut u64,
    flows: &mut [u64],
) -> u32
    ensures answered { AreTableFlowsAnswered engine.old sources.now targets.now demands.now (record { missed = missed.old; flows = flows.old }) (record { missed = missed.new; flows = flows.new }) result }
    ensures same { engine.new ≡ engine.old }
{
    match engine.flows_table(alloc, sources, targets, demands, flows) {
        Ok(Flowed::All(count)) => {
            *missed = count;
            OK
        }
        Ok(Flowed::TooLarge) => SUM_TOO_LARGE,
        Ok(Flowed::NoMemory) => NO_MEMORY,
        Err(refusal) => status_of(refusal),
    }
}

/// Writes the length of the hierarchy's text, and the text if there is room. Returns a status.
pub(crate) fn write_saved(alloc: Global, engine: &Engine, size: &mut u64, out: &mut [u8]) -> u32
    ensures { IsSaved engine.now.hierarchy size.old size.new out.old out.new result }
{
    let Ok(text) = engine.save(alloc) else {
        return NO_MEMORY;
    };
    *size = text.len() as u64;
    if text.len() > out.len() {
        return TOO_SHORT;
    }
    out[..text.len()].copy_from_slice(&text);
    OK
}
