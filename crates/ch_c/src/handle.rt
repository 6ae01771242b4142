//! The handle that C holds, and the calls that answer by it.
ghost use Rattle.std.specs.Prelude.{◌≡◌, ◌↔◌, IfSome, IsSome, IsTrue, MatchOption, None, Some, ⊤};
ghost use Rattle.ch_hierarchy.specs.Hierarchy.{nodes_of};
ghost use Rattle.ch_engine.specs.Lines.{IsOfSome};
ghost use Rattle.ch_c.specs.Calls.{AreCellsAnswered, AreFlowsAnswered, AreKeptSumsAnswered, ArePairsAnswered, ArePairSumsAnswered, ArePlacesKept, AreRoutesAnswered, AreRowsAnswered, AreSummedRowsAnswered, AreSumsAnswered, AreTableFlowsAnswered, AreValuesKept, IsSaved, IsSwept, IsTableAnswered, OfNetwork};
ghost use Rattle.ch_c.specs.declared.status.TheConstants.{OK};

use crate::answers::{
    keep_values, write_distances, write_flows, write_kept_sums, write_route_sums, write_routes,
    write_saved, write_table, write_table_flows,
};
use crate::erased::ErasedEngine;
use crate::near::{keep_places, sweep, write_cells, write_rows, write_summed_rows, write_sums};
use crate::raw_box::RawBox;
use crate::status::{CLOSED, OK};
use ch_engine::Engine;
use std::alloc::Global;
use std::mem;

/// The version: millions for the first number of `VERSION`, thousands for the second.
const VERSION: u32 = 1_003_000;

/// The handle of an engine that C holds: 16 bytes, which are all 0 if it is closed.
#[repr(C)]
#[derive(Drop)]
pub struct Handle {
    is_open: u64,
    engine: ErasedEngine,
    ghost held: { IsSome engine.network ↔ (is_open ≡ 1) },
}

impl Handle {
    /// Returns whether an engine is there.
    pub(crate) fn is_open(&self) -> bool
        ensures { IsTrue result ↔ IsSome self.now.engine.network }
    {
        self.is_open == 1
    }

    fn closed(alloc: Global) -> Handle
        ensures { result.engine.network ≡ None }
    {
        Handle {
            is_open: 0,
            engine: ErasedEngine::none(alloc),
        }
    }

    /// Puts an engine into a closed handle. An open one would lose its engine.
    pub(crate) fn put(&mut self, engine: Box<Engine, Global>)
        requires { self.old.engine.network ≡ None }
        ensures { self.new.engine.network ≡ Some engine.value }
    {
        *self = Handle {
            is_open: 1,
            engine: ErasedEngine::of(RawBox::of(engine)),
        };
    }

    /// Takes the engine out of an open handle, which is then closed. Returns `None` if the handle is closed already.
    pub(crate) fn take(&mut self, alloc: Global) -> Option<Box<Engine, Global>>
        ensures taken { MatchOption result (self.old.engine.network ≡ None) (λ engine. self.old.engine.network ≡ Some engine.value) }
        ensures kept { IfSome result (λ engine. IsOfSome engine.value.hierarchy engine.value.lines) }
        ensures closed { self.new.engine.network ≡ None }
    {
        let Handle { is_open, engine } = mem::replace(self, Handle::closed(alloc));
        if is_open != 1 {
            return None;
        }
        let engine = engine.into_box();
        // This call tells the proof that the engine's hierarchy and lines are those of some graph.
        let _ = engine.nodes();
        Some(engine)
    }
}

/// Returns the version of the library.
#[unsafe(no_mangle)]
pub extern "C" fn chtab_version() -> u32
    ensures { result ≡ 1003000 }
{
    VERSION
}

/// Writes the number of nodes.
#[unsafe(no_mangle)]
pub extern "C" fn chtab_nodes(alloc: Global, handle: &mut Handle, nodes: &mut u32) -> u32
    ensures answered { OfNetwork handle.old.engine.network result (nodes.new ≡ nodes.old) (λ held. (result ≡ OK) × (nodes.new ≡ nodes_of held.hierarchy)) }
    ensures same { handle.new.engine.network ≡ handle.old.engine.network }
{
    let Some(engine) = handle.take(alloc) else {
        return CLOSED;
    };
    *nodes = engine.nodes();
    handle.put(engine);
    OK
}

/// Writes the length of the hierarchy's text, and the text if there is room.
#[unsafe(no_mangle)]
pub extern "C" fn chtab_save(
    alloc: Global,
    handle: &mut Handle,
    size: &mut u64,
    out: &mut [u8],
) -> u32
    ensures answered { OfNetwork handle.old.engine.network result ((size.new ≡ size.old) × (out.new ≡ out.old)) (λ held. IsSaved held.hierarchy size.old size.new out.old out.new result) }
    ensures same { handle.new.engine.network ≡ handle.old.engine.network }
{
    let Some(engine) = handle.take(alloc) else {
        return CLOSED;
    };
    let status = write_saved(alloc, &engine, size, out);
    handle.put(engine);
    status
}

/// Writes the distance from each source to the target at the same place.
#[unsafe(no_mangle)]
pub extern "C" fn chtab_distances(
    alloc: Global,
    handle: &mut Handle,
    sources: &[u32],
    targets: &[u32],
    out: &mut [u64],
) -> u32
    ensures answered { OfNetwork handle.old.engine.network result (out.new ≡ out.old) (λ held. ArePairsAnswered held.hierarchy sources.now targets.now out.old out.new result) }
    ensures same { handle.new.engine.network ≡ handle.old.engine.network }
{
    let Some(mut engine) = handle.take(alloc) else {
        return CLOSED;
    };
    let status = write_distances(&mut engine, sources, targets, out);
    handle.put(engine);
    status
}

/// Writes the distances from each source to each target, row after row. A distance above the limit is written as
/// none.
#[unsafe(no_mangle)]
pub extern "C" fn chtab_table(
    alloc: Global,
    handle: &mut Handle,
    sources: &[u32],
    targets: &[u32],
    limit: u64,
    out: &mut [u64],
) -> u32
    ensures answered { OfNetwork handle.old.engine.network result (out.new ≡ out.old) (λ held. IsTableAnswered held.hierarchy limit sources.now targets.now out.old out.new result) }
    ensures same { handle.new.engine.network ≡ handle.old.engine.network }
{
    let Some(mut engine) = handle.take(alloc) else {
        return CLOSED;
    };
    let status = write_table(alloc, &mut engine, sources, targets, limit, out);
    handle.put(engine);
    status
}

/// Writes the routes of pairs, one after the other: the number of routes, the weight of each, the end of its nodes, the
/// nodes, and on request the line of the arc that leads to each node.
#[unsafe(no_mangle)]
pub extern "C" fn chtab_routes(
    alloc: Global,
    handle: &mut Handle,
    sources: &[u32],
    targets: &[u32],
    routes: &mut u64,
    weights: &mut [u64],
    ends: &mut [u64],
    nodes: &mut [u32],
    lines: &mut [u32],
) -> u32
    ensures answered { OfNetwork handle.old.engine.network result ((routes.new ≡ routes.old) × (weights.new ≡ weights.old) × (ends.new ≡ ends.old) × (nodes.new ≡ nodes.old) × (lines.new ≡ lines.old)) (λ held. AreRoutesAnswered held sources.now targets.now (record { routes = routes.old; weights = weights.old; ends = ends.old; nodes = nodes.old; lines = lines.old }) (record { routes = routes.new; weights = weights.new; ends = ends.new; nodes = nodes.new; lines = lines.new }) result) }
    ensures same { handle.new.engine.network ≡ handle.old.engine.network }
{
    let Some(mut engine) = handle.take(alloc) else {
        return CLOSED;
    };
    let status = write_routes(
        alloc,
        &mut engine,
        sources,
        targets,
        routes,
        weights,
        ends,
        nodes,
        lines,
    );
    handle.put(engine);
    status
}

/// Writes sums along the routes of pairs: the number of pairs, and for each the weight of its route, and the sum of the
/// values on the lines of the route's arcs.
#[unsafe(no_mangle)]
pub extern "C" fn chtab_route_sums(
    alloc: Global,
    handle: &mut Handle,
    sources: &[u32],
    targets: &[u32],
    values: &[u64],
    pairs: &mut u64,
    weights: &mut [u64],
    sums: &mut [u64],
) -> u32
    ensures answered { OfNetwork handle.old.engine.network result ((pairs.new ≡ pairs.old) × (weights.new ≡ weights.old) × (sums.new ≡ sums.old)) (λ held. ArePairSumsAnswered held sources.now targets.now values.now (record { pairs = pairs.old; weights = weights.old; sums = sums.old }) (record { pairs = pairs.new; weights = weights.new; sums = sums.new }) result) }
    ensures same { handle.new.engine.network ≡ handle.old.engine.network }
{
    let Some(mut engine) = handle.take(alloc) else {
        return CLOSED;
    };
    let status = write_route_sums(
        alloc,
        &mut engine,
        sources,
        targets,
        values,
        pairs,
        weights,
        sums,
    );
    handle.put(engine);
    status
}

/// Keeps a value for each line of the graph. They replace the values before.
#[unsafe(no_mangle)]
pub extern "C" fn chtab_keep_values(alloc: Global, handle: &mut Handle, values: &[u64]) -> u32
    ensures { OfNetwork handle.old.engine.network result (handle.new.engine.network ≡ None) (λ held. AreValuesKept values.now held handle.new.engine.network result) }
{
    let Some(mut engine) = handle.take(alloc) else {
        return CLOSED;
    };
    let status = keep_values(alloc, &mut engine, values);
    handle.put(engine);
    status
}

/// Writes sums along the routes of the cells of a table: the number of cells, and for each, row after row, the weight of its
/// route, and the sum of the kept values on the lines of the route's arcs.
#[unsafe(no_mangle)]
pub extern "C" fn chtab_kept_table_sums(
    alloc: Global,
    handle: &mut Handle,
    sources: &[u32],
    targets: &[u32],
    cells: &mut u64,
    weights: &mut [u64],
    sums: &mut [u64],
) -> u32
    ensures answered { OfNetwork handle.old.engine.network result ((cells.new ≡ cells.old) × (weights.new ≡ weights.old) × (sums.new ≡ sums.old)) (λ held. AreKeptSumsAnswered held sources.now targets.now (record { pairs = cells.old; weights = weights.old; sums = sums.old }) (record { pairs = cells.new; weights = weights.new; sums = sums.new }) result) }
    ensures same { handle.new.engine.network ≡ handle.old.engine.network }
{
    let Some(mut engine) = handle.take(alloc) else {
        return CLOSED;
    };
    let status = write_kept_sums(alloc, &mut engine, sources, targets, cells, weights, sums);
    handle.put(engine);
    status
}

/// Writes the flows of pairs: the number of pairs without a walk, and for each line of the graph the sum of the demands of
/// the pairs whose routes take the arc on it.
#[unsafe(no_mangle)]
pub extern "C" fn chtab_flows(
    alloc: Global,
    handle: &mut Handle,
    sources: &[u32],
    targets: &[u32],
    demands: &[u64],
    missed: &mut u64,
    flows: &mut [u64],
) -> u32
    ensures answered { OfNetwork handle.old.engine.network result ((missed.new ≡ missed.old) × (flows.new ≡ flows.old)) (λ held. AreFlowsAnswered held sources.now targets.now demands.now (record { missed = missed.old; flows = flows.old }) (record { missed = missed.new; flows = flows.new }) result) }
    ensures same { handle.new.engine.network ≡ handle.old.engine.network }
{
    let Some(mut engine) = handle.take(alloc) else {
        return CLOSED;
    };
    let status = write_flows(alloc, &mut engine, sources, targets, demands, missed, flows);
    handle.put(engine);
    status
}

/// Writes the flows of the cells of a table: the number of cells without a walk, and for each line of the graph the sum of the
/// demands of the cells whose routes take the arc on it.
#[unsafe(no_mangle)]
pub extern "C" fn chtab_flows_table(
    alloc: Global,
    handle: &mut Handle,
    sources: &[u32],
    targets: &[u32],
    demands: &[u64],
    missed: &mut u64,
    flows: &mut [u64],
) -> u32
    ensures answered { OfNetwork handle.old.engine.network result ((missed.new ≡ missed.old) × (flows.new ≡ flows.old)) (λ held. AreTableFlowsAnswered held sources.now targets.now demands.now (record { missed = missed.old; flows = flows.old }) (record { missed = missed.new; flows = flows.new }) result) }
    ensures same { handle.new.engine.network ≡ handle.old.engine.network }
{
    let Some(mut engine) = handle.take(alloc) else {
        return CLOSED;
    };
    let status = write_table_flows(alloc, &mut engine, sources, targets, demands, missed, flows);
    handle.put(engine);
    status
}

/// Keeps places for near rows. They replace the places before.
#[unsafe(no_mangle)]
pub extern "C" fn chtab_near_places(
    alloc: Global,
    handle: &mut Handle,
    is_from: u32,
    places: &[u32],
    limit: u64,
    count: u32,
) -> u32
    ensures { OfNetwork handle.old.engine.network result (handle.new.engine.network ≡ None) (λ held. ArePlacesKept is_from places.now limit count held handle.new.engine.network result) }
{
    let Some(mut engine) = handle.take(alloc) else {
        return CLOSED;
    };
    let status = keep_places(alloc, &mut engine, is_from, places, limit, count);
    handle.put(engine);
    status
}

/// Makes the rows of all nodes over the kept places in one sweep, and keeps them.
#[unsafe(no_mangle)]
pub extern "C" fn chtab_near_sweep(alloc: Global, handle: &mut Handle) -> u32
    ensures answered { OfNetwork handle.old.engine.network result ⊤ (λ held. IsSwept held result) }
    ensures same { handle.new.engine.network ≡ handle.old.engine.network }
{
    let Some(mut engine) = handle.take(alloc) else {
        return CLOSED;
    };
    let status = sweep(alloc, &mut engine);
    handle.put(engine);
    status
}

/// Writes the rows of sources over the kept places: the number of rows, the end of each, and the weights and places
/// of their pairs.
#[unsafe(no_mangle)]
pub extern "C" fn chtab_near_rows(
    alloc: Global,
    handle: &mut Handle,
    sources: &[u32],
    rows: &mut u64,
    ends: &mut [u64],
    weights: &mut [u64],
    places: &mut [u32],
) -> u32
    ensures answered { OfNetwork handle.old.engine.network result ((rows.new ≡ rows.old) × (ends.new ≡ ends.old) × (weights.new ≡ weights.old) × (places.new ≡ places.old)) (λ held. AreRowsAnswered held sources.now (record { rows = rows.old; ends = ends.old; weights = weights.old; places = places.old }) (record { rows = rows.new; ends = ends.new; weights = weights.new; places = places.new }) result) }
    ensures same { handle.new.engine.network ≡ handle.old.engine.network }
{
    let Some(mut engine) = handle.take(alloc) else {
        return CLOSED;
    };
    let status = write_rows(alloc, &mut engine, sources, rows, ends, weights, places);
    handle.put(engine);
    status
}

/// Writes the rows of sources over the kept places as `chtab_near_rows` does, and the sum of the kept values along the route of
/// each of their pairs.
#[unsafe(no_mangle)]
pub extern "C" fn chtab_kept_near_sums(
    alloc: Global,
    handle: &mut Handle,
    sources: &[u32],
    rows: &mut u64,
    ends: &mut [u64],
    weights: &mut [u64],
    places: &mut [u32],
    sums: &mut [u64],
) -> u32
    ensures answered { OfNetwork handle.old.engine.network result ((rows.new ≡ rows.old) × (ends.new ≡ ends.old) × (weights.new ≡ weights.old) × (places.new ≡ places.old) × (sums.new ≡ sums.old)) (λ held. AreSummedRowsAnswered held sources.now (record { rows = record { rows = rows.old; ends = ends.old; weights = weights.old; places = places.old }; sums = sums.old }) (record { rows = record { rows = rows.new; ends = ends.new; weights = weights.new; places = places.new }; sums = sums.new }) result) }
    ensures same { handle.new.engine.network ≡ handle.old.engine.network }
{
    let Some(mut engine) = handle.take(alloc) else {
        return CLOSED;
    };
    let status = write_summed_rows(
        alloc,
        &mut engine,
        sources,
        rows,
        ends,
        weights,
        places,
        sums,
    );
    handle.put(engine);
    status
}

/// Writes sums over the rows of sources: the number of sources, and for each source a sum for each limit, of the values of
/// the places whose distances are at most the limit.
#[unsafe(no_mangle)]
pub extern "C" fn chtab_near_sums(
    alloc: Global,
    handle: &mut Handle,
    sources: &[u32],
    values: &[u64],
    limits: &[u64],
    rows: &mut u64,
    sums: &mut [u64],
) -> u32
    ensures answered { OfNetwork handle.old.engine.network result ((rows.new ≡ rows.old) × (sums.new ≡ sums.old)) (λ held. AreSumsAnswered held sources.now values.now limits.now (record { rows = rows.old; sums = sums.old }) (record { rows = rows.new; sums = sums.new }) result) }
    ensures same { handle.new.engine.network ≡ handle.old.engine.network }
{
    let Some(mut engine) = handle.take(alloc) else {
        return CLOSED;
    };
    let status = write_sums(alloc, &mut engine, sources, values, limits, rows, sums);
    handle.put(engine);
    status
}

/// Writes rows of a table over the kept places: the number of rows, and for each source the distance of each place.
#[unsafe(no_mangle)]
pub extern "C" fn chtab_near_table(
    alloc: Global,
    handle: &mut Handle,
    sources: &[u32],
    rows: &mut u64,
    cells: &mut [u64],
) -> u32
    ensures answered { OfNetwork handle.old.engine.network result ((rows.new ≡ rows.old) × (cells.new ≡ cells.old)) (λ held. AreCellsAnswered held sources.now (record { rows = rows.old; cells = cells.old }) (record { rows = rows.new; cells = cells.new }) result) }
    ensures same { handle.new.engine.network ≡ handle.old.engine.network }
{
    let Some(mut engine) = handle.take(alloc) else {
        return CLOSED;
    };
    let status = write_cells(alloc, &mut engine, sources, rows, cells);
    handle.put(engine);
    status
}
