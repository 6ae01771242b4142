//! Near rows, as C sees them.
ghost use Rattle.std.specs.Prelude.{◌≡◌, Some};
ghost use Rattle.ch_c.specs.Calls.{AreCellsAnswered, ArePlacesKept, AreRowsAnswered, AreSummedRowsAnswered, AreSumsAnswered, IsSwept, direction_of as the_direction, end_status, rows_status, sums_status};

use crate::status::{NO_MEMORY, OK, SUM_TOO_LARGE, TOO_SHORT, status_of};
use ch_engine::{End, Engine, RowsEnd, SumsEnd};
use ch_hierarchy::Direction;
use std::alloc::Global;

/// Returns the direction for a number: to the places for 0, and otherwise from them.
fn direction_of(is_from: u32) -> Direction
    ensures { result ≡ the_direction is_from }
{
    if is_from == 0 {
        Direction::To
    } else {
        Direction::From
    }
}

/// Keeps places. Returns a status.
pub(crate) fn keep_places(
    alloc: Global,
    engine: &mut Engine,
    is_from: u32,
    places: &[u32],
    limit: u64,
    count: u32,
) -> u32
    ensures { ArePlacesKept is_from places.now limit count engine.old (Some engine.new) result }
{
    let direction = direction_of(is_from);
    match engine.keep_places(alloc, direction, places, Some(limit), Some(count)) {
        Ok(()) => OK,
        Err(refusal) => status_of(refusal),
    }
}

/// Makes the rows of all nodes in one sweep. Returns a status.
pub(crate) fn sweep(alloc: Global, engine: &mut Engine) -> u32
    ensures swept { IsSwept engine.old result }
    ensures same { engine.new ≡ engine.old }
{
    match engine.sweep(alloc) {
        Ok(()) => OK,
        Err(refusal) => status_of(refusal),
    }
}

/// Writes the rows of sources as far as there is room and memory. Returns a status.
pub(crate) fn write_rows(
    alloc: Global,
    engine: &mut Engine,
    sources: &[u32],
    rows: &mut u64,
    ends: &mut [u64],
    weights: &mut [u64],
    places: &mut [u32],
) -> u32
    ensures answered { AreRowsAnswered engine.old sources.now (record { rows = rows.old; ends = ends.old; weights = weights.old; places = places.old }) (record { rows = rows.new; ends = ends.new; weights = weights.new; places = places.new }) result }
    ensures same { engine.new ≡ engine.old }
{
    match engine.near_rows(alloc, sources, ends, weights, places) {
        Ok(written) => {
            *rows = written.count;
            status_of_end(written.end)
        }
        Err(refusal) => status_of(refusal),
    }
}

/// Returns the status for the reason why no more rows or routes were written.
pub(crate) fn status_of_end(end: End) -> u32
    ensures { result ≡ end_status end }
{
    match end {
        End::All => OK,
        End::NoRoom => TOO_SHORT,
        End::NoMemory => NO_MEMORY,
    }
}

/// Writes the rows of sources with the sums of the kept values as far as there is room and memory. Returns a status.
pub(crate) fn write_summed_rows(
    alloc: Global,
    engine: &mut Engine,
    sources: &[u32],
    rows: &mut u64,
    ends: &mut [u64],
    weights: &mut [u64],
    places: &mut [u32],
    sums: &mut [u64],
) -> u32
    ensures answered { AreSummedRowsAnswered engine.old sources.now (record { rows = record { rows = rows.old; ends = ends.old; weights = weights.old; places = places.old }; sums = sums.old }) (record { rows = record { rows = rows.new; ends = ends.new; weights = weights.new; places = places.new }; sums = sums.new }) result }
    ensures same { engine.new ≡ engine.old }
{
    match engine.kept_near_sums(alloc, sources, ends, weights, places, sums) {
        Ok(found) => {
            *rows = found.count;
            status_of_rows(found.end)
        }
        Err(refusal) => status_of(refusal),
    }
}

/// Returns the status for the reason why no more rows were written with their sums.
fn status_of_rows(end: RowsEnd) -> u32
    ensures { result ≡ rows_status end }
{
    match end {
        RowsEnd::All => OK,
        RowsEnd::NoRoom => TOO_SHORT,
        RowsEnd::TooLarge => SUM_TOO_LARGE,
        RowsEnd::NoMemory => NO_MEMORY,
    }
}

/// Writes rows of a table over the kept places as far as there is memory. Returns a status.
pub(crate) fn write_cells(
    alloc: Global,
    engine: &mut Engine,
    sources: &[u32],
    rows: &mut u64,
    cells: &mut [u64],
) -> u32
    ensures answered { AreCellsAnswered engine.old sources.now (record { rows = rows.old; cells = cells.old }) (record { rows = rows.new; cells = cells.new }) result }
    ensures same { engine.new ≡ engine.old }
{
    match engine.near_table(alloc, sources, cells) {
        Ok(made) => {
            *rows = made.count;
            status_of_end(made.end)
        }
        Err(refusal) => status_of(refusal),
    }
}

/// Writes sums over the rows of sources as far as they fit and there is memory. Returns a status.
pub(crate) fn write_sums(
    alloc: Global,
    engine: &mut Engine,
    sources: &[u32],
    values: &[u64],
    limits: &[u64],
    rows: &mut u64,
    sums: &mut [u64],
) -> u32
    ensures answered { AreSumsAnswered engine.old sources.now values.now limits.now (record { rows = rows.old; sums = sums.old }) (record { rows = rows.new; sums = sums.new }) result }
    ensures same { engine.new ≡ engine.old }
{
    match engine.near_sums(alloc, sources, values, limits, sums) {
        Ok(summed) => {
            *rows = summed.count;
            status_of_sums(summed.end)
        }
        Err(refusal) => status_of(refusal),
    }
}

/// Returns the status for the reason why the sums of no more sources or pairs were written.
pub(crate) fn status_of_sums(end: SumsEnd) -> u32
    ensures { result ≡ sums_status end }
{
    match end {
        SumsEnd::All => OK,
        SumsEnd::TooLarge => SUM_TOO_LARGE,
        SumsEnd::NoMemory => NO_MEMORY,
    }
}
