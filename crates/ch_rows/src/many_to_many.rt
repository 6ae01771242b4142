//! Distances from many nodes to many nodes.
ghost use Rattle.std.specs.Prelude.{◌*◌, ◌<◌, ◌≤◌, length, All, IfOk};
ghost use Rattle.std.specs.List.{AllZip};
ghost use Rattle.ch_graph.specs.declared.limits.TheConstants.{MOST_LISTED};
ghost use Rattle.ch_hierarchy.specs.Hierarchy.{nodes_of};
ghost use Rattle.ch_query.specs.Distance.{IsKeptForSome};
ghost use Rattle.ch_rows.specs.Table.{AreGathered, IsRowBy};
ghost use Rattle.ch_work.specs.declared.limits.TheConstants.{MOST_CELLS};

use crate::by_cells::table_by_cells;
use crate::by_rows::gather_by_rows;
use crate::cells::Table;
use crate::row_job::{KeptRows, RowJob};
use ch_hierarchy::Hierarchy;
use ch_work::{Crew, Gate, joined};
use std::alloc::AllocError;
use std::thread::Threads;

/// The most cells of a table that several workers share cell by cell whatever the number of sources is.
const FEW_CELLS: usize = 4096;

/// Returns the distances from each source to each target. With a limit `within`, a distance of more than
/// that is none. It is made as [`gather_rows`] says.
///
/// # Errors
/// `AllocError` if there is no memory.
pub fn table<R: Threads + Sync, G: Gate>(
    crew: &Crew<'_, R, G>,
    hierarchy: &Hierarchy,
    sources: &[u32],
    targets: &[u32],
    within: Option<u64>,
) -> Result<Table, AllocError>
    requires kept { IsKeptForSome hierarchy.now }
    requires sources { All (λ s. s < nodes_of hierarchy.now) sources.now }
    requires targets { All (λ t. t < nodes_of hierarchy.now) targets.now }
    requires lists { (length sources.now ≤ MOST_LISTED) × (length targets.now ≤ MOST_LISTED) }
    requires cells { length sources.now * length targets.now ≤ MOST_CELLS }
    ensures { IfOk result (AllZip (IsRowBy hierarchy.now within targets.now) sources.now) }
{
    let parts = gather_rows(crew, hierarchy, sources, targets, within, &KeptRows)?;
    let rows = joined(crew.alloc, parts)?;
    Ok(Table { rows })
}

/// Gathers the rows of the table as the job says. A row has the distance to each target. With a limit
/// `within`, a distance of more than that is none. Each value that is returned is gathered from a range of
/// rows. The ranges are in order, and have all rows.
///
/// Each target is searched from once, down its paths to higher nodes. It leaves its weight in the bucket of
/// each node that it reaches (Knopp, Sanders, Schultes, Schulz and Wagner 2007). Then each source is
/// searched from, up. Its row is made of the sums with the buckets of the nodes that it reaches.
///
/// The workers share the targets, and then the sources. Two workers or more share cells in place of rows if
/// there are fewer sources than workers, or at most `FEW_CELLS` cells. With a limit, a search takes no leg
/// that makes a path heavier.
///
/// # Errors
/// `AllocError` if there is no memory.
pub fn gather_rows<R: Threads + Sync, G: Gate, J: RowJob>(
    crew: &Crew<'_, R, G>,
    hierarchy: &Hierarchy,
    sources: &[u32],
    targets: &[u32],
    within: Option<u64>,
    job: &J,
) -> Result<Vec<J::Out>, AllocError>
    requires kept { IsKeptForSome hierarchy.now }
    requires sources { All (λ s. s < nodes_of hierarchy.now) sources.now }
    requires targets { All (λ t. t < nodes_of hierarchy.now) targets.now }
    requires lists { (length sources.now ≤ MOST_LISTED) × (length targets.now ≤ MOST_LISTED) }
    requires cells { length sources.now * length targets.now ≤ MOST_CELLS }
    ensures { IfOk result (λ values. AreGathered (J.meaning job.now) hierarchy.now within targets.now sources.now values.items) }
{
    let rows = sources.len();
    let cells = rows * targets.len();
    let are_few = rows < crew.plan.workers() as usize || cells <= FEW_CELLS;
    if are_few && crew.plan.shares(cells, 1) {
        let table = table_by_cells(crew, hierarchy, sources, targets, within)?;
        let whole = table.gathered(crew.alloc, sources, job)?;
        let mut values = Vec::with_capacity(crew.alloc, 1)?;
        values.push(whole)?;
        Ok(values)
    } else {
        gather_by_rows(crew, hierarchy, sources, targets, within, job)
    }
}
