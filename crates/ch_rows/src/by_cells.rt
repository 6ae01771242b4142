//! Tables whose cells are shared by all workers.
ghost use Rattle.std.specs.Prelude.{◌≡◌, ◌*◌, ◌<◌, ◌≤◌, length, map, All, IfOk};
ghost use Rattle.std.specs.List.{AllZip};
ghost use Rattle.ch_graph.specs.declared.limits.TheConstants.{MOST_LISTED};
ghost use Rattle.ch_hierarchy.specs.Hierarchy.{nodes_of};
ghost use Rattle.ch_query.specs.Distance.{IsKeptForSome};
ghost use Rattle.ch_rows.specs.Table.{IsRowBy, rows_of_cells};
ghost use Rattle.ch_work.specs.declared.limits.TheConstants.{MOST_CELLS};

use crate::cells::Table;
use crate::owed::Sums;
use ch_hierarchy::Hierarchy;
use ch_work::{Crew, Gate, Stage, run_cells};
use std::alloc::{AllocError, Global};
use std::thread::Threads;

/// Makes a table of few sources.
///
/// At each node, the entries of sources and of targets owe their sums to the cells, which all workers
/// share. With a limit, only sums of at most that are owed. The workers share first the targets, then the
/// sources, and then the nodes. Each piece of nodes has its share of the high nodes, and does them last.
pub(crate) fn table_by_cells<R: Threads + Sync, G: Gate>(
    crew: &Crew<'_, R, G>,
    hierarchy: &Hierarchy,
    sources: &[u32],
    targets: &[u32],
    within: Option<u64>,
) -> Result<Table, AllocError>
    requires kept { IsKeptForSome hierarchy.now }
    requires sources { All (λ s. s < nodes_of hierarchy.now) sources.now }
    requires targets { All (λ t. t < nodes_of hierarchy.now) targets.now }
    requires lists { (length sources.now ≤ MOST_LISTED) × (length targets.now ≤ MOST_LISTED) }
    requires cells { length sources.now * length targets.now ≤ MOST_CELLS }
    ensures { IfOk result (AllZip (IsRowBy hierarchy.now within targets.now) sources.now) }
{
    let sums = Sums::search(crew, hierarchy, sources, targets, within)?;
    let rows = sources.len() as u32;
    let columns = targets.len() as u32;
    let nodes = hierarchy.nodes();
    crew.gate
        .watch(Stage::Answering, 0, crew.plan.pieces(nodes));
    let cells = run_cells(crew, nodes, rows * columns, &sums)?;
    // This frees their memory for the rows.
    drop(sums);
    let rows = cut(crew.alloc, &cells, rows, columns)?;
    Ok(Table { rows })
}

/// Cuts the cells, which are row after row, into rows.
fn cut(
    alloc: Global,
    cells: &[Option<u64>],
    rows: u32,
    columns: u32,
) -> Result<Vec<Vec<Option<u64>>>, AllocError>
    requires size { length cells.now ≡ rows * columns }
    requires rows { rows ≤ MOST_LISTED }
    ensures { IfOk result (λ list. map (λ row. row.items) list.items ≡ rows_of_cells rows columns cells.now) }
{
    let columns = columns as usize;
    let mut list = Vec::with_capacity(alloc, rows as usize)?;
    for i in 0..rows {
        let start = i as usize * columns;
        list.push(Vec::from_slice(alloc, &cells[start..start + columns])?)?;
    }
    Ok(list)
}
