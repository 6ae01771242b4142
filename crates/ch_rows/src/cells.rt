//! Tables, and the cells of their rows.
ghost use Rattle.std.specs.Prelude.{◌≡◌, ◌<◌, ◌≤◌, [], ℕ, length, map, slice_index_or, IfOk, OnOk};
ghost use Rattle.ch_graph.specs.declared.limits.TheConstants.{MOST_LISTED};
ghost use Rattle.ch_rows.specs.Cells.{IsMostSum, cell_of};

use crate::row_job::RowJob;
use ch_graph::limits::MOST_SUM;
use std::alloc::{AllocError, Global};
use std::marker::Model;

/// The distances from each source to each target: a row for each source, with a cell for each target.
#[derive(Debug, Drop)]
pub struct Table {
    pub(crate) rows: Vec<Vec<Option<u64>>>,
}

impl Model for Table {
    ghost use Rattle.std.specs.Prelude.{ℕ, ◌≤◌, List, Option, map};
    ghost use Rattle.ch_graph.specs.declared.limits.TheConstants.{MOST_LISTED};

    ghost Value = { List (List (Option ℕ)) };

    ghost view = { λ t. map (λ row. row.items) t.rows.items };

    ghost invariant = { λ t. t.rows.len ≤ MOST_LISTED };
}

impl Table {
    /// The number of rows, which is the number of sources.
    pub fn row_count(&self) -> u32
        ensures { result ≡ length self.now }
    {
        self.rows.len() as u32
    }

    /// The cells of the source at place `i`, in the order of the targets.
    pub fn row(&self, i: u32) -> &[Option<u64>]
        requires { i < length self.now }
        ensures { result.now ≡ slice_index_or self.now i [] }
    {
        &self.rows[i as usize]
    }

    /// Gathers the rows as the job says, where they are those of these sources.
    pub(crate) fn gathered<J: RowJob>(
        &self,
        alloc: Global,
        sources: &[u32],
        job: &J,
    ) -> Result<J::Out, AllocError>
        requires count { length sources.now ≤ MOST_LISTED }
        requires rows { length self.now ≡ length sources.now }
        ensures { IfOk result (J.meaning job.now sources.now self.now) }
    {
        let mut gathered = job.start(alloc);
        for (place, source) in sources.iter().enumerate() {
            job.add(alloc, &mut gathered, *source, self.row(place as u32))?;
        }
        Ok(gathered)
    }
}

/// Writes the cells of a row, in place of those of an earlier row. A cell is the word of its place, or none if
/// the word is more than the limit or was not reached.
pub(crate) fn write_cells(
    row: &[u64],
    within: Option<u64>,
    cells: &mut Vec<Option<u64>>,
) -> Result<(), AllocError>
    ensures { OnOk result ((most : ℕ) × IsMostSum within most × (cells.new.items ≡ map (cell_of most) row.now)) }
{
    let most = most_sum(within);
    cells.clear();
    cells.reserve(row.len())?;
    for word in row {
        cells.push_reserved(if *word <= most { Some(*word) } else { None });
    }
    Ok(())
}

/// Returns the most that a sum within the limit may be.
fn most_sum(within: Option<u64>) -> u64
    ensures { IsMostSum within result }
{
    match within {
        Some(most) => most.min(MOST_SUM),
        None => MOST_SUM,
    }
}
