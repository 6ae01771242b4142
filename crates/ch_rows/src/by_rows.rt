//! Tables made row by row: each row by one worker.
ghost use Rattle.std.specs.Prelude.{◌≡◌, ◌<◌, ◌≤◌, length, All, IfOk, OnOk};
ghost use Rattle.ch_graph.specs.declared.limits.TheConstants.{MOST_LISTED};
ghost use Rattle.ch_hierarchy.specs.Hierarchy.{nodes_of};
ghost use Rattle.ch_query.specs.Distance.{IsKeptForSome};
ghost use Rattle.ch_rows.specs.Table.{AreGathered, IsRowBy};

use crate::cells::write_cells;
use crate::offers::UNOFFERED;
use crate::row_job::RowJob;
use crate::spaces::gathered;
use crate::sums::Words;
use ch_graph::Rows;
use ch_hierarchy::{Hierarchy, Side};
use ch_query::{Scratch, Start, lower_by_search, ranked_spaces};
use ch_work::{Crew, Gate, RoomJob, Stage, run_pieces_in};
use std::alloc::{AllocError, Global};
use std::marker::Model;
use std::thread::Threads;

/// Gathers the rows as the job says, row by row.
///
/// The workers share the targets, whose weights go to the buckets of the nodes that they reach. Then they
/// share the sources. Each source is searched from for its row.
pub(crate) fn gather_by_rows<R: Threads + Sync, G: Gate, J: RowJob>(
    crew: &Crew<'_, R, G>,
    hierarchy: &Hierarchy,
    sources: &[u32],
    targets: &[u32],
    within: Option<u64>,
    job: &J,
) -> Result<Vec<J::Out>, AllocError>
    requires kept { IsKeptForSome hierarchy.now }
    requires sources { All (λ s. s < nodes_of hierarchy.now) sources.now }
    requires targets { All (λ t. t < nodes_of hierarchy.now) targets.now }
    requires lists { (length sources.now ≤ MOST_LISTED) × (length targets.now ≤ MOST_LISTED) }
    ensures { IfOk result (λ values. AreGathered (J.meaning job.now) hierarchy.now within targets.now sources.now values.items) }
{
    let mut scratches = Vec::new(crew.alloc);
    let down = Side::Down;
    let spaces = ranked_spaces(crew, hierarchy, &mut scratches, targets, down, within)?;
    let buckets = gathered(crew.alloc, hierarchy.nodes(), spaces)?;
    let count = sources.len() as u32;
    crew.gate
        .watch(Stage::Answering, 0, crew.plan.pieces(count));
    let rows = SourceRows {
        hierarchy,
        targets,
        within,
        buckets,
    };
    run_pieces_in(
        crew,
        count,
        &mut scratches,
        &GatheredRows { rows, sources, job },
    )
}

/// What the rows of all sources are made of: the buckets of the targets.
#[derive(Drop)]
struct SourceRows<'a> {
    hierarchy: &'a Hierarchy,
    targets: &'a [u32],
    within: Option<u64>,
    /// By rank, the places of the targets that the node reaches by going down, with the weights of these
    /// paths. They are not sorted, because that takes steps for each node.
    buckets: Rows<(u32, u64)>,
}

impl<'a> Model for SourceRows<'a> {
    ghost use Rattle.std.specs.Prelude.{None};
    ghost use Rattle.ch_rows.specs.Buckets.{HoldTargets};
    ghost use Rattle.ch_rows.specs.Near.{Wanted};

    ghost Value = { Wanted };

    ghost view = { λ rows. record { hierarchy = rows.hierarchy.now; targets = rows.targets.now; limit = rows.within; count = None } };

    ghost invariant = { λ rows. HoldTargets rows.hierarchy.now rows.within rows.targets.now rows.buckets };
}

impl<'a> SourceRows<'a> {
    /// Writes the words of the row of a source by a search in this scratch, and then its cells.
    fn write_row(
        &self,
        scratch: &mut Scratch,
        words: &mut Vec<u64>,
        cells: &mut Vec<Option<u64>>,
        source: u32,
    ) -> Result<(), AllocError>
        requires scratch { scratch.old ≡ nodes_of self.now.hierarchy }
        requires source { source < nodes_of self.now.hierarchy }
        ensures row { OnOk result (IsRowBy self.now.hierarchy self.now.limit self.now.targets source cells.new.items) }
        ensures scratch { scratch.new ≡ scratch.old }
    {
        words.clear();
        words.resize(self.targets.len(), UNOFFERED)?;
        let start = Start {
            source,
            side: Side::Up,
            within: self.within,
        };
        lower_by_search(self.hierarchy, scratch, start, &Words, &self.buckets, words)?;
        write_cells(words, self.within, cells)
    }
}

/// The work that makes the row of each source, and gathers the rows as the job says.
#[derive(Drop)]
struct GatheredRows<'a, J: RowJob> {
    rows: SourceRows<'a>,
    sources: &'a [u32],
    job: &'a J,
}

impl<'a, J: RowJob> Model for GatheredRows<'a, J> {
    ghost use Rattle.std.specs.Prelude.{ℕ, ◌<◌, All, List};
    ghost use Rattle.ch_hierarchy.specs.Hierarchy.{nodes_of};
    ghost use Rattle.ch_rows.specs.Near.{Wanted};

    ghost Value = { Wanted × List ℕ × J };

    ghost view = { λ gathered. (gathered.rows, gathered.sources.now, gathered.job.now) };

    ghost invariant = { λ gathered. All (λ s. s < nodes_of gathered.rows.hierarchy) gathered.sources.now };
}

impl<'a, J: RowJob> RoomJob for GatheredRows<'a, J> {
    ghost use Rattle.std.specs.Prelude.{◌≡◌, length};
    ghost use Rattle.std.specs.List.{slice_range};
    ghost use Rattle.ch_hierarchy.specs.Hierarchy.{nodes_of};
    ghost use Rattle.ch_rows.specs.Table.{IsGathered};

    type Room = Scratch;

    type Out = J::Out;

    ghost size = { λ gathered. length gathered.1 };

    ghost meaning = { λ gathered from to x. IsGathered (J.meaning gathered.2) gathered.0.hierarchy gathered.0.limit gathered.0.targets (slice_range gathered.1 from to) x };

    ghost clean = { λ gathered scratch. scratch ≡ nodes_of gathered.0.hierarchy };

    fn room(&self, alloc: Global) -> Result<Scratch, AllocError> {
        Scratch::new(alloc, self.rows.hierarchy.nodes())
    }

    fn piece(
        &self,
        alloc: Global,
        room: &mut Scratch,
        from: u32,
        to: u32,
    ) -> Result<J::Out, AllocError> {
        let sources = &self.sources[from as usize..to as usize];
        let mut words = Vec::new(alloc);
        let mut cells = Vec::new(alloc);
        let mut gathered = self.job.start(alloc);
        for source in sources {
            self.rows.write_row(room, &mut words, &mut cells, *source)?;
            self.job.add(alloc, &mut gathered, *source, &cells)?;
        }
        Ok(gathered)
    }
}
