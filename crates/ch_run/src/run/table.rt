//! Runs that make tables.
ghost use Rattle.std.specs.Prelude.{◌≡◌, ◌^◌, ◌<◌, length, flat_map, IfOk};
ghost use Rattle.ch_text.specs.TableText.{IsTableText};
ghost use Rattle.ch_job.specs.Job.{source_map};
ghost use Rattle.ch_run.specs.Lists.{AreLists};
ghost use Rattle.ch_run.specs.Run.{Delivers, reading};
ghost use Rattle.ch_run.specs.Source.{source_reading};
ghost use Rattle.ch_run.specs.Stories.{RunsTable};
ghost use Rattle.ch_run.specs.TableRun.{IsTabledBy};

use super::inputs::nodes_from;
use super::loading::{Loaded, loaded_from};
use super::output::write_parts;
use super::texts::table_parts_by;
use crate::fault::{RunFault, Which};
use crate::needed::Needed;
use crate::plan::{Crew, Gate};
use ch_job::{Options, Source};
use ch_text::{Input, Output};
use ch_work::limits::MOST_CELLS;
use std::alloc::AllocError;
use std::thread::Threads;

/// Reads a graph, a list of sources and a list of targets, and writes a table. It has a row for each source,
/// in order, with the distance to each target. With a limit, a cell with a greater distance is as if there
/// were no walk.
///
/// Each input is read to its end and judged before the next is read, and the whole text is made before
/// the first write. A saved hierarchy is read after the graph, and checked for it. The table is the same
/// for every plan and gate, and for every hierarchy that is right for the graph. Of the options the run
/// uses `within`, and `hops` if it builds the hierarchy.
///
/// # Errors
/// - `Read`: the first fault of the graph, of the saved hierarchy's lines, of the sources, or of the targets.
/// - `Check`: the first fault of the saved hierarchy on the graph.
/// - `Cells`: the lists make more than 2^22 cells.
/// - `Device`: a read of an input failed.
/// - `Memory`: there was not enough memory.
/// - `Write(count)`: the output took `count` bytes of the text and no more.
///
/// After all faults but `Write` nothing was written.
pub fn run_table<
    R: Threads + Sync,
    I: Input,
    S: Input + Drop,
    J: Input,
    L: Input,
    O: Output,
    G: Gate,
>(
    crew: &Crew<'_, R, G>,
    graph: &mut I,
    source: &mut Source<S>,
    sources: &mut J,
    targets: &mut L,
    output: &mut O,
    options: &Options,
) -> Result<(), RunFault>
    // The story of the run, in the order in which it happens.
    ensures went { RunsTable options.now (reading I.read_gives graph.old graph.new) (source_reading S.read_gives source.old source.new) (reading J.read_gives sources.old sources.new) (reading L.read_gives targets.old targets.new)
        (source.new ≡ source.old) (sources.new ≡ sources.old) (targets.new ≡ targets.old) O.write_gives output.old output.new result }

    // The output takes the table of the inputs: all of it, or its first bytes.
    ensures written { Delivers result O.write_gives output.old output.new
        (IsTabledBy options.now (reading I.read_gives graph.old graph.new) (source_reading S.read_gives source.old source.new)
        (reading J.read_gives sources.old sources.new) (reading L.read_gives targets.old targets.new)) }

    // Each input is still the same one.
    ensures same { (I.origin graph.new ≡ I.origin graph.old) × (source_map S.origin source.new ≡ source_map S.origin source.old)
        × (J.origin sources.new ≡ J.origin sources.old) × (L.origin targets.new ≡ L.origin targets.old) }
{
    let loaded = loaded_from(crew, graph, source, Needed::Any)?;
    let sources = nodes_from(crew.alloc, sources, loaded.graph(), Which::Sources)?;
    let targets = nodes_from(crew.alloc, targets, loaded.graph(), Which::Targets)?;
    if sources.len() * targets.len() > MOST_CELLS as usize {
        return Err(RunFault::Cells);
    }
    let parts = table_of(crew, loaded, &sources, &targets, options)?;
    write_parts(output, &parts)
}

/// Returns the text of the table from these sources to these targets, by the hierarchy that serves, in parts.
fn table_of<R: Threads + Sync, G: Gate>(
    crew: &Crew<'_, R, G>,
    loaded: Loaded,
    sources: &[u32],
    targets: &[u32],
    options: &Options,
) -> Result<Vec<Vec<u8>>, AllocError>
    requires lists { AreLists loaded.graph.nodes sources.now targets.now }
    ensures text { IfOk result (λ parts. IsTableText loaded.graph options.now.within sources.now targets.now (flat_map (λ part. part.items) parts.items)) }
    ensures length { IfOk result (λ parts. length (flat_map (λ part. part.items) parts.items) < 2 ^ 64) }
{
    let hierarchy = loaded.hierarchy(crew, options.hops, Needed::Any)?;
    table_parts_by(crew, &hierarchy, sources, targets, options.within)
}
