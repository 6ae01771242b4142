//! Runs that write the nearest targets of each source of a list, or of each node of the graph.
ghost use Rattle.std.specs.Prelude.{◌≡◌, ◌^◌, ◌<◌, length, flat_map, IfOk};
ghost use Rattle.ch_job.specs.Job.{source_map, sources_map};
ghost use Rattle.ch_run.specs.Stories.{RunsNear};
ghost use Rattle.ch_run.specs.NearRun.{AreFewSources, AreNodeLists, IsNearBy, nodes_of_sources, sources_reading};
ghost use Rattle.ch_run.specs.Run.{Delivers, reading};
ghost use Rattle.ch_run.specs.Source.{source_reading};
ghost use Rattle.ch_run.specs.Text.{IsNearTextFor};

use super::inputs::{nodes_from, sources_from};
use super::loading::{Loaded, loaded_from};
use super::near_texts::near_by;
use super::output::write_parts;
use crate::fault::{RunFault, Which};
use crate::needed::Needed;
use crate::plan::{Crew, Gate};
use ch_job::{Options, Source, Sources};
use ch_text::{Input, Output};
use std::alloc::AllocError;
use std::thread::Threads;

/// Reads a graph, a list of sources and a list of targets, and writes the near row of each source, in
/// order. The sources may also be all nodes of the graph.
///
/// A near row is a line with the number of targets that follow, and then each of these with its
/// distance. They are in order of distance, and then of place in their list. The options say how many of
/// the first targets a row has: `count`, or all. With a limit it has only targets within the limit. They
/// also say whether distances go from the source to the targets, or from the targets to the source. A
/// target without such a walk is left out.
///
/// Each input is read to its end and judged before the next is read, and the whole text is made before
/// the first write. A saved hierarchy is read after the graph, and checked for it. The text is the same
/// for every plan and gate, and for every hierarchy that is right for the graph. Of the options the run
/// uses `within`, `count` and `direction`, and `hops` if it builds the hierarchy.
///
/// # Errors
/// - `Read`: the first fault of the graph, of the saved hierarchy's lines, of the sources, or of the targets.
/// - `Check`: the first fault of the saved hierarchy on the graph.
/// - `Device`: a read of an input failed.
/// - `Memory`: there was not enough memory.
/// - `Write(count)`: the output took `count` bytes of the text and no more.
///
/// After all faults but `Write` nothing was written.
pub fn run_near<
    R: Threads + Sync,
    I: Input,
    S: Input + Drop,
    J: Input + Drop,
    L: Input,
    O: Output,
    G: Gate,
>(
    crew: &Crew<'_, R, G>,
    graph: &mut I,
    source: &mut Source<S>,
    sources: &mut Sources<J>,
    targets: &mut L,
    output: &mut O,
    options: &Options,
) -> Result<(), RunFault>
    // The story of the run, in the order in which it happens.
    ensures went { RunsNear options.now (reading I.read_gives graph.old graph.new) (source_reading S.read_gives source.old source.new) (sources_reading J.read_gives sources.old sources.new) (reading L.read_gives targets.old targets.new)
        (source.new ≡ source.old) (sources.new ≡ sources.old) (targets.new ≡ targets.old) O.write_gives output.old output.new result }

    // The output takes the near rows of the inputs: all of them, or their first bytes.
    ensures written { Delivers result O.write_gives output.old output.new
        (IsNearBy options.now (reading I.read_gives graph.old graph.new) (source_reading S.read_gives source.old source.new)
        (sources_reading J.read_gives sources.old sources.new) (reading L.read_gives targets.old targets.new)) }

    // Each input is still the same one.
    ensures same { (I.origin graph.new ≡ I.origin graph.old) × (source_map S.origin source.new ≡ source_map S.origin source.old)
        × (sources_map J.origin sources.new ≡ sources_map J.origin sources.old) × (L.origin targets.new ≡ L.origin targets.old) }
{
    let loaded = loaded_from(crew, graph, source, Needed::Any)?;
    let sources = sources_from(crew.alloc, sources, loaded.graph())?;
    let targets = nodes_from(crew.alloc, targets, loaded.graph(), Which::Targets)?;
    let parts = near_of(crew, loaded, &sources, &targets, options)?;
    write_parts(output, &parts)
}

/// Returns the text of the near rows of these sources, by the hierarchy that serves, in parts.
fn near_of<R: Threads + Sync, G: Gate>(
    crew: &Crew<'_, R, G>,
    loaded: Loaded,
    sources: &Sources<Vec<u32>>,
    targets: &[u32],
    options: &Options,
) -> Result<Vec<Vec<u8>>, AllocError>
    requires lists { AreNodeLists loaded.graph.nodes (nodes_of_sources loaded.graph.nodes sources.now) targets.now }
    requires few { AreFewSources sources.now }
    ensures text { IfOk result (λ parts. IsNearTextFor options.now loaded.graph (nodes_of_sources loaded.graph.nodes sources.now) targets.now (flat_map (λ part. part.items) parts.items)) }
    ensures length { IfOk result (λ parts. length (flat_map (λ part. part.items) parts.items) < 2 ^ 64) }
{
    let hierarchy = loaded.hierarchy(crew, options.hops, Needed::Any)?;
    near_by(crew, &hierarchy, sources, targets, options)
}
