//! Runs that save the hierarchy of a graph.
ghost use Rattle.std.specs.Prelude.{◌≡◌, IfOk};
ghost use Rattle.ch_job.specs.Job.{source_map};
ghost use Rattle.ch_run.specs.Run.{Delivers, reading};
ghost use Rattle.ch_run.specs.Source.{IsServing, source_reading};
ghost use Rattle.ch_run.specs.Stories.{RunsSave};
ghost use Rattle.ch_run.specs.SaveRun.{IsSavedBy};
ghost use Rattle.ch_run.specs.Text.{IsSaveTextOf};

use super::loading::{Loaded, loaded_from};
use super::output::write_text;
use crate::fault::RunFault;
use crate::needed::Needed;
use crate::plan::{Crew, Gate};
use ch_job::{HopBound, Options, Source};
use ch_text::{Input, Output, save_text};
use std::alloc::AllocError;
use std::thread::Threads;

/// Reads a graph, and writes its hierarchy as a saved one: the contraction hierarchy that it builds, or the one
/// that it loads.
///
/// Each input is read to its end and judged before the next is read, and the whole text is made before the first
/// write. The text is the same for every plan and gate. Of the options it uses `hops`, `order` and `quick`, if it builds
/// the hierarchy without an order.
///
/// # Errors
/// - `Read`: the first fault of the graph, or of the lines of a saved hierarchy or of an order.
/// - `Check`: the first fault of the saved hierarchy on the graph.
/// - `Order`: the order does not have each node of the graph once.
/// - `Crowded`: when a given node of the order has its turn, too many edges touch it.
/// - `Device`: a read of an input failed.
/// - `Memory`: there was not enough memory.
/// - `Write(count)`: the output took `count` bytes of the text and no more.
///
/// After all faults but `Write` nothing was written.
pub fn run_save<R: Threads + Sync, I: Input, S: Input + Drop, O: Output, G: Gate>(
    crew: &Crew<'_, R, G>,
    graph: &mut I,
    source: &mut Source<S>,
    output: &mut O,
    options: &Options,
) -> Result<(), RunFault>
    // The story of the run, in the order in which it happens.
    ensures went { RunsSave options.now (reading I.read_gives graph.old graph.new) (source_reading S.read_gives source.old source.new)
        (source.new ≡ source.old) O.write_gives output.old output.new result }

    // The output takes the text of the graph's hierarchy: all of it, or its first bytes.
    ensures written { Delivers result O.write_gives output.old output.new
        (IsSavedBy options.now (reading I.read_gives graph.old graph.new) (source_reading S.read_gives source.old source.new)) }

    // Each input is still the same one.
    ensures same { (I.origin graph.new ≡ I.origin graph.old) × (source_map S.origin source.new ≡ source_map S.origin source.old) }
{
    let needed = Needed::to_save(options);
    let loaded = loaded_from(crew, graph, source, needed)?;
    let text = save_text_of(crew, loaded, options.hops, needed)?;
    write_text(output, &text)
}

/// Returns the text of a hierarchy that serves.
fn save_text_of<R: Threads + Sync, G: Gate>(
    crew: &Crew<'_, R, G>,
    loaded: Loaded,
    hops: HopBound,
    needed: Needed,
) -> Result<Vec<u8>, AllocError>
    ensures { IfOk result (λ text. IsSaveTextOf (IsServing needed hops.number loaded.graph loaded.saved) text.items) }
{
    let hierarchy = loaded.hierarchy(crew, hops, needed)?;
    save_text(crew.alloc, &hierarchy)
}
