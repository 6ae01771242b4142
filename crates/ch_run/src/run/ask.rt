//! Runs that answer requests as they come.
ghost use Rattle.std.specs.Prelude.{◌≡◌, ◌⊎◌, IsErrAnd};
ghost use Rattle.ch_job.specs.Job.{source_map};
ghost use Rattle.ch_run.specs.Stories.{RunsAsk};
ghost use Rattle.ch_run.specs.Ask.{ServesBy};
ghost use Rattle.ch_run.specs.Run.{reading};
ghost use Rattle.ch_run.specs.Source.{IsOfLoading, source_reading};

use super::loading::loaded_from;
use super::serving::serve;
use crate::fault::RunFault;
use crate::needed::Needed;
use crate::plan::{Crew, Gate};
use ch_job::{Options, Source};
use ch_text::{Input, Output};
use std::thread::Threads;

/// Reads a graph, and reads a saved hierarchy or builds one. Then it answers requests as they come, in
/// order: queries, tables with their lists, places, and near rows.
///
/// Before each read it answers all requests that are whole in the bytes that were read. It writes these
/// answers and then frees their memory. New weights hold for all requests after them: if the hierarchy is
/// customized, it is customized again, over the topology that it keeps. The run answers a query as
/// [`run_dist`](super::run_dist) does, and makes a table as [`run_table`](super::run_table) does. The answers
/// are the same for every plan and gate. With a saved hierarchy it does not use the options `hops` and `order`.
///
/// # Errors
/// - `Read(Graph, _)`, `Read(Saved, _)`: the first fault of the graph, or of the saved hierarchy's lines.
/// - `Check`: the first fault of the saved hierarchy on the graph.
/// - `Device(Graph)`, `Device(Saved)`: a read of these failed.
/// - `Read(Requests, _)`: a line of the requests has this fault. All requests before it were answered.
/// - `CellsAt`: a table has more than 2^22 cells. All requests before it were answered.
/// - `NoArcAt`: a new weight is for no arc. All requests before the new weights were answered.
/// - `FixedAt`: new weights came, but the hierarchy is not customized. All requests before them were answered.
/// - `Device(Requests)`: a read of the requests failed. All requests that were whole in the bytes read before
///   were answered.
/// - `Memory`: there was not enough memory. The first requests may have been answered, each whole.
/// - `Write(count)`: the output took `count` bytes of the text and no more.
///
/// After the faults of the first three lines no request was read, and nothing was written.
pub fn run_ask<R: Threads + Sync, I: Input, S: Input + Drop, J: Input, O: Output, G: Gate>(
    crew: &Crew<'_, R, G>,
    graph: &mut I,
    source: &mut Source<S>,
    requests: &mut J,
    output: &mut O,
    options: &Options,
) -> Result<(), RunFault>
    // The story of the run, in the order in which it happens.
    ensures went { RunsAsk options.now (reading I.read_gives graph.old graph.new) (source_reading S.read_gives source.old source.new) (reading J.read_gives requests.old requests.new)
        (source.new ≡ source.old) (requests.new ≡ requests.old) O.write_gives output.old output.new result }

    // The requests are answered in order, or neither they nor the output are touched.
    ensures served { (IsErrAnd result (IsOfLoading (source_reading S.read_gives source.old source.new)) × (requests.new ≡ requests.old) × (output.new ≡ output.old))
        ⊎ ServesBy options.now (reading I.read_gives graph.old graph.new) (source_reading S.read_gives source.old source.new) (reading J.read_gives requests.old requests.new)
        O.write_gives output.old output.new result }

    // The graph and the saved hierarchy are still the same inputs.
    ensures same { (I.origin graph.new ≡ I.origin graph.old) × (source_map S.origin source.new ≡ source_map S.origin source.old) }
{
    let needed = Needed::by_requests(options);
    let loaded = loaded_from(crew, graph, source, needed)?;
    let checked = loaded.checked(crew, options.hops, needed)?;
    serve(crew, checked, options, requests, output)
}
