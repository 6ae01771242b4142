//! Runs that answer queries.
ghost use Rattle.std.specs.Prelude.{◌≡◌, ◌^◌, ◌<◌, ◌≤◌, length, flat_map, IfOk};
ghost use Rattle.ch_graph.specs.declared.limits.TheConstants.{MOST_QUERIES};
ghost use Rattle.ch_query.specs.Replies.{AreQueries};
ghost use Rattle.ch_job.specs.Job.{source_map};
ghost use Rattle.ch_run.specs.DistRun.{IsAnsweredBy};
ghost use Rattle.ch_run.specs.Run.{Delivers, reading};
ghost use Rattle.ch_run.specs.Source.{IsServing, source_reading};
ghost use Rattle.ch_run.specs.Stories.{RunsDist};
ghost use Rattle.ch_run.specs.Text.{IsTextBy, writes_routes};

use super::inputs::queries_from;
use super::lines::one_part;
use super::loading::{Loaded, loaded_from};
use super::output::write_parts;
use super::texts::{answers_by, plain_text};
use crate::fault::RunFault;
use crate::needed::Needed;
use crate::plan::{Crew, Gate};
use crate::routes::writes_routes;
use ch_job::{Options, Source};
use ch_text::{Input, Output};
use std::alloc::AllocError;
use std::thread::Threads;

/// Reads a graph and then queries, and writes the answer to each query in order.
///
/// It reads the graph to its end and judges it before it reads the queries. It makes the whole text
/// before the first write. It reads a saved hierarchy between the graph and the queries, and checks it
/// for the graph. Routes then come from that hierarchy, and the options `hops` and `order` are not used.
/// With `plain` the answers come from the arcs alone, without routes, but a saved hierarchy is still
/// checked. The answers are the same for every plan and gate.
///
/// # Errors
/// - `Read`: the first fault of the graph, of the saved hierarchy's lines, or of the queries.
/// - `Check`: the first fault of the saved hierarchy on the graph.
/// - `Device`: a read of an input failed.
/// - `Memory`: there was not enough memory.
/// - `Write(count)`: the output took `count` bytes of the text and no more.
///
/// After all faults but `Write` nothing was written.
pub fn run_dist<R: Threads + Sync, I: Input, S: Input + Drop, J: Input, O: Output, G: Gate>(
    crew: &Crew<'_, R, G>,
    graph: &mut I,
    source: &mut Source<S>,
    queries: &mut J,
    output: &mut O,
    options: &Options,
) -> Result<(), RunFault>
    // The story of the run, in the order in which it happens.
    ensures went { RunsDist options.now (reading I.read_gives graph.old graph.new) (source_reading S.read_gives source.old source.new) (reading J.read_gives queries.old queries.new)
        (source.new ≡ source.old) (queries.new ≡ queries.old) O.write_gives output.old output.new result }

    // The output takes the text that answers the queries: all of it, or its first bytes.
    ensures written { Delivers result O.write_gives output.old output.new
        (IsAnsweredBy options.now (reading I.read_gives graph.old graph.new) (source_reading S.read_gives source.old source.new) (reading J.read_gives queries.old queries.new)) }

    // Each input is still the same one.
    ensures same { (I.origin graph.new ≡ I.origin graph.old) × (source_map S.origin source.new ≡ source_map S.origin source.old) × (J.origin queries.new ≡ J.origin queries.old) }
{
    let needed = Needed::by_queries(options);
    let loaded = loaded_from(crew, graph, source, needed)?;
    let queries = queries_from(crew.alloc, queries, loaded.graph())?;
    let parts = text_of(crew, loaded, needed, &queries, options)?;
    write_parts(output, &parts)
}

/// Returns the text that answers the queries, in the way that the options choose, in parts. Routes are those of a hierarchy
/// that serves.
fn text_of<R: Threads + Sync, G: Gate>(
    crew: &Crew<'_, R, G>,
    loaded: Loaded,
    needed: Needed,
    queries: &[(u32, u32)],
    options: &Options,
) -> Result<Vec<Vec<u8>>, AllocError>
    requires queries { AreQueries loaded.graph.nodes queries.now }
    requires count { length queries.now ≤ MOST_QUERIES }
    ensures text { IfOk result (λ parts. IsTextBy (writes_routes options.now) loaded.graph (IsServing needed options.now.hops.number loaded.graph loaded.saved) queries.now (flat_map (λ part. part.items) parts.items)) }
    ensures length { IfOk result (λ parts. length (flat_map (λ part. part.items) parts.items) < 2 ^ 64) }
{
    if options.plain {
        let text = plain_text(crew.alloc, loaded.graph(), queries, crew.gate)?;
        return one_part(crew.alloc, text);
    }
    let hierarchy = loaded.hierarchy(crew, options.hops, needed)?;
    answers_by(crew, &hierarchy, queries, writes_routes(options))
}
