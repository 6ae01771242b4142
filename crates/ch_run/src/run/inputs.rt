//! Reads inputs to their end, and judges them.
ghost use Rattle.std.specs.Prelude.{true, ◌≡◌, ◌<◌, ◌≤◌, All, IfOk, IfErr, MatchResult, vec_len};
ghost use Rattle.ch_graph.specs.Graph.{IsWithinLimits};
ghost use Rattle.ch_graph.specs.declared.limits.TheConstants.{MOST_LISTED, MOST_QUERIES};
ghost use Rattle.ch_text.specs.Device.{CanCountOneMore};
ghost use Rattle.ch_text.specs.Moves.{GaveAll};
ghost use Rattle.ch_job.specs.Job.{sources_map};
ghost use Rattle.ch_run.specs.NearRun.{AreFewSources, AreSources, nodes_of_sources, sources_reading};
ghost use Rattle.ch_run.specs.Run.{IsUnread, ReadsGraph, ReadsNodes, ReadsQueries, reading};
ghost use Rattle.ch_read.specs.declared.form.Form.TheVariants as FormOf;
ghost use Rattle.ch_run.specs.Story.{EndsAt, EndsAtIf, IsRefused};
ghost use Rattle.ch_query.specs.Replies.{AreQueries};

use crate::fault::{RunFault, Which};
use crate::plan::{Crew, Gate};
use ch_graph::Graph;
use ch_job::Sources;
use ch_read::{read_graph_by, read_nodes, read_queries};
use ch_text::{Input, ReadAllFault, read_all};
use std::alloc::Global;
use std::thread::Threads;

/// Reads an input to its end, as a graph. All workers read its bytes.
#[tactic(auto, using(crate::proofs::Judged::unread_judged))]
pub(crate) fn graph_from<R: Threads + Sync, I: Input, G: Gate>(
    crew: &Crew<'_, R, G>,
    input: &mut I,
) -> Result<Graph, RunFault>
    ensures read { MatchResult result (ReadsGraph (reading I.read_gives input.old input.new)) (EndsAt Which.Graph (reading I.read_gives input.old input.new) (IsRefused FormOf.Graph)) }
    ensures limits { IfOk result IsWithinLimits }
    ensures same { I.origin input.new ≡ I.origin input.old }
{
    let bytes = bytes_from(crew.alloc, input, Which::Graph)?;
    Which::Graph.judged(read_graph_by(crew, &bytes))
}

/// Reads an input to its end, as queries on this graph.
#[tactic(auto, using(crate::proofs::Judged::unread_judged))]
pub(crate) fn queries_from<I: Input>(
    alloc: Global,
    input: &mut I,
    graph: &Graph,
) -> Result<Vec<(u32, u32)>, RunFault>
    ensures read { MatchResult result (λ queries. ReadsQueries (reading I.read_gives input.old input.new) graph.now.nodes queries.items)
        (EndsAt Which.Queries (reading I.read_gives input.old input.new) (IsRefused (FormOf.Queries graph.now.nodes))) }
    ensures within { IfOk result (λ queries. AreQueries graph.now.nodes queries.items) }
    ensures size { IfOk result (λ queries. vec_len queries ≤ MOST_QUERIES) }
    ensures same { I.origin input.new ≡ I.origin input.old }
{
    let bytes = bytes_from(alloc, input, Which::Queries)?;
    Which::Queries.judged(read_queries(alloc, &bytes, graph.nodes()))
}

/// Reads an input to its end, as a list of nodes of this graph.
#[tactic(auto, using(crate::proofs::Judged::unread_judged))]
pub(crate) fn nodes_from<I: Input>(
    alloc: Global,
    input: &mut I,
    graph: &Graph,
    which: Which,
) -> Result<Vec<u32>, RunFault>
    ensures read { MatchResult result (λ list. ReadsNodes (reading I.read_gives input.old input.new) graph.now.nodes list.items)
        (EndsAt which (reading I.read_gives input.old input.new) (IsRefused (FormOf.Nodes graph.now.nodes))) }
    ensures within { IfOk result (λ list. All (λ node. node < graph.now.nodes) list.items) }
    ensures size { IfOk result (λ list. vec_len list ≤ MOST_LISTED) }
    ensures same { I.origin input.new ≡ I.origin input.old }
{
    let bytes = bytes_from(alloc, input, which)?;
    which.judged(read_nodes(alloc, &bytes, graph.nodes()))
}

/// Reads the sources to their end, as a list of nodes of this graph. All nodes as sources stay all nodes, and
/// nothing is read.
#[tactic(auto, using(crate::proofs::Owed::own_as, ch_contract::proofs::code::NodeLists::numbers_below))]
pub(crate) fn sources_from<J: Input + Drop>(
    alloc: Global,
    sources: &mut Sources<J>,
    graph: &Graph,
) -> Result<Sources<Vec<u32>>, RunFault>
    ensures value { IfOk result (λ from. AreSources (sources_reading J.read_gives sources.old sources.new) graph.now.nodes (nodes_of_sources graph.now.nodes from)) }
    ensures within { IfOk result (λ from. All (λ node. node < graph.now.nodes) (nodes_of_sources graph.now.nodes from)) }
    ensures few { IfOk result AreFewSources }
    ensures ends { IfErr result (EndsAtIf Which.Sources (sources_reading J.read_gives sources.old sources.new) (IsRefused (FormOf.Nodes graph.now.nodes))) }
    ensures same { sources_map J.origin sources.new ≡ sources_map J.origin sources.old }
{
    match sources {
        Sources::All => Ok(Sources::All),
        Sources::Listed(list) => {
            let list = nodes_from(alloc, list, graph, Which::Sources)?;
            Ok(Sources::Listed(list))
        }
    }
}

/// Returns whether the count of failures of an input has room for one more. An input that has no room is not read.
pub(crate) fn counts_one_more<I: Input>(input: &I) -> bool
    ensures { result ≡ true → CanCountOneMore (I.failed input.now) }
{
    input.failures() < u64::MAX
}

/// Reads an input to its end, and returns its bytes.
pub(crate) fn bytes_from<I: Input>(
    alloc: Global,
    input: &mut I,
    which: Which,
) -> Result<Vec<u8>, RunFault>
    ensures bytes { IfOk result (λ bytes. GaveAll I.read_gives input.old bytes.items input.new) }
    ensures unread { IfErr result (IsUnread which (reading I.read_gives input.old input.new)) }
    ensures same { I.origin input.new ≡ I.origin input.old }
{
    if !counts_one_more(input) {
        return Err(RunFault::Memory);
    }
    match read_all(alloc, input) {
        Ok(bytes) => Ok(bytes),
        Err(ReadAllFault::Device) => Err(RunFault::Device(which)),
        Err(ReadAllFault::Memory) => Err(RunFault::Memory),
    }
}
