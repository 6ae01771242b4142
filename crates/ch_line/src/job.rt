//! The run of a job over its opened files.

ghost use Rattle.std.specs.Prelude.{◌≡◌};
ghost use Rattle.ch_job.specs.Job.{job_map};
ghost use Rattle.ch_line.specs.Inputs.{RunsOver};

use ch_job::{Job, Question};
use ch_run::{
    Crew, Gate, Input, Output, RunFault, run_ask, run_dist, run_near, run_save, run_table,
};
use std::thread::Threads;

/// Runs a job over its opened files. It reads the requests only if it answers them, and otherwise leaves them alone.
///
/// # Errors
/// The fault of the run.
pub fn run_job<R: Threads + Sync, I: Input + Drop, J: Input, O: Output, G: Gate>(
    crew: &Crew<'_, R, G>,
    job: &mut Job<I>,
    requests: &mut J,
    output: &mut O,
) -> Result<(), RunFault>
    requires plan { crew.now.plan ≡ job.old.plan }

    // The story of the run, with the options of the job.
    ensures went { RunsOver I.read_gives job.old job.new J.read_gives requests.old requests.new O.write_gives output.old output.new result }

    // The job is still the same, and each input is still the same one.
    ensures same { job_map I.origin job.new ≡ job_map I.origin job.old }
{
    let options = job.options;
    let graph = &mut job.graph;
    let source = &mut job.source;
    match &mut job.question {
        Question::Queries(queries) => run_dist(crew, graph, source, queries, output, &options),
        Question::Table {
            sources: from,
            targets: to,
        } => run_table(crew, graph, source, from, to, output, &options),
        Question::Near {
            sources: from,
            targets: to,
        } => run_near(crew, graph, source, from, to, output, &options),
        Question::Hierarchy => run_save(crew, graph, source, output, &options),
        Question::Requests => run_ask(crew, graph, source, requests, output, &options),
    }
}
