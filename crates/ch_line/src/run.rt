//! The run that a line asks for, over files that are opened by their names.

ghost use Rattle.std.specs.Prelude.{◌≡◌, ◌∷◌, [], Ok, IfErr, IfOk};
ghost use Rattle.std.specs.String.{string_bytes};
ghost use Rattle.ch_text.specs.Device.{CountsAtMostOne};
ghost use Rattle.ch_job.specs.Job.{question_map, source_map};
ghost use Rattle.ch_run.specs.NearRun.{listed_in};
ghost use Rattle.ch_run.specs.Run.{WritesOnce};
ghost use Rattle.ch_line.specs.Inputs.{input_if, inputs_in, question_inputs, source_inputs};
ghost use Rattle.ch_line.specs.Line.{AreClosed, AreFresh, AreOpened, IsOpenedFor, IsRefused, RunsLine, StopsOpening, list_files, named_in, question_files, source_files, zero_of};

use crate::files::{Files, OpenFault};
use crate::job::run_job;
use ch_job::{Job, Question, Source, Sources};
use ch_run::{Crew, Gate, Input, Output, RunFault, Which};
use ch_words::Line;
use std::alloc::Global;
use std::thread::Threads;

/// Makes the run that a line asks for. It opens all files of the line before it reads one, in the order of
/// [`open_job`], and opens no other file. It reads the requests only if it answers them, and otherwise leaves
/// them alone.
///
/// # Errors
/// The fault of the first file that can't be opened, or of the run.
pub fn run_line<R: Threads + Sync, F: Files, J: Input, O: Output, G: Gate>(
    rt: &R,
    alloc: Global,
    files: &mut F,
    requests: &mut J,
    output: &mut O,
    line: &Line,
    gate: &G,
) -> Result<(), RunFault>
    // The run opens the files of the line, and no other. What it reads of these very files and of the requests, what it
    // writes, and how it ends, is as the line asks for. It closes all files that it opened.
    ensures went { RunsLine F.opens F.closes F.Input.read_gives F.Input.origin J.read_gives O.write_gives line.now files.old files.new requests.old requests.new output.old output.new result }

    // A read or a write that failed is not tried again. A failed write is reported.
    ensures requests_once { CountsAtMostOne (J.failed requests.old) (J.failed requests.new) }
    ensures output { WritesOnce result O.failed O.idle output.old output.new }
{
    let mut job = open_job(files, &line.job)?;
    let crew = Crew {
        rt,
        alloc,
        plan: job.plan,
        gate,
    };
    let result = run_job(&crew, &mut job, requests, output);
    close_job(files, job);
    result
}

/// Opens the files of a job. The graph comes first, then the saved hierarchy or the order if there is one, and then
/// the other files in the order of the arguments.
///
/// # Errors
/// `Device` of the first file that can't be opened, or `Memory`.
pub fn open_job<F: Files>(files: &mut F, job: &Job<String>) -> Result<Job<F::Input>, RunFault>
    ensures same { IfOk result (IsOpenedFor job.now) }
    ensures fresh { IfOk result (AreFresh F.Input.failed) }
    ensures opened { IfOk result (λ opened. AreOpened F.opens (named_in job.now) (inputs_in opened) files.old files.new) }
    ensures stopped { IfErr result (StopsOpening F.opens (named_in job.now) files.old files.new) }
{
    let graph = open_input(files, &job.graph, Which::Graph)?;
    let source = open_source(files, &job.source)?;
    let question = open_question(files, &job.question)?;
    let options = job.options;
    let plan = job.plan;
    Ok(Job {
        graph,
        source,
        question,
        options,
        plan,
    })
}

/// Opens a saved hierarchy or an order, if one is named.
fn open_source<F: Files>(
    files: &mut F,
    source: &Source<String>,
) -> Result<Source<F::Input>, RunFault>
    ensures same { IfOk result (λ opened. source_map zero_of opened ≡ source_map zero_of source.now) }
    ensures fresh { IfOk result (λ opened. source_map F.Input.failed opened ≡ source_map zero_of opened) }
    ensures opened { IfOk result (λ opened. AreOpened F.opens (source_files source.now) (source_inputs opened) files.old files.new) }
    ensures stopped { IfErr result (StopsOpening F.opens (source_files source.now) files.old files.new) }
{
    match source {
        Source::Built => Ok(Source::Built),
        Source::Saved(saved) => Ok(Source::Saved(open_input(files, saved, Which::Saved)?)),
        Source::Like { order, fresh, hops } => Ok(Source::Like {
            order: open_input(files, order, Which::Order)?,
            fresh: *fresh,
            hops: *hops,
        }),
        Source::Customized { order, hops } => {
            let order = open_input(files, order, Which::Order)?;
            let hops = *hops;
            Ok(Source::Customized { order, hops })
        }
        Source::Dissected { hops } => Ok(Source::Dissected { hops: *hops }),
    }
}

/// Opens the files of a question, in the order of the arguments.
fn open_question<F: Files>(
    files: &mut F,
    question: &Question<String>,
) -> Result<Question<F::Input>, RunFault>
    ensures same { IfOk result (λ opened. question_map zero_of opened ≡ question_map zero_of question.now) }
    ensures fresh { IfOk result (λ opened. question_map F.Input.failed opened ≡ question_map zero_of opened) }
    ensures opened { IfOk result (λ opened. AreOpened F.opens (question_files question.now) (question_inputs opened) files.old files.new) }
    ensures stopped { IfErr result (StopsOpening F.opens (question_files question.now) files.old files.new) }
{
    match question {
        Question::Queries(queries) => Ok(Question::Queries(open_input(
            files,
            queries,
            Which::Queries,
        )?)),
        Question::Table { sources, targets } => {
            let Lists { sources, targets } = open_lists(files, sources, targets)?;
            Ok(Question::Table { sources, targets })
        }
        Question::Near {
            sources: Sources::Listed(sources),
            targets,
        } => {
            let Lists { sources, targets } = open_lists(files, sources, targets)?;
            let sources = Sources::Listed(sources);
            Ok(Question::Near { sources, targets })
        }
        Question::Near {
            sources: Sources::All,
            targets,
        } => {
            let sources = Sources::All;
            let targets = open_input(files, targets, Which::Targets)?;
            Ok(Question::Near { sources, targets })
        }
        Question::Hierarchy => Ok(Question::Hierarchy),
        Question::Requests => Ok(Question::Requests),
    }
}

/// The opened files of a list of sources and a list of targets.
#[derive(Drop)]
struct Lists<I: Drop> {
    sources: I,
    targets: I,
}

/// Opens a list of sources, and then a list of targets.
fn open_lists<F: Files>(
    files: &mut F,
    sources: &String,
    targets: &String,
) -> Result<Lists<F::Input>, RunFault>
    ensures fresh { IfOk result (λ lists. (F.Input.failed lists.sources ≡ 0) × (F.Input.failed lists.targets ≡ 0)) }
    ensures opened { IfOk result (λ lists. AreOpened F.opens (list_files (string_bytes sources.now) (string_bytes targets.now))
        ((Which.Sources, lists.sources) ∷ (Which.Targets, lists.targets) ∷ []) files.old files.new) }
    ensures stopped { IfErr result (StopsOpening F.opens (list_files (string_bytes sources.now) (string_bytes targets.now)) files.old files.new) }
{
    let sources = open_input(files, sources, Which::Sources)?;
    let targets = open_input(files, targets, Which::Targets)?;
    Ok(Lists { sources, targets })
}

/// Opens the file of an input.
fn open_input<F: Files>(files: &mut F, name: &String, which: Which) -> Result<F::Input, RunFault>
    ensures fresh { IfOk result (λ input. F.Input.failed input ≡ 0) }
    ensures opened { IfOk result (λ input. F.opens files.old (string_bytes name.now) (Ok input) files.new) }
    ensures stopped { IfErr result (IsRefused F.opens (which, string_bytes name.now) files.old files.new) }
{
    match files.open(name.as_str()) {
        Ok(input) => Ok(input),
        Err(OpenFault::Refused) => Err(RunFault::Device(which)),
        Err(OpenFault::Memory) => Err(RunFault::Memory),
    }
}

/// Closes the files of a job, in the order in which they were opened.
fn close_job<F: Files>(files: &mut F, job: Job<F::Input>)
    ensures { AreClosed F.closes (inputs_in job) files.old files.new }
{
    let Job {
        graph,
        source,
        question,
        options: _,
        plan: _,
    } = job;
    files.close(graph);
    close_source(files, source);
    close_question(files, question);
}

/// Closes a saved hierarchy or an order, if there is one.
fn close_source<F: Files>(files: &mut F, source: Source<F::Input>)
    ensures { AreClosed F.closes (source_inputs source) files.old files.new }
{
    match source {
        Source::Saved(saved) => files.close(saved),
        Source::Like { order, .. } | Source::Customized { order, .. } => files.close(order),
        Source::Built | Source::Dissected { .. } => {}
    }
}

/// Closes the files of a question.
fn close_question<F: Files>(files: &mut F, question: Question<F::Input>)
    ensures { AreClosed F.closes (question_inputs question) files.old files.new }
{
    match question {
        Question::Queries(queries) => files.close(queries),
        Question::Table { sources, targets } => {
            files.close(sources);
            files.close(targets);
        }
        Question::Near { sources, targets } => {
            close_sources(files, sources);
            files.close(targets);
        }
        Question::Hierarchy | Question::Requests => {}
    }
}

/// Closes a list of sources, if there is one.
fn close_sources<F: Files>(files: &mut F, sources: Sources<F::Input>)
    ensures { AreClosed F.closes (input_if Which.Sources (listed_in sources)) files.old files.new }
{
    match sources {
        Sources::Listed(sources) => files.close(sources),
        Sources::All => {}
    }
}
