//! The files of a run, the task of a run, and runs over devices in memory.

use ch_run::{
    Crew, MemoryInput, MemoryOutput, Open, Options, Plan, RunFault, Source, Sources, run_ask,
    run_dist, run_near, run_save, run_table,
};
use std::alloc::{AllocError, Global};
use std::thread::Threads;

/// The task of a run, with the bytes of its lists, queries or requests.
#[derive(Clone, Copy)]
pub enum Asked<'a> {
    Hierarchy,
    Answers(&'a [u8]),
    Table(&'a [u8], &'a [u8]),
    Near(&'a [u8], &'a [u8]),
    NearAll(&'a [u8]),
    Requests(&'a [u8]),
}

/// The files of a run, with a saved hierarchy or without.
#[derive(Clone, Copy)]
pub struct Files<'a> {
    pub graph: &'a [u8],
    pub saved: Option<&'a [u8]>,
    pub asked: Asked<'a>,
}

/// The answer of a run, and its output.
pub type Ended = (Result<(), RunFault>, MemoryOutput);

/// The greatest number of bytes that a device of a run moves in one call.
const MOST: usize = 4096;

/// Makes the run of this task over devices in memory.
pub(crate) fn run<R: Threads + Sync>(
    rt: &R,
    alloc: Global,
    files: &Files,
    options: &Options,
    plan: &Plan,
) -> Result<Ended, AllocError> {
    let mut output = MemoryOutput::new(alloc, MOST, MOST)?;
    let crew = Crew {
        rt,
        alloc,
        plan: *plan,
        gate: &Open,
    };
    let graph = &mut MemoryInput::new(files.graph, MOST);
    let source = &mut match files.saved {
        Some(saved) => Source::Saved(MemoryInput::new(saved, MOST)),
        None => Source::Built,
    };
    macro_rules! ended {
        ($run:ident, $($input:expr),+) => {
            $run(&crew, graph, source, $(&mut $input,)+ &mut output, options)
        };
    }
    let result = match files.asked {
        Asked::Hierarchy => run_save(&crew, graph, source, &mut output, options),
        Asked::Answers(queries) => ended!(run_dist, MemoryInput::new(queries, MOST)),
        Asked::Table(sources, targets) => ended!(
            run_table,
            MemoryInput::new(sources, MOST),
            MemoryInput::new(targets, MOST)
        ),
        Asked::Near(sources, targets) => {
            ended!(
                run_near,
                Sources::Listed(MemoryInput::new(sources, MOST)),
                MemoryInput::new(targets, MOST)
            )
        }
        Asked::NearAll(targets) => {
            ended!(
                run_near,
                Sources::<MemoryInput>::All,
                MemoryInput::new(targets, MOST)
            )
        }
        Asked::Requests(requests) => ended!(run_ask, MemoryInput::new(requests, MOST)),
    };
    Ok((result, output))
}
