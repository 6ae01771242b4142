//! Runs whose devices move few bytes in a call, or fail in mid-stream: what the output then has, and the fault.
ghost use Rattle.std.specs.Prelude.{◌<◌};

use crate::runs::{BY_HIERARCHY, LINE, PLAIN};
use ch_read::{FaultKind, ReadFault};
use ch_run::{
    Crew, MemoryInput, MemoryOutput, Open, Options, Plan, RunFault, Source, Which, run_dist,
};
use std::alloc::{AllocError, Global};
use std::process::Abort;
use std::test::Fail;
use std::thread::Threads;

/// Queries between the ends of the line, both ways.
const BOTH_WAYS: &[u8] = b"p aux sp p2p 2\nq 1 3\nq 3 1\n";

const ANSWERS: &[u8] = b"d 1 3 9\nd 3 1 -\n";

/// The call of a device that goes wrong, by the number of calls before it.
#[derive(Clone, Copy)]
enum Goes {
    Well,
    /// A read of the graph fails.
    Graph(u64),
    /// A read of the queries fails.
    Queries(u64),
    /// A write fails.
    Write(u64),
    /// A write takes no byte.
    Idle(u64),
}

/// Makes a run over devices that move at most `most` bytes in a call.
fn run<R: Threads + Sync>(
    rt: &R,
    alloc: Global,
    options: &Options,
    files: (&[u8], &[u8]),
    most: usize,
    goes: Goes,
) -> Result<(Result<(), RunFault>, MemoryOutput), AllocError>
    requires { 0 < most }
{
    let crew = Crew {
        rt,
        alloc,
        plan: Plan::new(1, 64, 64),
        gate: &Open,
    };
    let mut graph = MemoryInput::new(files.0, most);
    let mut queries = MemoryInput::new(files.1, most);
    let mut output = MemoryOutput::new(alloc, 64, most)?;
    match goes {
        Goes::Well => (),
        Goes::Graph(before) => graph = graph.failing_after(before),
        Goes::Queries(before) => queries = queries.failing_after(before),
        Goes::Write(before) => output = output.failing_after(before),
        Goes::Idle(before) => output = output.idle_after(before),
    }
    let source = &mut Source::<MemoryInput>::Built;
    let result = run_dist(
        &crew,
        &mut graph,
        source,
        &mut queries,
        &mut output,
        options,
    );
    Ok((result, output))
}

/// How a run goes over devices that move so many bytes in a call, its answer, and the bytes that its output took.
type Case = (usize, Goes, Result<(), RunFault>, &'static [u8]);

const CASES: [Case; 8] = [
    (1, Goes::Well, Ok(()), ANSWERS),
    (5, Goes::Write(1), Err(RunFault::Write(5)), b"d 1 3"),
    (5, Goes::Write(0), Err(RunFault::Write(0)), b""),
    (3, Goes::Write(2), Err(RunFault::Write(6)), b"d 1 3 "),
    (3, Goes::Idle(1), Err(RunFault::Write(3)), b"d 1"),
    (7, Goes::Graph(0), Err(RunFault::Device(Which::Graph)), b""),
    (7, Goes::Graph(2), Err(RunFault::Device(Which::Graph)), b""),
    (
        7,
        Goes::Queries(0),
        Err(RunFault::Device(Which::Queries)),
        b"",
    ),
];

#[test]
fn a_device_that_fails_is_told_with_what_was_written(rt: HostRuntime) -> Result<(), Fail> {
    for options in [BY_HIERARCHY, PLAIN] {
        for (most, goes, answer, bytes) in CASES {
            let files = (LINE, BOTH_WAYS);
            let most = most.max(1);
            let (result, output) = run(&rt, rt.alloc(), &options, files, most, goes)?;
            assert_eq!(rt; result, answer);
            assert_eq!(rt; output.bytes(), bytes);
        }
    }
    Ok(())
}

/// A fault of the graph comes before any read of the queries. Where there is nothing to write, no write can fail.
#[test]
fn a_device_that_is_not_used_does_not_fail(rt: HostRuntime) -> Result<(), Fail> {
    let (alloc, far) = (rt.alloc(), b"p sp 2 1\na 1 3 5\n".as_slice());
    let refused = RunFault::Read(
        Which::Graph,
        ReadFault {
            line: 2,
            kind: FaultKind::NodeRange,
        },
    );
    for options in [BY_HIERARCHY, PLAIN] {
        let (result, output) = run(&rt, alloc, &options, (far, BOTH_WAYS), 7, Goes::Queries(0))?;
        assert_eq!(rt; result, Err(refused));
        assert!(rt; output.bytes().is_empty());
        let none = (b"p sp 0 0\n".as_slice(), b"p aux sp p2p 0\n".as_slice());
        let (result, output) = run(&rt, alloc, &options, none, 7, Goes::Write(0))?;
        assert_eq!(rt; result, Ok(()));
        assert!(rt; output.bytes().is_empty());
    }
    Ok(())
}
